//! What an entry says, field by field.
use rulebook::{Command, EntryCore, Role};

/// The fields of an entry: its caller's name and role, its number, its moment and its command.
pub(crate) type Fields<'a> = (&'a [u8], Role, Option<u64>, u64, &'a Command);

/// Whether an entry has these fields.
pub(crate) fn has_fields(core: &EntryCore, fields: &Fields<'_>) -> bool {
    core.caller.name.bytes() == fields.0
        && core.caller.role == fields.1
        && core.number == fields.2
        && core.moment == fields.3
        && core.command.is_same(fields.4)
}
