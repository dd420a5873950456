//! Entries from bytes.
ghost use Rattle.std.specs.Prelude.{◌≡◌, IfErr, IfOk};
ghost use Rattle.rulebook.specs.declared.entry.EntryCore.{EntryCore};
ghost use Rattle.rulebook.specs.Spelling.{IsSpelling};
ghost use Rattle.record_codec.specs.Outcomes.{FindsWhole, GivesRead, OnNoEntry};
ghost use Rattle.record_codec.specs.Readings.{entry_of, entry_read};

mod commands;
pub(crate) mod fields;
pub(crate) mod lists;
mod text_orders;

use crate::cursor::Cursor;
use crate::entries::commands::command;
use crate::entries::fields::{caller, moment, request};
use crate::faults::CodecFault;
use rulebook::EntryCore;
use std::alloc::Global;

/// An entry, behind which bytes may stand.
#[tactic(auto, unfolding(crate::specs::Readings::entry_read))]
fn entry(alloc: Global, left: &mut Cursor) -> Result<EntryCore, CodecFault>
    ensures { GivesRead result left.new.bytes.now (entry_read left.old.bytes.now) }
{
    let caller = caller(alloc, left)?;
    let number = request(left)?;
    let moment = moment(left)?;
    let command = command(alloc, left)?;
    Ok(EntryCore {
        caller,
        number,
        moment,
        command,
    })
}

/// The entry that is all of the bytes.
#[tactic(auto, unfolding(crate::specs::Readings::entry_of))]
pub(crate) fn whole_entry(alloc: Global, bytes: &[u8]) -> Result<EntryCore, CodecFault>
    ensures { FindsWhole result (entry_of bytes.now) }
{
    let mut left = Cursor::new(bytes);
    let core = entry(alloc, &mut left)?;
    if !left.is_at_end() {
        return Err(CodecFault::NoEntry);
    }
    Ok(core)
}

/// The entry whose spelling the bytes are. `NoEntry` where they are the spelling of no entry.
pub fn read_entry(alloc: Global, bytes: &[u8]) -> Result<EntryCore, CodecFault>
    ensures entry { IfOk result (λ core. IsSpelling bytes.now core) }
    ensures none { IfErr result (λ fault. OnNoEntry fault ((core : EntryCore)
        → IsSpelling bytes.now core → ⊥)) }
{
    whole_entry(alloc, bytes)
}
