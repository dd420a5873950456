//! Records in the place of all that a journal has: what is due is mended, and those that take no
//! more room are moved in.
ghost use Rattle.std.specs.Prelude.{◌≡◌, ℕ, ◌+◌, ◌*◌, ◌≤◌, ◌^◌, List};
ghost use Rattle.journal.specs.KeptRecords.{HasSettled, KeepsAny};
ghost use Rattle.journal.specs.MovedAreas.{IsArea};
ghost use Rattle.journal.specs.Replacements.{Puts, Replaces};

pub(crate) mod areas;
pub(crate) mod moves;

use crate::dues::Due;
use crate::layout::HEADER_LENGTH;
use crate::mends::mend_first;
use crate::replacing::moves::move_in;
use disk_model::{Disk, Failed};

/// What replacing a journal's records came to.
#[derive(Clone, Copy, Debug, PartialEq, Eq)]
pub enum ReplaceEnd {
    Done,
    /// The new records take more room than the old ones, and were not written.
    Larger,
    /// A call on the disk failed: it has the old records or the new ones.
    Failed,
}

/// Mends where something is due, and then puts the records of an area in the place of the others.
pub(crate) fn replace_records<D: Disk>(
    disk: &mut D,
    place: u64,
    due: &mut Due,
    area: &[u8],
) -> ReplaceEnd
    requires kept { KeepsAny (D.seen disk.old).images place due.old }
    requires area { (all : List (List ℕ)) × IsArea area.now all }
    requires room { 2 * (place + 1) ≤ 2 ^ 40 }
    ensures { (all : List (List ℕ)) → IsArea area.now all
        → Replaces D.seen disk.old disk.new place due.old all result }
{
    match mend_first(disk, place, due) {
        Ok(()) => put_records(disk, place, area),
        Err(Failed) => ReplaceEnd::Failed,
    }
}

/// Nothing is due.
fn put_records<D: Disk>(disk: &mut D, place: u64, area: &[u8]) -> ReplaceEnd
    requires settled { HasSettled (D.seen disk.old).images place }
    requires area { (all : List (List ℕ)) × IsArea area.now all }
    requires room { 2 * (place + 1) ≤ 2 ^ 40 }
    ensures { (all : List (List ℕ)) → IsArea area.now all
        → Puts D.seen disk.old disk.new place all result }
{
    if (HEADER_LENGTH + area.len()) as u64 > place + 1 {
        return ReplaceEnd::Larger;
    }
    match move_in(disk, place, area) {
        Ok(()) => ReplaceEnd::Done,
        Err(Failed) => ReplaceEnd::Failed,
    }
}
