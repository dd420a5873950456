//! The journaling of an entry: what is due is mended, and then its record is added.
ghost use Rattle.std.specs.Prelude.{◌≡◌, ◌+◌, ◌≤◌, ◌^◌, None, IfOk, IsTrue, OnErr, OnOk, length};
ghost use Rattle.decimal_rank.specs.Causes.{HasCause};
ghost use Rattle.disk_model.specs.Disks.{EachMoment};
ghost use Rattle.rulebook.specs.Campaign.{History};
ghost use Rattle.rulebook.specs.Spelling.{entry_bytes, has_spelling};
ghost use Rattle.book.specs.Images.{HoldsWith};
ghost use Rattle.book.specs.JournaledEntries.{KeepsBook, KeepsEntry};

pub(crate) mod commits;
pub(crate) mod pending;

use crate::journaling::pending::Pending;
use campaign_core::Prepared;
use decimal_rank::Memory;
use journal::{Disk, Failed, Frame, Journal};
use record_codec::write_entry;
use rulebook::EntryCore;
use std::alloc::Global;

/// The record of an entry.
pub(crate) fn frame_of(alloc: Global, core: &EntryCore) -> Result<Frame, Memory>
    requires spelled { IsTrue (has_spelling core.now) }
    requires short { length (entry_bytes core.now) ≤ 2 ^ 25 }
    ensures { IfOk result (λ frame. frame ≡ entry_bytes core.now) }
{
    let mut bytes = Vec::new(alloc);
    write_entry(core, &mut bytes)?;
    Frame::of(alloc, &bytes)
}

/// Mends where something is due. Then nothing is pending.
fn mend_first<D: Disk>(journal: &mut Journal<D>, pending: &mut Pending) -> Result<(), Failed>
    ensures keeps { (H : History) → KeepsBook D.seen journal.old H pending.old
        → KeepsBook D.seen journal.new H pending.new }
    ensures none { OnOk result (pending.new ≡ None) }
    ensures same { OnErr result (pending.new ≡ pending.old) }
    ensures place { journal.new.place ≡ journal.old.place }
    ensures any_moment { (H : History) → KeepsBook D.seen journal.old H pending.old
        → EachMoment D.seen journal.old.disk journal.new.disk (HoldsWith H pending.old) }
    ensures cause { HasCause (D.seen journal.old.disk).faults
        (D.seen journal.new.disk).faults result }
{
    journal.stands();
    if !journal.is_due() {
        pending.settle();
        return Ok(());
    }
    match journal.mend() {
        Ok(()) => {
            pending.settle();
            Ok(())
        }
        Err(Failed) => Err(Failed),
    }
}

/// Journals an entry: what is due is mended, and its record is added. It takes no memory.
pub(crate) fn keep<D: Disk>(
    journal: &mut Journal<D>,
    pending: &mut Pending,
    prepared: &Prepared,
    frame: &Frame,
) -> Result<(), Failed>
    requires frame { frame.now ≡ entry_bytes prepared.now.core }
    requires room { journal.old.place + 6 + length (entry_bytes prepared.now.core) ≤ 2 ^ 40 }
    ensures { KeepsEntry D.seen journal.old journal.new pending.old pending.new
        prepared.now result }
{
    mend_first(journal, pending)?;
    match journal.append(frame) {
        Ok(()) => Ok(()),
        Err(Failed) => {
            pending.leave(prepared);
            Err(Failed)
        }
    }
}
