//! Compaction: the records of a journal are replaced by bundles of entries, in place. At each
//! moment each image has the same entries as its story.
ghost use Rattle.std.specs.Prelude.{◌≡◌, ◌+◌, ◌<◌, ◌≤◌, ◌^◌, [], IfOk, IsTrue, min};
ghost use Rattle.journal.specs.declared.dues.Due.TheVariants.{Nothing};
ghost use Rattle.journal.specs.KeptRecords.{Settled, payloads as payloads_of};
ghost use Rattle.rulebook.specs.Campaign.{History};
ghost use Rattle.rulebook.specs.Histories.Legal.{IsLegal};
ghost use Rattle.rulebook.specs.Spelling.{are_rules};
ghost use Rattle.book.specs.Compaction.CompactedJournals.{CompactsOpen, PacksInto};
ghost use Rattle.book.specs.Compaction.Compactings.{CompactsTo, compacted_payloads};
ghost use Rattle.book.specs.Laws.{Laws};
ghost use Rattle.book.specs.Stories.{IsStory};

use crate::faults::BookFault;
use crate::laws::rule_laws;
use crate::opening::fault_of;
use crate::packing::pack;
use crate::replays::founding::founding_frame;
use crate::replays::replayed;
use decimal_rank::Memory;
use journal::{Area, Disk, Failed, Frame, Journal, ReplaceEnd};
use rulebook::Rules;
use std::alloc::Global;

/// the bytes in front of a journal's records
const HEADER_BYTES: u64 = 16;

/// What a compaction comes to.
#[derive(Clone, Copy, Debug, PartialEq, Eq)]
pub enum CompactEnd {
    /// The journal's entries, its bytes once it was opened, and its bytes at the end.
    Done {
        entries: u32,
        before: u64,
        after: u64,
    },
    /// Why it wasn't opened, or wasn't compacted: then memory was short, or a call on the disk
    /// failed.
    Fault(BookFault),
}

/// Opens a disk as the journal of a campaign with these rules, as `Book::open` does, and replaces
/// its records by bundles of entries. One that is no longer than its bundles is left as it is. All
/// memory is taken before the first record is moved.
pub fn compact<D: Disk>(alloc: Global, disk: D, rules: Rules) -> (D, CompactEnd)
    requires rules { IsTrue (are_rules rules) }
    ensures { CompactsTo D.seen rules disk result.0 result.1 }
{
    rule_laws();
    match Journal::open(alloc, disk) {
        Ok((journal, records)) => compact_open(alloc, journal, &records, rules),
        Err((disk, fault)) => (disk, CompactEnd::Fault(fault_of(fault))),
    }
}

/// Compacts an open journal, whose records these are.
fn compact_open<D: Disk>(
    alloc: Global,
    journal: Journal<D>,
    records: &[Vec<u8>],
    rules: Rules,
) -> (D, CompactEnd)
    requires laws { Laws }
    requires rules { IsTrue (are_rules rules) }
    requires small { journal.place < 2 ^ 39 }
    requires settled { Settled (D.seen journal.disk).images journal.place
        (payloads_of records.now) }
    requires nothing_due { journal.due ≡ Nothing }
    ensures { CompactsOpen D.seen rules (payloads_of records.now) journal.disk result.0 result.1 }
{
    journal.stands();
    match records {
        [] => compact_empty(alloc, journal, rules),
        [first, others @ ..] => match replayed(alloc, first, others, rules) {
            Ok(replay) => {
                let entries = replay.entries();
                drop(replay);
                compact_records(alloc, journal, records, entries)
            }
            Err(fault) => (journal.close(), CompactEnd::Fault(fault)),
        },
    }
}

/// Adds the founding entry to a journal without records, of which nothing is to be packed.
fn compact_empty<D: Disk>(alloc: Global, journal: Journal<D>, rules: Rules) -> (D, CompactEnd)
    requires laws { Laws }
    requires rules { IsTrue (are_rules rules) }
    requires settled { Settled (D.seen journal.disk).images journal.place [] }
    requires nothing_due { journal.due ≡ Nothing }
    ensures { CompactsOpen D.seen rules [] journal.disk result.0 result.1 }
{
    let mut journal = journal;
    journal.stands();
    let Ok(frame) = founding_frame(alloc, rules) else {
        return (journal.close(), CompactEnd::Fault(BookFault::Memory));
    };
    match journal.append(&frame) {
        Ok(()) => {
            journal.stands();
            let length = journal.length();
            (
                journal.close(),
                CompactEnd::Done {
                    entries: 1,
                    before: length,
                    after: length,
                },
            )
        }
        Err(Failed) => (journal.close(), CompactEnd::Fault(BookFault::Disk)),
    }
}

/// Packs the records of a journal, and puts what is packed in their place.
fn compact_records<D: Disk>(
    alloc: Global,
    journal: Journal<D>,
    records: &[Vec<u8>],
    entries: u32,
) -> (D, CompactEnd)
    requires laws { Laws }
    requires small { journal.place < 2 ^ 39 }
    requires settled { Settled (D.seen journal.disk).images journal.place
        (payloads_of records.now) }
    requires nothing_due { journal.due ≡ Nothing }
    requires story { (H : History) × IsStory (payloads_of records.now) H }
    ensures { (H : History) → IsLegal H → IsStory (payloads_of records.now) H
        → PacksInto D.seen H journal.disk result.0 entries result.1 }
{
    journal.stands();
    let before = journal.length();
    let Ok(area) = packed_area(alloc, records) else {
        return (journal.close(), CompactEnd::Fault(BookFault::Memory));
    };
    let after = lesser(before, area.bytes());
    match journal.replace(area) {
        (disk, ReplaceEnd::Done) => (
            disk,
            CompactEnd::Done {
                entries,
                before,
                after,
            },
        ),
        (disk, ReplaceEnd::Larger) => (
            disk,
            CompactEnd::Done {
                entries,
                before,
                after,
            },
        ),
        (disk, ReplaceEnd::Failed) => (disk, CompactEnd::Fault(BookFault::Disk)),
    }
}

/// The area of the packed records.
fn packed_area(alloc: Global, records: &[Vec<u8>]) -> Result<Area, Memory>
    requires laws { Laws }
    requires story { (H : History) × IsStory (payloads_of records.now) H }
    ensures { IfOk result (λ area. (H : History) → IsStory (payloads_of records.now) H
        → area ≡ compacted_payloads H) }
{
    let payloads = pack(alloc, records)?;
    Area::of(alloc, &payloads)
}

/// A journal's bytes, or those of one with this area where they are fewer.
fn lesser(before: u64, area: u64) -> u64
    requires { 16 ≤ before }
    ensures { result ≡ min before (16 + area) }
{
    if area < before - HEADER_BYTES {
        HEADER_BYTES + area
    } else {
        before
    }
}
