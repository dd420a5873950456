//! A generated campaign, from its numbers to its seven lines.
ghost use Rattle.std.specs.Prelude.{◌≡◌, [], ◌∷◌, IfOk, IsTrue};
ghost use Rattle.rulebook.specs.Campaign.{History};
ghost use Rattle.rulebook.specs.Histories.Legal.{founding};
ghost use Rattle.drill.specs.Figures.{are_numbers};
ghost use Rattle.drill.specs.Foundings.{RefusesEmpty};
ghost use Rattle.drill.specs.Messages.{callers as drill_callers, rules as drill_rules};
ghost use Rattle.drill.specs.Plays.{IsPlayed};
ghost use Rattle.drill.specs.Summaries.{drill_summary as summary_by};

use crate::messages::{callers, rules};
use crate::numbers::DrillNumbers;
use crate::plays::play;
use crate::summaries::summary_of;
use book::{Book, BookFault};
use decimal_rank::Memory;
use disk_model::MemoryDisk;
use routes::Keys;
use std::alloc::Global;

/// Plays the campaign that the numbers give, on a disk in memory, and tells its seven lines. There
/// may be no memory for it, or for the answer to one of its messages.
pub fn drill<R>(rt: &R, alloc: Global, numbers: &DrillNumbers) -> Result<Vec<u8>, Memory>
    requires { IsTrue (are_numbers numbers.now) }
    ensures { IfOk result (λ text. (H : History) × IsPlayed numbers.now H
        × (text.items ≡ summary_by numbers.now H)) }
{
    let keys = callers(alloc)?;
    let mut book = found(alloc)?;
    drilled(rt, alloc, numbers, &mut book, &keys)
}

/// Plays the campaign on its book, and tells its seven lines.
fn drilled<R>(
    rt: &R,
    alloc: Global,
    numbers: &DrillNumbers,
    book: &mut Book<MemoryDisk>,
    keys: &Keys,
) -> Result<Vec<u8>, Memory>
    requires numbers { IsTrue (are_numbers numbers.now) }
    requires keys { keys.now ≡ drill_callers }
    requires founded { book.old.history ≡ founding drill_rules ∷ [] }
    ensures { IfOk result (λ text. (H : History) × IsPlayed numbers.now H
        × (text.items ≡ summary_by numbers.now H)) }
{
    play(rt, alloc, numbers, book, keys)?;
    summary_of(alloc, numbers, book)
}

/// A book with the founding entry alone, on an empty disk.
fn found(alloc: Global) -> Result<Book<MemoryDisk>, Memory>
    ensures { IfOk result (λ book. book.history ≡ founding drill_rules ∷ []) }
{
    let disk = MemoryDisk::new(Vec::new(alloc), Vec::new(alloc));
    match Book::open(alloc, disk, rules(alloc)) {
        Ok(book) => Ok(book),
        Err((disk, fault)) => {
            drop(disk);
            Err(want_of(fault))
        }
    }
}

/// Why an empty disk isn't opened. It holds nothing that could be refused, and it is in memory,
/// where no call fails but for want of it.
fn want_of(fault: BookFault) -> Memory
    requires { RefusesEmpty fault }
{
    match fault {
        BookFault::Disk | BookFault::Memory => Memory,
        BookFault::Header | BookFault::Damaged { .. } | BookFault::RulesDiffer => unreachable!(),
    }
}
