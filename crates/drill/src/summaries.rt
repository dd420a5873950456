//! What is printed of a generated campaign.
ghost use Rattle.std.specs.Prelude.{◌≡◌, ◌++◌, IfOk, IsTrue, OnOk};
ghost use Rattle.campaign_core.specs.Views.Tallies.{IsTally};
ghost use Rattle.drill.specs.Figures.{are_numbers};
ghost use Rattle.drill.specs.Summaries.{best_line, drill_summary, summary_line};

use crate::numbers::DrillNumbers;
use crate::texts::write_number;
use book::Book;
use campaign_core::Tally;
use decimal_rank::Memory;
use disk_model::MemoryDisk;
use measures::write_four;
use std::alloc::Global;

/// The seven lines of a campaign.
pub(crate) fn summary_of(
    alloc: Global,
    numbers: &DrillNumbers,
    book: &Book<MemoryDisk>,
) -> Result<Vec<u8>, Memory>
    requires { IsTrue (are_numbers numbers.now) }
    ensures { IfOk result (λ text. text.items ≡ drill_summary numbers.now book.now.history) }
{
    let tally = book.tally();
    let lines = numbers.runs * numbers.topics * numbers.docs;
    let mut text = Vec::new(alloc);
    write_count(b"runs", u64::from(numbers.runs), &mut text)?;
    write_count(b"topics", u64::from(numbers.topics), &mut text)?;
    write_count(b"lines", u64::from(lines), &mut text)?;
    write_count(b"entries", u64::from(book.entries()), &mut text)?;
    write_count(b"judged", tally.judged, &mut text)?;
    write_count(b"relevant", tally.relevant, &mut text)?;
    write_best(book, &tally, &mut text)?;
    Ok(text)
}

fn write_count(word: &[u8], count: u64, out: &mut Vec<u8>) -> Result<(), Memory>
    ensures { OnOk result (out.new.items ≡ out.old.items ++ summary_line word.now count) }
{
    out.extend_from_slice(word)?;
    out.extend_from_slice(b" ")?;
    write_number(count, out)?;
    out.extend_from_slice(b"\n")?;
    Ok(())
}

/// Appends the line of the best run.
fn write_best(book: &Book<MemoryDisk>, tally: &Tally, out: &mut Vec<u8>) -> Result<(), Memory>
    requires { IsTally book.now.history tally.now }
    ensures { OnOk result (out.new.items ≡ out.old.items ++ best_line book.now.history) }
{
    let Some(run) = tally.best else {
        out.extend_from_slice(b"best -\n")?;
        return Ok(());
    };
    out.extend_from_slice(b"best ")?;
    out.extend_from_slice(book.run_name(run))?;
    out.extend_from_slice(b" ")?;
    write_four(tally.map, out)?;
    out.extend_from_slice(b"\n")?;
    Ok(())
}
