//! What `check` prints: what a campaign is.
ghost use Rattle.std.specs.Prelude.{◌≡◌, IfOk};
ghost use Rattle.rulebook.specs.Reports.Scores.{table_page};
ghost use Rattle.campaign_cli.specs.ShownTexts.{check_text, phase_word};

use crate::pages::page_of;
use crate::printing::add_number;
use book::{Book, Disk};
use decimal_rank::{Memory, Text};
use rulebook::{Phase, Query};
use std::alloc::Global;

/// The number of entries, the phase and the table of the runs.
pub(crate) fn check_text<D: Disk>(alloc: Global, book: &mut Book<D>) -> Result<Vec<u8>, Memory>
    ensures same { book.new ≡ book.old }
    ensures text { IfOk result (λ text. text.items ≡ check_text book.old.history) }
{
    let table = table_of(alloc, book)?;
    let mut text = Vec::new(alloc);
    add_number(b"entries ", u64::from(book.entries()), &mut text)?;
    text.extend_from_slice(b"\nphase ")?;
    text.extend_from_slice(word_of(book.phase()))?;
    text.extend_from_slice(b"\n")?;
    text.extend_from_slice(table.bytes())?;
    Ok(text)
}

fn word_of(phase: Phase) -> &'static [u8]
    ensures { result.now ≡ phase_word phase }
{
    match phase {
        Phase::Collecting => b"collecting",
        Phase::Judging => b"judging",
        Phase::Published => b"published",
    }
}

/// The table of the runs.
fn table_of<D: Disk>(alloc: Global, book: &mut Book<D>) -> Result<Text, Memory>
    ensures same { book.new ≡ book.old }
    ensures table { IfOk result (λ text. text ≡ table_page book.old.history) }
{
    let table = page_of(alloc, book, Query::Table)?;
    Ok(table)
}
