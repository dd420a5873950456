//! `check`, `reuse` and `agreement`: each opens the campaign on the disk, and prints a text of it.
//! The opening mends the journal, and founds a campaign where there is none; then no further call
//! is made on the disk.
ghost use Rattle.std.specs.Prelude.{◌≡◌, IfOk};
ghost use Rattle.campaign_cli.specs.declared.endings.Cause.TheVariants.{Done};
ghost use Rattle.campaign_cli.specs.Causes.{SaysOrShort, ending_of};
ghost use Rattle.campaign_cli.specs.Ends.ShownEnds.{ShownEnds};
ghost use Rattle.campaign_cli.specs.ShownTexts.{text_by};

use crate::commands::agreements::agreement_text;
use crate::commands::checks::check_text;
use crate::commands::reuses::reuse_text;
use crate::endings::{Cause, Outcome};
use crate::openings::open_book;
use crate::surroundings::shelves::Shelf;
use book::{Book, Disk};
use decimal_rank::Memory;
use std::alloc::Global;

/// What is printed of a campaign: what it is, how its runs would score without what their own
/// groups alone brought in, or how its assessors agree.
#[derive(Clone, Copy, Debug, PartialEq, Eq)]
pub enum Display {
    Check,
    Reuse,
    Agreement,
}

/// Reads the settings, opens their campaign from the disk and tells a text of it.
pub(crate) fn show_campaign<F: Shelf, D: Disk>(
    alloc: Global,
    display: Display,
    shelf: &mut F,
    disk: D,
) -> (Outcome, D)
    ensures { ShownEnds D.seen (text_by display)
        (F.seen shelf.old) (F.seen shelf.new) disk result.1 (ending_of result.0) }
{
    match open_book(alloc, shelf, disk) {
        Ok((book, _callers)) => show(alloc, display, book),
        Err(given) => given,
    }
}

/// Tells a text of a campaign.
fn show<D: Disk>(alloc: Global, display: Display, book: Book<D>) -> (Outcome, D)
    ensures shown { SaysOrShort Done (text_by display book.history) (ending_of result.0) }
    ensures disk { result.1 ≡ book.disk }
{
    let mut book = book;
    match text_of(alloc, display, &mut book) {
        Ok(text) => (Outcome::Text(Cause::Done, text), book.close()),
        Err(Memory) => (Outcome::Silent(Cause::Memory), book.close()),
    }
}

/// What is printed of a campaign.
fn text_of<D: Disk>(alloc: Global, display: Display, book: &mut Book<D>) -> Result<Vec<u8>, Memory>
    ensures same { book.new ≡ book.old }
    ensures text { IfOk result (λ text. text.items ≡ text_by display book.old.history) }
{
    match display {
        Display::Check => check_text(alloc, book),
        Display::Reuse => reuse_text(alloc, book),
        Display::Agreement => agreement_text(alloc, book),
    }
}
