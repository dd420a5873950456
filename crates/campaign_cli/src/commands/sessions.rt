//! `session`: answers the requests of the program's own link by the campaign that the disk keeps.
ghost use Rattle.std.specs.Prelude.{◌≡◌};
ghost use Rattle.campaign_cli.specs.Causes.{ending_of};
ghost use Rattle.campaign_cli.specs.Ends.SessionEnds.{AnswersLink, SessionEnds, cause_of as cause_by};

use crate::endings::{Cause, Outcome};
use crate::openings::open_book;
use crate::surroundings::shelves::Shelf;
use book::{Book, Disk};
use campaign_server::{End, Link, session};
use routes::Keys;
use std::alloc::Global;

/// Reads the settings, opens their campaign from the disk and answers the requests of a link.
pub(crate) fn hold_session<W, F: Shelf, I: Link, D: Disk>(
    rt: &W,
    alloc: Global,
    shelf: &mut F,
    own: &mut I,
    disk: D,
) -> (Outcome, D)
    ensures { SessionEnds D.seen (I.seen own.old) (I.seen own.new)
        (F.seen shelf.old) (F.seen shelf.new) disk result.1 (ending_of result.0) }
{
    match open_book(alloc, shelf, disk) {
        Ok((book, callers)) => {
            let (cause, disk) = answer_link(rt, alloc, book, &callers, own);
            (Outcome::Silent(cause), disk)
        }
        Err(given) => given,
    }
}

/// Answers the requests of a link by a campaign.
fn answer_link<R, I: Link, D: Disk>(
    rt: &R,
    alloc: Global,
    book: Book<D>,
    callers: &Keys,
    own: &mut I,
) -> (Cause, D)
    ensures { AnswersLink D.seen callers.now book (I.seen own.old) (I.seen own.new)
        result.1 result.0 }
{
    let mut book = book;
    let end = session(rt, alloc, &mut book, own, callers);
    (cause_of(end), book.close())
}

fn cause_of(end: End) -> Cause
    ensures { result ≡ cause_by end }
{
    match end {
        End::Ended => Cause::Done,
        End::Memory => Cause::Memory,
        End::WriteFault => Cause::Output,
        End::ReadFault => Cause::Link,
        End::Cut | End::Refused(_) | End::Worn => Cause::Cut,
    }
}
