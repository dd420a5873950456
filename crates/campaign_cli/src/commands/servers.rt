//! `serve`: answers the requests of the links of a door by the campaign that the disk keeps.
ghost use Rattle.std.specs.Prelude.{◌≡◌, ◌≤◌};
ghost use Rattle.campaign_server.specs.Doors.{IsShut};
ghost use Rattle.campaign_cli.specs.Causes.{ending_of};
ghost use Rattle.campaign_cli.specs.Ends.ServeEnds.{ServeEnds, ServesDoor, cause_of as cause_by};

use crate::endings::{Cause, Outcome};
use crate::openings::open_book;
use crate::surroundings::shelves::Shelf;
use book::{Book, Disk};
use campaign_server::{Door, ServeEnd, ServerNumbers, serve};
use routes::Keys;
use std::alloc::Global;
use std::sync::Wait;
use std::thread::Threads;

/// Reads the settings, opens their campaign from the disk and answers the requests of the links of
/// a door on a port, by so many workers, until so many connections were taken.
pub(crate) fn run_server<W: Threads + Wait + Sync, F: Shelf, D: Disk + Send, R: Door>(
    rt: &W,
    alloc: Global,
    numbers: ServerNumbers,
    shelf: &mut F,
    door: &mut R,
    disk: D,
) -> (Outcome, D)
    requires workers { (1 ≤ numbers.workers) × (numbers.workers ≤ 16) }
    requires connections { 1 ≤ numbers.connections }
    requires shut { IsShut (R.seen door.old) }
    ensures { ServeEnds D.seen numbers (R.seen door.old) (R.seen door.new)
        (F.seen shelf.old) (F.seen shelf.new) disk result.1 (ending_of result.0) }
{
    match open_book(alloc, shelf, disk) {
        Ok((book, callers)) => {
            let (cause, disk) = serve_links(rt, alloc, numbers, book, &callers, door);
            (Outcome::Silent(cause), disk)
        }
        Err(given) => given,
    }
}

/// Answers the requests of the links of a door by a campaign.
fn serve_links<W: Threads + Wait + Sync, D: Disk + Send, R: Door>(
    rt: &W,
    alloc: Global,
    numbers: ServerNumbers,
    book: Book<D>,
    callers: &Keys,
    door: &mut R,
) -> (Cause, D)
    requires workers { (1 ≤ numbers.workers) × (numbers.workers ≤ 16) }
    requires connections { 1 ≤ numbers.connections }
    requires shut { IsShut (R.seen door.old) }
    ensures { ServesDoor D.seen callers.now numbers book
        (R.seen door.old) (R.seen door.new) result.1 result.0 }
{
    let ServerNumbers {
        port,
        workers,
        connections,
    } = numbers;
    let (book, end) = serve(rt, alloc, book, callers, door, port, workers, connections);
    book.stands();
    (cause_of(end), book.close())
}

fn cause_of(end: ServeEnd) -> Cause
    ensures { result ≡ cause_by end }
{
    match end {
        ServeEnd::Ended => Cause::Done,
        ServeEnd::DoorFault => Cause::Door,
        ServeEnd::Memory => Cause::Memory,
    }
}
