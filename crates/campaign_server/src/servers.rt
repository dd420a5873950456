//! A server: a campaign in a hall, a door behind a lock, and a team of workers. Once the workers
//! have returned, the records of their links are handed to the door.
//!
//! ```text
//! opening     room for the team and its records, the table of the paths, the hall, and then the
//!             door; a ledger for the links
//! workers     each with its own pass and share: the next link of the acceptor, its connection, its
//!             record
//! joining     the passes are joined, the shares merged; so the number of records is that of the
//!             links
//! settling    each record is handed to the door, and the book is taken out of the hall
//! ```
//!
//! # The way of a connection
//!
//!     serve        takes the door out of its loan (`replace_with`)      servers.rt
//!       room       the team and its list of records, the table of      Memory where there is none
//!                  the paths, the hall
//!       open       the door on its port                                DoorFault where it fails
//!       workers    `thread::for_each_mut` over the team, which shares   workers.rt
//!                  the hall, the lock, the paths and the keys           workers.rt
//!         next     the lock, then the acceptor's next link              acceptors.rt
//!         serve    `serve_link` with the worker's own pass              hall_connections.rt
//!         record   the link's record and its end
//!       join       the passes and the shares of the ledger              teams.rt
//!       settle     each record is handed to the door, the book comes out of the hall
//!
//! A connection is the loop of `session` (`connections::converse_with`) over a teller that is lent
//! the hall, the worker's pass and the handle by which it waits. Bytes are read, parsed, rendered
//! and written without the turn; `Hall::act` takes it for `Book::act` alone, which journals an
//! accepted command before it answers. The text of an answer is one buffer, and one write where the
//! link takes it whole.
//!
//! That the talk on each link is one over the returned book's entries goes through the passes: what
//! a pass has seen begins what it sees later, and at the joins what all have seen begins the book's
//! list. Behind the chain of states that the loop proves,
//! `campaign_server/proofs/BookTalks/HallTalks.antt` makes the talk by induction. A ledger ties the
//! links to the records: each link that the acceptor gives adds 1 to its book and to the worker's
//! share, and a worker has as many records as its share (the invariants of `Work` and `Gathered`).
//! So at the end, when the shares are one again, there are as many records as links. `TcpDoor` and
//! its links tell their counts of faults alone (`tcp_door.rt`); `MemoryDoor` tells all.
//!
//! On the network the next connection, and what is passed over or waited for until there is one, is
//! in `listeners.rt`; how long a peer may take to send a request and to take its answer, in
//! `patience.rt`; how a connection ends, in `tcp_door.rt`. `tests/peers` tries all three.
//!
//! # What a connection costs
//!
//! A request costs what it does in a session, and the turn: one compare-exchange, the move of the
//! book's own fields out of the slot and back, which is no copy of its entries, and a store; where
//! another worker has the turn, a sleep. The table of the paths is made once, and the workers share
//! it: a connection with one request takes the buffer of its answers and the bytes of its wire.
//! Most of what it costs beside its request is the system's: taking the connection, a wake-up for
//! each of its steps, and its end. Connections past the number of workers wait for one to end.
//! `docs/PERFORMANCE.md` has small GETs beside nginx.
ghost use Rattle.std.specs.Prelude.{◌≡◌, ◌<◌, ◌≤◌, ◌++◌, [], All, OnOk, vec_len};
ghost use Rattle.std.specs.Thread.{IsSync};
ghost use Rattle.rulebook.specs.Histories.Legal.{IsLegal};
ghost use Rattle.book.specs.Halls.{seen_as};
ghost use Rattle.campaign_server.specs.Doors.{HandsOver, IsShut};
ghost use Rattle.campaign_server.specs.Crews.Records.{HandsPart, ended_all, ended_of};
ghost use Rattle.campaign_server.specs.Servers.{ServesBook, SettlesRecords};
ghost use Rattle.campaign_server.specs.Crews.Workers.{HasGatheredNothing, IsFreshWorker, Works};

mod acceptors;
mod teams;
mod workers;

use crate::doors::Door;
use crate::ends::{End, ServeEnd};
use crate::numbers::ServerNumbers;
use crate::servers::acceptors::{Acceptor, DoorOpening};
use crate::servers::teams::{Gathered, fill_team, take_in};
use crate::servers::workers::{Crew, Work, serve_by};
use book::Book;
use core::mem::replace_with;
use decimal_rank::{Failed, Memory};
use disk_model::Disk;
use hall::Hall;
use routes::{Keys, Paths};
use std::alloc::Global;
use std::marker::Brand;
use std::sync::ledger::Blank;
use std::sync::{Mutex, Wait};
use std::thread::Threads;

/// Hands the records of one worker to the door, in order. Where memory is short the later ones are
/// lost.
fn hand_over<R: Door>(door: &mut R, records: Vec<(R::Record, End)>) -> Result<(), Memory>
    ensures all { OnOk result (HandsOver (R.seen door.old).told (ended_of R.kept records.items)
        (R.seen door.new).told) }
    ensures part { HandsPart (R.seen door.old).told (ended_of R.kept records.items)
        (R.seen door.new).told }
    ensures faults { (R.seen door.new).faults ≡ (R.seen door.old).faults }
{
    for (record, end) in records {
        door.done(record, end)?;
    }
    Ok(())
}

/// Hands the records of all workers to the door.
fn hand_all<R: Door>(door: &mut R, all: Vec<Vec<(R::Record, End)>>) -> Result<(), Memory>
    ensures all { OnOk result (HandsOver (R.seen door.old).told
        (ended_all (λ v. v.items) R.kept all.items) (R.seen door.new).told) }
    ensures part { HandsPart (R.seen door.old).told (ended_all (λ v. v.items) R.kept all.items)
        (R.seen door.new).told }
    ensures faults { (R.seen door.new).faults ≡ (R.seen door.old).faults }
{
    for records in all {
        hand_over(door, records)?;
    }
    Ok(())
}

/// The workers serve, and are taken apart again. What they had is gathered then.
fn work_together<D: Disk + Send, R: Door, J: DoorOpening + Send + Sync, W: Threads + Wait + Sync>(
    rt: &W,
    alloc: Global,
    crew: &Crew<D, R, J>,
    team: Vec<Work<D, R, J>>,
    all: &mut Gathered<D, R, J>,
)
    requires none { HasGatheredNothing crew.now.hall all.old.done }
    requires team { (0 < vec_len team) × (vec_len team ≤ all.old.room) }
    requires fresh { All (IsFreshWorker crew.now.hall (seen_as all.old.done.pass.seen)) team.items }
    ensures hall { all.new.done.pass.hall ≡ crew.now.hall }
    ensures parts { all.new.done.parts ≡ vec_len team }
    ensures worked { Works crew.now.keys.now (seen_as all.old.done.pass.seen) (vec_len team)
        all.new.done }
{
    let mut team = team;
    serve_by(rt, alloc, crew, team.as_mut_slice());
    'workers: while let Some(work) = team.pop() {
        take_in(&crew.hall, all, work);
    }
}

/// Hands all records to the door that was closed with this end. Where a record is lost, or memory
/// was short for a worker, the server ends with Memory.
fn settle<R: Door>(
    door: R,
    all: Vec<Vec<(R::Record, End)>>,
    short: bool,
    end: ServeEnd,
) -> (R, ServeEnd)
    ensures settled { SettlesRecords (R.seen door).told
        (ended_all (λ v. v.items) R.kept all.items) short end (R.seen result.0).told result.1 }
    ensures faults { (R.seen result.0).faults ≡ (R.seen door).faults }
{
    let mut door = door;
    match hand_all(&mut door, all) {
        Ok(()) => {
            if short {
                return (door, ServeEnd::Memory);
            }
            (door, end)
        }
        Err(Memory) => (door, ServeEnd::Memory),
    }
}

/// Serves with a ledger for the links and what was settled at the opening.
fn serve_owned<D: Disk + Send, R: Door, J: DoorOpening + Send + Sync, W: Threads + Wait + Sync>(
    rt: &W,
    alloc: Global,
    keys: &Keys,
    numbers: ServerNumbers,
    blank: Blank,
    door: R,
    book: Book<D>,
) -> (R, (Book<D>, ServeEnd))
    requires workers { 0 < numbers.workers }
    requires shut { IsShut (R.seen door) }
    requires name { blank.name ≡ J.name }
    requires parts { (blank.parts ≡ J.parts) × (J.parts ≡ numbers.workers) }
    requires opening { (J.port ≡ numbers.port) × (J.faults ≡ (R.seen door).faults)
        × (J.limit ≡ numbers.connections) }
    ensures { ServesBook D.seen keys.now numbers book result.1.0
        (R.seen door) (R.seen result.0) result.1.1 }
{
    let Ok(mut team) = Vec::with_capacity(alloc, numbers.workers as usize) else {
        return (door, (book, ServeEnd::Memory));
    };
    let Ok(records) = Vec::with_capacity(alloc, numbers.workers as usize) else {
        return (door, (book, ServeEnd::Memory));
    };
    let Ok(paths) = Paths::new(alloc) else {
        return (door, (book, ServeEnd::Memory));
    };
    let (hall, mut pass) = match Hall::new(alloc, book) {
        Ok(made) => made,
        Err((book, Memory)) => return (door, (book, ServeEnd::Memory)),
    };
    let mut door = door;
    match door.open(numbers.port) {
        Ok(()) => {}
        Err(Failed) => return (door, (hall.close(rt, pass), ServeEnd::DoorFault)),
    }
    let (count, mut share) = blank.open::<J>();
    fill_team(
        alloc,
        &hall,
        &mut pass,
        &mut share,
        numbers.workers,
        &mut team,
    );
    let crew = Crew {
        hall,
        acceptor: Mutex::new(Acceptor::new(door, numbers.connections, count)),
        paths,
        keys,
        limit: numbers.connections,
    };
    let mut all = Gathered {
        pass,
        share,
        records,
        short: false,
    };
    work_together(rt, alloc, &crew, team, &mut all);
    let Crew {
        hall,
        acceptor,
        paths: _,
        keys: _,
        limit: _,
    } = crew;
    let Gathered {
        pass,
        share,
        records,
        short,
    } = all;
    let (door, end) = acceptor.into_inner().close(share);
    let (door, end) = settle(door, records, short, end);
    (door, (hall.close(rt, pass), end))
}

/// Serves with a door of one's own.
fn serve_named<D: Disk + Send, R: Door, W: Threads + Wait + Sync>(
    rt: &W,
    alloc: Global,
    keys: &Keys,
    numbers: ServerNumbers,
    door: R,
    book: Book<D>,
) -> (R, (Book<D>, ServeEnd))
    requires workers { 0 < numbers.workers }
    requires shut { IsShut (R.seen door) }
    ensures { ServesBook D.seen keys.now numbers book result.1.0
        (R.seen door) (R.seen result.0) result.1.1 }
{
    let blank = Blank::new(numbers.workers as u64);
    serve_owned::<D, R, Brand, W>(rt, alloc, keys, numbers, blank, door, book)
}

/// Serves a campaign through a door, by so many workers at the same time, until the door gives no
/// further link or so many connections were taken. The records of the links are handed to the door
/// at the end. A connection that fails ends alone.
pub fn serve<D: Disk + Send, R: Door, W: Threads + Wait + Sync>(
    rt: &W,
    alloc: Global,
    book: Book<D>,
    keys: &Keys,
    door: &mut R,
    port: u16,
    workers: u32,
    connections: u32,
) -> (Book<D>, ServeEnd)
    requires workers { (0 < workers) × (workers ≤ 16) }
    requires connections { 0 < connections }
    requires shut { IsShut (R.seen door.old) }
    ensures legal { IsLegal result.0.history }
    ensures serves { ServesBook D.seen keys.now
        (record { port = port; workers = workers; connections = connections }) book result.0
        (R.seen door.old) (R.seen door.new) result.1 }
{
    let numbers = ServerNumbers {
        port,
        workers,
        connections,
    };
    let (book, end) = replace_with(
        door,
        book,
        |owned: R, book: Book<D>| -> (R, (Book<D>, ServeEnd))
            requires { IsSync W.row × (0 < numbers.workers) × IsShut (R.seen owned) }
            ensures { ServesBook D.seen keys.entry.now numbers book result.1.0
                (R.seen owned) (R.seen result.0) result.1.1 }
        { serve_named(rt, alloc, keys, numbers, owned, book) },
    );
    book.stands();
    (book, end)
}
