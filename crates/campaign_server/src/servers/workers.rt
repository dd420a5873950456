//! The workers of a server. Each has a pass of its own and a share of the ledger of links; it takes
//! one link after another of the acceptor, serves it, and keeps its record.
ghost use Rattle.std.specs.Prelude.{◌≡◌, ◌≢◌, ◌<◌, ◌⊎◌, All, false, length, true};
ghost use Rattle.rulebook.specs.Histories.Stories.{Story};
ghost use Rattle.campaign_server.specs.declared.ends.End.TheVariants.{Memory as EndMemory};
ghost use Rattle.campaign_server.specs.Crews.Workers.{HasServed, IsFreshWorker, WorkerGoesOn};

use crate::connections::hall_connections::serve_link;
use crate::doors::Door;
use crate::ends::End;
use crate::servers::acceptors::{Acceptor, DoorOpening};
use book::Book;
use disk_model::Disk;
use hall::{Hall, Pass};
use routes::{Keys, Paths};
use std::alloc::Global;
use std::marker::Model;
use std::sync::ledger::Share;
use std::sync::{Mutex, Wait};
use std::thread;
use std::thread::Threads;

/// What the workers of a server share while they serve: the campaign in its hall, the door behind
/// its lock, the table of the paths, the callers' keys, and how many links there may be.
pub(crate) struct Crew<'a, D: Disk, R: Door, J: DoorOpening> {
    pub(crate) hall: Hall<Book<D>>,
    pub(crate) acceptor: Mutex<Acceptor<R, J>>,
    pub(crate) paths: Paths,
    pub(crate) keys: &'a Keys,
    pub(crate) limit: u32,
}

/// What one worker has, and the records of its links, each of which counts in its share. Contracts
/// see the pass, the parts of the share, what the records tell, and whether memory was short.
#[derive(Drop)]
pub(crate) struct Work<D: Disk, R: Door, J: DoorOpening> {
    pub(crate) pass: Pass<Book<D>>,
    pub(crate) share: Share<J>,
    pub(crate) records: Vec<(R::Record, End)>,
    /// Memory was short; it takes no further link.
    pub(crate) short: bool,
}

impl<D: Disk, R: Door, J: DoorOpening> Model for Work<D, R, J> {
    ghost use Rattle.std.specs.Prelude.{◌≡◌, vec_len};
    ghost use Rattle.campaign_server.specs.Crews.Records.{ended_of};
    ghost use Rattle.campaign_server.specs.Crews.Workers.{WorkState};

    ghost Value = { WorkState };

    ghost view = { λ work. record {
      pass = work.pass;
      parts = work.share.parts;
      records = ended_of R.kept work.records.items;
      short = work.short;
    } };

    ghost invariant = { λ work. work.share.amount ≡ vec_len work.records };
}

fn is_memory(end: End) -> bool
    ensures { result ≡ false → end ≢ EndMemory }
{
    match end {
        End::Memory => true,
        End::Ended | End::Cut | End::Refused(_) | End::ReadFault | End::WriteFault | End::Worn => {
            false
        }
    }
}

/// Serves the next link, and tells whether to go on: not where memory was short or no link was
/// given.
#[tactic(auto, using(crate::proofs::ServerEnds::JoinedWorkers::goes_still, crate::proofs::ServerEnds::JoinedWorkers::goes_short))]
fn serve_next<D: Disk, R: Door, J: DoorOpening, W: Wait>(
    rt: &W,
    alloc: Global,
    crew: &Crew<D, R, J>,
    work: &mut Work<D, R, J>,
) -> bool
    requires hall { work.old.pass.hall ≡ crew.now.hall }
    requires parts { 0 < work.old.parts }
    requires not_short { work.old.short ≡ false }
    ensures goes_on { WorkerGoesOn crew.now.keys.now work.old work.new }
    ensures not_short { result ≡ true → work.new.short ≡ false }
    ensures stops { result ≡ false
        → (work.new.short ≡ true) ⊎ (work.new.records ≡ work.old.records) }
{
    if work.records.reserve(1).is_err() {
        work.short = true;
        return false;
    }
    let next = crew.acceptor.lock(rt).next(&mut work.share);
    let Some(mut line) = next else {
        return false;
    };
    let end = serve_link(
        rt,
        alloc,
        &crew.hall,
        &mut work.pass,
        &mut line,
        &crew.paths,
        crew.keys,
    );
    work.pass.places_rise();
    work.records.push_reserved((R::finish(line), end));
    let short = is_memory(end);
    work.short = short;
    !short
}

/// Serves links until the acceptor gives none, at most so many.
#[tactic(auto, using(crate::proofs::ServerEnds::JoinedWorkers::goes_still, crate::proofs::ServerEnds::JoinedWorkers::goes_both))]
fn serve_all<D: Disk, R: Door, J: DoorOpening, W: Wait>(
    rt: &W,
    alloc: Global,
    crew: &Crew<D, R, J>,
    work: &mut Work<D, R, J>,
)
    requires hall { work.old.pass.hall ≡ crew.now.hall }
    requires parts { 0 < work.old.parts }
    requires not_short { work.old.short ≡ false }
    ensures { WorkerGoesOn crew.now.keys.now work.old work.new }
{
    for _ in 0..crew.limit {
        if !serve_next(rt, alloc, crew, work) {
            break;
        }
    }
}

/// All workers of a team serve at the same time, until the acceptor gives no link.
pub(crate) fn serve_by<
    D: Disk + Send,
    R: Door,
    J: DoorOpening + Send + Sync,
    W: Threads + Wait + Sync,
>(rt: &W, alloc: Global, crew: &Crew<D, R, J>, team: &mut [Work<D, R, J>])
    requires some { 0 < length team.old }
    requires fresh { (start : Story) × All (IsFreshWorker crew.now.hall start) team.old }
    ensures len { length team.new ≡ length team.old }
    ensures served { (start : Story) → All (IsFreshWorker crew.now.hall start) team.old
        → All (HasServed crew.now.keys.now crew.now.hall start) team.new }
{
    let workers = team.len();
    thread::for_each_mut(
        rt,
        team,
        workers,
        &|_: usize, work: &mut Work<D, R, J>|
            requires { (start : Story) × IsFreshWorker crew.now.hall start work.old }
            ensures { (start : Story) → IsFreshWorker crew.entry.now.hall start work.old
                → HasServed crew.entry.now.keys.now crew.entry.now.hall start work.new }
        { serve_all(rt, alloc, crew, work) },
    );
}
