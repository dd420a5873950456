//! A team of workers: made with a pass and a share for each, and taken apart again.
ghost use Rattle.std.specs.Prelude.{◌≡◌, ◌<◌, ◌≤◌, [], All, vec_capacity, vec_len};
ghost use Rattle.book.specs.Halls.{seen_as};
ghost use Rattle.campaign_server.specs.Crews.Workers.{IsFreshWorker, TakesIn};

use crate::doors::Door;
use crate::ends::End;
use crate::servers::acceptors::DoorOpening;
use crate::servers::workers::Work;
use book::Book;
use disk_model::Disk;
use hall::{Hall, Pass};
use std::alloc::Global;
use std::marker::Model;
use std::sync::ledger::Share;

/// What the workers had that were taken apart, each one's records apart from the others'. Contracts
/// see it as what one worker has, and how many more may be taken apart.
#[derive(Drop)]
pub(crate) struct Gathered<D: Disk, R: Door, J: DoorOpening> {
    pub(crate) pass: Pass<Book<D>>,
    pub(crate) share: Share<J>,
    pub(crate) records: Vec<Vec<(R::Record, End)>>,
    /// Memory was short for one.
    pub(crate) short: bool,
}

impl<D: Disk, R: Door, J: DoorOpening> Model for Gathered<D, R, J> {
    ghost use Rattle.std.specs.Prelude.{◌≡◌, ◌-◌, length, vec_capacity, vec_len};
    ghost use Rattle.campaign_server.specs.Crews.Records.{ended_all};
    ghost use Rattle.campaign_server.specs.Crews.Workers.{GatheredState};

    ghost Value = { GatheredState };

    ghost view = { λ all. record {
      done = record {
        pass = all.pass;
        parts = all.share.parts;
        records = ended_all (λ v. v.items) R.kept all.records.items;
        short = all.short;
      };
      room = vec_capacity all.records - vec_len all.records;
    } };

    ghost invariant = { λ all. all.share.amount
        ≡ length (ended_all (λ v. v.items) R.kept all.records.items) };
}

/// Fills a team with so many workers that did nothing yet. The ledger's parts go to them.
pub(crate) fn fill_team<D: Disk, R: Door, J: DoorOpening>(
    alloc: Global,
    hall: &Hall<Book<D>>,
    first: &mut Pass<Book<D>>,
    whole: &mut Share<J>,
    workers: u32,
    team: &mut Vec<Work<D, R, J>>,
)
    requires pass { first.old.hall ≡ hall.now }
    requires parts { whole.old.parts ≡ workers }
    requires amount { whole.old.amount ≡ 0 }
    requires empty { team.old.items ≡ [] }
    requires room { workers ≤ vec_capacity team.old }
    ensures same { first.new ≡ first.old }
    ensures parts { whole.new.parts ≡ 0 }
    ensures amount { whole.new.amount ≡ 0 }
    ensures len { vec_len team.new ≡ workers }
    ensures fresh { All (IsFreshWorker hall.now (seen_as first.old.seen)) team.new.items }
{
    for _ in 0..workers {
        team.push_reserved(Work {
            pass: hall.split(first),
            share: whole.split_off(1, 0),
            records: Vec::new(alloc),
            short: false,
        });
    }
}

/// Takes a worker apart: its pass is joined, its share is merged, and its records are kept.
pub(crate) fn take_in<D: Disk, R: Door, J: DoorOpening>(
    hall: &Hall<Book<D>>,
    all: &mut Gathered<D, R, J>,
    work: Work<D, R, J>,
)
    requires pass { all.old.done.pass.hall ≡ hall.now }
    requires other { work.pass.hall ≡ hall.now }
    requires room { 0 < all.old.room }
    ensures { TakesIn all.old work all.new }
{
    let Work {
        pass,
        share,
        records,
        short,
    } = work;
    hall.join(pass, &mut all.pass);
    all.share.merge(share);
    all.records.push_reserved(records);
    all.short |= short;
}
