//! A door in memory, over links that were made before.
ghost use Rattle.std.specs.Prelude.{◌≡◌, ◌↔◌, ◌-◌, [], All, IfOk, IfSome, IsErr, IsTrue, None, OnErr, OnOk, Some, length, map};
ghost use Rattle.std.specs.Option.{option_map};
ghost use Rattle.decimal_rank.specs.Outputs.FailurePlans.{fails_next};
ghost use Rattle.campaign_server.specs.Doors.{IsNew, IsOpen, IsShut, Takes};
ghost use Rattle.campaign_server.specs.MemoryForms.MemoryDoors.{after_accept, after_fault, after_open, record_behind, told_by};

use crate::doors::Door;
use crate::ends::End;
use crate::links::Link;
use decimal_rank::{Failed, FailurePlan, Memory, count_more};
use std::marker::{Model, Send};

/// A door in memory over any links, which tells all of them. A link is its own record.
pub struct MemoryDoor<I: Link + Drop> {
    links: Vec<I>,
    /// How many links there were at first.
    all: usize,
    port: Option<u16>,
    served: Vec<(I, End)>,
    plan: FailurePlan,
    faults: u64,
}

impl<I: Link + Drop> Model for MemoryDoor<I> {
    ghost use Rattle.std.specs.Prelude.{◌≤◌, ◌-◌, All, length, map};
    ghost use Rattle.campaign_server.specs.Doors.{IsNew};
    ghost use Rattle.campaign_server.specs.MemoryForms.MemoryDoors.{MemoryDoorState, record_behind};

    ghost Value = { MemoryDoorState };

    ghost view = { λ door. record {
      port = door.port;
      left = map I.seen door.links.items;
      accepted = door.all - length door.links.items;
      served = map (record_behind I.seen) door.served.items;
      plan = door.plan;
      faults = door.faults;
    } };

    ghost invariant = { λ door. (length door.links.items ≤ door.all)
        × All (λ link. IsNew (I.seen link)) door.links.items };
}

// a call of its own, so that no caller's proof takes a door apart
impl<I: Link + Drop> Drop for MemoryDoor<I> {
    fn drop(self) {
        let MemoryDoor {
            links: _,
            all: _,
            port: _,
            served: _,
            plan: _,
            faults: _,
        } = self;
    }
}

impl<I: Link + Drop> MemoryDoor<I> {
    /// A door that isn't open, with these links, none of which was used. The calls at the given
    /// places, from 1, fail, where a call may.
    pub fn new(links: Vec<I>, fails: Vec<u64>) -> MemoryDoor<I>
        requires { All (λ link. IsNew (I.seen link)) links.items }
        ensures { result ≡ record {
          port = None;
          left = map I.seen links.items;
          accepted = 0;
          served = [];
          plan = record { fails = fails.items; calls = 0 };
          faults = 0;
        } }
    {
        MemoryDoor {
            all: links.len(),
            served: Vec::new(*links.allocator()),
            links,
            port: None,
            plan: FailurePlan::new(fails),
            faults: 0,
        }
    }

    /// The links that were handed back, with their ends.
    pub fn served(&self) -> &[(I, End)]
        ensures { map (record_behind I.seen) result.now ≡ self.now.served }
    {
        self.served.as_slice()
    }

    /// The port that it was opened on.
    pub fn opened(&self) -> Option<u16>
        ensures { result ≡ self.now.port }
    {
        self.port
    }
}

impl<I: Link + Send + Drop> Door for MemoryDoor<I> {
    type Line = I;

    type Record = I;

    ghost seen = { told_by };

    ghost kept = { λ link. Some (I.seen link) };

    /// A call that is to fail fails, and another one doesn't.
    fn open(&mut self, port: u16) -> Result<(), Failed>
        requires { IsShut (told_by self.old) }
        ensures failed { IsErr result ↔ IsTrue (fails_next self.old.plan) }
        ensures opened { OnOk result (self.new ≡ after_open self.old port) }
        ensures unopened { OnErr result (self.new ≡ after_fault self.old) }
    {
        if self.plan.call() {
            self.faults = count_more(self.faults);
            return Err(Failed);
        }
        self.port = Some(port);
        Ok(())
    }

    /// A call that is to fail fails, and another one doesn't.
    fn accept(&mut self) -> Result<Option<I>, Failed>
        requires { IsOpen (told_by self.old) }
        ensures failed { IsErr result ↔ IsTrue (fails_next self.old.plan) }
        ensures taken { IfOk result (λ link. Takes (told_by self.old).told (option_map I.seen link)
            (told_by self.new).told) }
        ensures is_new { IfOk result (λ link. IfSome link (λ line. IsNew (I.seen line))) }
        ensures after { IfOk result (λ link. self.new
            ≡ after_accept self.old (option_map I.seen link)) }
        ensures unaccepted { OnErr result (self.new ≡ after_fault self.old) }
    {
        if self.plan.call() {
            self.faults = count_more(self.faults);
            return Err(Failed);
        }
        if self.links.is_empty() {
            return Ok(None);
        }
        Ok(Some(self.links.remove(0)))
    }

    fn finish(link: I) -> I {
        link
    }

    fn done(&mut self, ended: I, end: End) -> Result<(), Memory> {
        self.served.push((ended, end))?;
        Ok(())
    }

    fn faults(&self) -> u64 {
        self.faults
    }
}
