//! The acceptor of a server: the open door, from which one worker at a time takes the next link. A
//! ledger ties the number of links that it gave to the shares that the workers hold.
ghost use Rattle.std.specs.Prelude.{◌≡◌, ℕ, ◌+◌, ◌<◌, ◌⊎◌, false, true, IfNone, IfSome};
ghost use Rattle.campaign_server.specs.Doors.{IsNew};
ghost use Rattle.campaign_server.specs.Crews.Acceptors.{Closes, IsAcceptor};

use crate::doors::Door;
use crate::ends::ServeEnd;
use std::marker::{Brand, Model};
use std::sync::ledger::{Book, Ledger, Share};

/// A ledger of the links that a door gave, and what was settled when the door was opened.
pub(crate) trait DoorOpening: Ledger {
    ghost port: { ℕ };

    /// How many calls on the door had failed.
    ghost faults: { ℕ };

    /// The most links that are taken.
    ghost limit: { ℕ };
}

impl DoorOpening for Brand {
    ghost port = { 0 };

    ghost faults = { 0 };

    ghost limit = { 0 };
}

/// A door that is open, and how many links it may give. Contracts see what it tells, how many it
/// gave, and whether it ended or failed.
#[derive(Drop)]
pub(crate) struct Acceptor<R: Door, J: DoorOpening> {
    door: R,
    accepted: u32,
    limit: u32,
    ended: bool,
    failed: bool,
    count: Book<J>,
}

impl<R: Door, J: DoorOpening> Model for Acceptor<R, J> {
    ghost use Rattle.std.specs.Prelude.{◌≡◌};
    ghost use Rattle.campaign_server.specs.Crews.Acceptors.{AcceptorState, IsAcceptor};

    ghost Value = { AcceptorState };

    ghost view = { λ acceptor. record {
      door = R.seen acceptor.door;
      accepted = acceptor.accepted;
      ended = acceptor.ended;
      failed = acceptor.failed;
    } };

    ghost invariant = { λ acceptor. IsAcceptor J.port J.faults J.limit (record {
      door = R.seen acceptor.door;
      accepted = acceptor.accepted;
      ended = acceptor.ended;
      failed = acceptor.failed;
    })
        × (acceptor.limit ≡ J.limit) × (acceptor.count.total ≡ acceptor.accepted) };
}

impl<R: Door, J: DoorOpening> Acceptor<R, J> {
    /// An acceptor over a door that was opened and gave no link yet.
    pub(crate) fn new(door: R, limit: u32, count: Book<J>) -> Acceptor<R, J>
        requires limit { limit ≡ J.limit }
        requires count { count.total ≡ 0 }
        requires acceptor { IsAcceptor J.port J.faults J.limit
            (record { door = R.seen door; accepted = 0; ended = false; failed = false }) }
    {
        Acceptor {
            door,
            accepted: 0,
            limit,
            ended: false,
            failed: false,
            count,
        }
    }

    /// The next link, which counts in the share. None once the door failed or ended or gave as many
    /// links as may be.
    pub(crate) fn next(&mut self, mine: &mut Share<J>) -> Option<R::Line>
        requires { 0 < mine.old.parts }
        ensures parts { mine.new.parts ≡ mine.old.parts }
        ensures some { IfSome result (λ line. IsNew (R.Line.seen line)
            × (mine.new.amount ≡ mine.old.amount + 1)) }
        ensures none { IfNone result (mine.new.amount ≡ mine.old.amount) }
        ensures why { IfNone result ((self.new.failed ≡ true)
            ⊎ ((self.new.ended ≡ true) ⊎ (self.new.accepted ≡ J.limit))) }
    {
        if self.failed || self.ended || self.accepted >= self.limit {
            return None;
        }
        match self.door.accept() {
            Ok(Some(line)) => {
                self.accepted += 1;
                self.count.add(mine, 1);
                Some(line)
            }
            Ok(None) => {
                self.ended = true;
                None
            }
            Err(_) => {
                self.failed = true;
                None
            }
        }
    }

    /// Gives the door back, and why no further link was taken. The share is that of all links.
    pub(crate) fn close(self, share: Share<J>) -> (R, ServeEnd)
        requires { share.parts ≡ J.parts }
        ensures { Closes J.port J.faults J.limit (R.seen result.0) share.amount result.1 }
    {
        let Acceptor {
            door,
            accepted,
            limit,
            ended,
            failed,
            mut count,
        } = self;
        let mut share = share;
        count.audit(&mut share);
        let end = if failed {
            ServeEnd::DoorFault
        } else if ended || accepted >= limit {
            ServeEnd::Ended
        } else {
            ServeEnd::Memory
        };
        (door, end)
    }
}
