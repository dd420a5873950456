//! The door of a server: links come through it one after another, and their records are handed
//! back.
ghost use Rattle.std.specs.Prelude.{◌≡◌, ◌∷◌, [], IfOk, IfSome, OnErr, OnOk, Option};
ghost use Rattle.std.specs.Option.{option_map};
ghost use Rattle.decimal_rank.specs.Causes.{HasCause};
ghost use Rattle.campaign_server.specs.Doors.{DoorState, HandsOver, IsNew, IsOpen, IsShut, Opens, Takes};
ghost use Rattle.campaign_server.specs.Links.{LinkState};

use crate::ends::End;
use crate::links::Link;
use decimal_rank::{Failed, Memory};
use std::marker::Send;

/// Gives the links of a server. A call that fails changes nothing that is told, and raises the
/// count of faults.
pub trait Door: Send {
    type Line: Link + Send;

    /// What is kept of a link that ended.
    type Record: Send + Drop;

    /// What the door tells.
    ghost seen: { Self → DoorState };

    /// What a record tells of its link at its end, where it tells that.
    ghost kept: { Self.Record → Option LinkState };

    /// Opens the door on a port.
    fn open(&mut self, port: u16) -> Result<(), Failed>
        requires { IsShut (seen self.old) }
        ensures opened { OnOk result (Opens (seen self.old).told port (seen self.new).told) }
        ensures same { OnErr result ((seen self.new).told ≡ (seen self.old).told) }
        ensures cause { HasCause (seen self.old).faults (seen self.new).faults result };

    /// The next link. None is the end for good.
    fn accept(&mut self) -> Result<Option<Self::Line>, Failed>
        requires { IsOpen (seen self.old) }
        ensures taken { IfOk result (λ link. Takes (seen self.old).told
            (option_map Self.Line.seen link) (seen self.new).told) }
        ensures is_new { IfOk result (λ link. IfSome link (λ line. IsNew (Self.Line.seen line))) }
        ensures same { OnErr result ((seen self.new).told ≡ (seen self.old).told) }
        ensures cause { HasCause (seen self.old).faults (seen self.new).faults result };

    /// Ends a link.
    fn finish(link: Self::Line) -> Self::Record
        ensures { IfSome (kept result) (λ state. state ≡ Self.Line.seen link) };

    /// Takes the record of a link and its end.
    fn done(&mut self, ended: Self::Record, end: End) -> Result<(), Memory>
        ensures added { OnOk result (HandsOver (seen self.old).told ((kept ended, end) ∷ [])
            (seen self.new).told) }
        ensures same { OnErr result ((seen self.new).told ≡ (seen self.old).told) }
        ensures faults { (seen self.new).faults ≡ (seen self.old).faults };

    /// How many calls failed.
    fn faults(&self) -> u64
        ensures { result ≡ (seen self.now).faults };
}
