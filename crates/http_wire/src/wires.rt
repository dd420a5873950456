//! A connection's bytes, fed as they come in pieces of any size, and the steps that they make,
//! given one by one.
ghost use Rattle.std.specs.Prelude.{◌≡◌, ◌+◌, ◌≤◌, [], None, IfOk, OnOk, OnErr, drop, length};
ghost use Rattle.http_wire.specs.Fronts.{wire_at};
ghost use Rattle.http_wire.specs.Pieces.{BodyFits, Shortens, Steps, wire_fed};

use crate::fronts::{Look, look_at};
use crate::messages::Step;
use decimal_rank::Memory;
use std::alloc::Global;
use std::marker::Model;

/// The bytes of a connection that were fed and not yet given. Contracts see these bytes, and how
/// many of a body are still to be given.
#[derive(Drop)]
pub struct Wire {
    bytes: Vec<u8>,
    // how many bytes at the front were given or passed over
    done: usize,
    // so many bytes of a body are still to be given, where one was begun
    left: Option<u32>,
    // the end of a head is looked for from here on, behind the CR and LF that are passed over
    searched: usize,
}

impl Model for Wire {
    ghost use Rattle.std.specs.Prelude.{drop};
    ghost use Rattle.http_wire.specs.Pieces.{WireState};

    ghost Value = { WireState };

    ghost use Rattle.http_wire.specs.Wires.{IsKept};

    ghost view = { λ wire. record { bytes = drop wire.done wire.bytes.items; left = wire.left } };

    ghost invariant = { IsKept };
}

/// The bytes that are not done with.
fn left_of(bytes: &[u8], done: usize) -> &[u8]
    requires { done ≤ length bytes.now }
    ensures { result.now ≡ drop done bytes.now }
{
    &bytes[done..]
}

/// Drops the bytes that are done with where they are more than those that are left, so that each
/// byte that stays is moved for one that goes. Gives how many at the front are done with then.
fn drop_done(bytes: &mut Vec<u8>, done: usize) -> usize
    requires { done ≤ length bytes.old.items }
    ensures left { drop result bytes.new.items ≡ drop done bytes.old.items }
    ensures half { result + result ≤ length bytes.new.items }
{
    if bytes.len() - done < done {
        let _removed = bytes.drain(..done);
        0
    } else {
        done
    }
}

impl Wire {
    /// A wire on which nothing came yet.
    pub fn new(alloc: Global) -> Wire
        ensures { result ≡ wire_at [] None }
    {
        Wire {
            bytes: Vec::new(alloc),
            done: 0,
            left: None,
            searched: 0,
        }
    }

    /// Adds the bytes that came next.
    pub fn feed(&mut self, piece: &[u8]) -> Result<(), Memory>
        ensures ok { OnOk result (self.new ≡ wire_fed self.old piece.now) }
        ensures err { OnErr result (self.new ≡ self.old) }
    {
        self.bytes.extend_from_slice(piece)?;
        Ok(())
    }

    /// What comes next of the bytes that were fed. After a refusal each further call gives the
    /// same. Behind a request that closes nothing more is to be asked for: what follows is read as
    /// it stands.
    pub fn next(&mut self) -> Result<Step, Memory>
        ensures ok { IfOk result (λ step. Steps self.old step self.new) }
        ensures body { IfOk result BodyFits }
        ensures shorter { IfOk result (λ step. Shortens self.old step self.new) }
        ensures err { OnErr result (self.new ≡ self.old) }
    {
        let alloc = *self.bytes.allocator();
        let bytes = left_of(self.bytes.as_slice(), self.done);
        let Look {
            step,
            taken,
            searched,
            left,
        } = look_at(alloc, bytes, self.left, self.searched)?;
        self.done = drop_done(&mut self.bytes, self.done + taken);
        self.searched = searched;
        self.left = left;
        Ok(step)
    }
}
