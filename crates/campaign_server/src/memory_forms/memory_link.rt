//! A connection in memory, whose calls fail as it is told.
ghost use Rattle.std.specs.Prelude.{◌≡◌, ◌≤◌, ◌<◌, ◌↔◌, ◌++◌, ℕ, [], IsTrue, IsSome, IsErr, IfOk, length, take, drop, min, slice_get, option_copied};
ghost use Rattle.std.specs.List.{concat};
ghost use Rattle.rulebook.specs.declared.limits.TheConstants.{MAX_MOMENT};
ghost use Rattle.decimal_rank.specs.Outputs.FailurePlans.{fails_next, count_more as one_more};
ghost use Rattle.campaign_server.specs.Links.{moment_at};
ghost use Rattle.campaign_server.specs.ConnectionLoop.Pieces.{are_filled, taken_of, left_of, IsPlace};
ghost use Rattle.campaign_server.specs.MemoryForms.MemoryLinks.{told_by, are_moments, after_read, after_write};

use crate::links::Link;
use crate::memory_forms::memory_writes::MemoryWrites;
use decimal_rank::{Failed, FailurePlan, Text, count_more};
use std::marker::Model;

/// A link in memory, which tells its bytes and moments. A read gives bytes of one piece, and a
/// write takes its piece whole.
#[derive(Debug)]
pub struct MemoryLink {
    pieces: Vec<Text>,
    /// How many pieces were taken whole.
    at: usize,
    /// How many bytes of the next piece were taken.
    within: usize,
    /// How many bytes the last read gave.
    last: usize,
    moments: Vec<u64>,
    asked: u64,
    reads: FailurePlan,
    read_faults: u64,
    writes: MemoryWrites,
}

impl Model for MemoryLink {
    ghost use Rattle.campaign_server.specs.MemoryForms.MemoryLinks.{MemoryLinkState};

    ghost Value = { MemoryLinkState };

    ghost use Rattle.campaign_server.specs.ConnectionLoop.Pieces.{taken_of, left_of};
    ghost use Rattle.campaign_server.specs.MemoryForms.MemoryLinkFields.{IsKept};

    ghost view = { λ link. record {
      taken = taken_of link.pieces.items link.at link.within;
      left = left_of link.pieces.items link.at link.within;
      last = link.last;
      written = link.writes.written;
      moments = link.moments.items;
      asked = link.asked;
      reads = link.reads;
      writes = link.writes.plan;
      read_faults = link.read_faults;
      write_faults = link.writes.faults;
      wants = link.writes.wants;
    } };

    ghost invariant = { IsKept };
}

// a call of its own, so that no caller's proof takes a link apart
impl Drop for MemoryLink {
    fn drop(self) {
        let MemoryLink {
            pieces: _,
            at: _,
            within: _,
            last: _,
            moments: _,
            asked: _,
            reads: _,
            read_faults: _,
            writes: _,
        } = self;
    }
}

impl MemoryLink {
    /// A link whose bytes come in these pieces, none of them empty, and whose clock gives these
    /// moments, each at most 2^40. The last moment stays, and without any it is 0. The reads and
    /// the writes at the given places, from 1, fail.
    #[tactic(auto, using(crate::proofs::ReadPieces::PiecePlaces::place_at_start))]
    pub fn new(
        pieces: Vec<Text>,
        moments: Vec<u64>,
        read_fails: Vec<u64>,
        write_fails: Vec<u64>,
    ) -> MemoryLink
        requires pieces { IsTrue (are_filled pieces.items) }
        requires moments { IsTrue (are_moments moments.items) }
        ensures { result ≡ record {
          taken = [];
          left = concat pieces.items;
          last = 0;
          written = [];
          moments = moments.items;
          asked = 0;
          reads = record { fails = read_fails.items; calls = 0 };
          writes = record { fails = write_fails.items; calls = 0 };
          read_faults = 0;
          write_faults = 0;
          wants = 0;
        } }
    {
        MemoryLink {
            pieces,
            at: 0,
            within: 0,
            last: 0,
            moments,
            asked: 0,
            reads: FailurePlan::new(read_fails),
            read_faults: 0,
            writes: MemoryWrites::new(write_fails),
        }
    }

    /// The bytes that were written, in order.
    pub fn written(&self) -> &[u8]
        ensures { result.now ≡ self.now.written }
    {
        self.writes.written()
    }

    /// How many writes failed for want of memory.
    pub fn wants(&self) -> u64
        ensures { result ≡ self.now.wants }
    {
        self.writes.wants()
    }
}

impl Link for MemoryLink {
    ghost use Rattle.std.proofs.Common.{refl};

    ghost seen = { told_by };

    /// A read that is to fail changes the counts alone; another one doesn't fail.
    fn read(&mut self, out: &mut [u8]) -> Result<usize, Failed>
        requires { 0 < length out.old }
        ensures bound { IfOk result (λ count. count ≤ length out.new) }
        ensures bytes { IfOk result (λ count. take count out.new ≡ take count self.old.left) }
        ensures end { IfOk result (λ count. count ≡ 0 → self.old.left ≡ []) }
        ensures failed { IsErr result ↔ IsTrue (fails_next self.old.reads) }
        ensures after { self.new ≡ after_read self.old result }
    {
        if self.reads.call() {
            self.last = 0;
            self.read_faults = count_more(self.read_faults);
            return Err(Failed);
        }
        self.last = give(&self.pieces, &mut self.at, &mut self.within, out);
        Ok(self.last)
    }

    /// A write that is to fail changes the counts alone; another one fails only for want of memory.
    fn write(&mut self, piece: &[u8]) -> Result<usize, Failed>
        ensures whole { IfOk result (λ count. count ≡ length piece.now) }
        ensures failed { IsTrue (fails_next self.old.writes) → IsErr result }
        ensures after { self.new ≡ after_write self.old piece.now result }
    {
        self.writes.write(piece)
    }

    fn moment(&mut self) -> u64
        ensures bounded { result ≤ MAX_MOMENT }
        ensures moment { result ≡ moment_at self.old.moments self.old.asked }
        ensures after { self.new ≡ record self.old { asked = one_more self.old.asked } }
    {
        let moment = moment_at(&self.moments, self.asked);
        self.asked = count_more(self.asked);
        moment
    }

    ghost tells_alike = { λ _ _.
        record { taken = refl; left = refl; last = refl; written = refl; moments = refl } };
}

/// The moment at a place; the last one stays, and without any it is 0.
fn moment_at(moments: &[u64], place: u64) -> u64
    requires { IsTrue (are_moments moments.now) }
    ensures bounded { result ≤ MAX_MOMENT }
    ensures moment { result ≡ moment_at moments.now place }
{
    let last = moments.len().saturating_sub(1);
    moments.get(last.min(place as usize)).copied().unwrap_or(0)
}

/// Copies as many of the bytes as fit, and returns how many.
fn copy_front(bytes: &[u8], out: &mut [u8]) -> usize
    ensures count { result ≡ min (length bytes.now) (length out.old) }
    ensures front { take result out.new ≡ take result bytes.now }
{
    let count = bytes.len().min(out.len());
    out[..count].copy_from_slice(&bytes[..count]);
    count
}

fn piece_at(pieces: &[Text], at: usize) -> Option<&[u8]>
    ensures piece { option_copied result ≡ slice_get pieces.now at }
    ensures inside { IsSome result → at < length pieces.now }
{
    pieces.get(at).map(|piece| piece.bytes())
}

/// Gives the next bytes of the piece at the place, and moves the place behind them.
fn give(pieces: &[Text], at: &mut usize, within: &mut usize, out: &mut [u8]) -> usize
    requires filled { IsTrue (are_filled pieces.now) }
    requires place { IsPlace pieces.now at.old within.old }
    requires room { 0 < length out.old }
    ensures bound { result ≤ length out.new }
    ensures place { IsPlace pieces.now at.new within.new }
    ensures bytes { take result out.new ≡ take result (left_of pieces.now at.old within.old) }
    ensures end { result ≡ 0 → left_of pieces.now at.old within.old ≡ [] }
    ensures taken { let given = take result (left_of pieces.now at.old within.old) in
        taken_of pieces.now at.new within.new ≡ taken_of pieces.now at.old within.old ++ given }
    ensures left { left_of pieces.now at.new within.new
        ≡ drop result (left_of pieces.now at.old within.old) }
{
    let Some(piece) = piece_at(pieces, *at) else {
        return 0;
    };
    let rest = &piece[*within..];
    let count = copy_front(rest, out);
    if count == rest.len() {
        *at += 1;
        *within = 0;
    } else {
        *within += count;
    }
    count
}
