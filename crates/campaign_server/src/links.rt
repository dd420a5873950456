//! A connection, as what comes, what goes and a clock.
ghost use Rattle.std.specs.Prelude.{◌≡◌, ◌<◌, ◌≤◌, length, IfOk, OnOk, OnErr};
ghost use Rattle.std.specs.Io.{ReadsAtMost};
ghost use Rattle.std.specs.Io.KnownBytes.{Appends, ReadConsumes, WriteAppends};
ghost use Rattle.decimal_rank.specs.Causes.{HasCause};
ghost use Rattle.decimal_rank.specs.Outputs.KnownBytes.{AppendsPart};
ghost use Rattle.campaign_server.specs.Links.{Alike, LinkState, ReadGives, ReadTakes, Ticks};
ghost use Rattle.std.proofs.Common.{◌∙◌, refl};

use decimal_rank::{Failed, Output, write_all as write_whole};

/// A connection: bytes that come, bytes that go, and the moments of a clock.
pub trait Link {
    /// What the link tells.
    ghost seen: { Self → LinkState };

    /// Reads the next bytes into the front of `out`, and returns how many. None is the end for
    /// good. A failed read takes none.
    fn read(&mut self, out: &mut [u8]) -> Result<usize, Failed>
        requires { 0 < length out.old }
        ensures bound { ReadsAtMost result out.new }
        ensures left { ReadConsumes (seen self.old).reading.left (seen self.new).reading.left result
            out.new }
        ensures taken { ReadTakes (seen self.old).reading.taken (seen self.new).reading.taken result
            out.new }
        ensures last { ReadGives (seen self.new).reading.last result }
        ensures cause { HasCause (seen self.old).reading.faults (seen self.new).reading.faults
            result }
        ensures writing_kept { (seen self.new).writing ≡ (seen self.old).writing }
        ensures clock_kept { (seen self.new).clock ≡ (seen self.old).clock };

    /// Writes the first bytes of the piece, at least one where it has any, and returns how many. A
    /// failed write takes none.
    fn write(&mut self, piece: &[u8]) -> Result<usize, Failed>
        ensures bound { IfOk result (λ count. count ≤ length piece.now) }
        ensures some { IfOk result (λ count. 0 < length piece.now → 0 < count) }
        ensures bytes { WriteAppends (seen self.old).writing.written (seen self.new).writing.written
            result piece.now }
        ensures cause { HasCause (seen self.old).writing.faults (seen self.new).writing.faults
            result }
        ensures reading_kept { (seen self.new).reading ≡ (seen self.old).reading }
        ensures clock_kept { (seen self.new).clock ≡ (seen self.old).clock };

    /// The moment, in seconds; at most 2^40.
    fn moment(&mut self) -> u64
        ensures ticks { Ticks (seen self.old).clock (seen self.new).clock result }
        ensures reading_kept { (seen self.new).reading ≡ (seen self.old).reading }
        ensures writing_kept { (seen self.new).writing ≡ (seen self.old).writing };

    /// A link tells a part of its state always or never.
    ghost tells_alike: { (a b : Self) → Alike (seen a) (seen b) };
}

/// Writes the whole text, in as many writes as it takes. A write that fails ends it.
pub fn write_all<I: Link>(link: &mut I, text: &[u8]) -> Result<(), Failed>
    ensures all { OnOk result (Appends (I.seen link.old).writing.written
        (I.seen link.new).writing.written text.now) }
    ensures part { OnErr result (AppendsPart (I.seen link.old).writing.written
        (I.seen link.new).writing.written text.now) }
    ensures cause { HasCause (I.seen link.old).writing.faults (I.seen link.new).writing.faults
        result }
    ensures reading_kept { (I.seen link.new).reading ≡ (I.seen link.old).reading }
    ensures clock_kept { (I.seen link.new).clock ≡ (I.seen link.old).clock }
{
    write_whole(&mut Going(link), text)
}

/// What goes on a link, as an output. It stays the same link.
#[derive(Drop)]
struct Going<'a, I: Link>(&'a mut I);

impl<I: Link> Output for Going<'_, I> {
    ghost writing = { λ going. (I.seen going.0.now).writing };

    ghost Keeps = { λ a b. (b.0.ghost_name ≡ a.0.ghost_name)
        × ((I.seen b.0.now).reading ≡ (I.seen a.0.now).reading)
        × ((I.seen b.0.now).clock ≡ (I.seen a.0.now).clock) };

    ghost keeps_itself = { λ a. (refl, refl, refl) };

    ghost keeps_on = { λ a b c p q. (q.0 ∙ p.0, q.1 ∙ p.1, q.2 ∙ p.2) };

    fn write(&mut self, piece: &[u8]) -> Result<usize, Failed> {
        self.0.write(piece)
    }
}
