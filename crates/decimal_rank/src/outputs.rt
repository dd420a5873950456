//! Outputs that count their faults, as a sink, a connection or a file that grows: a text is written
//! whole, in as many writes as it takes, or up to the write that failed.
ghost use Rattle.std.specs.Prelude.{◌<◌, ◌≤◌, length, IfOk, OnOk, OnErr};
ghost use Rattle.std.specs.Io.KnownBytes.{Appends, WriteAppends};
ghost use Rattle.decimal_rank.specs.Causes.{HasCause};
ghost use Rattle.decimal_rank.specs.Outputs.KnownBytes.{AppendsPart};
ghost use Rattle.decimal_rank.specs.Outputs.Writings.{Writing};

use crate::failures::Failed;

/// What bytes are written to.
pub trait Output {
    /// The bytes written, where the output tells them, and how many writes failed.
    ghost writing: { Self → Writing };

    /// What a write leaves as it was, beside the bytes and the faults.
    ghost Keeps: { Self → Self → Type 0 };

    /// Writes the first bytes of the piece, at least one where it has any, and returns how many. A
    /// failed write takes none.
    fn write(&mut self, piece: &[u8]) -> Result<usize, Failed>
        ensures bound { IfOk result (λ count. count ≤ length piece.now) }
        ensures some { IfOk result (λ count. 0 < length piece.now → 0 < count) }
        ensures bytes { WriteAppends (writing self.old).written
            (writing self.new).written result piece.now }
        ensures cause { HasCause (writing self.old).faults (writing self.new).faults result }
        ensures kept { Keeps self.old self.new };

    ghost keeps_itself: { (output : Self) → Keeps output output };

    ghost keeps_on: { (a b c : Self) → Keeps a b → Keeps b c → Keeps a c };
}

/// Writes the whole text, in as many writes as it takes. A write that fails ends it.
#[tactic(auto, using(crate::proofs::GrowingBytes::Growth::appends_next))]
pub fn write_all<O: Output>(out: &mut O, text: &[u8]) -> Result<(), Failed>
    ensures all { OnOk result
        (Appends (O.writing out.old).written (O.writing out.new).written text.now) }
    ensures part { OnErr result
        (AppendsPart (O.writing out.old).written (O.writing out.new).written text.now) }
    ensures cause { HasCause (O.writing out.old).faults (O.writing out.new).faults result }
    ensures kept { O.Keeps out.old out.new }
{
    let mut done = 0;
    while done < text.len() {
        done += out.write(&text[done..])?;
    }
    Ok(())
}
