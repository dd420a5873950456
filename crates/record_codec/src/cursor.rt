//! The bytes that are not read yet, and numbers and runs of bytes from their front.
ghost use Rattle.std.specs.Prelude.{◌≡◌, ◌==◌, length};
ghost use Rattle.std.specs.Int.{w16, w32, w64};
ghost use Rattle.record_codec.specs.Outcomes.{GivesRead, GivesReadBy};
ghost use Rattle.record_codec.specs.Readings.{byte_read, bytes_read, number_read};

use crate::faults::CodecFault;

/// The bytes that are not read yet. Each call takes what it reads from their front; what stands
/// there after a fault is not said.
#[derive(Clone, Copy)]
pub(crate) struct Cursor<'a> {
    bytes: &'a [u8],
}

impl<'a> Cursor<'a> {
    pub(crate) fn new(bytes: &'a [u8]) -> Cursor<'a>
        ensures { result.bytes.now ≡ bytes.entry.now }
    {
        Cursor { bytes }
    }

    pub(crate) fn is_at_end(&self) -> bool
        ensures { result ≡ (length self.now.bytes.now == 0) }
    {
        self.bytes.is_empty()
    }

    pub(crate) fn byte(&mut self) -> Result<u8, CodecFault>
        ensures { GivesRead result self.new.bytes.now (byte_read self.old.bytes.now) }
    {
        let [first, rest @ ..] = self.bytes else {
            return Err(CodecFault::NoEntry);
        };
        self.bytes = rest;
        Ok(*first)
    }

    /// So many bytes.
    #[tactic(auto, unfolding(crate::specs::Readings::bytes_read))]
    pub(crate) fn run(&mut self, len: usize) -> Result<&'a [u8], CodecFault>
        ensures { GivesReadBy (λ run. run.now) result self.new.bytes.now
            (bytes_read len self.old.bytes.now) }
    {
        if self.bytes.len() < len {
            return Err(CodecFault::NoEntry);
        }
        let (run, rest) = self.bytes.split_at(len);
        self.bytes = rest;
        Ok(run)
    }

    /// Bytes of a fixed number.
    #[tactic(auto, unfolding(crate::specs::Readings::bytes_read))]
    fn front<const N: usize>(&mut self) -> Result<[u8; N], CodecFault>
        ensures { GivesRead result self.new.bytes.now (bytes_read N self.old.bytes.now) }
    {
        let Some((front, rest)) = self.bytes.split_first_chunk::<N>() else {
            return Err(CodecFault::NoEntry);
        };
        self.bytes = rest;
        Ok(*front)
    }

    #[tactic(auto, unfolding(crate::specs::Readings::number_read, crate::specs::Readings::bytes_read))]
    pub(crate) fn number16(&mut self) -> Result<u16, CodecFault>
        ensures { GivesRead result self.new.bytes.now (number_read w16 self.old.bytes.now) }
    {
        Ok(u16::from_le_bytes(self.front()?))
    }

    #[tactic(auto, unfolding(crate::specs::Readings::number_read, crate::specs::Readings::bytes_read))]
    pub(crate) fn number32(&mut self) -> Result<u32, CodecFault>
        ensures { GivesRead result self.new.bytes.now (number_read w32 self.old.bytes.now) }
    {
        Ok(u32::from_le_bytes(self.front()?))
    }

    #[tactic(auto, unfolding(crate::specs::Readings::number_read, crate::specs::Readings::bytes_read))]
    pub(crate) fn number64(&mut self) -> Result<u64, CodecFault>
        ensures { GivesRead result self.new.bytes.now (number_read w64 self.old.bytes.now) }
    {
        Ok(u64::from_le_bytes(self.front()?))
    }
}
