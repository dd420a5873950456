//! Why bytes aren't read as an entry.
ghost use Rattle.std.specs.Prelude.{◌≡◌};
ghost use Rattle.record_codec.specs.declared.faults.CodecFault.TheVariants as fault;

use decimal_rank::Memory;
use std::alloc::{AllocError, AllocFailed};

/// Why bytes aren't read: they are the spelling of no entry, or there was no memory for what they
/// spell.
#[derive(Clone, Copy, Debug, PartialEq, Eq)]
pub enum CodecFault {
    NoEntry,
    Memory,
}

impl From<Memory> for CodecFault {
    ghost from_gives = { λ _ e. e ≡ fault.Memory };

    fn from(_memory: Memory) -> CodecFault {
        CodecFault::Memory
    }
}

impl From<AllocError> for CodecFault {
    ghost from_gives = { λ _ e. e ≡ fault.Memory };

    fn from(_error: AllocError) -> CodecFault {
        CodecFault::Memory
    }
}

impl<T: Drop> From<AllocFailed<T>> for CodecFault {
    ghost from_gives = { λ _ e. e ≡ fault.Memory };

    fn from(_error: AllocFailed<T>) -> CodecFault {
        CodecFault::Memory
    }
}
