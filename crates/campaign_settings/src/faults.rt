//! Why settings weren't read.

use decimal_rank::Memory;
use std::alloc::{AllocError, AllocFailed};

/// Why settings weren't read: they are refused, or there was no memory for them.
#[derive(Clone, Copy, Debug, PartialEq, Eq)]
pub enum SettingsEnd {
    Refused,
    Memory,
}

impl From<Memory> for SettingsEnd {
    ghost use Rattle.campaign_settings.specs.declared.faults.SettingsEnd.TheVariants.{Memory as NoMemory};
    ghost use Rattle.std.specs.Prelude.{◌≡◌};

    ghost from_gives = { λ _ e. e ≡ NoMemory };

    fn from(_memory: Memory) -> SettingsEnd {
        SettingsEnd::Memory
    }
}

impl From<AllocError> for SettingsEnd {
    ghost use Rattle.campaign_settings.specs.declared.faults.SettingsEnd.TheVariants.{Memory as NoMemory};
    ghost use Rattle.std.specs.Prelude.{◌≡◌};

    ghost from_gives = { λ _ e. e ≡ NoMemory };

    fn from(_error: AllocError) -> SettingsEnd {
        SettingsEnd::Memory
    }
}

impl<T: Drop> From<AllocFailed<T>> for SettingsEnd {
    ghost use Rattle.campaign_settings.specs.declared.faults.SettingsEnd.TheVariants.{Memory as NoMemory};
    ghost use Rattle.std.specs.Prelude.{◌≡◌};

    ghost from_gives = { λ _ e. e ≡ NoMemory };

    fn from(_error: AllocFailed<T>) -> SettingsEnd {
        SettingsEnd::Memory
    }
}
