//! Why a request asks nothing, in the order in which the causes are looked for: path, method, key,
//! role, number, body.
use decimal_rank::Memory;
use trec_formats::FormatFault;

/// Why a request asks nothing, in the order in which the causes are looked for. Each has a status
/// of its own.
#[derive(Clone, Copy, Debug, PartialEq, Eq)]
pub enum RouteFault {
    /// No row of the table has this path. Status 404.
    Route,
    /// No row has this path with this method. Status 405.
    Method,
    /// The key is no caller's. Status 401.
    Key,
    /// The caller's role may not ask this. Status 403.
    Role,
    /// The number is none. Status 400.
    Number,
    /// The body is not what the row asks for. Status 400.
    Body,
    /// The first fault of a run's or of the topics' text. Status 400.
    Format(FormatFault),
    /// There was no memory for the request. Status 507.
    Memory,
}

impl From<Memory> for RouteFault {
    ghost use Rattle.std.specs.Prelude.{◌≡◌};
    ghost use Rattle.routes.specs.declared.faults.RouteFault.TheVariants.{Memory as NoMemory};

    ghost from_gives = { λ _ cause. cause ≡ NoMemory };

    fn from(_memory: Memory) -> RouteFault {
        RouteFault::Memory
    }
}
