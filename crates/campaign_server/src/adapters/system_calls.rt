//! What a read and a write of the system come to, for the adapters over them.
ghost use Rattle.std.specs.Prelude.{◌≡◌, ◌<◌, IfOk, Ok, length};
ghost use Rattle.decimal_rank.specs.Causes.{HasCause};

use decimal_rank::{Failed, count_more};

/// How many bytes of a piece a write took, where it didn't fail. One that failed, and one that took
/// nothing of a piece that isn't empty, is counted as a fault.
pub fn taken_by<E: Drop>(
    told: Result<usize, E>,
    piece: &[u8],
    faults: &mut u64,
) -> Result<usize, Failed>
    ensures taken { IfOk result (λ count. told ≡ Ok count) }
    ensures some { IfOk result (λ count. 0 < length piece.now → 0 < count) }
    ensures cause { HasCause faults.old faults.new result }
{
    match told {
        Ok(count) if count > 0 || piece.is_empty() => Ok(count),
        _ => {
            *faults = count_more(*faults);
            Err(Failed)
        }
    }
}

/// How many bytes a read gave, where it didn't fail. One that failed is counted as a fault.
pub(crate) fn given_by<E: Drop>(told: Result<usize, E>, faults: &mut u64) -> Result<usize, Failed>
    ensures given { IfOk result (λ count. told ≡ Ok count) }
    ensures cause { HasCause faults.old faults.new result }
{
    match told {
        Ok(count) => Ok(count),
        Err(_) => {
            *faults = count_more(*faults);
            Err(Failed)
        }
    }
}
