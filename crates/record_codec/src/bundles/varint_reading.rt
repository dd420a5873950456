//! Whole numbers in groups of 7 bits, read.
ghost use Rattle.std.specs.Prelude.{◌≡◌};
ghost use Rattle.record_codec.specs.Outcomes.{GivesRead, GivesReadBy};
ghost use Rattle.record_codec.specs.BundleGrammar.{groups_read, varint_read};

use crate::cursor::Cursor;
use crate::faults::CodecFault;

/// A number and the groups above it stay below 2^64 where these are below this.
const HIGH_BOUND: u64 = 1 << 57;

/// A number of so many groups at most, the lowest first.
fn groups(left: &mut Cursor, most: u32) -> Result<u64, CodecFault>
    ensures { GivesRead result left.new.bytes.now (groups_read most left.old.bytes.now) }
{
    if most == 0 {
        return Err(CodecFault::NoEntry);
    }
    let low = left.byte()?;
    if low < 128 {
        return Ok(low as u64);
    }
    let high = groups(left, most - 1)?;
    if high >= HIGH_BOUND {
        return Err(CodecFault::NoEntry);
    }
    Ok((low - 128) as u64 + 128 * high)
}

/// A number below 2^64, in ten groups at most. Needless groups of 0 are let through.
#[tactic(auto, unfolding(crate::specs::BundleGrammar::varint_read))]
pub(crate) fn varint(left: &mut Cursor) -> Result<u64, CodecFault>
    ensures { GivesRead result left.new.bytes.now (varint_read left.old.bytes.now) }
{
    groups(left, 10)
}
