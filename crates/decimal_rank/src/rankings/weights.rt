//! The unit of scores, 10^-15, and what a rank weighs in it.
ghost use Rattle.std.specs.Prelude.{◌≡◌, ◌≤◌, ◌^◌};
ghost use Rattle.decimal_rank.specs.Rankings.Weights.{weight};

/// 1 in units of 10^-15.
pub const ONE: u64 = 1_000_000_000_000_000;

/// 1 over a rank, counted from 1, in units of 10^-15 and rounded down.
pub fn weight(rank: u32) -> u64
    requires { 1 ≤ rank }
    ensures value { result ≡ weight rank }
    ensures within { result ≤ 10 ^ 15 }
{
    ONE / u64::from(rank)
}
