//! The measures, the value of each for one cell in units of 10^-15, and the summary of a run.
ghost use Rattle.std.specs.Prelude.{◌≡◌, ◌^◌, ◌<◌, ◌≤◌, ◌==◌, if◌then◌else◌, All};
ghost use Rattle.measures.specs.Cells.{IsSound};
ghost use Rattle.measures.specs.Means.{IsMeasure, fixed_of, mean_in, means_in as means_listed, value_of as measured, values_of as values_listed};

use crate::cells::{CUTOFFS, Cell};
use decimal_rank::ONE;

/// A measure of a ranked list on a topic. `Precision` is P_k, by the place of k in `CUTOFFS` from
/// 0.
#[derive(Clone, Copy, Debug, PartialEq, Eq)]
pub enum Measure {
    Map,
    RPrec,
    Bpref,
    RecipRank,
    Precision(usize),
}

/// How many measures there are.
pub(crate) const MEASURE_COUNT: usize = 13;

/// The measures in the order in which they are printed.
pub(crate) const MEASURES: [Measure; MEASURE_COUNT] = [
    Measure::Map,
    Measure::RPrec,
    Measure::Bpref,
    Measure::RecipRank,
    Measure::Precision(0),
    Measure::Precision(1),
    Measure::Precision(2),
    Measure::Precision(3),
    Measure::Precision(4),
    Measure::Precision(5),
    Measure::Precision(6),
    Measure::Precision(7),
    Measure::Precision(8),
];

/// The printed name of each of `MEASURES`.
pub(crate) static NAMES: [&[u8]; MEASURE_COUNT] = [
    b"map",
    b"Rprec",
    b"bpref",
    b"recip_rank",
    b"P_5",
    b"P_10",
    b"P_15",
    b"P_20",
    b"P_30",
    b"P_100",
    b"P_200",
    b"P_500",
    b"P_1000",
];

/// A run over its counted topics: their number; the documents retrieved, the relevant ones and the
/// relevant ones retrieved on all of them; and the mean of each measure, in units of 10^-15.
#[derive(Clone, Copy, Debug, PartialEq, Eq)]
pub struct Summary {
    pub topics: u32,
    pub ret: u64,
    pub rel: u64,
    pub rel_ret: u64,
    pub map: u64,
    pub r_prec: u64,
    pub bpref: u64,
    pub recip: u64,
    pub at: [u64; 9],
}

/// `num` over `den` in units of 10^-15, rounded down.
pub fn fixed(num: u64, den: u64) -> u64
    requires den { 0 < den }
    requires num { num ≤ den }
    ensures value { result ≡ fixed_of num den }
    ensures within { result ≤ 10 ^ 15 }
{
    (num as u128 * ONE as u128 / den as u128) as u64
}

/// The value of each measure for one cell, in the order of `MEASURES`.
pub(crate) fn values_of(cell: &Cell) -> [u64; MEASURE_COUNT]
    requires sound { IsSound cell.now }
    ensures values { result ≡ values_listed cell.now }
    ensures within { All (λ value. value ≤ 10 ^ 15) result }
{
    let mut values = [0; MEASURE_COUNT];
    for place in 0..MEASURE_COUNT {
        values[place] = value_of(MEASURES[place], cell);
    }
    values
}

/// The mean of each measure in a summary, in the order of `MEASURES`.
pub(crate) fn means_in(summary: &Summary) -> [u64; MEASURE_COUNT]
    ensures { result ≡ means_listed summary.now }
{
    let mut means = [0; MEASURE_COUNT];
    for place in 0..MEASURE_COUNT {
        means[place] = mean_of(MEASURES[place], summary);
    }
    means
}

#[tactic(auto, using(crate::proofs::Cutoffs::cutoff_positive))]
fn value_of(measure: Measure, cell: &Cell) -> u64
    requires measure { IsMeasure measure }
    requires sound { IsSound cell.now }
    ensures value { result ≡ measured measure cell.now }
    ensures within { result ≤ 10 ^ 15 }
{
    if cell.rel == 0 {
        return 0;
    }
    match measure {
        Measure::Map => cell.ap_sum / cell.rel as u64,
        Measure::RPrec => fixed(cell.r_prec as u64, cell.rel as u64),
        Measure::Bpref => fixed(cell.bpref_num, cell.bpref_den),
        Measure::RecipRank => reciprocal(cell.first),
        Measure::Precision(place) => fixed(cell.at[place] as u64, CUTOFFS[place] as u64),
    }
}

fn mean_of(measure: Measure, summary: &Summary) -> u64
    requires { IsMeasure measure }
    ensures { result ≡ mean_in summary.now measure }
{
    match measure {
        Measure::Map => summary.map,
        Measure::RPrec => summary.r_prec,
        Measure::Bpref => summary.bpref,
        Measure::RecipRank => summary.recip,
        Measure::Precision(place) => summary.at[place],
    }
}

/// 1 over a rank, or 0 where the rank is 0.
fn reciprocal(rank: u32) -> u64
    ensures value { result ≡ (if rank == 0 then 0 else fixed_of 1 rank) }
    ensures within { result ≤ 10 ^ 15 }
{
    if rank == 0 { 0 } else { fixed(1, rank as u64) }
}
