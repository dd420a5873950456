//! The sums of a run's cells over its counted topics, and the means that are taken from them,
//! rounded down.
ghost use Rattle.std.specs.Prelude.{◌≡◌, ℕ, ◌+◌, ◌*◌, ◌/◌, ◌^◌, ◌<◌, ◌≤◌, ◌==◌, ◌++◌, ◌∷◌, [], if◌then◌else◌, All, List, length, map, slice_index};
ghost use Rattle.std.specs.List.{range_with_len};
ghost use Rattle.measures.specs.declared.cells.Cell.{Cell as OneCell};
ghost use Rattle.measures.specs.Cells.{IsSound};
ghost use Rattle.measures.specs.Means.{IsProper, measure_count, summary_of};
ghost use Rattle.measures.specs.Totals.{sums_of};

use crate::cells::Cell;
use crate::means::{MEASURE_COUNT, Summary, values_of};
use std::marker::Model;

/// The number of some cells, the sums of their counts, and the sums of their values by measure, in
/// the order of `MEASURES`.
#[derive(Debug, Drop)]
struct Sums {
    topics: u32,
    ret: u64,
    rel: u64,
    rel_ret: u64,
    values: [u128; MEASURE_COUNT],
}

/// The running sums of cells, for a mean over cells that never stand in one list. Contracts see the
/// number of the cells and the sums.
#[derive(Debug, Drop)]
pub struct Totals {
    sums: Sums,
}

impl Model for Totals {
    ghost use Rattle.measures.specs.declared.totals.Sums.{Sums};
    ghost use Rattle.measures.specs.Totals.{AreBounded};

    ghost Value = { Sums };

    ghost view = { λ totals. totals.sums };

    ghost invariant = { λ totals. AreBounded totals.sums };
}

impl Totals {
    /// No cell yet.
    pub fn new() -> Totals
        ensures sums { result ≡ sums_of [] }
        ensures topics { result.topics ≡ 0 }
    {
        Totals {
            sums: Sums {
                topics: 0,
                ret: 0,
                rel: 0,
                rel_ret: 0,
                values: [0; MEASURE_COUNT],
            },
        }
    }

    /// One more cell.
    pub fn add(&mut self, cell: &Cell)
        requires few { self.old.topics + 1 < 2 ^ 32 }
        requires sound { IsSound cell.now }
        ensures sums { (cells : List OneCell) → self.old ≡ sums_of cells
            → self.new ≡ sums_of (cells ++ cell.now ∷ []) }
        ensures topics { self.new.topics ≡ self.old.topics + 1 }
    {
        let sums = &mut self.sums;
        sums.topics += 1;
        sums.ret += cell.ret as u64;
        sums.rel += cell.rel as u64;
        sums.rel_ret += cell.rel_ret as u64;
        sums.values = values_added(&sums.values, &values_of(cell));
    }

    /// The summary of a run that has these cells on its counted topics, as `mean` gives it.
    pub fn mean(&self) -> Summary
        ensures mean { (cells : List OneCell) → self.now ≡ sums_of cells
            → result ≡ summary_of cells }
        ensures proper { IsProper result }
    {
        let sums = &self.sums;
        let means = shares(&sums.values, sums.topics);
        Summary {
            topics: sums.topics,
            ret: sums.ret,
            rel: sums.rel,
            rel_ret: sums.rel_ret,
            map: means[0],
            r_prec: means[1],
            bpref: means[2],
            recip: means[3],
            at: [
                means[4], means[5], means[6], means[7], means[8], means[9], means[10], means[11],
                means[12],
            ],
        }
    }
}

/// The summary of a run that has these cells on its counted topics.
pub fn mean(cells: &[Cell]) -> Summary
    requires few { length cells.now < 2 ^ 32 }
    requires sound { All IsSound cells.now }
    ensures mean { result ≡ summary_of cells.now }
    ensures proper { IsProper result }
{
    let mut totals = Totals::new();
    for cell in cells {
        totals.add(cell);
    }
    totals.mean()
}

/// The sums of each measure with its value on one more topic.
fn values_added(
    sums: &[u128; MEASURE_COUNT],
    values: &[u64; MEASURE_COUNT],
) -> [u128; MEASURE_COUNT]
    requires few { (i : ℕ) → i < measure_count → slice_index sums.now i ≤ 2 ^ 32 * 10 ^ 15 }
    requires small { All (λ value. value ≤ 10 ^ 15) values.now }
    ensures sums { result ≡ map (λ place. slice_index sums.now place + slice_index values.now place)
        (range_with_len 0 measure_count) }
    ensures within { (i : ℕ) → i < measure_count
        → slice_index result i ≤ slice_index sums.now i + 10 ^ 15 }
{
    let mut added = [0; MEASURE_COUNT];
    for place in 0..MEASURE_COUNT {
        added[place] = sums[place] + values[place] as u128;
    }
    added
}

/// A sum divided by the number of topics, rounded down; 0 where there is none.
fn share(sum: u128, topics: u32) -> u64
    requires { sum ≤ topics * 10 ^ 15 }
    ensures value { result ≡ (if topics == 0 then 0 else sum / topics) }
    ensures within { result ≤ 10 ^ 15 }
{
    if topics == 0 {
        return 0;
    }
    (sum / topics as u128) as u64
}

fn shares(sums: &[u128; MEASURE_COUNT], topics: u32) -> [u64; MEASURE_COUNT]
    requires { (i : ℕ) → i < measure_count → slice_index sums.now i ≤ topics * 10 ^ 15 }
    ensures shares { result
        ≡ map (λ place. if topics == 0 then 0 else slice_index sums.now place / topics)
        (range_with_len 0 measure_count) }
    ensures within { All (λ mean. mean ≤ 10 ^ 15) result }
{
    let mut means = [0; MEASURE_COUNT];
    for place in 0..MEASURE_COUNT {
        means[place] = share(sums[place], topics);
    }
    means
}
