//! Places that are on or off, and a tree of how many are on in each block of 64, which counts those
//! on before a place and finds one by its number.
ghost use Rattle.std.specs.Prelude.{◌≡◌, ℕ, ◌+◌, ◌-◌, ◌*◌, ◌/◌, ◌≤◌, ◌<◌, Bool, List, false, IfOk, MatchOption, length, replicate, slice_index_or, slice_set, take};
ghost use Rattle.decimal_rank.specs.Rankings.Places.{levels};
ghost use Rattle.rank_trees.specs.PlacesOn.{IsSelected, count_on, count_on_below};
ghost use Rattle.rank_trees.specs.Words.{IsNth, number_of_bits};

use crate::place_words::PlaceWords;
use crate::sum_trees::SumTree;
use decimal_rank::{Memory, Steps};
use std::alloc::Global;
use std::marker::Model;
use std::sync::ledger::Ledger;

/// Places, counted from 1, each on or off, and the numbers of those that are on. Contracts see the
/// list of the places. A step is a node of the tree or a word of 64 places visited, in each call at
/// most one for each binary digit of the number of places and one more.
#[derive(Drop)]
pub struct CountTree {
    len: u32,
    places: PlaceWords,
    // of each block of 64 places
    counts: SumTree,
}

impl Model for CountTree {
    ghost use Rattle.std.specs.Prelude.{◌+◌, ◌/◌, Bool, List, take};
    ghost use Rattle.rank_trees.specs.Blocks.{AreSummed, count_from};

    ghost Value = { List Bool };

    ghost view = { λ tree. take tree.len tree.places };

    ghost invariant = { λ tree.
        AreSummed count_from 64 (tree.len / 64 + 1) tree.len tree.places tree.counts };
}

impl CountTree {
    /// So many places, at most 1,000, all off.
    pub fn new(alloc: Global, places: u32) -> Result<CountTree, Memory>
        requires { places ≤ 1000 }
        ensures { IfOk result (λ on. on ≡ replicate places false) }
    {
        let words = PlaceWords::new(alloc, places)?;
        let counts = SumTree::new(alloc, places / 64)?;
        Ok(CountTree {
            len: places,
            places: words,
            counts,
        })
    }

    /// Puts a place on or off.
    pub fn set<L: Ledger>(&mut self, place: u32, on: bool, steps: &mut Steps<L>)
        requires from_one { 1 ≤ place }
        requires within { place ≤ length self.old }
        ensures on { self.new ≡ slice_set self.old (place - 1) on }
        ensures cost { steps.new ≤ steps.old + levels (length self.old) + 1 }
    {
        let was = self.places.put(place - 1, on, steps);
        let less = u64::from(was);
        let more = u64::from(on);
        self.counts.change((place - 1) / 64, less, more, steps);
    }

    /// Whether a place is on, in one step.
    pub fn is_on<L: Ledger>(&self, place: u32, steps: &mut Steps<L>) -> bool
        requires from_one { 1 ≤ place }
        requires within { place ≤ length self.now }
        ensures on { result ≡ slice_index_or self.now (place - 1) false }
        ensures cost { steps.new ≡ steps.old + 1 }
    {
        self.places.is_on(place - 1, steps)
    }

    /// How many places less than this one are on. It may be one past the last.
    pub fn below<L: Ledger>(&self, place: u32, steps: &mut Steps<L>) -> u32
        requires from_one { 1 ≤ place }
        requires within { place ≤ length self.now + 1 }
        ensures count { result ≡ count_on_below self.now place }
        ensures cost { steps.new ≤ steps.old + levels (length self.now) + 1 }
    {
        let block = (place - 1) / 64;
        let before = self.counts.sum_before(block, steps) as u32;
        let word = self.places.from(64 * block, steps);
        before + count_of(word, (place - 1) % 64)
    }

    /// The (j + 1)th place that is on.
    pub fn select<L: Ledger>(&self, j: u32, steps: &mut Steps<L>) -> Option<u32>
        ensures place { MatchOption result (count_on self.now ≤ j) (IsSelected self.now j) }
        ensures cost { steps.new ≤ steps.old + levels (length self.now) + 1 }
    {
        let number = u64::from(j);
        match self.counts.find(number, steps) {
            Some(found) => {
                let block = found.0;
                let word = self.places.from(64 * block, steps);
                Some(64 * block + nth_on(word, found.1 as u32) + 1)
            }
            None => None,
        }
    }
}

/// How many of so many first places of a word are on.
fn count_of(word: u64, count: u32) -> u32
    requires { count < 64 }
    ensures count { (on : List Bool) → word ≡ number_of_bits on
        → result ≡ count_on (take count on) }
    ensures few { result ≤ 64 }
{
    (word & ((1u64 << count) - 1)).count_ones()
}

/// The place of a word, from 0, that is on and has so many before it that are.
fn nth_on(word: u64, number: u32) -> u32
    ensures place { (on : List Bool) → word ≡ number_of_bits on → length on ≤ 64
        → number < count_on on → IsNth on number result }
    ensures few { result ≤ 64 }
{
    let mut bits = word;
    let mut rest = number;
    for place in 0..64 {
        let bit = (bits % 2) as u32;
        if bit > rest {
            return place;
        }
        rest -= bit;
        bits /= 2;
    }
    64
}
