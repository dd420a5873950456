//! Places that are on or off, and a tree of what those that are on weigh in each block of 16, which
//! sums the weights of those that are on past a place.
ghost use Rattle.std.specs.Prelude.{◌≡◌, ℕ, ◌+◌, ◌-◌, ◌*◌, ◌≤◌, ◌<◌, ◌^◌, Bool, List, false, IfOk, if◌then◌else◌, length, replicate, slice_set, take};
ghost use Rattle.decimal_rank.specs.Rankings.Places.{levels};
ghost use Rattle.decimal_rank.specs.Rankings.Weights.{weight};
ghost use Rattle.rank_trees.specs.PlacesOn.{weights_above, weights_from};
ghost use Rattle.rank_trees.specs.Words.{number_of_bits};

use crate::place_words::PlaceWords;
use crate::sum_trees::SumTree;
use decimal_rank::{Memory, Steps, weight};
use std::alloc::Global;
use std::marker::Model;
use std::sync::ledger::Ledger;

/// Places, counted from 1, each on or off, and the sums of the weights of those that are on: a
/// place weighs one over itself, in units of 10^-15 and rounded down. Contracts see the list of the
/// places. A step is a node of the tree or a word of 64 places visited, in each call at most one
/// for each binary digit of the number of places and one more.
#[derive(Drop)]
pub struct WeightTree {
    len: u32,
    places: PlaceWords,
    // of each block of 16 places
    weights: SumTree,
}

impl Model for WeightTree {
    ghost use Rattle.std.specs.Prelude.{◌+◌, ◌/◌, Bool, List, take};
    ghost use Rattle.rank_trees.specs.Blocks.{AreSummed};
    ghost use Rattle.rank_trees.specs.PlacesOn.{weights_from};

    ghost Value = { List Bool };

    ghost view = { λ tree. take tree.len tree.places };

    ghost invariant = { λ tree.
        AreSummed weights_from 16 (tree.len / 16 + 1) tree.len tree.places tree.weights };
}

impl WeightTree {
    /// So many places, at most 1,000, all off.
    pub fn new(alloc: Global, places: u32) -> Result<WeightTree, Memory>
        requires { places ≤ 1000 }
        ensures { IfOk result (λ on. on ≡ replicate places false) }
    {
        let words = PlaceWords::new(alloc, places)?;
        let weights = SumTree::new(alloc, places / 16)?;
        Ok(WeightTree {
            len: places,
            places: words,
            weights,
        })
    }

    /// Puts a place on or off.
    pub fn set<L: Ledger>(&mut self, place: u32, on: bool, steps: &mut Steps<L>)
        requires from_one { 1 ≤ place }
        requires within { place ≤ length self.old }
        ensures on { self.new ≡ slice_set self.old (place - 1) on }
        ensures cost { steps.new ≤ steps.old + levels (length self.old) + 1 }
    {
        let was = self.places.put(place - 1, on, steps);
        let less = weight_if(was, place);
        let more = weight_if(on, place);
        self.weights.change((place - 1) / 16, less, more, steps);
    }

    /// What the places weigh that are on and greater than this one, which may be 0.
    pub fn above<L: Ledger>(&self, place: u32, steps: &mut Steps<L>) -> u64
        requires { place ≤ length self.now }
        ensures weights { result ≡ weights_above self.now place }
        ensures cost { steps.new ≤ steps.old + levels (length self.now) + 1 }
    {
        let block = place / 16;
        let from_block = self.weights.sum_from(block, steps);
        if place % 16 == 0 {
            return from_block;
        }
        let word = self.places.from(16 * block, steps);
        from_block - weights_of(word, 16 * block + 1, place % 16)
    }
}

/// What a place weighs where it is on, and 0 where it is off.
fn weight_if(on: bool, place: u32) -> u64
    requires { 1 ≤ place }
    ensures weight { result ≡ (if on then weight place else 0) }
    ensures small { result ≤ 10 ^ 15 }
{
    if on { weight(place) } else { 0 }
}

/// What so many first places of a word weigh that are on, where the word begins at a place.
fn weights_of(word: u64, first: u32, count: u32) -> u64
    requires from_one { 1 ≤ first }
    requires few { first ≤ 1000 }
    requires within { count ≤ 16 }
    ensures { (on : List Bool) → word ≡ number_of_bits on
        → result ≡ weights_from first (take count on) }
{
    let mut bits = word;
    let mut sum = 0;
    for i in 0..count {
        sum += weight_if(bits % 2 == 1, first + i);
        bits /= 2;
    }
    sum
}
