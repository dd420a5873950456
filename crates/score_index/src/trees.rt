//! The places of a list as trees: which are relevant, which are judged lower, and what the relevant
//! ones weigh.
ghost use Rattle.std.specs.Prelude.{◌≡◌, ◌+◌, ◌-◌, ◌*◌, ◌≤◌, ◌<◌, false, IfOk, length, replicate, slice_set, take};
ghost use Rattle.decimal_rank.specs.Rankings.Places.{levels};
ghost use Rattle.rank_trees.specs.PlacesOn.{count_on};
ghost use Rattle.score_index.specs.Places.{cap_reached_places, first_from, precision_gain};

use decimal_rank::{Memory, Steps, weight};
use rank_trees::{CountTree, WeightTree};
use std::alloc::Global;
use std::marker::Model;
use std::sync::ledger::Ledger;

/// The places of a list. Contracts see which are relevant and which are judged lower.
#[derive(Drop)]
pub(crate) struct Trees {
    len: u32,
    relevant: CountTree,
    lower: CountTree,
    weights: WeightTree,
}

impl Model for Trees {
    ghost use Rattle.std.specs.Prelude.{◌≡◌, ◌≤◌, length};
    ghost use Rattle.score_index.specs.Places.{Places};

    ghost Value = { Places };

    ghost view = { λ trees. record { relevant = trees.relevant; lower = trees.lower } };

    ghost invariant = { λ trees. (trees.len ≤ 1000) × (length trees.relevant ≡ trees.len)
        × (length trees.lower ≡ trees.len) × (trees.weights ≡ trees.relevant) };
}

impl Trees {
    /// So many places, none of them judged.
    pub(crate) fn new(alloc: Global, len: u32) -> Result<Trees, Memory>
        requires { len ≤ 1000 }
        ensures relevant { IfOk result (λ places. places.relevant ≡ replicate len false) }
        ensures lower { IfOk result (λ places. places.lower ≡ replicate len false) }
    {
        Ok(Trees {
            len,
            relevant: CountTree::new(alloc, len)?,
            lower: CountTree::new(alloc, len)?,
            weights: WeightTree::new(alloc, len)?,
        })
    }

    /// How many places there are.
    pub(crate) fn len(&self) -> u32
        ensures len { result ≡ length self.now.relevant }
        ensures few { length self.now.relevant ≤ 1000 }
        ensures long { length self.now.lower ≡ length self.now.relevant }
    {
        self.len
    }

    /// Makes a place relevant, or not.
    pub(crate) fn set_relevant<L: Ledger>(&mut self, place: u32, on: bool, steps: &mut Steps<L>)
        requires from_one { 1 ≤ place }
        requires within { place ≤ length self.old.relevant }
        ensures relevant { self.new.relevant ≡ slice_set self.old.relevant (place - 1) on }
        ensures lower { self.new.lower ≡ self.old.lower }
        ensures cost { steps.new ≤ steps.old + 2 * (levels (length self.old.relevant) + 1) }
    {
        self.relevant.set(place, on, steps);
        self.weights.set(place, on, steps);
    }

    /// Makes a place judged lower, or not.
    pub(crate) fn set_lower<L: Ledger>(&mut self, place: u32, on: bool, steps: &mut Steps<L>)
        requires from_one { 1 ≤ place }
        requires within { place ≤ length self.old.relevant }
        ensures relevant { self.new.relevant ≡ self.old.relevant }
        ensures lower { self.new.lower ≡ slice_set self.old.lower (place - 1) on }
        ensures cost { steps.new ≤ steps.old + (levels (length self.old.relevant) + 1) }
    {
        self.lower.set(place, on, steps);
    }

    /// What a place adds to the sum of precisions where it becomes relevant.
    pub(crate) fn precision_gain<L: Ledger>(&self, place: u32, steps: &mut Steps<L>) -> u64
        requires from_one { 1 ≤ place }
        requires within { place ≤ length self.now.relevant }
        ensures gain { result ≡ precision_gain 1 0 self.now.relevant (place - 1) }
        ensures cost { steps.new ≤ steps.old + 2 * (levels (length self.now.relevant) + 1) }
    {
        let found = u64::from(self.relevant.below(place, steps)) + 1;
        found * weight(place) + self.weights.above(place, steps)
    }

    /// What the places judged lower above a place leave of the cap.
    pub(crate) fn left_above<L: Ledger>(&self, place: u32, cap: u32, steps: &mut Steps<L>) -> u64
        requires from_one { 1 ≤ place }
        requires within { place ≤ length self.now.relevant }
        ensures left { result ≡ cap - count_on (take (place - 1) self.now.lower) }
        ensures cost { steps.new ≤ steps.old + (levels (length self.now.relevant) + 1) }
    {
        u64::from(cap.saturating_sub(self.lower.below(place, steps)))
    }

    /// How many relevant places, of which there are `all`, have at most the cap of places judged
    /// lower above them.
    pub(crate) fn reached<L: Ledger>(&self, cap: u32, all: u32, steps: &mut Steps<L>) -> u32
        requires { all ≡ count_on self.now.relevant }
        ensures reached { result ≡ cap_reached_places cap 0 self.now.relevant self.now.lower }
        ensures few { result ≤ 1000 }
        ensures cost { steps.new ≤ steps.old + 2 * (levels (length self.now.relevant) + 1) }
    {
        match self.lower.select(cap, steps) {
            Some(place) => self.relevant.below(place + 1, steps),
            None => all,
        }
    }

    /// The same, of the relevant places behind a place.
    pub(crate) fn reached_past<L: Ledger>(
        &self,
        place: u32,
        cap: u32,
        all: u32,
        steps: &mut Steps<L>,
    ) -> u64
        requires within { place ≤ length self.now.relevant }
        requires all { all ≡ count_on self.now.relevant }
        ensures reached { result
            ≡ cap_reached_places cap 0 self.now.relevant self.now.lower - count_on
            (take place self.now.relevant) }
        ensures cost { steps.new ≤ steps.old + 3 * (levels (length self.now.relevant) + 1) }
    {
        let reached = self.reached(cap, all, steps);
        u64::from(reached.saturating_sub(self.relevant.below(place + 1, steps)))
    }

    /// How many of the first places are relevant, where `all` are: past the last place these are
    /// all.
    pub(crate) fn relevant_to<L: Ledger>(&self, rank: u32, all: u32, steps: &mut Steps<L>) -> u32
        requires { all ≡ count_on self.now.relevant }
        ensures count { result ≡ count_on (take rank self.now.relevant) }
        ensures cost { steps.new ≤ steps.old + (levels (length self.now.relevant) + 1) }
    {
        if rank >= self.len {
            return all;
        }
        self.relevant.below(rank + 1, steps)
    }

    /// How many relevant places have this rank: 1, or none.
    pub(crate) fn relevant_at<L: Ledger>(&self, rank: u32, steps: &mut Steps<L>) -> u32
        requires { 1 ≤ rank }
        ensures more { count_on (take rank self.now.relevant)
            ≡ count_on (take (rank - 1) self.now.relevant) + result }
        ensures one { result ≤ 1 }
        ensures cost { steps.new ≤ steps.old + 1 }
    {
        if rank > self.len {
            return 0;
        }
        u32::from(self.relevant.is_on(rank, steps))
    }

    /// The first relevant place, or 0.
    pub(crate) fn first_relevant<L: Ledger>(&self, steps: &mut Steps<L>) -> u32
        ensures first { result ≡ first_from 1 self.now.relevant }
        ensures cost { steps.new ≤ steps.old + (levels (length self.now.relevant) + 1) }
    {
        match self.relevant.select(0, steps) {
            Some(place) => place,
            None => 0,
        }
    }
}
