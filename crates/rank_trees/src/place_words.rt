//! Places that are on or off, 64 in a word, the first of them its lowest bit. Words are read and
//! changed beside a tick alone, so that the steps of a call count what it visits.
ghost use Rattle.std.specs.Prelude.{◌≡◌, ℕ, ◌+◌, ◌-◌, ◌*◌, ◌/◌, ◌%◌, ◌<◌, ◌≤◌, ◌^◌, ◌==◌, true, false, IfOk, drop, length, replicate, slice_index, slice_index_or, slice_set, take};
ghost use Rattle.rank_trees.specs.Words.{bits, number_of_bits};

use decimal_rank::{Memory, Steps};
use std::alloc::Global;
use std::marker::Model;
use std::sync::ledger::Ledger;

/// Words that nothing reads but `from` and `put`. Contracts see the list of the places, counted
/// from 0, to the end of the last word.
#[derive(Drop)]
pub struct PlaceWords {
    words: Vec<u64>,
}

impl Model for PlaceWords {
    ghost use Rattle.std.specs.Prelude.{Bool, List};
    ghost use Rattle.rank_trees.specs.Words.{places_in};

    ghost Value = { List Bool };

    ghost view = { λ places. places_in 64 places.words.items };
}

impl PlaceWords {
    /// Words for at least so many places and one more, all off.
    pub fn new(alloc: Global, places: u32) -> Result<PlaceWords, Memory>
        ensures { IfOk result (λ on. on ≡ replicate (64 * (places / 64 + 1)) false) }
    {
        let words = vec![in alloc; 0; places as usize / 64 + 1]?;
        Ok(PlaceWords { words })
    }

    /// The places from one on to the end of its word, in one step.
    pub(crate) fn from<L: Ledger>(&self, index: u32, steps: &mut Steps<L>) -> u64
        requires { index < length self.now }
        ensures places { result ≡ number_of_bits (take (64 - index % 64) (drop index self.now)) }
        ensures cost { steps.new ≡ steps.old + 1 }
    {
        word_of(&self.words, index, steps) >> (index % 64)
    }

    /// Whether a place is on, in one step.
    pub fn is_on<L: Ledger>(&self, index: u32, steps: &mut Steps<L>) -> bool
        requires { index < length self.now }
        ensures on { result ≡ slice_index_or self.now index false }
        ensures cost { steps.new ≡ steps.old + 1 }
    {
        self.from(index, steps) % 2 == 1
    }

    /// Puts a place on or off, in one step, and tells whether it was on.
    pub fn put<L: Ledger>(&mut self, index: u32, on: bool, steps: &mut Steps<L>) -> bool
        requires { index < length self.old }
        ensures places { self.new ≡ slice_set self.old index on }
        ensures was { result ≡ slice_index_or self.old index false }
        ensures cost { steps.new ≡ steps.old + 1 }
    {
        let word = word_of(&self.words, index, steps);
        self.words[index as usize / 64] = with_place(word, index % 64, on);
        is_on(word, index % 64)
    }
}

/// The word of a place, in one step.
fn word_of<L: Ledger>(words: &[u64], index: u32, steps: &mut Steps<L>) -> u64
    requires { index / 64 < length words.now }
    ensures word { result ≡ slice_index words.now (index / 64) }
    ensures cost { steps.new ≡ steps.old + 1 }
{
    steps.tick();
    words[index as usize / 64]
}

/// Whether a place of a word is on.
fn is_on(word: u64, place: u32) -> bool
    requires { place < 64 }
    ensures { result ≡ (word / 2 ^ place % 2 == 1) }
{
    (word >> place) % 2 == 1
}

/// A word with a place put on or off.
fn with_place(word: u64, place: u32, on: bool) -> u64
    requires { place < 64 }
    ensures { (width : ℕ) → place < width
        → bits width result ≡ slice_set (bits width word) place on }
{
    if on {
        return with_place_on(word, place);
    }
    with_place_off(word, place)
}

fn with_place_on(word: u64, place: u32) -> u64
    requires { place < 64 }
    ensures { (width : ℕ) → place < width
        → bits width result ≡ slice_set (bits width word) place true }
{
    if is_on(word, place) {
        return word;
    }
    word + (1u64 << place)
}

fn with_place_off(word: u64, place: u32) -> u64
    requires { place < 64 }
    ensures { (width : ℕ) → place < width
        → bits width result ≡ slice_set (bits width word) place false }
{
    if is_on(word, place) {
        return word - (1u64 << place);
    }
    word
}
