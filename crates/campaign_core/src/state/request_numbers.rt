//! The numbers that callers gave their accepted commands, in a table by caller and number.
ghost use Rattle.std.specs.Prelude.{◌≡◌, ◌++◌, ◌∷◌, [], None, IfOk, OnOk, OnErr, length, take};
ghost use Rattle.campaign_core.specs.Numbering.NumberedRequests.{numbered_at, place_of_number};

use decimal_rank::{Memory, Secret, Text};
use indexmap::IndexMap;
use std::alloc::Global;
use std::marker::Model;

/// The places, from 1, of the entries that have a number, by the caller's name and the number.
/// Contracts see them in the order in which they came.
#[derive(Drop)]
pub(crate) struct RequestNumbers {
    places: IndexMap<(Text, u64), u32, Secret>,
}

impl Model for RequestNumbers {
    ghost use Rattle.std.specs.Prelude.{List, map};
    ghost use Rattle.campaign_core.specs.Numbering.NumberedRequests.{NumberedRequest, numbered_at};

    ghost Value = { List NumberedRequest };

    ghost view = { λ numbers.
        map (λ entry. numbered_at entry.1 entry.0.0 entry.0.1) numbers.places.entries };
}

impl RequestNumbers {
    pub(crate) fn new(alloc: Global) -> RequestNumbers
        ensures { result ≡ [] }
    {
        RequestNumbers {
            places: IndexMap::with_hasher(alloc, Secret::drawn()),
        }
    }

    pub(crate) fn len(&self) -> usize
        ensures { result ≡ length self.now }
    {
        self.places.len()
    }

    /// The place of the entry for which a caller used a number.
    pub(crate) fn find(&self, caller: &Text, number: u64) -> Result<Option<u32>, Memory>
        ensures { IfOk result (λ place. place ≡ place_of_number caller.now number self.now) }
    {
        let key = (caller.copy()?, number);
        Ok(self.places.get(&key).copied())
    }

    /// Adds the place of an entry, whose caller didn't use this number before.
    pub(crate) fn add(&mut self, caller: Text, number: u64, place: u32) -> Result<(), Memory>
        requires { place_of_number caller number self.old ≡ None }
        ensures ok { OnOk result (self.new ≡ self.old ++ numbered_at place caller number ∷ []) }
        ensures err { OnErr result (self.new ≡ self.old) }
    {
        self.places.insert((caller, number), place)?;
        Ok(())
    }

    /// Keeps the first ones alone.
    pub(crate) fn cut(&mut self, len: usize)
        ensures { self.new ≡ take len self.old }
    {
        self.places.truncate(len);
    }
}
