//! Lists that are read beside a tick alone, so that the steps of a call bound what it reads.
ghost use Rattle.std.specs.Prelude.{◌≡◌, ◌+◌, ◌<◌, Some, length, slice_get};

use crate::steps::Steps;
use std::marker::Model;
use std::sync::ledger::Ledger;

/// Items that nothing reads but `at`. Contracts see the list of the items.
#[derive(Drop)]
pub(crate) struct CountedList<T> {
    items: Vec<T>,
}

impl<T> Model for CountedList<T> {
    ghost use Rattle.std.specs.Prelude.{List};

    ghost Value = { List T };

    ghost view = { λ list. list.items.items };
}

impl<T: Copy> CountedList<T> {
    pub(crate) fn new(items: Vec<T>) -> CountedList<T>
        ensures { result ≡ items.items }
    {
        CountedList { items }
    }

    pub(crate) fn len(&self) -> usize
        ensures { result ≡ length self.now }
    {
        self.items.len()
    }

    /// The item at a place, from 0, in one step.
    pub(crate) fn at<L: Ledger>(&self, place: usize, steps: &mut Steps<L>) -> T
        requires { place < length self.now }
        ensures item { slice_get self.now place ≡ Some result }
        ensures cost { steps.new ≡ steps.old + 1 }
    {
        steps.tick();
        self.items[place]
    }
}
