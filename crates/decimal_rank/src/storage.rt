//! What a caller keeps in order, and the want of memory.
ghost use Rattle.std.specs.Prelude.{◌≡◌, List};
ghost use Rattle.std.specs.Cmp.Lexicographic.{lists_per, pointwise};

use std::alloc::{AllocError, AllocFailed};
use std::marker::Model;

/// There was no memory for what a call has to keep.
#[derive(Clone, Copy, Debug, PartialEq, Eq)]
pub struct Memory;

impl From<AllocError> for Memory {
    fn from(_error: AllocError) -> Memory {
        Memory
    }
}

impl<T: Drop> From<AllocFailed<T>> for Memory {
    fn from(_error: AllocFailed<T>) -> Memory {
        Memory
    }
}

/// Items that a caller keeps, in order. Contracts see the list of the items.
#[derive(Debug, Drop)]
pub struct Rows<T> {
    items: Vec<T>,
}

impl<T> Model for Rows<T> {
    ghost Value = { List T };

    ghost view = { λ rows. rows.items.items };
}

impl<T: PartialEq> PartialEq for Rows<T> {
    ghost eq = { pointwise T.eq };

    ghost laws = { lists_per T.laws };

    fn eq(&self, other: &Rows<T>) -> bool {
        self.items() == other.items()
    }
}

impl<T> Rows<T> {
    /// These items as rows.
    pub fn new(items: Vec<T>) -> Rows<T>
        ensures { result ≡ items.items }
    {
        Rows { items }
    }

    /// The rows, in order.
    pub fn items(&self) -> &[T]
        ensures { result.now ≡ self.now }
    {
        self.items.as_slice()
    }
}
