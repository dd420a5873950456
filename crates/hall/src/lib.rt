//! A hall: many workers act on one value, one at a time, and their answers are those of one
//! history. Each worker has a pass, which knows what its worker has seen of the history and what it
//! added.
//!
//! - `halls`: a hall, and its steps. `turns`: the rule that each step keeps (`specs/Rule.antt`).
//! - `passes`: what a worker knows, and what an act comes to (`specs/Acts.antt`).
//! - `storied`: what a hall holds; how its states grow: `specs/Stories.antt`. `stories`: what
//!   proofs speak of.
//!
//! # A hall and its workers
//!
//!     lock word   0 the turn is free, 1 a worker has it, 2 it is taken for good
//!     count word  the number of entries
//!     slot        the value, while nobody has the turn
//!
//!                  worker                              hall
//!     take         lock 0 -> 1, or sleep on it         the worker has the value
//!     value out    slot -> worker                      nothing in the slot's place
//!     act          answer, one entry more at most
//!     count        count word <- length                what the worker has seen, and its new place
//!     value in     worker -> slot
//!     leave        lock <- 0, wake one                 the value is at home
//!     split        a second pass, which has seen as much and made nothing
//!     join, look   one pass, which has seen what both had seen and keeps what both made
//!     end          lock <- 2, and the value is given back
//!
//! A pass is a worker's token. It has no bytes: it stands for what the worker has seen of the
//! history and for the places of the entries that it added. The rule (`specs/Rule.antt`) is about
//! the two words, the slot and all passes: of what any two have seen one begins the other, the
//! greatest is the value's own, the count is its length, and no place is of two passes. Each row
//! above is one atomic step that keeps it (`proofs/TurnSteps.antt`, `proofs/SeatSteps.antt`); the
//! slot itself is only read and written by the worker that has the turn. So each answer is what the
//! value answers in a state that begins with all that this worker had seen, and what comes later
//! begins with it. `Hall` knows nothing of what it holds but `Storied`.
#![tactic(auto)]

mod halls;
mod passes;
mod storied;
mod stories;
mod turns;

pub use halls::Hall;
pub use passes::Pass;
pub use storied::Storied;
pub use stories::Story;
