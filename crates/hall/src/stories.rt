//! What proofs speak of: a state, what a seat knows, and where it stands. No value of these is
//! made.

use std::collections::LinkedList;

/// A state: the accepted entries, a count of faults, and that count at the opening, which stays.
pub struct Story<E> {
    pub list: LinkedList<E>,
    pub faults: u64,
    pub opening: u64,
}

/// Where a seat stands.
pub enum Stage<E> {
    /// It hasn't the turn.
    Idle,
    /// It has the turn; the value had this state when the turn was taken.
    Took(Story<E>),
    /// It has the turn, and the entries are counted.
    Counted,
    /// It has the turn for good.
    Ended,
    /// Another seat was joined to it: what each had seen, and the places of each.
    Met(Story<E>, Story<E>, LinkedList<u64>, LinkedList<u64>),
    /// It was joined to another seat.
    Spent,
}

/// What a seat knows: where it stands, the state that was seen, and the places of its own entries,
/// from 1.
pub struct StoryView<E> {
    pub stage: Stage<E>,
    pub seen: Story<E>,
    pub mine: LinkedList<u64>,
}
