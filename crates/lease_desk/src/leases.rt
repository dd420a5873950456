//! A lease, and how it ends.
use decimal_rank::{DocId, Text};

/// How a lease came to its end.
#[derive(Clone, Copy, Debug, PartialEq, Eq)]
pub enum LeaseEnd {
    Graded,
    Released,
}

/// A document of a topic that an assessor was given to grade. It is live at each moment before
/// `until`, while it has no end. Leases are numbered from 1, topics from 0.
#[derive(Debug, Drop)]
pub struct Lease {
    pub number: u32,
    pub assessor: Text,
    pub topic: u16,
    pub doc: DocId,
    pub until: u64,
    pub end: Option<LeaseEnd>,
}
