//! A document with its grade, where it has one.
use decimal_rank::DocId;

/// A document and its grade. It is `None` while the document has no grade.
#[derive(Clone, Copy, Debug, PartialEq, Eq)]
pub struct Graded {
    pub doc: DocId,
    pub grade: Option<u8>,
}

/// A document of a trail at its place there, from 0.
#[derive(Clone, Copy, Debug, PartialEq, Eq)]
pub(crate) struct Placed {
    pub(crate) place: u32,
    pub(crate) graded: Graded,
}
