//! The calls of a disk in memory.
use decimal_rank::Text;

/// A call that did its work.
#[derive(Debug, Drop)]
pub enum DiskCall {
    Len,
    /// So many bytes were read.
    Read { place: u64, count: usize },
    Write { place: u64, piece: Text },
    Cut { to: u64 },
    Sync,
}
