//! Why a file wasn't given.

/// Why a shelf gave no file: it has none of this name that is short enough to be read, the read
/// failed, or there was no memory for the bytes.
#[derive(Clone, Copy, Debug, PartialEq, Eq)]
pub enum ShelfFault {
    Absent,
    Failed,
    Memory,
}
