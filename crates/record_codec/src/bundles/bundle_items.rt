//! The entries of a bundle, with indices of its tables in place of callers and texts.

/// A command whose topic, document or run is an index of the bundle's texts, from 0.
#[derive(Clone, Copy, Debug)]
pub(crate) enum Brief {
    Open,
    Lease { topic: u64 },
    Grade { lease: u32, grade: u8 },
    Release { lease: u32 },
    Amend { topic: u64, doc: u64, grade: u8 },
    Rule { topic: u64, doc: u64, grade: u8 },
    Withdraw { run: u64 },
    Publish,
}

/// An entry of a bundle.
#[derive(Clone, Copy, Debug)]
pub(crate) struct BundleItem {
    /// The index of its caller in the bundle's callers, from 0.
    pub caller: u64,
    /// 0, or its number and 1.
    pub number: u64,
    /// The seconds since the entry before it, for the first its moment.
    pub passed: u64,
    pub command: Brief,
}
