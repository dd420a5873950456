//! The limits of a campaign as the code looks at them: its topics and their texts, runs, documents,
//! lines, docnos, entries, numbers and moments, the bytes of an entry, and the numbers of its
//! rules. `limits_are_the_rules` says that they are those of `specs/Requests/Limits.antt`.

/// How many topics a campaign has at most, and how many its rules name.
pub const MAX_TOPICS: u32 = 250;

/// How many bytes a topic's title has at most.
pub const MAX_TITLE: usize = 1000;

/// How many bytes a topic's description has at most.
pub const MAX_DESC: usize = 8192;

/// How many bytes a topic's narrative has at most.
pub const MAX_NARR: usize = 8192;

/// How many documents a run has on a topic at most.
pub const MAX_DOCS: u32 = 1000;

/// How many runs are ever submitted at most.
pub const MAX_RUNS: u32 = 256;

/// How many lines all runs that were ever submitted have together at most.
pub const MAX_LINES: u32 = 8_000_000;

/// How many different docnos all runs that were ever submitted have at most.
pub const MAX_DOCNOS: u32 = 2_000_000;

/// How many entries are accepted at most, the founding one included.
pub const MAX_ENTRIES: u32 = 4_000_000;

/// The numbers of requests are below this.
pub const NUMBER_BOUND: u64 = 1 << 63;

/// The latest moment of a request, in seconds.
pub const MAX_MOMENT: u64 = 1 << 40;

/// How many bytes the spelling of an entry has at most.
pub const MAX_ENTRY_BYTES: u32 = 1 << 25;

/// The greatest depth of the pools.
pub const MAX_DEPTH: u16 = 1000;

/// The longest term of a lease, in seconds.
pub const MAX_TERM: u64 = 1 << 40;

/// How many live leases the rules give an assessor at most.
pub const MAX_HOLD: u8 = 50;
