//! The numbers of the format. Numbers are little-endian, of the bytes that are told here, and one
//! field stands behind the other. A short text has its length in one byte before it, a long text in
//! two, and a list its count in four.
//!
//!     an entry     the caller's name, short | role 1 | 0, or 1 and its number 8 | moment 8 | kind
//!                  1 | fields
//!
//!     kind         fields
//!      1 Found     depth 2 | term 8 | hold 1 | level 1 | top_grade 1 | doubles, a list of short
//!                  names
//!      2 Topics    a list of: id, short | title, desc, narr, long
//!      3 Submit    run, short | a list of: topic, short | line 4 | a list of short docnos
//!      4 Open
//!      5 Lease     topic, short
//!      6 Grade     lease 4 | grade 1
//!      7 Release   lease 4
//!      8 Amend     topic, short | docno, short | grade 1
//!      9 Rule      as Amend
//!     10 Withdraw  run, short
//!     11 Publish
//!     12 Found     as 1 | a list of: topic, short | level 1, where topics have levels of their own
//!
//!     a bundle     0 | callers, each the name, short, and role 1 | texts, short | entries
//!     its entry    caller | 0, or its number and 1 | seconds since the entry before it | kind 1 |
//!                  fields
//!
//! In a bundle counts, numbers but of one byte, and the indices that stand for callers and texts
//! have groups of 7 bits (`varints`).

/// What a bundle begins with, and no spelling of an entry.
pub(crate) const BUNDLE: u8 = 0;

/// The kinds of commands.
pub(crate) const FOUND: u8 = 1;

pub(crate) const TOPICS: u8 = 2;

pub(crate) const SUBMIT: u8 = 3;

pub(crate) const OPEN: u8 = 4;

pub(crate) const LEASE: u8 = 5;

pub(crate) const GRADE: u8 = 6;

pub(crate) const RELEASE: u8 = 7;

pub(crate) const AMEND: u8 = 8;

pub(crate) const RULE: u8 = 9;

pub(crate) const WITHDRAW: u8 = 10;

pub(crate) const PUBLISH: u8 = 11;

pub(crate) const FOUND_WITH_LEVELS: u8 = 12;

/// The roles of callers.
pub(crate) const ORGANISER: u8 = 1;

pub(crate) const GROUP: u8 = 2;

pub(crate) const ASSESSOR: u8 = 3;

/// What stands before a number: whether there is one.
pub(crate) const UNNUMBERED: u8 = 0;

pub(crate) const NUMBERED: u8 = 1;

/// Leases are below this.
pub(crate) const LEASE_BOUND: u64 = 1 << 32;

/// Printable ASCII, the space included.
pub(crate) const FIRST_PRINTABLE: u8 = 0x20;

pub(crate) const LAST_PRINTABLE: u8 = 0x7E;

/// How many entries a bundle has at most.
pub const MOST_BUNDLED: usize = 4096;

/// How many callers, texts or entries a bundle has at most: an entry uses two texts at most.
pub(crate) const MOST_USES: u64 = 8192;
