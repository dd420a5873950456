//! A campaign that is kept on a disk: a command is accepted once its entry is journaled, so that a
//! crash loses no accepted one.
//!
//! - `books`: a book, and one request to it; what contracts see, and what a request makes of it:
//!   `specs/Books.antt`; what the disk may hold then: `specs/Images.antt`.
//! - `journaling`: an entry's record, what is due before it, and the entry that may be on the disk
//!   though its journaling failed (`journaling::pending`). `journaling::commits`: the last step of
//!   an accepted one.
//! - `opening`: a book from what a disk holds (`specs/Opening/Openings.antt`). `replays`: its
//!   records as entries. `replays::record_entries`: an entry from a record. `replays::founding`:
//!   the first entry.
//! - The entries that records unfold to, one or a bundle's, and their story: `specs/Stories.antt`.
//! - `compacting`: a journal's records replaced by bundles of its entries
//!   (`specs/Compaction/Compactings.antt`), which `packing` makes.
//! - `halls`: a book as what a hall holds, on which many callers act one at a time
//!   (`specs/Halls.antt`).
//! - `faults`: why a disk isn't opened. `laws`: what the rules promise of the entries that they
//!   add. Laws for callers: `specs/RunLaws.antt`, `specs/Opening/OpeningLaws.antt`.
#![tactic(auto)]

mod books;
mod compacting;
mod faults;
mod halls;
mod journaling;
mod laws;
mod opening;
mod packing;
mod replays;

pub use books::Book;
pub use compacting::{CompactEnd, compact};
pub use disk_model::Disk;
pub use faults::BookFault;
