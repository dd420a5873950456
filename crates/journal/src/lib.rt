//! A journal over a disk. A record is acknowledged once a crash can't lose it; a crash at any
//! moment leaves the acknowledged records, with the one that is being added or without it.
//!
//! A record is written behind a closed gate and synced; only then its gate is opened, by a write of
//! one byte of its own. All records may be replaced by others, which are moved in
//! (`replacing::moves`): a crash leaves the old ones or the new ones.
//!
//! - `journals`: a journal, and its calls (what contracts see: `specs/Journals.antt`). `layout`,
//!   `reading`: what its bytes give (`specs/Format.antt`).
//! - What a disk keeps for it: `specs/KeptRecords.antt`. What holds at each moment of a call:
//!   `specs/Moments.antt`.
//! - `appends`: an append (`specs/Appends.antt`), over `appends::frames`, `appends::stages` and
//!   `synced_calls`. `mends`: a mend of what is due, `dues` (`specs/Mends.antt`).
//! - `opening`: what a crash left is read and mended (`specs/Openings.antt`).
//! - `replacing`: other records in the place of all (`specs/Replacements.antt`), which
//!   `replacing::areas` writes and `replacing::moves` moves; what the bytes hold meanwhile:
//!   `specs/MovedAreas.antt`.
//!
//! # The file while records are moved
//!
//! An `Area` is new records as they are written, one behind the other, and a closed gate.
//! `Journal::replace` mends what is due and puts an area that has no more bytes than the old
//! records and their gate in their place. `P` is the place at the end of the file. Each phase ends
//! with a sync:
//!
//!     at rest         header 1 0 | old records | 0 |
//!     1. place        header 1 P | old records | 0 | new records | 0 |
//!     2. turn         header 2 P | old records | 0 | new records | 0 |
//!     3. move         header 2 P | new records | 0 | .. | new records | 0 |
//!     4. turn back    header 3 P | new records | 0 | .. | new records | 0 |
//!     5. trim         header 3 P | new records | 0 |
//!                     0          16                  P
//!
//! What each phase writes, what may stand there where the write is cut short, and what a crash then
//! leaves:
//!
//! 1. `P` in bytes 9 to 15, and the area at `P`; any bytes in both ranges; the old records, since
//!    byte 8 isn't 2, so that the place isn't looked at, and nothing is read behind their closed
//!    gate.
//! 2. 2 at byte 8; any byte there; with 2 the new records, found at `P`, else the old ones, at byte
//!    16.
//! 3. The area at byte 16; any bytes in front of `P`, where the area ends at the latest; the new
//!    records, at `P`.
//! 4. 3 at byte 8; any byte there; the new records, at `P` or at byte 16.
//! 5. A cut behind the area; any bytes behind its closed gate; the new records, at byte 16.
//!
//! `Journal::open` goes on with phase 3 where byte 8 is 2 (`move_on` in `opening`), before which it
//! has read the records at `P` and taken the memory for them. Each phase is a function of its own
//! with the clause `any_moment`; what the bytes hold behind it is a definition of
//! `specs/MovedAreas.antt`: `IsPlaced`, `IsTurned`, `IsMoved`, `IsBack`. Phases 2 and 4 rest on
//! `HasBoth`, which doesn't look at byte 8.
#![tactic(auto)]

mod appends;
mod dues;
mod journals;
mod layout;
mod mends;
mod opening;
mod reading;
mod replacing;
mod synced_calls;

pub use appends::frames::Frame;
pub use disk_model::{Disk, Failed};
pub use dues::Due;
pub use journals::Journal;
pub use layout::MOST_PAYLOAD;
pub use opening::OpenFault;
pub use replacing::ReplaceEnd;
pub use replacing::areas::Area;
