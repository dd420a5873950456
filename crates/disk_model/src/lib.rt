//! A disk as a journal sees it: what a read gives, and what a crash may leave. A disk in memory, by
//! which tests and drills try each fault and each crash, and a file of the system.
//!
//! - `disks`: the five calls. What a disk tells, what a call does, and what a crash may leave of
//!   it: `specs/Disks.antt`.
//! - `memory_disk`: the disk in memory (`specs/MemoryDisks.antt`), over `held_bytes` and
//!   `disk_calls`; its images: `specs/Calls.antt`; what they have of the last sync:
//!   `specs/Syncs.antt`.
//! - `file_disk`: the file. `laws`: what callers may rely on of the images.
#![tactic(auto)]

mod disk_calls;
mod disks;
mod file_disk;
mod held_bytes;
mod laws;
mod memory_disk;

pub use decimal_rank::Failed;
pub use disk_calls::DiskCall;
pub use disks::{Disk, MOST_BYTES};
pub use file_disk::FileDisk;
pub use laws::images_agree_with_the_last_sync;
pub use memory_disk::MemoryDisk;
