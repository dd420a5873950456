//! What standard error is told, beside what the program prints.
//!
//! - `sentences`: the sentence of each status.
//! - `complaints`: why settings are refused, with the line, over `setting_lines`; `setting_faults`:
//!   what is wrong, as a sentence.
//! - `journal_faults`: why the journal's file can't be used.
//! - `disk_reports`: what a disk tells as it is used. A new ghost member of `Disk` wants its line
//!   there.
#![tactic(auto)]

mod complaints;
mod disk_reports;
mod journal_faults;
mod sentences;
mod setting_faults;
mod setting_lines;

pub use complaints::tell_settings;
pub use disk_reports::ReportingDisk;
pub use journal_faults::tell_journal;
pub use sentences::{tell_status, tell_usage};
