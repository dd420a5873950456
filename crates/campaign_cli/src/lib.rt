//! The program of a campaign: the words that it is called with, the files that it reads, the output
//! that it writes, the door that it opens, the disk that it keeps a campaign on and the archive
//! that it puts releases into. `Shelf` and `Sink` stand for the outside, beside `Link`, `Door`,
//! `Disk` and `Keeper` of the crates below; each has a form in memory and an adapter over the real
//! thing.
//!
//! - `program`: the top call, `campaign`. `surroundings::devices`: what it is lent; what it sees of
//!   it: `specs/Surroundings/Outside.antt`.
//! - `words`: the forms of the commands; what words ask for: `specs/Requests.antt`.
//! - `openings`: the campaign of the settings, opened from the disk, and how each command over it
//!   ends: `specs/Ends/BookEnds.antt`.
//! - The commands, and how they end: `commands::evaluations` (`specs/Ends/EvalEnds.antt`),
//!   `commands::sessions` (`specs/Ends/SessionEnds.antt`), `commands::servers`
//!   (`specs/Ends/ServeEnds.antt`), `commands::drills` (`specs/Ends/DrillEnds.antt`),
//!   `commands::compactions` (`specs/Ends/CompactEnds.antt`), `commands::archives`
//!   (`specs/Ends/ArchiveEnds.antt`), `commands::reports` (`specs/Ends/ReportEnds.antt`).
//! - `commands::displays`: `check`, `reuse` and `agreement` (`specs/Ends/ShownEnds.antt`), whose
//!   texts are made by `commands::checks`, `commands::reuses` and `commands::agreements`
//!   (`specs/ShownTexts.antt`).
//! - What there is to know of a command: `specs/Kinds.antt`. The causes and what is printed:
//!   `endings`, `printing` (`specs/Causes.antt`); what a status says: `statuses`, `laws`
//!   (`specs/Statuses.antt`).
//! - Files: `surroundings::shelves`, `surroundings::file_shelf`, `surroundings::memory_shelf`,
//!   `readings`, `surroundings::faults`. Output: `surroundings::output_sink`,
//!   `surroundings::memory_sink`. The pages that the program asks for itself: `pages`.
#![tactic(auto)]

mod commands;
mod endings;
mod laws;
mod openings;
mod pages;
mod printing;
mod program;
mod readings;
mod statuses;
mod surroundings;
mod words;

pub use commands::displays::Display;
pub use decimal_rank::{Failed, Output as Sink, write_all};
pub use laws::{
    archives_add_one, calm_sessions_are_answered, each_status_says, servers_stand, sessions_stand,
};
pub use program::campaign;
pub use statuses::Status;
pub use surroundings::faults::ShelfFault;
pub use surroundings::file_shelf::FileShelf;
pub use surroundings::memory_shelf::MemoryShelf;
pub use surroundings::memory_sink::MemorySink;
pub use surroundings::output_sink::OutputSink;
pub use surroundings::shelves::{MOST_BYTES, Shelf};
pub use words::{Command, USAGE_LINE, read_words};
