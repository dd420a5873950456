//! A campaign that is generated from a number, and played message by message through the path of a
//! session, on a disk in memory.
//!
//! - `numbers`: what a campaign is generated from. `figures`: its names, scores and grades
//!   (`specs/Figures.antt`). `texts`: its topics and runs as texts (`specs/Texts.antt`).
//! - `messages`: the messages of its callers (`specs/Messages.antt`). That a connection takes them:
//!   `IsSendable` there, and `proofs/OwnMessages/OwnRequests.antt`.
//! - `exchanges`: a message that is sent twice, and its answers (`specs/Exchanges.antt`).
//!   `answers`: what these tell.
//! - `plays`: the messages in their order (`specs/Plays.antt`). That the leases of a topic end:
//!   `proofs/OwnMessages/CountedMessages.antt`.
//! - `summaries`: the seven lines that are printed (`specs/Summaries.antt`). `drills`: the whole.
#![tactic(auto)]

mod answers;
mod drills;
mod exchanges;
mod figures;
mod messages;
mod numbers;
mod plays;
mod summaries;
mod texts;

pub use drills::drill;
pub use numbers::{DrillNumbers, are_numbers};
