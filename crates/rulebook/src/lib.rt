//! The campaign's rules. `src/` has what requests, entries and replies are; `specs/` has the rules
//! themselves, as definitions over the list of accepted entries.
//!
//! - Types: `ask` (commands and queries), `entry`, `reply`, `answer`, `rules` (roles, phases,
//!   settings), `systems` (a run in a release), `limits` (`specs/Requests/Limits.antt`).
//! - A request: what it is answered `specs/Answers.antt`, its number `specs/Requests/Numbers.antt`;
//!   who may give a command, and what it tells, `specs/Campaign.antt`; who may ask a query
//!   `specs/Requests/Roles.antt`.
//! - What there is: topics, runs, phases and pools `specs/Campaign.antt`; leases
//!   `specs/Judgements/Leases.antt`; labels, rulings, effective grades and the trail
//!   `specs/Judgements/Grades.antt`.
//! - The order of the runs, and the named document: `specs/Judgements/JudgingOrder.antt`.
//! - What is printed: pages `specs/Reports/Pages.antt`; the scores of runs, and their pages
//!   `specs/Reports/Scores.antt`; a release `specs/Reports/Systems.antt`.
//! - Lists of entries: which can come about `specs/Histories/Legal.antt`, what one more entry
//!   changes `specs/Histories/Entries.antt`, the first one `founding` in
//!   `specs/Histories/Legal.antt` and in `src/founding.rt`.
//! - On a disk: an entry's bytes `specs/Spelling.antt`, what a journal of the entries rests on
//!   `specs/Histories/Additions.antt`.
//! - `laws`, `lease_laws`: what holds of every campaign. Worked rows: `proofs/WorkedRows`.
#![tactic(auto)]

mod answer;
mod ask;
mod entry;
mod founding;
mod laws;
mod lease_laws;
mod limits;
mod reply;
mod rules;
mod systems;

pub use answer::Answer;
pub use ask::{Addressed, Ask, Command, Query};
pub use entry::{Entry, EntryCore};
pub use founding::{founding_core, rules_founded};
pub use laws::{
    added_are_accepted, commands_are_answered_short, entries_are_few, entries_are_plain,
    entries_are_spelled, founding_fits, graded_are_on_trail, graded_are_there,
    grades_tell_their_leases, holders_hold, kept_replies_are_first, labelled_are_listed,
    labels_are_few, labels_are_the_last_grades, labels_go_by_leases, labels_join, leases_end_once,
    legal_fit, limits_are_the_rules, live_runs_are_not_withdrawn, moments_are_in_time,
    moments_rise, numbers_are_used_once, quiet_entries_keep_grades, replies_are_plain,
    rulings_join, runs_are_few, topics_are_given_once,
};
pub use lease_laws::{ends_are_there, leases_are_entries};
pub use limits::{
    MAX_DEPTH, MAX_DESC, MAX_DOCNOS, MAX_DOCS, MAX_ENTRIES, MAX_ENTRY_BYTES, MAX_HOLD, MAX_LINES,
    MAX_MOMENT, MAX_NARR, MAX_RUNS, MAX_TERM, MAX_TITLE, MAX_TOPICS, NUMBER_BOUND,
};
pub use reply::{Quantity, Refusal, Reply};
pub use rules::{Caller, Phase, Role, Rules, TopicLevel};
pub use systems::System;
