//! Reports on an archive of releases: a run through the years, two releases compared by the runs
//! that both have, and all systems as CSV.
//!
//! - `comparisons`: two releases (`specs/Comparisons.antt`); that their order doesn't matter:
//!   `proofs/Evenness.antt`.
//! - `histories`: a run through the releases (`specs/Histories.antt`).
//! - `exports`: the CSV, and what it reads as (`specs/Exports.antt`).
//! - `orders`: the releases by name (`specs/Orders.antt`).
#![tactic(auto)]

mod comparisons;
mod exports;
mod histories;
mod orders;

pub use comparisons::{Pairs, compare};
pub use exports::write_csv;
pub use histories::{HistoryRow, history};
