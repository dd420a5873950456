//! The pool of one topic: which documents each run holds, and which runs hold each document. A run
//! holds the documents of its ranking whose rank is at most the pool's depth.
//!
//! - `pools`: a pool, its runs and the documents that they hold (`specs/Holdings.antt`).
//! - `index`: the runs that hold each document, by number (`specs/Index.antt`). `runs`: the
//!   documents that each run holds, by rank.
//! - `laws`: where a run is put, and that documents stand in the order of their docnos in one way
//!   alone.
//!
//! # What the pools cost
//!
//! A document of a pool takes about 79 bytes for its entry, which holds up to 8 runs in place, and
//! 4 bytes for each run that holds it; past 8 holders 2 to 4 bytes more for each. At the limit of
//! 8,000,000 lines, all on different documents, all pools together take about 670 MB. `holders` and
//! `holds` are one look-up by document each, and `holds` a binary search among at most 256 numbers;
//! the documents of a run are found by a binary search among the runs. An entry that was made for a
//! run that doesn't come, since the change is cancelled or memory runs out, is taken out again.
#![tactic(auto)]

mod index;
mod laws;
mod pools;
mod runs;

pub use laws::{greatest_run_goes_last, one_list_by_docno};
pub use pools::Pool;
pub use runs::{RunId, is_among};
