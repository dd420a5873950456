//! A run scored against qrels: from the bytes of the two files to the summary of the run, or to the
//! line that names the file that is refused.
//!
//! - `evaluation`: what is printed, and which file is refused (`specs/Evaluations.antt`).
//! - `judgements`: how the documents of each topic are judged. `cells`: a cell for each topic.
#![tactic(auto)]

mod cells;
mod evaluation;
mod judgements;

pub use evaluation::{Finding, evaluate, never_both};
