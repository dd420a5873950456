//! The measures of ranked lists: the cell of a list on a topic, the means of a run over its topics,
//! and their printed lines. A value is a whole number of units of 10^-15.
//!
//! - `cells`: the counts and sums of a list (`specs/Cells.antt`).
//! - `means`: the measures, and the value of each (`specs/Means.antt`). `totals`: the sums of a
//!   run's cells, and the means that are taken from them.
//! - `score_lines`: the printed lines (`specs/ScoreLines.antt`).
#![tactic(auto)]

mod cells;
mod means;
mod score_lines;
mod totals;

pub use cells::{CUTOFFS, Cell, bpref_den, scratch};
pub use means::{Measure, Summary, fixed};
pub use score_lines::{write_cell, write_four, write_summary};
pub use totals::{Totals, mean};
