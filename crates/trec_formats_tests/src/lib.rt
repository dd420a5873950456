//! Tests of the public calls of two crates, each of which is proved once for standing without them.
//!
//! - `decimal_rank`: `scores`, `texts`, `rankings`, `tables` and `failures`.
//! - `trec_formats`: `topics`, `runs_and_qrels`, `faults` and `pieces`, over `readings`.
#![tactic(auto)]

#[cfg(test)]
mod failures;
#[cfg(test)]
mod faults;
#[cfg(test)]
mod pieces;
#[cfg(test)]
mod rankings;
#[cfg(test)]
mod readings;
#[cfg(test)]
mod runs_and_qrels;
#[cfg(test)]
mod scores;
#[cfg(test)]
mod tables;
#[cfg(test)]
mod texts;
#[cfg(test)]
mod topics;
