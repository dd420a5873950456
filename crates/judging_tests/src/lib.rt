//! Tests of pools, labels, effective grades, measures and their lines; and of the board of scores,
//! the desk of leases and the judging order. Random courses are played through the whole program
//! (`tests/courses`).
#![tactic(auto)]

#[cfg(test)]
mod boards;
#[cfg(test)]
mod desks;
#[cfg(test)]
mod docnos;
#[cfg(test)]
mod document_labels;
#[cfg(test)]
mod graded_views;
#[cfg(test)]
mod letters;
#[cfg(test)]
mod queued_topics;
#[cfg(test)]
mod queues;
#[cfg(test)]
mod run_measures;
#[cfg(test)]
mod topic_pools;
