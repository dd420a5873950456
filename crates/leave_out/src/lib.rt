//! What a campaign's collection is worth: how its runs would score by reduced judgements, without
//! those that their own groups alone brought in; and how its assessors agree.
//!
//! - `reusability`: the scores without a group's own documents, and what these and the reduced
//!   judgements are (`specs/Reuse.antt`).
//! - `reduced_judgements`: those of a topic, document by document (`specs/ReducedJudgements.antt`),
//!   over `own_docs`; made once a group by `groups`.
//! - `precision`: the average precision by them. `topic_order`: the topics by id. `laws`: what
//!   holds of the reduced scores.
//! - `assessors`, `pairs`: the agreement (`specs/Agreement.antt`).
//! - Small campaigns, worked out: `proofs/WorkedRows.antt`.
#![tactic(auto)]

mod assessors;
mod groups;
mod laws;
mod own_docs;
mod pairs;
mod precision;
mod reduced_judgements;
mod reusability;
mod topic_order;

pub use assessors::{Agreed, agreement};
pub use laws::reduced_is_full;
pub use reusability::{Reused, reuse};
