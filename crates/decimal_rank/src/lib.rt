//! The ground under every crate of the campaign.
//!
//! - What is kept: `texts`, `storage` (rows, and the want of memory), `naming` (numbered names:
//!   `specs/Names.antt`).
//! - Tables: `tables::secrets` (what they hash with; the key of a text:
//!   `specs/Tables/TextKeys.antt`), `tables::chains` (items that share a key:
//!   `specs/Tables/Buckets.antt`), `tables::searches` (an item among these:
//!   `specs/Tables/Searches.antt`).
//! - Text that is read and written: `texts::numbers`, `texts::appends` (bytes that grow:
//!   `specs/Texts/Additions.antt`), `texts::qrel_lines` (`specs/Texts/QrelLines.antt`). Definitions
//!   call bytes by the names of `specs/Bytes.antt`.
//! - The outside: `failures` (faults, `specs/Causes.antt`, and the failing calls of memory forms,
//!   `specs/Outputs/FailurePlans.antt`), `outputs` (what a write tells:
//!   `specs/Outputs/Writings.antt`).
//! - Scores: `decimals`, over `decimals::score_parts` and `decimals::significands` (a value:
//!   `specs/Decimals/Decimal.antt`; its text: `specs/Decimals/DecimalText.antt`; their order:
//!   `decimals::decimal_laws`); `grades` (relevance: `specs/Relevance.antt`).
//! - Ranks: `rankings` (`specs/Rankings/Ranks.antt`), over `rankings::counted_lists` and `steps`
//!   (lists that count what is read of them); `rankings::weights` (the unit of scores, and what a
//!   rank weighs: `specs/Rankings/Weights.antt`).
#![tactic(auto)]

mod decimals;
mod failures;
mod grades;
mod naming;
mod outputs;
mod rankings;
mod steps;
mod storage;
mod tables;
mod texts;

pub use decimals::decimal_laws::decimals_have_an_order;
pub use decimals::{Decimal, DecimalFault};
pub use failures::{Failed, FailurePlan, count_more};
pub use grades::{is_non_relevant, is_relevant};
pub use naming::{DocId, Names};
pub use outputs::{Output, write_all};
pub use rankings::weights::{ONE, weight};
pub use rankings::{RankFault, Ranking, Scored, rank};
pub use steps::Steps;
pub use storage::{Memory, Rows};
pub use tables::chains::Chains;
pub use tables::searches::{Sought, first_found};
pub use tables::secrets::Secret;
pub use texts::Text;
pub use texts::appends::{append, append_all};
pub use texts::numbers::{are_all_digits, capped_number, is_number};
pub use texts::qrel_lines::append_qrel;
