//! The run, qrels and topics formats of TREC: their texts as lines and as topics, and the ranked
//! lists of a run.
//!
//! - Texts: `lines` (lines and fields: `specs/Lines.antt`), `names` (names, docnos and grades:
//!   `specs/Names.antt`), `faults` (what is wrong: `specs/Faults.antt`; how it is printed:
//!   `specs/FaultNames.antt`).
//! - Lines that name one document, and topics with one id: `documents` (`specs/Documents.antt`),
//!   `documents::document_keys`, `runs::repeats`. A line as it's lent: `runs::line_views`.
//! - A run: `runs` (`specs/RunFormat/Runs.antt`). As it comes: `runs::run_reader` (how far it was
//!   read: `specs/RunFormat/RunStates.antt`), `runs::run_views` (a line that stands whole in a
//!   piece), `runs::run_fields` and `field_bytes` (one that doesn't), `docno_fields`. As it's kept:
//!   `runs::packed_runs` (`specs/RunFormat/PackedRuns.antt`), `topic_numbers`,
//!   `runs::topic_counts`.
//! - The ranked lists of a run: `runs::lists` (`specs/RunFormat/Lists.antt`), `documents::docnos`
//!   (the docnos of a list in one vector: `specs/DocnoParts.antt`).
//! - Qrels: `qrels` (`specs/QrelsFormat/Qrels.antt`), `qrels::qrel_tables` (grades by document),
//!   `qrels::qrels_text` (as they are written: `specs/QrelsFormat/QrelsText.antt`).
//! - Topics: `topics` (`specs/TopicsFormat/Topics.antt`), `topics::topic_lines` (what a line does:
//!   `specs/TopicsFormat/TopicLines.antt`), `topics::topic_blocks` and `topics::topic_fields` (a
//!   topic as far as it is read: `specs/TopicsFormat/TopicBlocks.antt`).
//! - `laws`, `topics::topic_laws`: every text has exactly one reading.
#![tactic(auto)]

mod docno_fields;
mod documents;
mod faults;
mod field_bytes;
mod laws;
mod lines;
mod names;
mod qrels;
mod runs;
mod topic_numbers;
mod topics;

pub use documents::docnos::Docnos;
pub use faults::{FormatEnd, FormatFault, Kind, cause_name};
pub use laws::{one_qrels_reading, one_rankable_reading, one_run_reading};
pub use names::{is_docno, is_name};
pub use qrels::qrel_tables::{QrelTable, read_qrel_table};
pub use qrels::qrels_text::write_qrels;
pub use qrels::{QrelLine, QrelView, read_qrels};
pub use runs::lists::{TopicList, rank_run};
pub use runs::run_reader::RunReader;
pub use runs::{RunLine, read_lists, read_run};
pub use topic_numbers::topic_number;
pub use topics::topic_laws::one_topics_reading;
pub use topics::{Topic, read_topics};
