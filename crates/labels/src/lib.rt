//! The labels of a topic's documents, and the rulings on them. A label is the last grade that an
//! assessor gave a document. A document's effective grade is the last ruling on it, or else the
//! grade of exactly as many labels as the topic needs, where they agree.
//!
//! - `document`: the labels of one document and its last ruling (`specs/DocumentLabels.antt`); its
//!   effective grade, and a disagreement: `specs/Grades.antt`. `given`: the grades that assessors
//!   gave it.
//! - `marks`: the labels and rulings of all documents of a topic (`specs/LabelledDocuments.antt`;
//!   what contracts see: `specs/TopicLabelViews.antt`).
//! - `laws`: what a label and a ruling change and leave, and when labels alone make a grade
//!   effective.
#![tactic(auto)]

mod document;
mod given;
mod laws;
mod topic_labels;

pub use document::Labels;
pub use laws::{
    effective_without_ruling, marks_follow_labels, marks_follow_rulings, one_label_changes,
};
pub use topic_labels::TopicLabels;
