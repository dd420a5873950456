//! The effective grades of one topic: the grade of each document now, how many documents are
//! relevant and how many are not, the documents by their first grades, and the qrels lines.
//!
//! - `view`: how grades come and go (`specs/Grades.antt`). R, N and the trail as they are kept:
//!   `IsKept` in `specs/GradeViews.antt`. `grades`: a document with its grade.
//! - `counts`: what one new grade makes of R and N (`specs/CountedGrades.antt`), here and on a
//!   board.
//! - `docno_orders`: the order by docno that is kept from one reading to the next.
//! - `text`: the printed qrels (`specs/Lines.antt`).
#![tactic(auto)]

mod counts;
mod docno_orders;
mod grades;
mod text;
mod view;

pub use counts::Counts;
pub use docno_orders::DocnoOrder;
pub use grades::Graded;
pub use view::View;
