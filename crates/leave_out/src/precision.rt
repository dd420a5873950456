//! The average precision of a run on a topic by the reduced judgements of a group.
ghost use Rattle.std.specs.Prelude.{◌≡◌, ◌<◌, ◌≤◌, ◌^◌, ℕ, IfOk, IsTrue, List, Some, count_by, length, map, slice_get, unwrap_or};
ghost use Rattle.decimal_rank.specs.Relevance.{is_non_relevant, is_relevant};
ghost use Rattle.measures.specs.Cells.{cell_of};
ghost use Rattle.measures.specs.Means.{value_of};
ghost use Rattle.measures.specs.declared.means.Measure.TheVariants.{Map};
ghost use Rattle.rulebook.specs.Campaign.{Run, docs_on};
ghost use Rattle.rulebook.specs.Judgements.Grades.{labelled_documents};
ghost use Rattle.rulebook.specs.Requests.Limits.{max_docs};
ghost use Rattle.rulebook.specs.Words.{Text as Words};
ghost use Rattle.campaign_core.specs.Views.LentTopics.{topic_at};
ghost use Rattle.campaign_core.specs.Numbering.Numbers.{are_named, docs_in, names_of};
ghost use Rattle.campaign_core.specs.Assessments.Topics.{topic_ids};
ghost use Rattle.leave_out.specs.ReducedJudgements.{AreFew, IsLive, has_any_grade, reduced_in, value_on};
ghost use Rattle.leave_out.specs.Reuse.{reduced_grade};

use crate::own_docs::reduced_grade;
use crate::reduced_judgements::ReducedJudgements;
use campaign_core::State;
use decimal_rank::{DocId, Memory, Ranking, Steps};
use depth_pool::RunId;
use measures::scratch;
use rulebook::{graded_are_on_trail, graded_are_there};
use std::alloc::Global;
use std::marker::Brand;
use std::sync::ledger::{Blank, Ledger};

/// The average precision of a run on a topic with these reduced judgements: None where no document
/// has a grade by them.
pub(crate) fn value_on(
    alloc: Global,
    state: &State,
    topic: u16,
    group: &[u8],
    run: RunId,
    judgements: ReducedJudgements,
) -> Result<Option<u64>, Memory>
    requires topic { topic < length (topic_ids state.now.history) }
    requires live { (one : ℕ × Run) × IsLive state.now.history run one }
    requires judgements { let H = state.now.history in (id : Words) → topic_at H topic ≡ Some id
        → judgements ≡ reduced_in H group.now id (labelled_documents H id) }
    requires few { AreFew judgements }
    ensures value { let H = state.now.history in (id : Words) (one : ℕ × Run)
        → topic_at H topic ≡ Some id → IsLive H run one
        → IfOk result (λ value. value ≡ value_on H group.now one.1 id) }
    ensures mean { IfOk result (λ value. unwrap_or value 0 ≤ 10 ^ 15) }
{
    if !is_counted(judgements) {
        return Ok(None);
    }
    // a document that is listed once and has a grade is among those with a label
    graded_are_there();
    graded_are_on_trail();
    let _entries = state.entries();
    let grades = reduced_grades(alloc, state, topic, group, run)?;
    let value = average_precision(&grades, judgements, state.level(topic));
    Ok(Some(value))
}

/// Whether a document has a grade.
fn is_counted(judgements: ReducedJudgements) -> bool
    ensures { result ≡ has_any_grade judgements }
{
    judgements.relevant > 0 || judgements.lower > 0
}

/// The grades of a run's ranked list on a topic by the reduced judgements of a group, by rank.
fn reduced_grades(
    alloc: Global,
    state: &State,
    topic: u16,
    group: &[u8],
    run: RunId,
) -> Result<Vec<Option<u8>>, Memory>
    requires { topic < length (topic_ids state.now.history) }
    ensures grades { let H = state.now.history in
        (id : Words) (one : ℕ × Run) → topic_at H topic ≡ Some id → IsLive H run one → IfOk result
        (λ grades. grades.items ≡ map (reduced_grade H group.now id) (docs_on one.1.lists id)) }
    ensures few { IfOk result (λ grades. length grades.items ≤ max_docs) }
{
    match state.ranking(run, topic) {
        Some(ranking) => listed_grades(alloc, state, topic, group, ranking),
        None => Ok(Vec::new(alloc)),
    }
}

/// The same of a list.
fn listed_grades(
    alloc: Global,
    state: &State,
    topic: u16,
    group: &[u8],
    ranking: &Ranking,
) -> Result<Vec<Option<u8>>, Memory>
    requires { topic < length (topic_ids state.now.history) }
    ensures grades { let H = state.now.history in
        (id : Words) (docs : List Words) → topic_at H topic ≡ Some id
        → IsTrue (are_named (names_of H) docs) → ranking.now ≡ docs_in (names_of H) docs
        → IfOk result (λ grades. grades.items ≡ map (reduced_grade H group.now id) docs) }
    ensures few { IfOk result (λ grades. length grades.items ≤ max_docs) }
{
    let len = ranking.len();
    let mut grades = Vec::new(alloc);
    for place in 0..len {
        let doc = doc_at(ranking, place);
        grades.push(reduced_grade(state, topic, group, doc))?;
    }
    Ok(grades)
}

/// The document at a place of a list, from 0.
fn doc_at(ranking: &Ranking, place: u32) -> DocId
    requires { place < length ranking.now }
    ensures { slice_get ranking.now place ≡ Some result }
{
    counted_doc_at::<Brand>(ranking, place, Blank::new(1))
}

fn counted_doc_at<L: Ledger>(ranking: &Ranking, place: u32, blank: Blank) -> DocId
    requires name { blank.name ≡ L.name }
    requires parts { blank.parts ≡ L.parts }
    requires some { 0 < L.parts }
    requires within { place < length ranking.now }
    ensures { slice_get ranking.now place ≡ Some result }
{
    let _len = ranking.len();
    let mut steps: Steps<L> = Steps::new(blank);
    ranking.doc_at(place + 1, &mut steps)
}

/// The average precision of a ranked list from its grades by rank, in units of 10^-15, on a topic
/// with these reduced judgements.
#[tactic(auto, unfolding(measures::specs::Cells::cell_of))]
fn average_precision(grades: &[Option<u8>], judgements: ReducedJudgements, level: u8) -> u64
    requires short { length grades.now ≤ max_docs }
    requires relevant { count_by (is_relevant level) grades.now ≤ judgements.relevant }
    requires lower { count_by (is_non_relevant level) grades.now ≤ judgements.lower }
    requires few { AreFew judgements }
    ensures value { result
        ≡ value_of Map (cell_of grades.now judgements.relevant judgements.lower level) }
    ensures mean { result ≤ 10 ^ 15 }
{
    if judgements.relevant == 0 {
        return 0;
    }
    let cell = scratch(
        grades,
        judgements.relevant as u32,
        judgements.lower as u32,
        level,
    );
    cell.ap_sum / judgements.relevant as u64
}
