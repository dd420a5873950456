//! The documents of a topic's pool that runs of one group alone hold, and the effective grades
//! without them.
ghost use Rattle.std.specs.Prelude.{◌≡◌, ◌<◌, All, IsSome, length};
ghost use Rattle.std.specs.List.{list_all};
ghost use Rattle.std.specs.Str.{bytes_eq};
ghost use Rattle.depth_pool.specs.Holdings.{holders_of};
ghost use Rattle.rulebook.specs.Judgements.Grades.{effective};
ghost use Rattle.rulebook.specs.Words.{Text as Words, contains_text};
ghost use Rattle.campaign_core.specs.Views.Groups.{group_of};
ghost use Rattle.campaign_core.specs.Views.Tallies.{submitted_at};
ghost use Rattle.campaign_core.specs.Assessments.Topics.{topic_ids};
ghost use Rattle.leave_out.specs.ReducedJudgements.{IsDocAt};
ghost use Rattle.leave_out.specs.Reuse.{own, reduced_grade};

use campaign_core::{State, holders_by_numbers};
use decimal_rank::{DocId, Steps};
use depth_pool::{Pool, RunId};
use rulebook::graded_are_there;
use std::marker::Brand;
use std::sync::ledger::{Blank, Ledger};

/// The grade of a document by the reduced judgements of a group: its effective one, where it isn't
/// the group's own.
pub(crate) fn reduced_grade(state: &State, topic: u16, group: &[u8], doc: DocId) -> Option<u8>
    requires { topic < length (topic_ids state.now.history) }
    ensures { let H = state.now.history in (id d : Words) → IsDocAt H topic id d doc
        → result ≡ reduced_grade H group.now id d }
{
    let grade = effective_grade(state, topic, doc)?;
    if is_own(state, topic, group, doc) {
        return None;
    }
    Some(grade)
}

/// The effective grade of a document.
pub(crate) fn effective_grade(state: &State, topic: u16, doc: DocId) -> Option<u8>
    requires { topic < length (topic_ids state.now.history) }
    ensures { let H = state.now.history in (id d : Words) → IsDocAt H topic id d doc
        → result ≡ effective H id d }
{
    // a document with an effective grade is on the trail
    graded_are_there();
    let _entries = state.entries();
    state.view(topic).effective(doc)
}

/// Whether runs of a group hold a document, and no others do.
pub(crate) fn is_own(state: &State, topic: u16, group: &[u8], doc: DocId) -> bool
    requires { topic < length (topic_ids state.now.history) }
    ensures { let H = state.now.history in (id d : Words) → IsDocAt H topic id d doc
        → result ≡ contains_text (own H group.now id) d }
{
    // the holders are live runs
    holders_by_numbers();
    let runs = holders(state.pool(topic), doc);
    if runs.is_empty() {
        return false;
    }
    are_of(state, group, runs)
}

/// Whether runs are all of a group.
fn are_of(state: &State, group: &[u8], runs: &[RunId]) -> bool
    requires { All (λ run. IsSome (submitted_at state.now.history run)) runs.now }
    ensures { let H = state.now.history in
        result ≡ list_all (λ run. bytes_eq (group_of H run.0) group.now) runs.now }
{
    for run in runs {
        let other = state.group_of(*run);
        if other != group {
            return false;
        }
    }
    true
}

/// The runs that hold a document, by number.
fn holders(pool: &Pool, doc: DocId) -> &[RunId]
    ensures { result.now ≡ holders_of doc pool.now.runs }
{
    counted_holders::<Brand>(pool, doc, Blank::new(1))
}

fn counted_holders<L: Ledger>(pool: &Pool, doc: DocId, blank: Blank) -> &[RunId]
    requires name { blank.name ≡ L.name }
    requires parts { blank.parts ≡ L.parts }
    requires some { 0 < L.parts }
    ensures { result.now ≡ holders_of doc pool.now.runs }
{
    let mut steps: Steps<L> = Steps::new(blank);
    pool.holders(doc, &mut steps)
}
