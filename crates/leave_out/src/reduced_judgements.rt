//! The reduced judgements of a group: the effective grades of a topic without those of the group's
//! own documents.
ghost use Rattle.std.specs.Prelude.{◌≡◌, ◌+◌, ◌<◌, ◌^◌, ◌&&◌, None, Some, if◌then◌else◌, is_some, length};
ghost use Rattle.rulebook.specs.Judgements.Grades.{labelled_documents};
ghost use Rattle.rulebook.specs.Words.{Text as Words};
ghost use Rattle.campaign_core.specs.Views.LentTopics.{topic_at};
ghost use Rattle.campaign_core.specs.Assessments.Topics.{topic_ids};
ghost use Rattle.leave_out.specs.ReducedJudgements.{AreFew, reduced_in, with_doc};

use crate::own_docs::{effective_grade, is_own};
use campaign_core::State;
use decimal_rank::{is_non_relevant, is_relevant};
use rulebook::{entries_are_few, labelled_are_listed};

/// The reduced judgements of a group on a topic: so many documents that are relevant, so many with
/// a lower grade, and so many of the group's own with a grade, which aren't among them.
#[derive(Clone, Copy)]
pub(crate) struct ReducedJudgements {
    pub(crate) relevant: usize,
    pub(crate) lower: usize,
    pub(crate) own: usize,
}

/// The reduced judgements of a group on a topic.
pub(crate) fn reduced_on(state: &State, topic: u16, group: &[u8]) -> ReducedJudgements
    requires { topic < length (topic_ids state.now.history) }
    ensures judgements { let H = state.now.history in (id : Words) → topic_at H topic ≡ Some id
        → result ≡ reduced_in H group.now id (labelled_documents H id) }
    ensures few { AreFew result }
{
    // there are no more labels than entries, and what has a label is among the names
    entries_are_few();
    labelled_are_listed();
    let _entries = state.entries();
    let _board = state.board();
    let docs = state.labelled(topic);
    let level = state.level(topic);
    let mut judgements = ReducedJudgements {
        relevant: 0,
        lower: 0,
        own: 0,
    };
    for doc in docs {
        let owned = is_own(state, topic, group, *doc);
        let grade = effective_grade(state, topic, *doc);
        judgements = with_doc(level, grade, owned, judgements);
    }
    judgements
}

/// One more document with such a grade, which may be the group's own.
fn with_doc(
    level: u8,
    grade: Option<u8>,
    owned: bool,
    judgements: ReducedJudgements,
) -> ReducedJudgements
    requires relevant { judgements.relevant + 1 < 2 ^ 64 }
    requires lower { judgements.lower + 1 < 2 ^ 64 }
    requires own { judgements.own + 1 < 2 ^ 64 }
    ensures { result ≡ with_doc level grade owned judgements }
{
    let kept = unless_owned(grade, owned);
    ReducedJudgements {
        relevant: judgements.relevant + usize::from(is_relevant(level, kept)),
        lower: judgements.lower + usize::from(is_non_relevant(level, kept)),
        own: judgements.own + usize::from(is_there(grade, owned)),
    }
}

fn unless_owned(grade: Option<u8>, owned: bool) -> Option<u8>
    ensures { result ≡ (if owned then None else grade) }
{
    if owned { None } else { grade }
}

fn is_there(grade: Option<u8>, owned: bool) -> bool
    ensures { result ≡ (is_some grade && owned) }
{
    grade.is_some() && owned
}
