//! How the assessors of a campaign agree.
ghost use Rattle.std.specs.Prelude.{◌≡◌, ◌<◌, ◌^◌, ◌++◌, [], IfOk, IsTrue, OnOk, Some, length};
ghost use Rattle.std.specs.List.{cons_option};
ghost use Rattle.std.specs.Option.{option_map};
ghost use Rattle.rulebook.specs.Campaign.{need};
ghost use Rattle.rulebook.specs.Judgements.Grades.{labels_on};
ghost use Rattle.rulebook.specs.Words.{Text as Words, contains_text};
ghost use Rattle.campaign_core.specs.Views.LentTopics.{topic_at};
ghost use Rattle.campaign_core.specs.Numbering.Numbers.{doc_in, names_of};
ghost use Rattle.campaign_core.specs.Assessments.Topics.{topic_ids};
ghost use Rattle.leave_out.specs.Agreement.{agreed_on, agreement, agreement_of, pairs_on, two_grades, two_of};

use crate::pairs::{both, either, equal};
use crate::topic_order::topics_by_id;
use campaign_core::State;
use decimal_rank::{DocId, Memory, Text};
use rulebook::{entries_are_few, labelled_are_listed, labels_are_few};
use std::alloc::Global;

/// A topic whose documents need two labels: how many have two, of how many these are equal, of how
/// many both are relevant, and of how many at least one is.
#[derive(Debug, Drop, PartialEq)]
pub struct Agreed {
    pub topic: Text,
    pub pairs: u32,
    pub equal: u32,
    pub both: u32,
    pub either: u32,
}

/// How the assessors agree on each topic whose documents need two labels, by topic id. Rulings
/// aren't looked at.
pub fn agreement(alloc: Global, state: &State) -> Result<Vec<Agreed>, Memory>
    ensures { IfOk result (λ rows. rows.items ≡ agreement state.now.history) }
{
    let topics = topics_by_id(alloc, state)?;
    let mut rows = Vec::new(alloc);
    for topic in &topics {
        push_some(&mut rows, agreed_on(alloc, state, *topic)?)?;
    }
    Ok(rows)
}

/// How the assessors agree on a topic, where its documents need two labels.
fn agreed_on(alloc: Global, state: &State, topic: u16) -> Result<Option<Agreed>, Memory>
    requires { topic < length (topic_ids state.now.history) }
    ensures { let H = state.now.history in
        IfOk result (λ row. option_map (agreed_on H) (topic_at H topic) ≡ Some row) }
{
    if state.need(topic) != 2 {
        return Ok(None);
    }
    let pairs = pairs_on(alloc, state, topic)?;
    let id = Text::from_slice(alloc, state.topic_name(topic))?;
    Ok(Some(row_of(state.level(topic), id, &pairs)))
}

/// A topic whose documents have these pairs of grades.
fn row_of(level: u8, topic: Text, pairs: &[(u8, u8)]) -> Agreed
    requires { length pairs.now < 2 ^ 32 }
    ensures { result ≡ agreement_of level topic pairs.now }
{
    Agreed {
        topic,
        pairs: pairs.len() as u32,
        equal: equal(pairs),
        both: both(level, pairs),
        either: either(level, pairs),
    }
}

/// The grades of a topic's documents that have two labels.
fn pairs_on(alloc: Global, state: &State, topic: u16) -> Result<Vec<(u8, u8)>, Memory>
    requires within { topic < length (topic_ids state.now.history) }
    requires two { option_map (need state.now.history) (topic_at state.now.history topic) ≡ Some 2 }
    ensures pairs { let H = state.now.history in
        IfOk result (λ pairs. option_map (pairs_on H) (topic_at H topic) ≡ Some pairs.items) }
    ensures few { IfOk result (λ pairs. length pairs.items < 2 ^ 32) }
{
    // there are no more labels than entries, and what has a label is among the names
    entries_are_few();
    labelled_are_listed();
    let _entries = state.entries();
    let _board = state.board();
    let docs = state.labelled(topic);
    let mut pairs = Vec::new(alloc);
    for doc in docs {
        push_some(&mut pairs, pair_on(state, topic, *doc))?;
    }
    Ok(pairs)
}

/// The grades of a document that has two labels.
fn pair_on(state: &State, topic: u16, doc: DocId) -> Option<(u8, u8)>
    requires within { topic < length (topic_ids state.now.history) }
    requires two { option_map (need state.now.history) (topic_at state.now.history topic) ≡ Some 2 }
    ensures { let H = state.now.history in
        (id d : Words) → topic_at H topic ≡ Some id → IsTrue (contains_text (names_of H) d)
        → doc ≡ doc_in (names_of H) d → result ≡ two_grades (labels_on H id d) }
{
    // no document has more labels than its topic needs
    labels_are_few();
    let _entries = state.entries();
    let labels = state.labels(topic, doc)?;
    two_of(labels.grades())
}

/// Two grades, where both are there.
fn two_of(grades: [Option<u8>; 2]) -> Option<(u8, u8)>
    ensures { result ≡ two_of grades }
{
    match grades {
        [Some(first), Some(second)] => Some((first, second)),
        _ => None,
    }
}

/// Adds an item, where there is one.
fn push_some<T: Drop>(items: &mut Vec<T>, one: Option<T>) -> Result<(), Memory>
    ensures { OnOk result (items.new.items ≡ items.old.items ++ cons_option one []) }
{
    if let Some(item) = one {
        items.push(item)?;
    }
    Ok(())
}
