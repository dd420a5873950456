//! One topic of a board: its level, how many documents are relevant and how many judged lower, and
//! the lists of its runs.
ghost use Rattle.std.specs.Prelude.{◌≡◌, ℕ, ◌+◌, ◌<◌, ◌≤◌, ◌^◌, ◌++◌, ◌∷◌, [], All, IfOk, OnOk, List, length, map, if◌then◌else◌, sum_by};
ghost use Rattle.measures.specs.Cells.{IsSound};
ghost use Rattle.measures.specs.Totals.{sums_of};
ghost use Rattle.measures.specs.declared.cells.Cell.{Cell as OneCell};
ghost use Rattle.qrels_view.specs.CountedGrades.{IsCounted};
ghost use Rattle.qrels_view.specs.Grades.{is_non_relevant, is_relevant};
ghost use Rattle.score_index.specs.KeptBoards.{AreByRun, HasEmptyCell, IsTopicKept, KeepsPlaces, has_grades, kept_cell, scores_with_list, scores_without_run, spare, topic_scores, with_regrade};
ghost use Rattle.score_index.specs.KeptSums.{CanRemark};
ghost use Rattle.score_index.specs.Scores.{list_steps, new_topic_scores};
ghost use Rattle.score_index.specs.BoardGrades.{StaysSmall};

use crate::lists::{RunList, drop_lists, list_of, place_for, regrade_lists};
use crate::relevance::mark_of;
use decimal_rank::{DocId, Memory, Steps};
use depth_pool::RunId;
use measures::{Cell, Totals, scratch};
use qrels_view::Counts;
use std::alloc::Global;
use std::sync::ledger::Ledger;

/// A topic: the grade from which on a document is relevant, how many documents are relevant, how
/// many have a grade and aren't, the cell of a run that has no list, and the runs' lists.
#[derive(Drop)]
pub(crate) struct ScoredTopic {
    pub(crate) level: u8,
    pub(crate) counts: Counts,
    // the cell of the empty list
    pub(crate) empty: Cell,
    pub(crate) lists: Vec<RunList>,
}

/// Topics of these levels, without grades and lists.
pub(crate) fn new_topics(alloc: Global, levels: &[u8]) -> Result<Vec<ScoredTopic>, Memory>
    ensures empties { IfOk result (λ topics. All HasEmptyCell topics.items) }
    ensures topics { IfOk result
        (λ topics. map topic_scores topics.items ≡ map new_topic_scores levels.now) }
{
    let mut topics = Vec::with_capacity(alloc, levels.len())?;
    for level in levels {
        topics.push(new_topic(alloc, *level))?;
    }
    Ok(topics)
}

fn new_topic(alloc: Global, level: u8) -> ScoredTopic
    ensures empty { HasEmptyCell result }
    ensures topic { topic_scores result ≡ new_topic_scores level }
{
    ScoredTopic {
        level,
        counts: Counts::none(),
        empty: scratch(&[], 0, 0, level),
        lists: Vec::new(alloc),
    }
}

/// Makes room for so many more lists on each topic.
pub(crate) fn reserve_lists(topics: &mut [ScoredTopic], count: usize) -> Result<(), Memory>
    ensures seen { map topic_scores topics.new ≡ map topic_scores topics.old }
    ensures room { OnOk result (All (λ topic. count ≤ spare topic) topics.new) }
    ensures kept { KeepsPlaces topics.old topics.new }
{
    for topic in topics.iter_mut() {
        topic.lists.reserve(count)?;
    }
    Ok(())
}

/// Adds a list, at the place of its run.
pub(crate) fn add_list(topic: &mut ScoredTopic, list: RunList)
    requires room { 1 ≤ spare topic.old }
    requires by_run { AreByRun topic.old.lists.items }
    ensures seen { topic_scores topic.new ≡ scores_with_list list (topic_scores topic.old) }
    ensures empty { topic.new.empty ≡ topic.old.empty }
    ensures places { spare topic.old ≤ spare topic.new + 1 }
{
    let place = place_for(topic.lists.as_slice(), list.run);
    topic.lists.insert(place, list).unwrap();
}

/// Takes the lists of a run out.
pub(crate) fn drop_run(topics: &mut [ScoredTopic], run: RunId)
    ensures seen { map topic_scores topics.new
        ≡ map (scores_without_run run) (map topic_scores topics.old) }
    ensures kept { KeepsPlaces topics.old topics.new }
{
    for topic in topics.iter_mut() {
        drop_lists(&mut topic.lists, run);
    }
}

/// Gives a document, whose grade now is `old`, the grade `new`, or takes its grade away.
pub(crate) fn regrade<L: Ledger>(
    topic: &mut ScoredTopic,
    doc: DocId,
    old: Option<u8>,
    new: Option<u8>,
    steps: &mut Steps<L>,
)
    requires counted { IsCounted topic.old.level old topic.old.counts }
    requires few { StaysSmall topic.old.level (topic_scores topic.old) old new }
    requires lists { All
        (CanRemark doc (is_relevant topic.old.level old) (is_non_relevant topic.old.level old)
        (with_regrade topic.old.level doc old new (topic_scores topic.old)).relevant (with_regrade
        topic.old.level doc old new (topic_scores topic.old)).non_relevant) topic.old.lists.items }
    ensures seen { topic_scores topic.new
        ≡ with_regrade topic.old.level doc old new (topic_scores topic.old) }
    ensures empty { HasEmptyCell topic.new }
    ensures places { spare topic.new ≡ spare topic.old }
    ensures cost { steps.new
        ≤ steps.old + sum_by (λ list. list_steps (Some list.docs)) topic.old.lists.items }
{
    let level = topic.level;
    let counts = topic.counts.regraded(level, old, new);
    topic.counts = counts;
    topic.empty = scratch(&[], counts.relevant, counts.non_relevant, level);
    let old = mark_of(level, old);
    let new = mark_of(level, new);
    regrade_lists(&mut topic.lists, doc, old, new, counts, steps);
}

/// The cell of a run, which without a list is that of the empty list.
pub(crate) fn cell_in(topic: &ScoredTopic, run: RunId) -> &Cell
    requires kept { IsTopicKept (topic_scores topic.now) }
    requires empty { HasEmptyCell topic.now }
    ensures cell { result.now ≡ kept_cell run (topic_scores topic.now) }
    ensures sound { IsSound result.now }
{
    match list_of(topic.lists.as_slice(), run) {
        Some(list) => list.cell(),
        None => &topic.empty,
    }
}

/// Adds the cell of a run where the topic has a document with a grade.
pub(crate) fn add_cell(totals: &mut Totals, topic: &ScoredTopic, run: RunId)
    requires few { totals.old.topics + 1 < 2 ^ 32 }
    requires kept { IsTopicKept (topic_scores topic.now) }
    requires empty { HasEmptyCell topic.now }
    ensures sums { (cells : List OneCell) → totals.old ≡ sums_of cells
        → totals.new ≡ sums_of (cells ++ (if has_grades (topic_scores topic.now) then kept_cell run
        (topic_scores topic.now) ∷ [] else [])) }
    ensures topics { totals.new.topics ≤ totals.old.topics + 1 }
{
    if topic.counts.relevant + topic.counts.non_relevant > 0 {
        totals.add(cell_in(topic, run));
    }
}
