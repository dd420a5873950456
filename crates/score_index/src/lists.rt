//! A run's ranked list on a topic, whose cell follows each change of a grade.
ghost use Rattle.std.specs.Prelude.{◌≡◌, ◌+◌, ◌*◌, ◌<◌, ◌≤◌, All, Some, false, true, nat_lt, find, length, map, sum_by, vec_capacity, vec_len};
ghost use Rattle.std.specs.List.Sorted.{IsPartitionPoint};
ghost use Rattle.std.specs.Option.{option_copied};
ghost use Rattle.std.specs.Ordering.{nat_cmp};
ghost use Rattle.decimal_rank.specs.Rankings.Places.{levels, place_in};
ghost use Rattle.qrels_view.specs.Grades.{effective_in, is_non_relevant, is_relevant};
ghost use Rattle.score_index.specs.KeptBoards.{AreByRun, IsRoom, list_recounted, list_regraded, listed_with, remarked_at, room_size, without};
ghost use Rattle.score_index.specs.KeptSums.{AreSums, CanFollow, CanRemark, HasRelevance, is_lower_standing, is_relevant_standing, list_places};
ghost use Rattle.score_index.specs.Places.{cell_by};
ghost use Rattle.score_index.specs.Scores.{is_of_run, list_steps};

use crate::filters::{Filter, admit_all};
use crate::relevance::{Relevance, mark_of};
use crate::rooms::Room;
use crate::sums::{Sums, cap_of, cell_from, follow_cap, follow_counts, no_sums, put_mark, remark};
use crate::trees::Trees;
use decimal_rank::{DocId, Ranking, Steps};
use depth_pool::RunId;
use measures::Cell;
use qrels_view::{Counts, View};
use std::cmp::Ordering;
use std::marker::Model;
use std::sync::ledger::{Blank, Ledger};

/// A run's list on a topic, with a filter that admits its documents, and with what its cell is
/// taken from: its places, its sums, and how many of the topic's documents are relevant and judged
/// lower.
///
/// What each change of a grade reads stands together, since a list that doesn't have the document
/// reads no more.
#[derive(Drop)]
pub(crate) struct RunList {
    filter: Filter,
    counts: Counts,
    cell: Cell,
    sums: Sums,
    trees: Trees,
    pub(crate) run: RunId,
    pub(crate) ranking: Ranking,
}

impl Model for RunList {
    ghost use Rattle.score_index.specs.Scores.{ScoreList};

    ghost Value = { ScoreList };

    ghost use Rattle.score_index.specs.KeptSums.{IsScoredList};

    ghost view = { λ list. record {
      run = list.run;
      docs = list.ranking;
      relevant = list.trees.relevant;
      lower = list.trees.lower;
      rel = list.counts.relevant;
      low = list.counts.non_relevant;
    } };

    ghost invariant = { λ list. IsScoredList list.ranking list.filter list.trees list.sums
        list.counts.relevant list.counts.non_relevant list.cell };
}

impl RunList {
    /// The list of a run in a room for it, with the grades of a view, where the topic has these
    /// counts.
    pub(crate) fn listed<L: Ledger>(
        run: RunId,
        ranking: Ranking,
        room: Room,
        view: &View,
        level: u8,
        counts: Counts,
        blank: Blank,
    ) -> RunList
        requires name { blank.name ≡ L.name }
        requires parts { blank.parts ≡ L.parts }
        requires some { 0 < L.parts }
        requires room { IsRoom room.trees }
        requires as_many { room_size room ≡ length ranking }
        requires few { counts.relevant ≤ 268435456 }
        requires few_lower { counts.non_relevant ≤ 268435456 }
        ensures { result
            ≡ listed_with level view.now.graded run ranking counts.relevant counts.non_relevant }
    {
        let mut steps = Steps::<L>::new(blank);
        let mut filter = room.filter;
        admit_all(&mut filter, &ranking, &mut steps);
        let mut trees = room.trees;
        let sums = mark_places(
            &mut trees,
            &ranking,
            view,
            level,
            cap_of(counts),
            &mut steps,
        );
        let cell = cell_from(&trees, sums, counts, &mut steps);
        RunList {
            run,
            ranking,
            filter,
            trees,
            sums,
            counts,
            cell,
        }
    }

    /// Gives a document of the topic another mark, where the topic has these counts then.
    pub(crate) fn regrade<L: Ledger>(
        &mut self,
        doc: DocId,
        old: Relevance,
        new: Relevance,
        counts: Counts,
        steps: &mut Steps<L>,
    )
        requires can { CanRemark doc (is_relevant_standing old)
            (is_lower_standing old) counts.relevant counts.non_relevant self.old }
        requires few { counts.relevant ≤ 268435456 }
        requires few_lower { counts.non_relevant ≤ 268435456 }
        ensures list { self.new ≡ list_regraded doc (is_relevant_standing new)
            (is_lower_standing new) counts.relevant counts.non_relevant self.old }
        ensures cost { steps.new ≤ steps.old + 20 * (levels (length self.old.docs) + 1) }
    {
        match self.place_of(doc, steps) {
            Some(place) => self.remark(place, (old, new), counts, steps),
            None => self.follow(counts, steps),
        }
    }

    /// The place of a document, from 1. It is looked for where the filter admits the document.
    fn place_of<L: Ledger>(&self, doc: DocId, steps: &mut Steps<L>) -> Option<u32>
        ensures place { result ≡ place_in self.now.docs doc }
        ensures cost { steps.new ≤ steps.old + levels (length self.now.docs) + 2 }
    {
        if !self.filter.admits(doc, steps) {
            return None;
        }
        self.ranking.place_of(doc, steps)
    }

    /// Gives a place another mark, where the topic has these counts then.
    fn remark<L: Ledger>(
        &mut self,
        place: u32,
        marks: (Relevance, Relevance),
        counts: Counts,
        steps: &mut Steps<L>,
    )
        requires mark { HasRelevance (Some place) marks.0 (list_places self.old) }
        requires counts { CanFollow counts.relevant counts.non_relevant self.old }
        ensures list { self.new ≡ remarked_at (Some place) (is_relevant_standing marks.1)
            (is_lower_standing marks.1) counts.relevant counts.non_relevant self.old }
        ensures cost { steps.new ≤ steps.old + 14 * (levels (length self.old.docs) + 1) }
    {
        let caps = (cap_of(self.counts), cap_of(counts));
        self.sums = remark(&mut self.trees, self.sums, place, marks, caps, steps);
        self.counts = counts;
        self.cell = cell_from(&self.trees, self.sums, counts, steps);
    }

    /// Follows the counts of the topic, where another document's mark changed.
    fn follow<L: Ledger>(&mut self, counts: Counts, steps: &mut Steps<L>)
        requires counts { CanFollow counts.relevant counts.non_relevant self.old }
        ensures list { self.new ≡ list_recounted counts.relevant counts.non_relevant self.old }
        ensures cost { steps.new ≤ steps.old + 3 * (levels (length self.old.docs) + 1) }
    {
        let before = cap_of(self.counts);
        follow_cap(&self.trees, &mut self.sums, before, cap_of(counts), steps);
        self.counts = counts;
        follow_counts(&self.trees, &self.sums, &mut self.cell, counts, steps);
    }

    pub(crate) fn cell(&self) -> &Cell
        ensures { result.now ≡ cell_by self.now.relevant self.now.lower self.now.rel self.now.low }
    {
        &self.cell
    }
}

fn is_of(list: &RunList, run: RunId) -> bool
    ensures { result ≡ is_of_run run list.now }
{
    list.run.0 == run.0
}

/// How a list's run stands to a run.
fn order_of(list: &RunList, run: RunId) -> Ordering
    ensures { result ≡ nat_cmp list.now.run.0 run.0 }
{
    list.run.0.cmp(&run.0)
}

/// The list of a run, among lists by run.
pub(crate) fn list_of(lists: &[RunList], run: RunId) -> Option<&RunList>
    requires { AreByRun lists.now }
    ensures { option_copied result ≡ find (is_of_run run) lists.now }
{
    match lists.binary_search_by(|list| order_of(list, run)) {
        Ok(place) => Some(&lists[place]),
        Err(_) => None,
    }
}

/// Whether a list's run is less than a run.
fn is_before(list: &RunList, run: RunId) -> bool
    ensures { result ≡ nat_lt list.now.run.0 run.0 }
{
    list.run.0 < run.0
}

/// The place of one more list among lists by run.
pub(crate) fn place_for(lists: &[RunList], run: RunId) -> usize
    requires { AreByRun lists.now }
    ensures within { result ≤ length lists.now }
    ensures place { IsPartitionPoint (λ list. nat_lt list.run.0 run.0 ≡ true)
        (λ list. nat_lt list.run.0 run.0 ≡ false) lists.now result }
{
    lists.partition_point(|list| is_before(list, run))
}

/// Takes the lists of a run out.
pub(crate) fn drop_lists(lists: &mut Vec<RunList>, run: RunId)
    ensures items { lists.new.items ≡ without run lists.old.items }
    ensures len { vec_len lists.new ≤ vec_len lists.old }
    ensures capacity { vec_capacity lists.new ≡ vec_capacity lists.old }
{
    lists.retain(|list| !is_of(list, run));
}

/// Gives a document of the topic another mark in each list.
pub(crate) fn regrade_lists<L: Ledger>(
    lists: &mut [RunList],
    doc: DocId,
    old: Relevance,
    new: Relevance,
    counts: Counts,
    steps: &mut Steps<L>,
)
    requires can { All (CanRemark doc (is_relevant_standing old)
        (is_lower_standing old) counts.relevant counts.non_relevant) lists.old }
    requires few { counts.relevant ≤ 268435456 }
    requires few_lower { counts.non_relevant ≤ 268435456 }
    ensures lists { lists.new ≡ map (list_regraded doc (is_relevant_standing new)
        (is_lower_standing new) counts.relevant counts.non_relevant) lists.old }
    ensures cost { steps.new ≤ steps.old + sum_by (λ list. list_steps (Some list.docs)) lists.old }
{
    for list in lists.iter_mut() {
        list.regrade(doc, old, new, counts, steps);
    }
}

/// Marks each place by the grade of its document.
fn mark_places<L: Ledger>(
    trees: &mut Trees,
    ranking: &Ranking,
    view: &View,
    level: u8,
    cap: u32,
    steps: &mut Steps<L>,
) -> Sums
    requires room { IsRoom trees.old }
    requires as_many { length trees.old.relevant ≡ length ranking.now }
    requires few { cap ≤ 268435456 }
    ensures relevant { trees.new.relevant
        ≡ map (λ doc. is_relevant level (effective_in view.now.graded doc)) ranking.now }
    ensures lower { trees.new.lower
        ≡ map (λ doc. is_non_relevant level (effective_in view.now.graded doc)) ranking.now }
    ensures sums { AreSums cap trees.new result }
{
    // trees tell with their length that they are as long as one another
    let _ = trees.len();
    let mut sums = no_sums();
    for place in 0..ranking.len() {
        let doc = ranking.doc_at(place + 1, steps);
        let mark = mark_of(level, view.effective(doc));
        sums = put_mark(trees, sums, place + 1, mark, cap, steps);
    }
    sums
}
