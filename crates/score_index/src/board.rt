//! The board of a campaign's scores: the cell of each run on each topic, and the summary of each
//! run.
ghost use Rattle.std.specs.Prelude.{◌≡◌, ℕ, ◌+◌, ◌-◌, ◌<◌, ◌≤◌, ◌^◌, ◌==◌, ◌&&◌, [], None, Some, List, IfOk, OnOk, OnErr, if◌then◌else◌, length, map, replicate, slice_set};
ghost use Rattle.std.specs.Option.{option_copied};
ghost use Rattle.depth_pool.specs.declared.runs.RunId.{RunId};
ghost use Rattle.measures.specs.Cells.{IsSound};
ghost use Rattle.measures.specs.Means.{IsProper, summary_of};
ghost use Rattle.qrels_view.specs.Grades.{effective_in, with_grade};
ghost use Rattle.qrels_view.specs.declared.grades.Graded.{Graded};
ghost use Rattle.score_index.specs.Scores.{HasRuns, KeepsScores, KeepsShape, board_levels, rooms_for, run_docs_at, steps_of, topic_scores_at};
ghost use Rattle.score_index.specs.BoardGrades.{StandsAt, StandsFor, StandsWith, StaysSmall, cell_from, cells_of, grades_at, listed_in};

use crate::lists::{RunList, list_of};
use crate::rooms::{Room, take_room};
use crate::topics::{
    ScoredTopic, add_cell, add_list, cell_in, drop_run, new_topics, regrade, reserve_lists,
};
use decimal_rank::{DocId, Memory, Ranking, Steps};
use depth_pool::RunId;
use measures::{Cell, Summary, Totals};
use qrels_view::View;
use std::alloc::Global;
use std::marker::{Brand, Model};
use std::sync::ledger::{Blank, Ledger};

/// The lists of the runs on each topic, with what their scores are taken from. Topics are numbered
/// from 0. A board keeps no map of grades: contracts say which grades it stands for.
#[derive(Drop)]
pub struct Board {
    topics: Vec<ScoredTopic>,
    rooms: Vec<Room>,
}

impl Model for Board {
    ghost use Rattle.std.specs.Prelude.{All, length, map};
    ghost use Rattle.score_index.specs.Scores.{Scores};
    ghost use Rattle.score_index.specs.KeptBoards.{IsKept, IsRoom, room_size, topic_scores};

    ghost Value = { Scores };

    ghost view = { λ board. record {
      topics = map topic_scores board.topics.items;
      rooms = map room_size board.rooms.items;
    } };

    ghost invariant = { λ board. IsKept board.topics.items (length board.rooms.items)
        × All (λ room. IsRoom room.trees) board.rooms.items };
}

impl Board {
    /// A topic for each of these levels, without grades and lists. A document is relevant where its
    /// grade is at least its topic's level.
    pub fn new(alloc: Global, levels: &[u8]) -> Result<Board, Memory>
        requires { length levels.now < 2 ^ 16 }
        ensures levels { IfOk result (λ board. board_levels board ≡ levels.now) }
        ensures lists { IfOk result (λ board. (run : RunId) (topic : ℕ)
            → run_docs_at board run topic ≡ None) }
        ensures rooms { IfOk result (λ board. (len : ℕ) → rooms_for len board ≡ 0) }
        ensures stands { IfOk result (λ board. StandsFor board (replicate (length levels.now) [])) }
    {
        Ok(Board {
            topics: new_topics(alloc, levels)?,
            rooms: Vec::new(alloc),
        })
    }

    /// Makes room for one more list as long as this ranking, on any topic.
    pub fn reserve(&mut self, ranking: &Ranking) -> Result<(), Memory>
        ensures room { OnOk result ((len : ℕ) → rooms_for len self.new
            ≡ rooms_for len self.old + (if length ranking.now == len then 1 else 0)) }
        ensures no_room { OnErr result (self.new.rooms ≡ self.old.rooms) }
        ensures scores { KeepsScores self.old self.new }
    {
        let alloc = *self.rooms.allocator();
        let room = Room::new(alloc, ranking.len())?;
        self.rooms.reserve(1)?;
        let count = self.rooms.len() + 1;
        reserve_lists(&mut self.topics, count)?;
        self.rooms.push(room).unwrap();
        Ok(())
    }

    /// Gives back the room for a list as long as this ranking, as where its run isn't added after
    /// all.
    pub fn drop_room(&mut self, ranking: &Ranking)
        requires { 0 < rooms_for (length ranking.now) self.old }
        ensures rooms { (len : ℕ) → rooms_for len self.new ≡ rooms_for len self.old -
            (if length ranking.now == len then 1 else 0) }
        ensures scores { KeepsScores self.old self.new }
    {
        take_room(&mut self.rooms, ranking.len() as usize);
    }

    /// Adds the list of a run on a topic, for which there is room. The view has the grades of the
    /// topic's documents now.
    pub fn add_run(&mut self, run: RunId, topic: u16, ranking: Ranking, view: &View)
        requires topic { topic < length self.old.topics }
        requires room { 0 < rooms_for (length ranking) self.old }
        requires is_new { run_docs_at self.old run topic ≡ None }
        requires grades { StandsAt (topic_scores_at self.old topic) view.now.graded }
        ensures stands { (grades : List (List Graded)) → StandsFor self.old grades
            → StandsFor self.new (slice_set grades topic view.now.graded) }
        ensures lists { (other : RunId) (on : ℕ) → run_docs_at self.new other on ≡ (if (run.0 ==
            other.0) && (topic == on) then Some ranking else run_docs_at self.old other on) }
        ensures rooms { (len : ℕ) → rooms_for len self.new ≡ rooms_for len self.old -
            (if length ranking == len then 1 else 0) }
        ensures shape { KeepsShape self.old self.new }
    {
        let room = take_room(&mut self.rooms, ranking.len() as usize);
        let topic = &mut self.topics[topic as usize];
        let level = topic.level;
        let counts = topic.counts;
        let list = RunList::listed::<Brand>(run, ranking, room, view, level, counts, Blank::new(1));
        add_list(topic, list);
    }

    /// Takes all lists of a run out.
    pub fn drop_run(&mut self, run: RunId)
        ensures stands { (grades : List (List Graded)) → StandsFor self.old grades
            → StandsFor self.new grades }
        ensures lists { (other : RunId) (on : ℕ) → run_docs_at self.new other on
            ≡ (if run.0 == other.0 then None else run_docs_at self.old other on) }
        ensures rooms { self.new.rooms ≡ self.old.rooms }
        ensures shape { KeepsShape self.old self.new }
    {
        drop_run(&mut self.topics, run);
    }

    /// Gives a document of a topic, whose grade now is `old`, the grade `new`, or takes its grade
    /// away. A step is an entry that `Ranking::place_of` reads, or a node or a word of a tree or of
    /// a filter.
    pub fn regrade<L: Ledger>(
        &mut self,
        topic: u16,
        doc: DocId,
        old: Option<u8>,
        new: Option<u8>,
        steps: &mut Steps<L>,
    )
        requires topic { topic < length self.old.topics }
        requires grade_now { StandsWith (topic_scores_at self.old topic) doc old }
        requires few { StaysSmall (topic_scores_at self.old topic).level
            (topic_scores_at self.old topic) old new }
        ensures stands { (grades : List (List Graded)) → StandsFor self.old grades
            → effective_in (grades_at grades topic) doc ≡ old → StandsFor self.new
            (slice_set grades topic (with_grade doc new (grades_at grades topic))) }
        ensures lists { (run : RunId) (on : ℕ)
            → run_docs_at self.new run on ≡ run_docs_at self.old run on }
        ensures rooms { self.new.rooms ≡ self.old.rooms }
        ensures shape { KeepsShape self.old self.new }
        ensures cost { (runs : List RunId) → HasRuns runs (topic_scores_at self.old topic)
            → steps.new ≤ steps.old + steps_of runs (topic_scores_at self.old topic) }
    {
        let topic = &mut self.topics[topic as usize];
        regrade(topic, doc, old, new, steps);
    }

    /// The cell of a run on a topic. Without a list there it is that of the empty list.
    pub fn cell(&self, run: RunId, topic: u16) -> &Cell
        requires { topic < length self.now.topics }
        ensures cell { (grades : List (List Graded)) → StandsFor self.now grades
            → result.now ≡ cell_from (topic_scores_at self.now topic).level (grades_at grades topic)
            (listed_in run (topic_scores_at self.now topic)) }
        ensures sound { IsSound result.now }
    {
        cell_in(&self.topics[topic as usize], run)
    }

    /// The summary of a run over the counted topics: those where some document has a grade.
    pub fn summary(&self, run: RunId) -> Summary
        ensures summary { (grades : List (List Graded)) → StandsFor self.now grades
            → result ≡ summary_of (cells_of run self.now.topics grades) }
        ensures proper { IsProper result }
    {
        let mut totals = Totals::new();
        for topic in &self.topics {
            add_cell(&mut totals, topic, run);
        }
        totals.mean()
    }

    /// The ranking of a run on a topic, as it was added.
    pub fn ranking(&self, run: RunId, topic: u16) -> Option<&Ranking>
        requires { topic < length self.now.topics }
        ensures { option_copied result ≡ run_docs_at self.now run topic }
    {
        let lists = self.topics[topic as usize].lists.as_slice();
        let list = list_of(lists, run)?;
        Some(&list.ranking)
    }
}
