//! A board of two topics for the tests, together with the grades that it stands for.
ghost use Rattle.std.specs.Prelude.{◌≡◌, ◌≢◌, ◌+◌, ◌-◌, ◌<◌, ◌≤◌, List, All, length, slice_set};
ghost use Rattle.std.specs.Bool.{OnFalse};
ghost use Rattle.qrels_view.specs.Grades.{effective_in, with_grade};
ghost use Rattle.qrels_view.specs.declared.grades.Graded.{Graded};
ghost use Rattle.score_index.specs.Scores.{KeepsScores, KeepsShape, topic_scores_at};
ghost use Rattle.score_index.specs.BoardGrades.{StandsAt, StandsFor, StandsWith, StaysSmall, grades_at};

use decimal_rank::{DocId, Ranking, Steps};
use depth_pool::RunId;
use measures::{Cell, Summary};
use qrels_view::View;
use score_index::Board;
use std::alloc::Global;
use std::marker::{Brand, Model};
use std::sync::ledger::{Blank, Ledger};
use std::test::Fail;

/// A board of the tests with topics 0 and 1, and the grades that it stands for.
#[derive(Drop)]
pub(crate) struct Scored {
    board: Board,
    first: View,
    second: View,
}

impl Model for Scored {
    ghost use Rattle.std.specs.Prelude.{ℕ, List};
    ghost use Rattle.judging_tests.specs.ScoredBoard.{IsBoardOfTwo};
    ghost use Rattle.score_index.specs.Scores.{board_levels};

    ghost Value = { List ℕ };

    ghost view = { λ scored. board_levels scored.board };

    ghost invariant = { λ scored. IsBoardOfTwo scored.board scored.first scored.second };
}

impl Scored {
    /// The topics have these levels.
    #[tactic(auto, using(crate::proofs::BoardShapes::two_topics))]
    pub(crate) fn new(alloc: Global, first: u8, second: u8) -> Result<Scored, Fail> {
        Ok(Scored {
            board: Board::new(alloc, &[first, second])?,
            first: View::new(alloc, first),
            second: View::new(alloc, second),
        })
    }

    /// Adds the list of a run, of each document once. False where it has one there.
    #[tactic(auto, using(crate::proofs::BoardShapes::as_many))]
    pub(crate) fn submit(
        &mut self,
        alloc: Global,
        run: u16,
        topic: u16,
        docs: &[u32],
    ) -> Result<bool, Fail> {
        let ranking = ranking_of(alloc, docs)?;
        match topic {
            0 => add(&mut self.board, RunId(run), 0, ranking, &self.first),
            1 => add(&mut self.board, RunId(run), 1, ranking, &self.second),
            _ => Ok(false),
        }
    }

    /// Makes room for a list of these documents, and gives it back.
    pub(crate) fn try_room(&mut self, alloc: Global, docs: &[u32]) -> Result<(), Fail> {
        let ranking = ranking_of(alloc, docs)?;
        reserve_and_drop(&mut self.board, &ranking)
    }

    #[tactic(auto, using(crate::proofs::BoardShapes::as_many))]
    pub(crate) fn withdraw(&mut self, run: u16) {
        self.board.drop_run(RunId(run));
    }

    /// Gives a document a grade, or takes its grade away.
    #[tactic(auto, using(crate::proofs::BoardShapes::as_many))]
    pub(crate) fn grade(&mut self, topic: u16, doc: u32, grade: Option<u8>) -> Result<bool, Fail> {
        let doc = DocId(doc);
        match topic {
            0 => regrade(&mut self.board, 0, &mut self.first, doc, grade),
            1 => regrade(&mut self.board, 1, &mut self.second, doc, grade),
            _ => Ok(false),
        }
    }

    pub(crate) fn cell(&self, run: u16, topic: u16) -> Option<Cell> {
        if topic < 2 {
            return Some(*self.board.cell(RunId(run), topic));
        }
        None
    }

    pub(crate) fn summary(&self, run: u16) -> Summary {
        self.board.summary(RunId(run))
    }

    /// How many documents a run has on a topic.
    pub(crate) fn held(&self, run: u16, topic: u16) -> Option<u32> {
        if topic < 2 {
            return Some(self.board.ranking(RunId(run), topic)?.len());
        }
        None
    }
}

fn reserve_and_drop(board: &mut Board, ranking: &Ranking) -> Result<(), Fail>
    ensures { KeepsScores board.old board.new }
{
    board.reserve(ranking)?;
    board.drop_room(ranking);
    Ok(())
}

/// Adds the list of a run. False where it has one there.
fn add(
    board: &mut Board,
    run: RunId,
    topic: u16,
    ranking: Ranking,
    view: &View,
) -> Result<bool, Fail>
    requires topic { topic < length board.old.topics }
    requires grades { StandsAt (topic_scores_at board.old topic) view.now.graded }
    ensures stands { (grades : List (List Graded)) → StandsFor board.old grades
        → grades_at grades topic ≡ view.now.graded → StandsFor board.new grades }
    ensures shape { KeepsShape board.old board.new }
{
    if board.ranking(run, topic).is_some() {
        return Ok(false);
    }
    board.reserve(&ranking)?;
    board.add_run(run, topic, ranking, view);
    Ok(true)
}

/// Gives a document a grade, or takes its grade away. False where a thousand documents had grades.
fn regrade(
    board: &mut Board,
    topic: u16,
    view: &mut View,
    doc: DocId,
    grade: Option<u8>,
) -> Result<bool, Fail>
    requires topic { topic < length board.old.topics }
    requires grades { StandsAt (topic_scores_at board.old topic) view.old.graded }
    ensures stands { (grades : List (List Graded))
        → StandsFor board.old grades → grades_at grades topic ≡ view.old.graded
        → StandsFor board.new (slice_set grades topic view.new.graded) }
    ensures shape { KeepsShape board.old board.new }
{
    if view.trail().len() >= 1000 {
        return Ok(false);
    }
    view.reserve()?;
    let old = view.effective(doc);
    regrade_counted::<Brand>(board, topic, doc, old, grade, Blank::new(1));
    view.apply(doc, old, grade);
    Ok(true)
}

fn regrade_counted<L: Ledger>(
    board: &mut Board,
    topic: u16,
    doc: DocId,
    old: Option<u8>,
    new: Option<u8>,
    blank: Blank,
)
    requires name { blank.name ≡ L.name }
    requires parts { blank.parts ≡ L.parts }
    requires some { 0 < L.parts }
    requires topic { topic < length board.old.topics }
    requires grade_now { StandsWith (topic_scores_at board.old topic) doc old }
    requires few { StaysSmall (topic_scores_at board.old topic).level
        (topic_scores_at board.old topic) old new }
    ensures stands { (grades : List (List Graded)) → StandsFor board.old grades
        → effective_in (grades_at grades topic) doc ≡ old → StandsFor board.new
        (slice_set grades topic (with_grade doc new (grades_at grades topic))) }
    ensures shape { KeepsShape board.old board.new }
{
    let mut steps = Steps::<L>::new(blank);
    board.regrade(topic, doc, old, new, &mut steps);
}

/// The documents in this order, each where it stands first.
fn ranking_of(alloc: Global, docs: &[u32]) -> Result<Ranking, Fail> {
    let mut listed = Vec::new(alloc);
    for doc in docs {
        if listed.len() < 1000 && !is_listed(listed.as_slice(), DocId(*doc)) {
            listed.push(DocId(*doc))?;
        }
    }
    Ok(Ranking::listed(listed)?)
}

fn is_listed(docs: &[DocId], doc: DocId) -> bool
    ensures { OnFalse result (All (λ other. other ≢ doc) docs.now) }
{
    for other in docs {
        if *other == doc {
            return true;
        }
    }
    false
}
