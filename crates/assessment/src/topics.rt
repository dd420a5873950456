//! The topics of a campaign by number, with one board of the runs' lists on them. The board stands
//! for the topics' grades.
ghost use Rattle.std.specs.Prelude.{◌≡◌, ◌+◌, ◌<◌, ◌≤◌, ◌^◌, [], List, IfOk, None, OnErr, OnOk, length, map, slice_get, vec_len};
ghost use Rattle.std.specs.Option.{IsSomeAnd};
ghost use Rattle.score_index.specs.BoardGrades.{StandsFor};
ghost use Rattle.depth_pool.specs.declared.runs.RunId.{RunId};
ghost use Rattle.assessment.specs.Costs.{HaveLists, grade_steps};
ghost use Rattle.assessment.specs.RunLists.{HasRooms, HavePlaces, IsReservedFor};
ghost use Rattle.assessment.specs.TopicFacts.{AwaitsJudgement, MayJudge, facts_of, judgement_doc, new_topic, view_grades};
ghost use Rattle.assessment.specs.TopicsFacts.{AreAtRest, AwaitsList, Becomes, IsEntered, IsNewOn, IsOnNone, IsUnchanged, UsesRoom, after_entry, after_judgement, after_list, after_one_list, after_withdrawal, judgement_topic, new_topics, topics_facts};

use crate::change::Judgement;
use crate::runs::{drop_lists, enter_each, leave_each, reserve_lists, reserve_places};
use crate::topic::{AssessedTopic, TopicRules};
use decimal_rank::{DocId, Memory, Ranking, Steps};
use depth_pool::RunId;
use score_index::{Board, each_topic_stands};
use std::alloc::Global;
use std::marker::Model;
use std::sync::ledger::Ledger;

/// The topics, and the board of the runs' lists. Contracts see both.
#[derive(Drop)]
pub struct Topics {
    topics: Vec<AssessedTopic>,
    board: Board,
}

impl Model for Topics {
    ghost use Rattle.assessment.specs.TopicsFacts.{IsStanding, TopicsView};

    ghost Value = { TopicsView };

    ghost view = { λ all. record { topics = all.topics.items; board = all.board } };

    ghost invariant = { λ all. IsStanding all.topics.items all.board };
}

impl Topics {
    /// These topics before any run, and a board of their levels.
    pub fn new(alloc: Global, rules: Vec<TopicRules>) -> Result<Topics, Memory>
        requires { vec_len rules < 2 ^ 16 }
        ensures { IfOk result (AreAtRest (new_topics rules.items)) }
    {
        let levels = levels_of(alloc, &rules)?;
        let board = Board::new(alloc, &levels)?;
        let topics = each_new(alloc, rules)?;
        Ok(Topics { topics, board })
    }

    /// The topics by number.
    pub fn items(&self) -> &[AssessedTopic]
        ensures topics { result.now ≡ self.now.topics }
        ensures few { length result.now < 2 ^ 16 }
    {
        self.topics.as_slice()
    }

    /// The board of the runs' lists, which stands for the topics' grades.
    pub fn board(&self) -> &Board
        ensures board { result.now ≡ self.now.board }
        ensures stands { StandsFor result.now (map view_grades self.now.topics) }
    {
        &self.board
    }

    /// Makes room for a run with these lists, one for each topic. Where memory is short no room is
    /// kept on the board.
    pub(crate) fn reserve_run(&mut self, lists: &[Ranking]) -> Result<(), Memory>
        requires as_many { length lists.now ≡ length self.old.topics }
        requires none { self.old.board.rooms ≡ [] }
        ensures ok { OnOk result (HasRooms lists.now self.new.topics self.new.board) }
        ensures err { OnErr result (self.new.board.rooms ≡ []) }
        ensures facts { topics_facts self.new ≡ topics_facts self.old }
    {
        reserve_places(&mut self.topics, lists)?;
        reserve_lists(&mut self.board, lists)
    }

    /// Gives the room on the board for these lists back.
    pub(crate) fn cancel_run(&mut self, lists: &[Ranking])
        requires { IsReservedFor lists.now self.old.board }
        ensures { AreAtRest (topics_facts self.old) self.new }
    {
        drop_lists(&mut self.board, lists);
    }

    /// Adds a run to a topic, and its list to the board where it has documents.
    pub(crate) fn enter_list(&mut self, number: usize, run: RunId, list: Ranking)
        requires room { AwaitsList number list self.old }
        requires is_new { IsNewOn number run (topics_facts self.old) }
        ensures facts { topics_facts self.new ≡ after_list number run list (topics_facts self.old) }
        ensures room { UsesRoom number list self.old self.new }
    {
        // a board that stands for grades does so on each topic
        each_topic_stands();
        let topic = &mut self.topics[number];
        topic.enter(run, &list);
        if list.len() > 0 {
            self.board.add_run(run, number as u16, list, topic.grades());
        }
    }

    /// Makes room for a run with these lists, one for each topic, whose lists are to wait.
    pub(crate) fn reserve_places(&mut self, lists: &[Ranking]) -> Result<(), Memory>
        requires { length lists.now ≡ length self.old.topics }
        ensures room { OnOk result (HavePlaces lists.now self.new.topics) }
        ensures unchanged { IsUnchanged self.old self.new }
    {
        reserve_places(&mut self.topics, lists)
    }

    /// Adds a run, for which there is room, to each topic. Its lists don't come on the board.
    pub(crate) fn enter(&mut self, run: RunId, lists: &[Ranking])
        requires room { HavePlaces lists.now self.old.topics }
        requires is_new { IsOnNone run (topics_facts self.old) }
        ensures { Becomes (after_entry run lists.now (topics_facts self.old)) self.old self.new }
    {
        enter_each(&mut self.topics, run, lists);
    }

    /// Puts the list of a run on a topic on the board, where it has documents.
    pub(crate) fn list(&mut self, number: usize, run: RunId, list: Ranking) -> Result<(), Memory>
        requires topic { number < length self.old.topics }
        requires is_new { (topics_facts self.old).lists run number ≡ None }
        requires none { self.old.board.rooms ≡ [] }
        ensures { OnOk result
            (AreAtRest (after_one_list number run list (topics_facts self.old)) self.new) }
    {
        // a board that stands for grades does so on each topic
        each_topic_stands();
        if list.len() > 0 {
            self.board.reserve(&list)?;
            self.board
                .add_run(run, number as u16, list, self.topics[number].grades());
        }
        Ok(())
    }

    /// Takes a run out of each topic, and its lists off the board.
    pub(crate) fn leave(&mut self, run: RunId)
        requires { IsEntered run (topics_facts self.old) }
        ensures { Becomes (after_withdrawal run (topics_facts self.old)) self.old self.new }
    {
        leave_each(&mut self.topics, run);
        self.board.drop_run(run);
    }

    /// Makes room for a mark on a document of a topic.
    pub(crate) fn reserve_mark(&mut self, number: u16, doc: DocId) -> Result<(), Memory>
        requires { number < length self.old.topics }
        ensures room { OnOk result
            (IsSomeAnd (slice_get self.new.topics number) (AwaitsJudgement doc)) }
        ensures unchanged { IsUnchanged self.old self.new }
    {
        self.topics[number as usize].reserve_mark(doc)
    }

    /// Leads the fronts of an assessor on a topic on.
    pub(crate) fn lead_fronts(&mut self, number: usize, assessor: &[u8]) -> Result<(), Memory>
        requires { number < length self.old.topics }
        ensures { self.new ≡ self.old }
    {
        self.topics[number].lead_fronts(assessor)
    }

    /// Gives a document of a topic a mark, and the board the grade that it has then.
    pub(crate) fn mark<L: Ledger>(&mut self, mark: Judgement, steps: &mut Steps<L>)
        requires room { IsSomeAnd (slice_get self.old.topics (judgement_topic mark))
            (AwaitsJudgement (judgement_doc mark)) }
        requires may_mark { IsSomeAnd
            (slice_get (topics_facts self.old).topics (judgement_topic mark)) (MayJudge mark) }
        ensures facts { Becomes (after_judgement mark (topics_facts self.old)) self.old self.new }
        ensures cost { (runs : List RunId) → HaveLists runs (topics_facts self.old) → steps.new
            ≤ steps.old + grade_steps runs (judgement_topic mark) (topics_facts self.old) }
    {
        // a board that stands for grades does so on each topic
        each_topic_stands();
        let (number, doc) = mark.place();
        let topic = &mut self.topics[number as usize];
        let grade = topic.mark(mark, steps);
        self.board
            .regrade(number, doc, grade.before, grade.after, steps);
    }
}

/// The level of each topic.
fn levels_of(alloc: Global, rules: &[TopicRules]) -> Result<Vec<u8>, Memory>
    ensures { IfOk result (λ levels. levels.items ≡ map (λ one. one.level) rules.now) }
{
    let mut levels = Vec::with_capacity(alloc, rules.len())?;
    for one in rules {
        levels.push(one.level)?;
    }
    Ok(levels)
}

/// The topics before any run.
fn each_new(alloc: Global, given: Vec<TopicRules>) -> Result<Vec<AssessedTopic>, Memory>
    ensures { IfOk result (λ topics. map facts_of topics.items ≡ map new_topic given.items) }
{
    let mut topics = Vec::with_capacity(alloc, given.len())?;
    for rules in given {
        topics.push(AssessedTopic::new(alloc, rules))?;
    }
    Ok(topics)
}
