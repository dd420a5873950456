//! A run on all topics: room for its lists, its entry, and its withdrawal.
ghost use Rattle.std.specs.Prelude.{◌≡◌, ◌+◌, ◌<◌, ℕ, false, [], List, All, IfOk, IsTrue, None, OnErr, OnOk, if◌then◌else◌, length, map, slice_index_or};
ghost use Rattle.decimal_rank.specs.declared.naming.DocId.{DocId};
ghost use Rattle.depth_pool.specs.Holdings.{has_run};
ghost use Rattle.score_index.specs.Scores.{KeepsScores, rooms_for};
ghost use Rattle.assessment.specs.RunLists.{HasRooms, HavePlaces, IsReservedFor, each_with_list, has_length};
ghost use Rattle.assessment.specs.TopicFacts.{AwaitsRun, TopicView, facts_of, without_list};
ghost use Rattle.assessment.specs.Changes.{with_waiting_lists};
ghost use Rattle.assessment.specs.WaitingRuns.{AreWaiting, lists_of};
ghost use Rattle.assessment.specs.TopicsFacts.{AreAtRest, IsNewRun, after_lists, after_run, topics_facts};

use crate::topic::AssessedTopic;
use crate::topics::Topics;
use crate::waiting::WaitingRun;
use decimal_rank::{Memory, Ranking};
use depth_pool::RunId;
use score_index::Board;

/// Makes room for a run with these lists in the pools and the queues.
pub(crate) fn reserve_places(topics: &mut [AssessedTopic], lists: &[Ranking]) -> Result<(), Memory>
    requires { length lists.now ≡ length topics.old }
    ensures room { OnOk result ((on : ℕ) (docs : List DocId) (topic : TopicView)
        → on < length topics.new
        → AwaitsRun (slice_index_or lists.now on docs) (slice_index_or topics.new on topic)) }
    ensures facts { map facts_of topics.new ≡ map facts_of topics.old }
{
    for number in 0..topics.len() {
        topics[number].reserve_run(&lists[number])?;
    }
    Ok(())
}

/// Makes room on the board for these lists. Where memory is short no room is kept.
pub(crate) fn reserve_lists(board: &mut Board, lists: &[Ranking]) -> Result<(), Memory>
    requires { board.old.rooms ≡ [] }
    ensures ok { OnOk result (IsReservedFor lists.now board.new) }
    ensures err { OnErr result (board.new.rooms ≡ []) }
    ensures scores { KeepsScores board.old board.new }
{
    for (count, list) in lists.iter().enumerate() {
        if let Err(memory) = reserve_list(board, list) {
            drop_lists(board, &lists[..count]);
            return Err(memory);
        }
    }
    Ok(())
}

/// Makes room for a list that has documents.
fn reserve_list(board: &mut Board, list: &Ranking) -> Result<(), Memory>
    ensures room { OnOk result ((len : ℕ) → rooms_for len board.new
        ≡ rooms_for len board.old + (if has_length len list.now then 1 else 0)) }
    ensures no_room { OnErr result (board.new.rooms ≡ board.old.rooms) }
    ensures scores { KeepsScores board.old board.new }
{
    if list.len() > 0 {
        board.reserve(list)?;
    }
    Ok(())
}

/// Gives the room for the lists of a run back, which doesn't enter.
pub(crate) fn drop_lists(board: &mut Board, lists: &[Ranking])
    requires { IsReservedFor lists.now board.old }
    ensures none { board.new.rooms ≡ [] }
    ensures scores { KeepsScores board.old board.new }
{
    for list in lists {
        if list.len() > 0 {
            board.drop_room(list);
        }
    }
}

/// Adds a run, for which there is room, to each topic, and its lists to the board.
pub(crate) fn enter_run(topics: &mut Topics, run: RunId, lists: Vec<Ranking>)
    requires room { HasRooms lists.items topics.old.topics topics.old.board }
    requires is_new { IsNewRun run (topics_facts topics.old) }
    ensures { AreAtRest (after_run run lists.items (topics_facts topics.old)) topics.new }
{
    let mut number = 0;
    for list in lists {
        topics.enter_list(number, run, list);
        number += 1;
    }
}

/// Adds a run, for which there is room, to each topic.
pub(crate) fn enter_each(topics: &mut [AssessedTopic], run: RunId, lists: &[Ranking])
    requires room { HavePlaces lists.now topics.old }
    requires is_new { All (λ topic. has_run run topic.facts.pool ≡ false) topics.old }
    ensures { map facts_of topics.new ≡ each_with_list run lists.now (map facts_of topics.old) }
{
    for number in 0..topics.len() {
        topics[number].enter(run, &lists[number]);
    }
}

/// Puts the lists of runs on the board.
pub(crate) fn list_runs(topics: Topics, runs: Vec<WaitingRun>) -> Result<Topics, Memory>
    requires waiting { AreWaiting (length topics.topics) (topics_facts topics).lists
        (map lists_of runs.items) }
    requires none { topics.board.rooms ≡ [] }
    ensures { IfOk result
        (AreAtRest (with_waiting_lists (map lists_of runs.items) (topics_facts topics))) }
{
    let mut topics = topics;
    for one in runs {
        let WaitingRun { run, lists } = one;
        list_run(&mut topics, run, lists)?;
    }
    Ok(topics)
}

/// Puts the lists of a run on the board, one for each topic.
fn list_run(topics: &mut Topics, run: RunId, lists: Vec<Ranking>) -> Result<(), Memory>
    requires as_many { length lists.items ≡ length topics.old.topics }
    requires is_new { (on : ℕ) → (topics_facts topics.old).lists run on ≡ None }
    requires none { topics.old.board.rooms ≡ [] }
    ensures { OnOk result
        (AreAtRest (after_lists run lists.items (topics_facts topics.old)) topics.new) }
{
    let mut number = 0;
    for list in lists {
        topics.list(number, run, list)?;
        number += 1;
    }
    Ok(())
}

/// Takes a run out of each topic.
pub(crate) fn leave_each(topics: &mut [AssessedTopic], run: RunId)
    requires { All (λ topic. IsTrue (has_run run topic.facts.pool)) topics.old }
    ensures { map facts_of topics.new ≡ map (without_list run) (map facts_of topics.old) }
{
    for topic in topics.iter_mut() {
        topic.leave(run);
    }
}
