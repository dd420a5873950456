//! What each change takes: room first, then its effect, or its room given back.
ghost use Rattle.std.specs.Prelude.{◌≡◌, ◌+◌, ◌≤◌, [], List, OnErr, OnOk, length};
ghost use Rattle.depth_pool.specs.declared.runs.RunId.{RunId};
ghost use Rattle.assessment.specs.Costs.{HaveLists, change_steps};
ghost use Rattle.assessment.specs.TopicsFacts.{AreAtRest, IsNewRun, after_run, topics_facts};
ghost use Rattle.assessment.specs.Changes.{AreUnchanged, ChangeHasRoom, Fits, HasRunRoom, IsChangeReady, IsLeftAtRest, MayCome, after_change, facts_in, with_waiting_lists};
ghost use Rattle.assessment.specs.WaitingRuns.{IsWaitingAs};

use crate::change::{Change, Grant, Judgement};
use crate::runs::enter_run;
use crate::topics::Topics;
use crate::waiting::Waiting;
use decimal_rank::{Memory, Ranking, Steps};
use depth_pool::RunId;
use lease_desk::{Desk, LeaseEnd};
use std::sync::ledger::Ledger;

/// Makes room for a change. Where memory is short no room is kept on the board.
pub(crate) fn make_room(
    topics: &mut Topics,
    desk: &mut Desk,
    waiting: &mut Waiting,
    change: &Change,
) -> Result<(), Memory>
    requires fits { Fits change.now (facts_in topics.old desk.old.leases waiting.old) }
    requires none { topics.old.board.rooms ≡ [] }
    ensures ok { OnOk result (ChangeHasRoom change.now topics.new desk.new waiting.new) }
    ensures err { OnErr result ((topics.new.board.rooms ≡ [])) }
    ensures same { AreUnchanged topics.old topics.new desk.old.leases desk.new.leases
        waiting.old waiting.new }
{
    match change {
        Change::Nothing => Ok(()),
        Change::Topics(_) => Ok(()),
        Change::Run(_, lists) => make_run_room(topics, waiting, lists.as_slice()),
        Change::Withdraw(_) => Ok(()),
        Change::Lease(_) => desk.reserve(),
        Change::Grade(_, label) => topics.reserve_mark(label.topic, label.doc),
        Change::Release(_) => Ok(()),
        Change::Amend(label) => topics.reserve_mark(label.topic, label.doc),
        Change::Rule(ruling) => topics.reserve_mark(ruling.topic, ruling.doc),
    }
}

/// Makes room for a run with these lists: on the board too, unless its lists are to wait.
fn make_run_room(
    topics: &mut Topics,
    waiting: &mut Waiting,
    lists: &[Ranking],
) -> Result<(), Memory>
    requires as_many { length lists.now ≡ length topics.old.topics }
    requires none { topics.old.board.rooms ≡ [] }
    ensures ok { OnOk result (HasRunRoom waiting.new.on_board lists.now topics.new waiting.new) }
    ensures err { OnErr result ((topics.new.board.rooms ≡ [])) }
    ensures facts { topics_facts topics.new ≡ topics_facts topics.old }
    ensures waiting { IsWaitingAs waiting.old.runs waiting.old waiting.new }
{
    if waiting.is_on_board() {
        return topics.reserve_run(lists);
    }
    waiting.reserve()?;
    topics.reserve_places(lists)
}

/// Gives the room of a change back.
pub(crate) fn give_back(topics: &mut Topics, desk: &Desk, waiting: &Waiting, change: &Change)
    requires { ChangeHasRoom change.now topics.old desk.now waiting.now }
    ensures { AreAtRest (topics_facts topics.old) topics.new }
{
    match change {
        Change::Run(_, lists) => give_run_room_back(topics, waiting, lists.as_slice()),
        Change::Nothing => {}
        Change::Topics(_) => {}
        Change::Withdraw(_) => {}
        Change::Lease(_) => {}
        Change::Grade(_, _) => {}
        Change::Release(_) => {}
        Change::Amend(_) => {}
        Change::Rule(_) => {}
    }
}

fn give_run_room_back(topics: &mut Topics, waiting: &Waiting, lists: &[Ranking])
    requires { HasRunRoom waiting.now.on_board lists.now topics.old waiting.now }
    ensures { AreAtRest (topics_facts topics.old) topics.new }
{
    if waiting.is_on_board() {
        topics.cancel_run(lists);
    }
}

/// Makes a change, for which there is room.
pub(crate) fn make<L: Ledger>(
    topics: &mut Topics,
    desk: &mut Desk,
    waiting: &mut Waiting,
    change: Change,
    steps: &mut Steps<L>,
)
    requires { IsChangeReady change topics.old desk.old waiting.old }
    ensures effect { IsLeftAtRest (after_change change
        (facts_in topics.old desk.old.leases waiting.old)) topics.new desk.new.leases waiting.new }
    ensures cost { (runs : List RunId) → HaveLists runs (topics_facts topics.old)
        → steps.new ≤ steps.old + change_steps runs change (topics_facts topics.old) }
{
    match change {
        Change::Nothing => {}
        Change::Topics(given) => {
            *topics = given;
            waiting.clear();
        }
        Change::Run(run, lists) => enter(topics, waiting, run, lists),
        Change::Withdraw(run) => {
            topics.leave(run);
            waiting.leave(run);
        }
        Change::Lease(grant) => {
            let Grant {
                topic,
                doc,
                assessor,
                until,
            } = grant;
            desk.grant(assessor, topic, doc, until);
        }
        Change::Grade(number, label) => {
            topics.mark(Judgement::Label(label), steps);
            desk.end(number, LeaseEnd::Graded);
        }
        Change::Release(number) => desk.end(number, LeaseEnd::Released),
        Change::Amend(label) => topics.mark(Judgement::Label(label), steps),
        Change::Rule(ruling) => topics.mark(Judgement::Ruling(ruling), steps),
    }
}

/// Adds a run, for which there is room: its lists come on the board, or wait.
fn enter(topics: &mut Topics, waiting: &mut Waiting, run: RunId, lists: Vec<Ranking>)
    requires room { HasRunRoom waiting.old.on_board lists.items topics.old waiting.old }
    requires is_new { IsNewRun run (with_waiting_lists waiting.old.runs (topics_facts topics.old)) }
    requires may_come { MayCome topics.old waiting.old }
    ensures facts { with_waiting_lists waiting.new.runs (topics_facts topics.new)
        ≡ after_run run lists.items
        (with_waiting_lists waiting.old.runs (topics_facts topics.old)) }
    ensures same_way { waiting.new.on_board ≡ waiting.old.on_board }
    ensures none { topics.new.board.rooms ≡ [] }
    ensures may_come { MayCome topics.new waiting.new }
{
    if waiting.is_on_board() {
        enter_run(topics, run, lists);
        return;
    }
    topics.enter(run, lists.as_slice());
    waiting.enter(run, lists);
}
