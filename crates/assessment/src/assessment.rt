//! The assessment of a campaign: a change is reserved, and then committed or cancelled.
//!
//! ```text
//! at rest     nothing is pending, and the board has no room for a list
//! reserve     room is made for one change, which then is pending; on want of memory at rest again
//! commit      the pending change is made, without memory; at rest again
//! cancel      the room of the pending change is given back; at rest again
//! ```
ghost use Rattle.std.specs.Prelude.{◌≡◌, ◌+◌, ◌<◌, ◌≤◌, [], List, IfOk, IfSome, IsSome, None, OnErr, OnOk, Some, false, length, true};
ghost use Rattle.std.specs.Option.{option_copied};
ghost use Rattle.depth_pool.specs.declared.runs.RunId.{RunId};
ghost use Rattle.assessment.specs.Costs.{HaveLists, change_steps};
ghost use Rattle.assessment.specs.Changes.{Fits, IsIdle, after_change, facts};
ghost use Rattle.assessment.specs.TopicsFacts.{new_topics, topics_facts};

use crate::change::Change;
use crate::effects::{give_back, make, make_room};
use crate::runs::list_runs;
use crate::topics::Topics;
use crate::waiting::Waiting;
use decimal_rank::{Memory, Steps};
use lease_desk::Desk;
use std::alloc::Global;
use std::marker::Model;
use std::sync::ledger::Ledger;

/// What a campaign knows by numbers. Contracts see the topics with the board, the leases, and the
/// change for which there is room.
pub struct Assessment {
    topics: Topics,
    desk: Desk,
    // none but in a replay
    waiting: Waiting,
    pending: Option<Change>,
}

impl Model for Assessment {
    ghost use Rattle.assessment.specs.Changes.{AssessmentView, IsKept};

    ghost Value = { AssessmentView };

    ghost view = { λ all. record {
      topics = all.topics;
      leases = all.desk.leases;
      waiting = all.waiting;
      pending = all.pending;
    } };

    ghost invariant = { λ all. IsKept all.pending all.topics all.desk all.waiting };
}

// a call of its own, so that no caller's proof takes an assessment apart
impl Drop for Assessment {
    fn drop(self) {
        let Assessment {
            topics: _,
            desk: _,
            waiting: _,
            pending: _,
        } = self;
    }
}

impl Assessment {
    /// No topic and no lease yet.
    pub fn new(alloc: Global) -> Result<Assessment, Memory>
        ensures facts { IfOk result
            (λ all. facts all ≡ record { topics = new_topics []; leases = []; on_board = true }) }
        ensures pending { IfOk result (λ all. all.pending ≡ None) }
    {
        begun(alloc, true)
    }

    /// The same for a replay: the runs' lists wait until its end, so that no change meanwhile costs
    /// what the board takes to follow it.
    pub fn replayed(alloc: Global) -> Result<Assessment, Memory>
        ensures facts { IfOk result
            (λ all. facts all ≡ record { topics = new_topics []; leases = []; on_board = false }) }
        ensures pending { IfOk result (λ all. all.pending ≡ None) }
    {
        begun(alloc, false)
    }

    /// Puts the lists of the runs that wait on the board.
    pub fn with_lists(self, alloc: Global) -> Result<Assessment, Memory>
        requires { self.pending ≡ None }
        ensures facts { IfOk result (λ all. facts all ≡ record (facts self) { on_board = true }) }
        ensures pending { IfOk result (λ all. all.pending ≡ None) }
    {
        let Assessment {
            topics,
            desk,
            waiting,
            pending: _,
        } = self;
        let topics = list_runs(topics, waiting.into_runs())?;
        Ok(Assessment {
            topics,
            desk,
            waiting: Waiting::new(alloc, true),
            pending: None,
        })
    }

    /// Makes room for a change, in place of the one that was pending. On want of memory none is
    /// pending.
    pub fn reserve(&mut self, change: Change) -> Result<(), Memory>
        requires { Fits change (facts self.old) }
        ensures ok { OnOk result (self.new.pending ≡ Some change) }
        ensures err { OnErr result (IsIdle self.new) }
        ensures facts { facts self.new ≡ facts self.old }
    {
        self.cancel();
        match make_room(&mut self.topics, &mut self.desk, &mut self.waiting, &change) {
            Ok(()) => {
                self.pending = Some(change);
                Ok(())
            }
            Err(memory) => {
                drop(change);
                Err(memory)
            }
        }
    }

    /// Makes the change that is pending. A step is a node of a tree, an entry of a ranking that is
    /// read, or a look into a pool.
    pub fn commit<L: Ledger>(&mut self, steps: &mut Steps<L>)
        requires { IsSome self.old.pending }
        ensures facts { IfSome self.old.pending
            (λ change. facts self.new ≡ after_change change (facts self.old)) }
        ensures idle { IsIdle self.new }
        ensures cost { (runs : List RunId) → HaveLists runs (facts self.old).topics
            → IfSome self.old.pending
            (λ change. steps.new ≤ steps.old + change_steps runs change (facts self.old).topics) }
    {
        if let Some(change) = self.pending.take() {
            make(
                &mut self.topics,
                &mut self.desk,
                &mut self.waiting,
                change,
                steps,
            );
        }
    }

    /// Gives the room of the change that is pending back.
    pub fn cancel(&mut self)
        ensures facts { facts self.new ≡ facts self.old }
        ensures idle { IsIdle self.new }
    {
        if let Some(change) = self.pending.take() {
            give_back(&mut self.topics, &self.desk, &self.waiting, &change);
            drop(change);
        }
    }

    /// The change that is pending.
    pub fn pending(&self) -> Option<&Change>
        ensures { option_copied result ≡ self.now.pending }
    {
        self.pending.as_ref()
    }

    /// Leads on, past documents that an assessor isn't given any more, where the next one is looked
    /// for. That changes nothing that contracts see, so it may be done or left out.
    pub fn lead_fronts(&mut self, topic: usize, assessor: &[u8]) -> Result<(), Memory>
        requires { topic < length self.old.topics.topics }
        ensures { self.new ≡ self.old }
    {
        self.topics.lead_fronts(topic, assessor)
    }

    /// The topics, with the board. Where nothing is pending the board has no room for a list.
    pub fn topics(&self) -> &Topics
        ensures topics { result.now ≡ self.now.topics }
        ensures unreserved { self.now.pending ≡ None → (result.now.board.rooms ≡ []) }
        ensures lists { (facts self.now).on_board ≡ true
            → ((facts self.now).topics ≡ topics_facts result.now) }
    {
        // no list waits where they are put on the board at once
        let _is_on_board = self.waiting.is_on_board();
        &self.topics
    }

    /// The leases in the order of their numbers.
    pub fn desk(&self) -> &Desk
        ensures { result.now.leases ≡ self.now.leases }
    {
        &self.desk
    }
}

fn begun(alloc: Global, is_on_board: bool) -> Result<Assessment, Memory>
    ensures facts { IfOk result (λ all. facts all
        ≡ record { topics = new_topics []; leases = []; on_board = is_on_board }) }
    ensures pending { IfOk result (λ all. all.pending ≡ None) }
{
    let topics = Topics::new(alloc, Vec::new(alloc))?;
    Ok(Assessment {
        topics,
        desk: Desk::new(alloc),
        waiting: Waiting::new(alloc, is_on_board),
        pending: None,
    })
}
