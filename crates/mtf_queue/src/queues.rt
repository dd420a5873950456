//! The runs of a topic in judging order: a first grade moves the runs that hold its document to the
//! front or back.
ghost use Rattle.std.specs.Prelude.{◌≡◌, ◌+◌, ◌-◌, ◌≤◌, ◌==◌, [], ◌∷◌, ◌++◌, All, Contains, IsPermutation, IsTrue, OnOk, Some, filter, length, not};
ghost use Rattle.depth_pool.specs.Holdings.{has_run};
ghost use Rattle.mtf_queue.specs.Rule.{IsInOrder, trail_regraded};

use crate::groups::{Member, sort_by_rule};
use crate::moves::{move_group, remove_run, set_grade};
use crate::rule::{Judged, place_of};
use decimal_rank::{DocId, Memory, Steps};
use depth_pool::{Pool, RunId};
use std::alloc::Global;
use std::marker::Model;
use std::sync::ledger::Ledger;

/// The runs of one topic in their judging order, and the trail of its documents by their first
/// grades. Contracts see both, and the room for one more of each. The pool that a call is given is
/// that of the topic.
#[derive(Drop)]
pub struct Queue {
    order: Vec<RunId>,
    trail: Vec<Judged>,
    // where the runs wait that a document moves behind the others
    behind: Vec<RunId>,
    // where the runs are sorted, with room for all
    members: Vec<Member>,
    // where the groups of the sort are counted, with room for two of each run
    sizes: Vec<usize>,
}

impl Model for Queue {
    ghost use Rattle.std.specs.Prelude.{◌-◌, ◌/◌, ◌≤◌, min, vec_len, vec_capacity};
    ghost use Rattle.mtf_queue.specs.QueueView.{QueueView};

    ghost Value = { QueueView };

    ghost view = { λ queue. record {
      order = queue.order.items;
      trail = queue.trail.items;
      spare = min (min (vec_capacity queue.order - vec_len queue.order)
          (vec_capacity queue.trail - vec_len queue.trail))
          (min (vec_capacity queue.behind - vec_len queue.order) (min (vec_capacity queue.members)
          (vec_capacity queue.sizes / 2) - vec_len queue.order));
    } };

    ghost invariant = { λ queue. vec_len queue.order ≤ min (vec_capacity queue.members)
        (vec_capacity queue.sizes / 2) };
}

impl Queue {
    /// No run and no document yet.
    pub fn new(alloc: Global) -> Queue
        ensures order { result.order ≡ [] }
        ensures trail { result.trail ≡ [] }
    {
        Queue {
            order: Vec::new(alloc),
            trail: Vec::new(alloc),
            behind: Vec::new(alloc),
            members: Vec::new(alloc),
            sizes: Vec::new(alloc),
        }
    }

    /// Makes room for one more run and one more document.
    pub fn reserve(&mut self) -> Result<(), Memory>
        ensures room { OnOk result (1 ≤ self.new.spare) }
        ensures order { self.new.order ≡ self.old.order }
        ensures trail { self.new.trail ≡ self.old.trail }
    {
        self.order.reserve(1)?;
        self.trail.reserve(1)?;
        self.behind.clear();
        self.behind.reserve(self.order.len() + 1)?;
        self.members.clear();
        self.members.reserve(self.order.len() + 1)?;
        self.sizes.clear();
        self.sizes.reserve(2 * (self.order.len() + 1))?;
        Ok(())
    }

    /// Puts a run of the pool in at its place.
    pub fn enter(&mut self, run: RunId, pool: &Pool)
        requires room { 1 ≤ self.old.spare }
        requires in_pool { IsTrue (has_run run pool.now.runs) }
        requires is_new { ¬ Contains self.old.order run }
        requires in_order { IsInOrder pool.now.runs self.old.trail self.old.order }
        ensures runs { IsPermutation (run ∷ self.old.order) self.new.order }
        ensures in_order { IsInOrder pool.now.runs self.new.trail self.new.order }
        ensures trail { self.new.trail ≡ self.old.trail }
    {
        let place = place_of(self.order.as_slice(), run, self.trail.as_slice(), pool);
        self.order.insert(place, run).unwrap();
    }

    /// Takes a run out, while it is still in the pool.
    pub fn leave(&mut self, run: RunId, pool: &Pool)
        requires in_pool { IsTrue (has_run run pool.now.runs) }
        requires is_in { Contains self.old.order run }
        requires in_order { IsInOrder pool.now.runs self.old.trail self.old.order }
        ensures runs { self.new.order ≡ filter (λ other. not (other.0 == run.0)) self.old.order }
        ensures gone { ¬ Contains self.new.order run }
        ensures in_order { IsInOrder pool.now.runs self.new.trail self.new.order }
        ensures trail { self.new.trail ≡ self.old.trail }
    {
        remove_run(&mut self.order, run);
    }

    /// Moves the runs that hold a document when it gets its first grade: all together and in their
    /// order, to the front where it is relevant, else to the back. At most one step for each run of
    /// the queue and one more; a step is a look-up by document.
    pub fn judge<L: Ledger>(
        &mut self,
        doc: DocId,
        relevant: bool,
        pool: &Pool,
        steps: &mut Steps<L>,
    )
        requires room { 1 ≤ self.old.spare }
        requires is_new { All (λ judged. ¬ (judged.doc ≡ doc)) self.old.trail }
        requires in_order { IsInOrder pool.now.runs self.old.trail self.old.order }
        ensures runs { IsPermutation self.old.order self.new.order }
        ensures in_order { IsInOrder pool.now.runs self.new.trail self.new.order }
        ensures trail { self.new.trail
            ≡ self.old.trail ++ record { doc = doc; relevant = Some relevant } ∷ [] }
        ensures cost { steps.new ≤ steps.old + length self.old.order + 1 }
    {
        let judged = Judged {
            doc,
            relevant: Some(relevant),
        };
        self.trail.push(judged).unwrap();
        let holders = pool.holders(doc, steps);
        move_group(&mut self.order, &mut self.behind, holders, relevant);
    }

    /// Changes or takes away the grade of the document at a place of the trail, counted from 1. The
    /// document keeps its place.
    pub fn regrade(&mut self, place: u32, relevant: Option<bool>, pool: &Pool)
        requires from_one { 1 ≤ place }
        requires within { place ≤ length self.old.trail }
        requires in_order { IsInOrder pool.now.runs self.old.trail self.old.order }
        ensures runs { IsPermutation self.old.order self.new.order }
        ensures in_order { IsInOrder pool.now.runs self.new.trail self.new.order }
        ensures trail { self.new.trail ≡ trail_regraded self.old.trail (place - 1) relevant }
    {
        let is_other = set_grade(&mut self.trail, place as usize - 1, relevant);
        if !is_other {
            return;
        }
        sort_by_rule(
            &mut self.order,
            &mut self.members,
            &mut self.sizes,
            self.trail.as_slice(),
            pool,
        );
    }

    /// The runs, the first to be judged first.
    pub fn order(&self) -> &[RunId]
        ensures { result.now ≡ self.now.order }
    {
        self.order.as_slice()
    }
}
