//! A topic of the tests, with its pool, its queue and the queue's trail.
ghost use Rattle.std.specs.Prelude.{◌≡◌, ◌+◌, ◌<◌, ◌≤◌, ◌∷◌, [], ◌++◌, false, All, Contains, IfOk, IsTrue, Some, length, take};
ghost use Rattle.std.specs.Bool.{OnFalse, OnTrue};
ghost use Rattle.decimal_rank.specs.Rankings.Places.{AreDistinct};
ghost use Rattle.depth_pool.specs.Holdings.{has_run, with_run, without_run};
ghost use Rattle.mtf_queue.specs.Rule.{IsInOrder};

use decimal_rank::{DocId, Ranking, Steps};
use depth_pool::{Pool, RunId};
use mtf_queue::{Judged, Queue, order_outlasts_other_runs};
use std::alloc::Global;
use std::marker::{Brand, Model};
use std::sync::ledger::{Blank, Ledger};
use std::test::Fail;

/// How many documents a topic of the tests has.
const DOCS: u32 = 12;

/// A topic of the tests. Contracts see the queue's order.
#[derive(Drop)]
pub(crate) struct QueuedTopic {
    pool: Pool,
    queue: Queue,
    // the queue's trail
    trail: Vec<Judged>,
    // the number of the next run
    next: u16,
}

impl Model for QueuedTopic {
    ghost use Rattle.std.specs.Prelude.{List};
    ghost use Rattle.depth_pool.specs.declared.runs.RunId.{RunId};
    ghost use Rattle.judging_tests.specs.QueuedTopics.{IsTopicPlayed};

    ghost Value = { List RunId };

    ghost view = { λ topic. topic.queue.order };

    ghost invariant = { λ topic.
        IsTopicPlayed topic.pool.runs topic.queue topic.trail.items topic.next };
}

impl QueuedTopic {
    pub(crate) fn new(alloc: Global) -> QueuedTopic {
        QueuedTopic {
            pool: Pool::new(alloc, DOCS),
            queue: Queue::new(alloc),
            trail: Vec::new(alloc),
            next: 0,
        }
    }

    /// Adds a run that holds these documents. It has the next number, from 0.
    pub(crate) fn submit(&mut self, alloc: Global, docs: &[u32]) -> Result<(), Fail> {
        let next = number_after(self.next)?;
        let ranking = ranking_of(alloc, docs)?;
        self.pool.reserve(&ranking)?;
        self.queue.reserve()?;
        add(&mut self.pool, &mut self.queue, RunId(self.next), &ranking);
        self.next = next;
        Ok(())
    }

    /// Takes a run out. False where the queue lacks it.
    pub(crate) fn withdraw(&mut self, run: RunId) -> bool {
        if !is_listed(self.queue.order(), run) {
            return false;
        }
        take_out(&mut self.pool, &mut self.queue, run);
        true
    }

    /// Gives a document its first grade. False where it had one already.
    pub(crate) fn judge(&mut self, doc: DocId, relevant: bool) -> Result<bool, Fail> {
        if is_judged(self.trail.as_slice(), doc) {
            return Ok(false);
        }
        self.queue.reserve()?;
        let judged = Judged {
            doc,
            relevant: Some(relevant),
        };
        self.trail.push(judged)?;
        judge_counted::<Brand>(&mut self.queue, &self.pool, doc, relevant, Blank::new(1));
        Ok(true)
    }

    /// Changes the grade at a place of the trail. False where there is no such place.
    pub(crate) fn regrade(&mut self, place: u32, relevant: Option<bool>) -> bool {
        if place == 0 || place as usize > self.trail.len() {
            return false;
        }
        self.queue.regrade(place, relevant, &self.pool);
        self.trail[place as usize - 1].relevant = relevant;
        true
    }

    pub(crate) fn order(&self) -> &[RunId] {
        self.queue.order()
    }
}

/// Adds a run to a pool and to its queue.
fn add(pool: &mut Pool, queue: &mut Queue, run: RunId, ranking: &Ranking)
    requires pool_room { pool.old.room ≡ Some (take pool.old.depth ranking.now) }
    requires queue_room { 1 ≤ queue.old.spare }
    requires is_new { has_run run pool.old.runs ≡ false }
    requires in_order { IsInOrder pool.old.runs queue.old.trail queue.old.order }
    ensures in_order { IsInOrder pool.new.runs queue.new.trail queue.new.order }
    ensures trail { queue.new.trail ≡ queue.old.trail }
    ensures runs { pool.new.runs
        ≡ with_run (record { run = run; docs = take pool.old.depth ranking.now }) pool.old.runs }
{
    pool.add_run(run, ranking);
    order_outlasts_other_runs();
    queue.enter(run, pool);
}

/// Takes a run out of a queue and its pool.
fn take_out(pool: &mut Pool, queue: &mut Queue, run: RunId)
    requires is_in { Contains queue.old.order run }
    requires in_order { IsInOrder pool.old.runs queue.old.trail queue.old.order }
    ensures in_order { IsInOrder pool.new.runs queue.new.trail queue.new.order }
    ensures trail { queue.new.trail ≡ queue.old.trail }
    ensures runs { pool.new.runs ≡ without_run run pool.old.runs }
{
    queue.leave(run, pool);
    pool.drop_run(run);
    order_outlasts_other_runs();
}

/// Judges a document that isn't on the trail.
fn judge_counted<L: Ledger>(
    queue: &mut Queue,
    pool: &Pool,
    doc: DocId,
    relevant: bool,
    blank: Blank,
)
    requires name { blank.name ≡ L.name }
    requires parts { blank.parts ≡ L.parts }
    requires some { 0 < L.parts }
    requires room { 1 ≤ queue.old.spare }
    requires is_new { All (λ judged. ¬ (judged.doc ≡ doc)) queue.old.trail }
    requires in_order { IsInOrder pool.now.runs queue.old.trail queue.old.order }
    ensures in_order { IsInOrder pool.now.runs queue.new.trail queue.new.order }
    ensures trail { queue.new.trail
        ≡ queue.old.trail ++ record { doc = doc; relevant = Some relevant } ∷ [] }
{
    let mut steps = Steps::<L>::new(blank);
    queue.judge(doc, relevant, pool, &mut steps);
}

fn number_after(number: u16) -> Result<u16, Fail>
    ensures { IfOk result (λ next. next ≡ number + 1) }
{
    Ok(number.checked_add(1).ok_or("no number is left")?)
}

fn is_listed(order: &[RunId], run: RunId) -> bool
    ensures { OnTrue result (Contains order.now run) }
{
    for other in order {
        if *other == run {
            return true;
        }
    }
    false
}

fn is_judged(trail: &[Judged], doc: DocId) -> bool
    ensures { OnFalse result (All (λ judged. ¬ (judged.doc ≡ doc)) trail.now) }
{
    for judged in trail {
        if judged.doc == doc {
            return true;
        }
    }
    false
}

/// The documents by number, as a ranking.
fn ranking_of(alloc: Global, docs: &[u32]) -> Result<Ranking, Fail> {
    let mut listed = Vec::new(alloc);
    for doc in 0..DOCS {
        if docs.contains(&doc) {
            listed.push(DocId(doc))?;
        }
    }
    Ok(Ranking::listed(listed)?)
}
