//! One topic by itself. Its queue has the runs of its pool in the judging order, by its grades.
ghost use Rattle.std.specs.Prelude.{◌≡◌, ◌+◌, ◌<◌, ◌≤◌, false, IsTrue, OnOk, length, nat_le};
ghost use Rattle.std.specs.Option.{option_map};
ghost use Rattle.depth_pool.specs.Holdings.{has_run};
ghost use Rattle.labels.specs.LabelledDocuments.{effective_at};
ghost use Rattle.qrels_view.specs.Grades.{effective_in};
ghost use Rattle.assessment.specs.Fronts.{HasFronts};
ghost use Rattle.assessment.specs.TopicFacts.{AwaitsGrade, AwaitsJudgement, AwaitsRun, IsQueued, MayJudge, judgement_doc, new_topic, topic_with_grade, topic_with_judgement, topic_with_list, with_effective, without_list};

use crate::change::{Judgement, Label, Ruling};
use crate::fronts::{Fronts, LabelledPool};
use decimal_rank::{DocId, Memory, Ranking, Steps, Text};
use depth_pool::{Pool, RunId};
use labels::TopicLabels;
use mtf_queue::{Queue, order_outlasts_other_runs};
use qrels_view::View;
use std::alloc::Global;
use std::marker::{Brand, Model};
use std::sync::ledger::{Blank, Ledger};

/// What the rules say of a topic: its id, how many labels a document of it needs, the grade from
/// which on a document is relevant, and the depth of its pool.
#[derive(Drop)]
pub struct TopicRules {
    pub id: Text,
    pub need: u32,
    pub level: u8,
    pub depth: u16,
}

/// What a mark makes of the effective grade of its document.
#[derive(Clone, Copy, Debug)]
pub(crate) struct GradeChange {
    pub(crate) before: Option<u8>,
    pub(crate) after: Option<u8>,
}

/// A topic. Contracts see what is known of it, and for what there is room.
#[derive(Drop)]
pub struct AssessedTopic {
    id: Text,
    need: u32,
    pool: Pool,
    // the labels of the documents, and the rulings on them
    marks: TopicLabels,
    // the effective grades, by the documents' first ones
    grades: View,
    queue: Queue,
    // past the documents that are done
    fronts: Fronts,
}

impl Model for AssessedTopic {
    ghost use Rattle.assessment.specs.Fronts.{AreFronts};
    ghost use Rattle.assessment.specs.TopicFacts.{IsQueued, TopicView};

    ghost Value = { TopicView };

    ghost view = { λ topic. record {
      facts = record {
        id = topic.id;
        need = topic.need;
        level = topic.grades.level;
        depth = topic.pool.depth;
        pool = topic.pool.runs;
        marked = topic.marks.marked;
        graded = topic.grades.graded;
      };
      pool_room = topic.pool.room;
      label_room = topic.marks.room;
      grade_room = topic.grades.spare;
      queue_room = topic.queue.spare;
    } };

    ghost invariant = { λ topic.
        IsQueued topic.grades.level topic.pool.runs topic.grades.graded topic.queue
        × AreFronts topic.need topic.marks.marked topic.pool.runs topic.fronts };
}

impl AssessedTopic {
    /// No run and no label yet.
    pub(crate) fn new(alloc: Global, rules: TopicRules) -> AssessedTopic
        ensures { result.facts ≡ new_topic rules }
    {
        let TopicRules {
            id,
            need,
            level,
            depth,
        } = rules;
        AssessedTopic {
            id,
            need,
            pool: Pool::new(alloc, u32::from(depth)),
            marks: TopicLabels::new(alloc),
            grades: View::new(alloc, level),
            queue: Queue::new(alloc),
            fronts: Fronts::new(alloc),
        }
    }

    /// Makes room for a run with this list.
    pub(crate) fn reserve_run(&mut self, list: &Ranking) -> Result<(), Memory>
        ensures room { OnOk result (AwaitsRun list.now self.new) }
        ensures facts { self.new.facts ≡ self.old.facts }
    {
        self.pool.reserve(list)?;
        self.queue.reserve()?;
        Ok(())
    }

    /// Adds a run, for whose list there is room.
    pub(crate) fn enter(&mut self, run: RunId, list: &Ranking)
        requires room { AwaitsRun list.now self.old }
        requires is_new { has_run run self.old.facts.pool ≡ false }
        ensures { self.new.facts ≡ topic_with_list run list.now self.old.facts }
    {
        // the runs that were there keep their order
        order_outlasts_other_runs();
        self.pool.add_run(run, list);
        self.queue.enter(run, &self.pool);
        self.fronts.restart(run);
    }

    /// Takes a run out.
    pub(crate) fn leave(&mut self, run: RunId)
        requires { IsTrue (has_run run self.old.facts.pool) }
        ensures { self.new.facts ≡ without_list run self.old.facts }
    {
        // the runs that stay keep their order
        order_outlasts_other_runs();
        self.queue.leave(run, &self.pool);
        self.pool.drop_run(run);
    }

    /// Makes room for a label of a document, and for the grade that a label or a ruling gives it.
    pub(crate) fn reserve_mark(&mut self, doc: DocId) -> Result<(), Memory>
        ensures room { OnOk result (AwaitsJudgement doc self.new) }
        ensures facts { self.new.facts ≡ self.old.facts }
    {
        self.marks.reserve(doc)?;
        self.grades.reserve()?;
        self.queue.reserve()?;
        Ok(())
    }

    /// Gives a document a label, or the grade of a ruling, and answers what that makes of the grade
    /// that the document has. At most one step for each run of the pool and one more.
    pub(crate) fn mark<L: Ledger>(&mut self, mark: Judgement, steps: &mut Steps<L>) -> GradeChange
        requires room { AwaitsJudgement (judgement_doc mark) self.old }
        requires may_mark { MayJudge mark self.old.facts }
        ensures facts { self.new.facts ≡ topic_with_judgement mark self.old.facts }
        ensures before { result.before ≡ effective_in self.old.facts.graded (judgement_doc mark) }
        ensures after { result.after
            ≡ effective_at self.new.facts.need self.new.facts.marked (judgement_doc mark) }
        ensures cost { steps.new ≤ steps.old + length self.old.facts.pool + 1 }
    {
        match mark {
            Judgement::Label(label) => {
                let Label {
                    topic: _,
                    doc,
                    assessor,
                    grade,
                } = label;
                self.marks.set(doc, assessor, grade);
                self.regrade(doc, steps)
            }
            Judgement::Ruling(ruling) => {
                let Ruling {
                    topic: _,
                    doc,
                    grade,
                } = ruling;
                self.marks.rule(doc, grade);
                self.regrade(doc, steps)
            }
        }
    }

    /// Gives a document the grade that it has by its labels and rulings.
    fn regrade<L: Ledger>(&mut self, doc: DocId, steps: &mut Steps<L>) -> GradeChange
        requires room { AwaitsGrade self.old }
        requires few_grades { length self.old.facts.graded < 268435456 }
        ensures facts { self.new.facts ≡ with_effective doc self.old.facts }
        ensures before { result.before ≡ effective_in self.old.facts.graded doc }
        ensures after { result.after ≡ effective_at self.old.facts.need self.old.facts.marked doc }
        ensures cost { steps.new ≤ steps.old + length self.old.facts.pool + 1 }
    {
        let before = self.grades.effective(doc);
        let after = self.marks.effective(self.need, doc);
        self.put_grade(doc, before, after, steps);
        GradeChange { before, after }
    }

    /// Brings the grade `new` of a document, whose grade was `old`, to the grades and to the queue.
    fn put_grade<L: Ledger>(
        &mut self,
        doc: DocId,
        old: Option<u8>,
        new: Option<u8>,
        steps: &mut Steps<L>,
    )
        requires room { AwaitsGrade self.old }
        requires few_grades { length self.old.facts.graded < 268435456 }
        requires grade_now { old ≡ effective_in self.old.facts.graded doc }
        ensures facts { self.new.facts ≡ topic_with_grade doc new self.old.facts }
        ensures cost { steps.new ≤ steps.old + length self.old.facts.pool + 1 }
    {
        let place = self.grades.place(doc);
        let relevant = relevance(self.grades.level(), new);
        self.grades.apply(doc, old, new);
        match place {
            Some(place) => self.queue.regrade(place, relevant, &self.pool),
            None => {
                if let Some(relevant) = relevant {
                    self.queue.judge(doc, relevant, &self.pool, steps);
                }
            }
        }
    }

    /// Its id.
    pub fn id(&self) -> &[u8]
        ensures { result.now ≡ self.now.facts.id }
    {
        self.id.bytes()
    }

    /// How many labels a document needs.
    pub fn need(&self) -> u32
        ensures { result ≡ self.now.facts.need }
    {
        self.need
    }

    /// The runs, with the documents that they hold.
    pub fn pool(&self) -> &Pool
        ensures runs { result.now.runs ≡ self.now.facts.pool }
        ensures depth { result.now.depth ≡ self.now.facts.depth }
    {
        &self.pool
    }

    /// Leads the fronts of an assessor on, past documents that no lease is granted on to this
    /// assessor any more. That changes nothing that contracts see.
    pub(crate) fn lead_fronts(&mut self, assessor: &[u8]) -> Result<(), Memory>
        ensures { self.new ≡ self.old }
    {
        self.fronts.lead_on::<Brand>(
            assessor,
            self.queue.order(),
            LabelledPool {
                pool: &self.pool,
                marks: &self.marks,
                need: self.need,
            },
            Blank::new(1),
        )
    }

    /// By the runs' numbers, how many first documents of each are done for an assessor, so that no
    /// lease on them is granted to this assessor any more. Runs of greater numbers are to be looked
    /// through from the first one.
    pub fn fronts_of(&self, assessor: &[u8]) -> &[usize]
        ensures { let topic = self.now.facts in
            HasFronts topic.need topic.marked assessor.now topic.pool result.now }
    {
        self.fronts.of(self.need, assessor)
    }

    /// The labels of the documents, and the rulings on them.
    pub fn marks(&self) -> &TopicLabels
        ensures { result.now.marked ≡ self.now.facts.marked }
    {
        &self.marks
    }

    /// The effective grades, by the documents' first ones.
    pub fn grades(&self) -> &View
        ensures graded { result.now.graded ≡ self.now.facts.graded }
        ensures level { result.now.level ≡ self.now.facts.level }
    {
        &self.grades
    }

    /// The runs of the pool in the judging order.
    pub fn queue(&self) -> &Queue
        ensures { IsQueued self.now.facts.level self.now.facts.pool
            self.now.facts.graded result.now }
    {
        &self.queue
    }
}

/// Whether a grade is relevant at a level.
fn relevance(level: u8, grade: Option<u8>) -> Option<bool>
    ensures { result ≡ option_map (nat_le level) grade }
{
    Some(level <= grade?)
}
