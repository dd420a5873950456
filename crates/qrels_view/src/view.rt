//! The effective grades of one topic, in the order of the first grades.
ghost use Rattle.std.specs.Prelude.{◌≡◌, ◌+◌, ◌<◌, ◌≤◌, ◌^◌, ◌++◌, ◌||◌, [], true, All, IfOk, IfSome, OnErr, OnOk, count_by, is_some, length, vec_capacity, vec_len};
ghost use Rattle.indexmap.specs.IndexMap.{spare};
ghost use Rattle.decimal_rank.specs.Rankings.Places.{AreDistinct, place_in};
ghost use Rattle.qrels_view.specs.Grades.{effective_in, graded_docs, graded_of, is_non_relevant, is_relevant, with_grade};
ghost use Rattle.qrels_view.specs.Lines.{qrels_text};

use crate::counts::Counts;
use crate::docno_orders::DocnoOrder;
use crate::text::write_lines;
use decimal_rank::{DocId, Memory, Names};
use indexmap::IndexMap;
use std::alloc::Global;
use std::marker::Model;

/// The effective grades of one topic. Contracts see the level, each document of the trail once with
/// its grade, in the order of the first grades, and the room for more documents. A document is
/// relevant where its grade is at least the level.
#[derive(Drop)]
pub struct View {
    level: u8,
    trail: Vec<DocId>,
    // by the number of the document, in the order of the trail
    grades: IndexMap<u32, Option<u8>>,
    counts: Counts,
}

impl Model for View {
    ghost use Rattle.std.specs.Prelude.{◌-◌, min, vec_len, vec_capacity};
    ghost use Rattle.indexmap.specs.IndexMap.{spare};
    ghost use Rattle.qrels_view.specs.GradeViews.{GradeView, IsKept};
    ghost use Rattle.qrels_view.specs.Grades.{graded_of};

    ghost Value = { GradeView };

    ghost view = { λ view. record {
      level = view.level;
      graded = graded_of view.grades.entries;
      spare = min (vec_capacity view.trail - vec_len view.trail) (spare view.grades);
    } };

    ghost invariant = { λ view.
        IsKept view.level view.trail.items (graded_of view.grades.entries) view.counts };
}

impl View {
    /// No document yet.
    pub fn new(alloc: Global, level: u8) -> View
        ensures level { result.level ≡ level }
        ensures graded { result.graded ≡ [] }
    {
        View {
            level,
            trail: Vec::new(alloc),
            grades: IndexMap::new(alloc),
            counts: Counts::none(),
        }
    }

    /// Makes room for one more document.
    pub fn reserve(&mut self) -> Result<(), Memory>
        ensures room { OnOk result (1 ≤ self.new.spare) }
        ensures level { self.new.level ≡ self.old.level }
        ensures graded { self.new.graded ≡ self.old.graded }
    {
        self.trail.reserve(1)?;
        self.grades.reserve(1)?;
        Ok(())
    }

    /// Gives a document, whose grade now is `old`, the grade `new`, or takes its grade away. A
    /// document of the trail keeps its place, and another goes last with its first grade.
    pub fn apply(&mut self, doc: DocId, old: Option<u8>, new: Option<u8>)
        requires room { 1 ≤ self.old.spare }
        requires few { length self.old.graded + 1 < 2 ^ 32 }
        requires grade_now { old ≡ effective_in self.old.graded doc }
        ensures graded { self.new.graded ≡ with_grade doc new self.old.graded }
        ensures level { self.new.level ≡ self.old.level }
    {
        if old.is_none() && new.is_none() {
            return;
        }
        self.counts = self.counts.regraded(self.level, old, new);
        put_grade(&mut self.trail, &mut self.grades, doc, new);
    }

    /// The grade of a document now.
    pub fn effective(&self, doc: DocId) -> Option<u8>
        ensures { result ≡ effective_in self.now.graded doc }
    {
        *self.grades.get(&doc.0)?
    }

    /// The grade from which on a document is relevant.
    pub fn level(&self) -> u8
        ensures { result ≡ self.now.level }
    {
        self.level
    }

    /// How many documents are relevant.
    pub fn relevant(&self) -> u32
        ensures { result
            ≡ count_by (λ graded. is_relevant self.now.level graded.grade) self.now.graded }
    {
        self.counts.relevant
    }

    /// How many documents have a grade and aren't relevant.
    pub fn non_relevant(&self) -> u32
        ensures { result
            ≡ count_by (λ graded. is_non_relevant self.now.level graded.grade) self.now.graded }
    {
        self.counts.non_relevant
    }

    /// The documents in the order of their first grades, each once.
    pub fn trail(&self) -> &[DocId]
        ensures docs { result.now ≡ graded_docs self.now.graded }
        ensures len { length result.now ≡ length self.now.graded }
        ensures once { AreDistinct result.now }
    {
        // the grades tell with their length that no document stands twice
        let _ = self.grades.len();
        self.trail.as_slice()
    }

    /// The place of a document in the trail, from 1.
    pub fn place(&self, doc: DocId) -> Option<u32>
        ensures place { result ≡ place_in (graded_docs self.now.graded) doc }
        ensures within { IfSome result (λ place. (1 ≤ place) × (place ≤ length self.now.graded)) }
    {
        let index = self.grades.get_index_of(&doc.0)?;
        Some(index as u32 + 1)
    }

    /// Appends the qrels line of each document that has a grade, by docno in byte order.
    pub fn write(&self, topic: &[u8], names: &Names, out: &mut Vec<u8>) -> Result<(), Memory>
        requires docs_named { All (λ graded. graded.doc.0 < length names.now) self.now.graded }
        ensures err { OnErr result (out.new.items ≡ out.old.items) }
        ensures ok { OnOk result
            (out.new.items ≡ out.old.items ++ qrels_text topic.now names.now self.now.graded) }
    {
        let mut order = DocnoOrder::new(*self.trail.allocator());
        self.write_by(topic, names, &mut order, out)
    }

    /// The same, and keeps the order by docno for the next reading of this view, which then sorts
    /// no more than the documents that came since. Any order serves.
    pub fn write_by(
        &self,
        topic: &[u8],
        names: &Names,
        order: &mut DocnoOrder,
        out: &mut Vec<u8>,
    ) -> Result<(), Memory>
        requires docs_named { All (λ graded. graded.doc.0 < length names.now) self.now.graded }
        ensures err { OnErr result (out.new.items ≡ out.old.items) }
        ensures ok { OnOk result
            (out.new.items ≡ out.old.items ++ qrels_text topic.now names.now self.now.graded) }
        ensures order { OnOk result (order.new ≡ length self.now.graded) }
    {
        let placed = order.arrange(&self.grades, names)?;
        write_lines(topic, names, placed.as_slice(), out)
    }
}

/// Gives a document a grade. It keeps its place, and goes last where it wasn't there.
fn put_grade(
    trail: &mut Vec<DocId>,
    grades: &mut IndexMap<u32, Option<u8>>,
    doc: DocId,
    grade: Option<u8>,
)
    requires trail_room { vec_len trail.old < vec_capacity trail.old }
    requires grades_room { 1 ≤ spare grades.old }
    requires trail_is { trail.old.items ≡ graded_docs (graded_of grades.old.entries) }
    requires not_none_twice { is_some grade
        || is_some (effective_in (graded_of grades.old.entries) doc) ≡ true }
    ensures trail_is { trail.new.items ≡ graded_docs (graded_of grades.new.entries) }
    ensures graded { graded_of grades.new.entries
        ≡ with_grade doc grade (graded_of grades.old.entries) }
{
    let before = grades.insert(doc.0, grade).unwrap();
    if before.is_none() {
        trail.push(doc).unwrap();
    }
}
