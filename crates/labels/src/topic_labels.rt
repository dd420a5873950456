//! The labels and rulings of a topic's documents, in the order of the first labels.
ghost use Rattle.std.specs.Prelude.{◌≡◌, ℕ, ◌+◌, ◌-◌, ◌<◌, ◌≤◌, ◌^◌, ◌↔◌, [], None, Some, IfOk, IfSome, IsTrue, MatchOption, OnOk, length, not};
ghost use Rattle.indexmap.specs.IndexMap.{spare};
ghost use Rattle.decimal_rank.specs.Rankings.Places.{AreDistinct};
ghost use Rattle.decimal_rank.specs.declared.naming.DocId.{DocId};
ghost use Rattle.labels.specs.DocumentLabels.{IsOncePerAssessor, has_label, label_grade};
ghost use Rattle.labels.specs.LabelledDocuments.{disagreeing, disagrees_at, effective_at, given_at, is_labelled_document, is_listed, labelled_docs, ruling_at, with_label_at, with_ruling_at};
ghost use Rattle.labels.specs.TopicLabelViews.{LabelHasRoom, documents_of, room_at};

use crate::document::Labels;
use decimal_rank::{DocId, Memory, Text};
use indexmap::IndexMap;
use std::alloc::Global;
use std::marker::Model;
use std::mem::replace;

/// The labels by the number of the document, in the order of the first labels.
type ByNumber = IndexMap<u32, Labels>;

/// The labels of all documents of one topic, and the last ruling on each. A document gets in with
/// its first label. Contracts see the documents in the order of their first labels, and the one for
/// which there is room for one more label.
#[derive(Drop)]
pub struct TopicLabels {
    marked: ByNumber,
    // the documents once more, so that they can be lent
    docs: Vec<DocId>,
    // the labels that the next new document gets, still empty
    fresh: Labels,
    room: Option<DocId>,
}

impl Model for TopicLabels {
    ghost use Rattle.std.specs.Prelude.{◌-◌, vec_capacity, vec_len};
    ghost use Rattle.indexmap.specs.IndexMap.{spare};
    ghost use Rattle.labels.specs.TopicLabelViews.{IsKept, TopicLabelsView, documents_of};

    ghost Value = { TopicLabelsView };

    ghost view = { λ marks. record {
      marked = documents_of marks.marked.entries;
      room = marks.room;
    } };

    ghost invariant = { λ marks. IsKept marks.docs.items (vec_capacity marks.docs - vec_len
        marks.docs) marks.marked.entries (spare marks.marked) marks.fresh marks.room };
}

impl TopicLabels {
    /// No document yet.
    pub fn new(alloc: Global) -> TopicLabels
        ensures marked { result.marked ≡ [] }
        ensures room { result.room ≡ None }
    {
        TopicLabels {
            marked: IndexMap::new(alloc),
            docs: Vec::new(alloc),
            fresh: Labels::new(alloc),
            room: None,
        }
    }

    /// Makes room for one more label of this document, until the next `reserve` or `set`.
    pub fn reserve(&mut self, doc: DocId) -> Result<(), Memory>
        ensures room { OnOk result (self.new.room ≡ Some doc) }
        ensures marked { self.new.marked ≡ self.old.marked }
    {
        self.room = None;
        self.docs.reserve(1)?;
        let made = make_room(&mut self.marked, &mut self.fresh, doc);
        if made.is_ok() {
            self.room = Some(doc);
        }
        made
    }

    /// The grade that an assessor gives a document, in place of this assessor's earlier one.
    pub fn set(&mut self, doc: DocId, assessor: Text, grade: u8)
        requires room { self.old.room ≡ Some doc }
        requires few { length (given_at self.old.marked doc) < 2 ^ 32 - 1 }
        ensures marked { self.new.marked ≡ with_label_at doc assessor grade self.old.marked }
        ensures room { self.new.room ≡ None }
    {
        self.room = None;
        if put_label(&mut self.marked, &mut self.fresh, doc, assessor, grade) {
            self.docs.push_reserved(doc);
        }
    }

    /// The grade of a ruling on a document, in place of the earlier one.
    pub fn rule(&mut self, doc: DocId, grade: u8)
        requires { IsTrue (is_labelled_document self.old.marked doc) }
        ensures marked { self.new.marked ≡ with_ruling_at doc grade self.old.marked }
        ensures room { self.new.room ≡ self.old.room }
    {
        put_ruling(&mut self.marked, doc, grade);
    }

    /// The number of labels of a document, of which each assessor has one at most.
    pub fn count(&self, doc: DocId) -> u32
        ensures count { result ≡ length (given_at self.now.marked doc) }
        ensures once_per_assessor { IsOncePerAssessor (given_at self.now.marked doc) }
        ensures marked { IsTrue (is_labelled_document self.now.marked doc) ↔ (1 ≤ result) }
        ensures once { AreDistinct (labelled_docs self.now.marked) }
    {
        // the map tells with its length that no document stands twice
        let _ = self.marked.len();
        count_of(&self.marked, doc)
    }

    /// The labels of a document and its last ruling: None exactly where nobody has a label.
    pub fn labels(&self, doc: DocId) -> Option<&Labels>
        ensures given { let given = given_at self.now.marked doc in
            MatchOption result (given ≡ []) (λ labels. labels.now.given ≡ given) }
        ensures some { IfSome result (λ labels. 0 < length labels.now.given) }
        ensures ruling { IfSome result
            (λ labels. labels.now.ruling ≡ ruling_at self.now.marked doc) }
    {
        self.marked.get(&doc.0)
    }

    /// The documents that have a label, in the order of their first labels.
    pub fn docs(&self) -> &[DocId]
        ensures { result.now ≡ labelled_docs self.now.marked }
    {
        self.docs.as_slice()
    }

    /// Whether an assessor has given a document a grade.
    pub fn has_label(&self, assessor: &[u8], doc: DocId) -> bool
        ensures { result ≡ has_label assessor.now (given_at self.now.marked doc) }
    {
        self.grade_of(assessor, doc).is_some()
    }

    /// The grade of an assessor's label of a document.
    pub fn grade_of(&self, assessor: &[u8], doc: DocId) -> Option<u8>
        ensures { result ≡ label_grade assessor.now (given_at self.now.marked doc) }
    {
        self.marked.get(&doc.0)?.grade_of(assessor)
    }

    /// The last ruling on a document, or else the grade of exactly `need` labels that agree.
    pub fn effective(&self, need: u32, doc: DocId) -> Option<u8>
        ensures { result ≡ effective_at need self.now.marked doc }
    {
        self.marked.get(&doc.0)?.effective(need)
    }

    /// The documents that show a disagreement, in the order of their first labels.
    pub fn disagreements(&self, alloc: Global, need: u32) -> Result<Vec<DocId>, Memory>
        ensures listed { IfOk result (λ docs. docs.items ≡ disagreeing need self.now.marked) }
        ensures each { IfOk result (λ docs. (doc : DocId)
            → is_listed docs.items doc ≡ disagrees_at need self.now.marked doc) }
    {
        // the map tells with its length that no document stands twice
        let _ = self.marked.len();
        disagreements_of(alloc, &self.marked, need)
    }
}

/// Makes room for one more label of a document.
fn make_room(marked: &mut ByNumber, fresh: &mut Labels, doc: DocId) -> Result<(), Memory>
    ensures marked { documents_of marked.new.entries ≡ documents_of marked.old.entries }
    ensures given { fresh.new.given ≡ fresh.old.given }
    ensures ruling { fresh.new.ruling ≡ fresh.old.ruling }
    ensures room { OnOk result
        (LabelHasRoom (room_at marked.new.entries doc) (spare marked.new) fresh.new.spare) }
{
    match marked.get_mut(&doc.0) {
        Some(labels) => labels.reserve(),
        None => {
            marked.reserve(1)?;
            fresh.reserve()
        }
    }
}

/// Puts an assessor's grade at a document, for which there is room: whether it is the document's
/// first label.
fn put_label(
    marked: &mut ByNumber,
    fresh: &mut Labels,
    doc: DocId,
    assessor: Text,
    grade: u8,
) -> bool
    requires room { LabelHasRoom (room_at marked.old.entries doc)
        (spare marked.old) fresh.old.spare }
    requires few { length (given_at (documents_of marked.old.entries) doc) < 2 ^ 32 - 1 }
    requires given { fresh.old.given ≡ [] }
    requires ruling { fresh.old.ruling ≡ None }
    ensures marked { documents_of marked.new.entries
        ≡ with_label_at doc assessor grade (documents_of marked.old.entries) }
    ensures given { fresh.new.given ≡ [] }
    ensures ruling { fresh.new.ruling ≡ None }
    ensures first { result ≡ not (is_labelled_document (documents_of marked.old.entries) doc) }
{
    match marked.get_mut(&doc.0) {
        Some(labels) => {
            labels.set(assessor, grade);
            false
        }
        None => {
            let empty = Labels::new(*marked.allocator());
            let mut labels = replace(fresh, empty);
            labels.set(assessor, grade);
            marked.insert(doc.0, labels).unwrap();
            true
        }
    }
}

/// Puts the grade of a ruling at a document that is there.
fn put_ruling(marked: &mut ByNumber, doc: DocId, grade: u8)
    requires { IsTrue (is_labelled_document (documents_of marked.old.entries) doc) }
    ensures marked { documents_of marked.new.entries
        ≡ with_ruling_at doc grade (documents_of marked.old.entries) }
    ensures rooms { (other : DocId)
        → room_at marked.new.entries other ≡ room_at marked.old.entries other }
    ensures spare { spare marked.new ≡ spare marked.old }
{
    if let Some(labels) = marked.get_mut(&doc.0) {
        labels.rule(grade);
    }
}

/// The number of labels of a document.
fn count_of(marked: &ByNumber, doc: DocId) -> u32
    ensures count { result ≡ length (given_at (documents_of marked.now.entries) doc) }
    ensures once_per_assessor { IsOncePerAssessor (given_at (documents_of marked.now.entries) doc) }
{
    match marked.get(&doc.0) {
        Some(labels) => labels.count(),
        None => 0,
    }
}

/// The documents that show a disagreement, in their order.
fn disagreements_of(alloc: Global, marked: &ByNumber, need: u32) -> Result<Vec<DocId>, Memory>
    ensures { IfOk result
        (λ docs. docs.items ≡ disagreeing need (documents_of marked.now.entries)) }
{
    let mut docs = Vec::new(alloc);
    for (doc, labels) in marked {
        if labels.disagrees(need) {
            docs.push(DocId(*doc))?;
        }
    }
    Ok(docs)
}
