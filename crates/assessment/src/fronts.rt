//! Of each run of a topic, how many of its first documents are done for an assessor: those that
//! have a ruling, all their labels, or this assessor's. The next document to label is looked for
//! behind them. A document that is done stays so, so a front is only led on.
ghost use Rattle.std.specs.Prelude.{◌≡◌, ◌≢◌, ◌<◌, ℕ, List, IfOk, find, if◌then◌else◌, is_ok, map, option_map, position, slice_index_or, take};
ghost use Rattle.std.specs.Str.{bytes_eq};
ghost use Rattle.depth_pool.specs.Holdings.{Held, pool_docs};
ghost use Rattle.labels.specs.LabelledDocuments.{LabelledDocument};
ghost use Rattle.assessment.specs.Fronts.{AreDone, AreFronts, HasFronts, front_restarted, is_done, whose};

use decimal_rank::{DocId, Memory, Steps, Text};
use depth_pool::{Pool, RunId};
use labels::TopicLabels;
use std::alloc::Global;
use std::marker::Model;
use std::sync::ledger::{Blank, Ledger};

/// What tells whether a document of a topic is done: the runs with what they hold, the labels and
/// rulings, and how many labels a document needs.
#[derive(Clone, Copy)]
pub(crate) struct LabelledPool<'a> {
    pub(crate) pool: &'a Pool,
    pub(crate) marks: &'a TopicLabels,
    pub(crate) need: u32,
}

/// The fronts of one assessor, by the runs' numbers. Runs of greater numbers have theirs at the
/// first document.
#[derive(Drop)]
pub(crate) struct OwnFronts {
    pub(crate) assessor: Text,
    pub(crate) fronts: Vec<usize>,
}

impl Model for OwnFronts {
    ghost use Rattle.assessment.specs.Fronts.{Own};

    ghost Value = { Own };

    ghost view = { λ own. record { assessor = own.assessor; fronts = own.fronts.items } };
}

/// The fronts of each assessor who asked for a document. Where one label is enough they are
/// everybody's, and stand at no name.
#[derive(Drop)]
pub(crate) struct Fronts {
    all: Vec<OwnFronts>,
}

impl Model for Fronts {
    ghost use Rattle.std.specs.Prelude.{List};
    ghost use Rattle.assessment.specs.Fronts.{Own};

    ghost Value = { List Own };

    ghost view = { λ fronts. fronts.all.items };
}

impl Fronts {
    pub(crate) fn new(alloc: Global) -> Fronts
        ensures { (need : ℕ) (marked : List LabelledDocument) (runs : List Held)
            → AreFronts need marked runs result }
    {
        Fronts {
            all: Vec::new(alloc),
        }
    }

    /// Those of an assessor: none where the assessor never asked.
    pub(crate) fn of(&self, need: u32, assessor: &[u8]) -> &[usize]
        ensures { (marked : List LabelledDocument) (runs : List Held)
            → AreFronts need marked runs self.now
            → HasFronts need marked assessor.now runs result.now }
    {
        match own_of(self.all.as_slice(), whose(need, assessor)) {
            Some(own) => own.fronts.as_slice(),
            None => &[],
        }
    }

    /// Puts the fronts of a run back to its first document.
    pub(crate) fn restart(&mut self, run: RunId)
        ensures { self.new ≡ map (front_restarted run) self.old }
    {
        for own in self.all.iter_mut() {
            restart(own, run);
        }
    }

    /// Leads the fronts of an assessor on, run by run, up to the first run of the order that holds
    /// a document which isn't done.
    pub(crate) fn lead_on<L: Ledger>(
        &mut self,
        assessor: &[u8],
        order: &[RunId],
        labelled: LabelledPool<'_>,
        blank: Blank,
    ) -> Result<(), Memory>
        requires name { blank.name ≡ L.name }
        requires parts { blank.parts ≡ L.parts }
        requires some { 0 < L.parts }
        requires fronts { AreFronts labelled.need labelled.marks.now.marked
            labelled.pool.now.runs self.old }
        ensures { AreFronts labelled.entry.need labelled.entry.marks.now.marked
            labelled.entry.pool.now.runs self.new }
    {
        let name = whose(labelled.need, assessor);
        let mut own = self.take(name)?;
        let mut steps: Steps<L> = Steps::new(blank);
        advance(&mut own, order, labelled, &mut steps)?;
        self.all.push(own)?;
        Ok(())
    }

    /// Takes the fronts out that stand at a name, or makes new ones.
    fn take(&mut self, name: &[u8]) -> Result<OwnFronts, Memory>
        ensures rest { (need : ℕ) (marked : List LabelledDocument) (runs : List Held)
            → AreFronts need marked runs self.old → AreFronts need marked runs self.new }
        ensures own { (need : ℕ) (marked : List LabelledDocument) (runs : List Held)
            → AreFronts need marked runs self.old
            → IfOk result (λ own. HasFronts need marked own.assessor runs own.fronts) }
    {
        if let Some(place) = place_of(self.all.as_slice(), name) {
            return Ok(self.all.swap_remove(place));
        }
        let alloc = *self.all.allocator();
        let assessor = Text::from_slice(alloc, name)?;
        Ok(OwnFronts {
            assessor,
            fronts: Vec::new(alloc),
        })
    }
}

/// The fronts that stand at a name.
fn own_of<'a>(all: &'a [OwnFronts], name: &[u8]) -> Option<&'a OwnFronts>
    ensures { option_map (λ own. own.now) result
        ≡ find (λ own. bytes_eq own.assessor name.now) all.now }
{
    all.iter().find(|own| own.assessor.bytes() == name)
}

/// Where the fronts stand that stand at a name.
fn place_of(all: &[OwnFronts], name: &[u8]) -> Option<usize>
    ensures { result ≡ position (λ own. bytes_eq own.assessor name.now) all.now }
{
    all.iter().position(|own| own.assessor.bytes() == name)
}

/// At which name the fronts of an assessor stand.
fn whose(need: u32, assessor: &[u8]) -> &[u8]
    ensures { result.now ≡ whose need assessor.now }
{
    if need > 1 { assessor } else { &[] }
}

/// How many of a run's first documents are done, by its fronts.
pub fn front_of(fronts: &[usize], run: RunId) -> usize
    ensures { result ≡ slice_index_or fronts.now run.0 0 }
{
    match fronts.get(usize::from(run.0)) {
        Some(front) => *front,
        None => 0,
    }
}

/// Puts the front of a run back to its first document.
fn restart(own: &mut OwnFronts, run: RunId)
    ensures { own.new ≡ front_restarted run own.old }
{
    let place = usize::from(run.0);
    if place < own.fronts.len() {
        own.fronts[place] = 0;
    }
}

/// Puts the front of a run, with room for it and for those of lower numbers.
fn put(fronts: &mut Vec<usize>, run: RunId, front: usize) -> Result<(), Memory>
    ensures here { slice_index_or fronts.new.items run.0 0
        ≡ (if is_ok result then front else slice_index_or fronts.old.items run.0 0) }
    ensures others { (other : ℕ) → other ≢ run.0
        → slice_index_or fronts.new.items other 0 ≡ slice_index_or fronts.old.items other 0 }
{
    let place = usize::from(run.0);
    let len = fronts.len().max(place + 1);
    fronts.resize(len, 0)?;
    fronts[place] = front;
    Ok(())
}

/// Leads fronts on past documents that are done, up to the first run of the order that holds
/// another one.
fn advance<L: Ledger>(
    own: &mut OwnFronts,
    order: &[RunId],
    labelled: LabelledPool<'_>,
    steps: &mut Steps<L>,
) -> Result<(), Memory>
    requires { HasFronts labelled.need labelled.marks.now.marked own.old.assessor
        labelled.pool.now.runs own.old.fronts }
    ensures { HasFronts labelled.entry.need labelled.entry.marks.now.marked own.new.assessor
        labelled.entry.pool.now.runs own.new.fronts }
{
    for run in order {
        let from = front_of(own.fronts.as_slice(), *run);
        let front = front_from(own.assessor.bytes(), *run, from, labelled, steps);
        put(&mut own.fronts, *run, front)?;
        if front < labelled.pool.count_of(*run) {
            return Ok(());
        }
    }
    Ok(())
}

/// The place, from 0, of the first document of a run from a place on that isn't done.
fn front_from<L: Ledger>(
    assessor: &[u8],
    run: RunId,
    from: usize,
    labelled: LabelledPool<'_>,
    steps: &mut Steps<L>,
) -> usize
    requires { AreDone labelled.need labelled.marks.now.marked assessor.now
        (take from (pool_docs labelled.pool.now.runs run)) }
    ensures { AreDone labelled.entry.need labelled.entry.marks.now.marked assessor.now
        (take result (pool_docs labelled.entry.pool.now.runs run)) }
{
    let count = labelled.pool.count_of(run);
    for place in from..count {
        let doc = labelled.pool.doc_at(run, place, steps);
        if !is_done(labelled.marks, labelled.need, assessor, doc) {
            return place;
        }
    }
    count
}

/// Whether a document is done for an assessor.
fn is_done(marks: &TopicLabels, need: u32, assessor: &[u8], doc: DocId) -> bool
    ensures { result ≡ is_done need marks.now.marked assessor.now doc }
{
    need <= marks.count(doc)
        || marks.effective(need, doc).is_some()
        || marks.has_label(assessor, doc)
}
