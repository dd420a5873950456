//! The pool of a topic: the documents that its runs have within the depth.
ghost use Rattle.std.specs.Prelude.{◌≡◌, ◌+◌, ◌<◌, ◌≤◌, [], Bool, true, false, List, All, AllPairs, IfSome, IfOk, IfErr, OnOk, OnErr, Some, None, IsTrue, length, slice_get, take};
ghost use Rattle.decimal_rank.specs.Names.{docno_of};
ghost use Rattle.decimal_rank.specs.Rankings.Places.{AreDistinct};
ghost use Rattle.decimal_rank.specs.declared.naming.DocId.{DocId};
ghost use Rattle.depth_pool.specs.declared.runs.RunId.{RunId};
ghost use Rattle.depth_pool.specs.Index.{holders_at, is_vacant};
ghost use Rattle.depth_pool.specs.Holdings.{AreByDocno, AreByNumber, IsCount, KeepsOthers, has_doc, has_id, has_run, holders_of, pool_docs, pool_holds, some_run_holds, with_run, without_run};

use crate::index::{Index, add_holders, docs_held, drop_empties, make_rooms, remove_holders};
use crate::runs::{RunDocs, RunId, doc_at, docs_of, is_among, put_run, take_run};
use decimal_rank::{DocId, Memory, Names, Ranking, Steps};
use std::alloc::Global;
use std::collections::BTreeMap;
use std::marker::{Brand, Model};
use std::sync::ledger::{Blank, Ledger};

/// The runs of one topic, each with the documents that it holds: those of rank at most the depth.
/// Contracts see the depth, the runs by number, and the documents for which room is reserved.
#[derive(Drop)]
pub struct Pool {
    depth: u32,
    // by number
    runs: Vec<RunDocs>,
    // an entry for each document that a run held at some time, and for each with reserved room
    index: Index,
    // how many documents some run holds
    held_docs: usize,
    reserved: Option<Vec<DocId>>,
}

impl Model for Pool {
    ghost use Rattle.std.specs.Prelude.{◌<◌, vec_len, vec_capacity};
    ghost use Rattle.std.specs.Option.{option_map, ForSome};
    ghost use Rattle.depth_pool.specs.Holdings.{Holdings};
    ghost use Rattle.depth_pool.specs.Index.{IsPool, IsReserved};

    ghost Value = { Holdings };

    ghost view = { λ pool. record {
      depth = pool.depth;
      runs = pool.runs.items;
      room = option_map (λ docs. docs.items) pool.reserved;
    } };

    ghost invariant = { λ pool. IsPool pool.runs.items pool.index pool.held_docs
        × ForSome pool.reserved (λ docs. IsReserved pool.index docs.items
        × (vec_len pool.runs < vec_capacity pool.runs)) };
}

impl Pool {
    /// No run yet. The depth counts ranks from 1.
    pub fn new(alloc: Global, depth: u32) -> Pool
        ensures depth { result.depth ≡ depth }
        ensures runs { result.runs ≡ [] }
        ensures room { result.room ≡ None }
    {
        Pool {
            depth,
            runs: Vec::new(alloc),
            index: BTreeMap::new(alloc),
            held_docs: 0,
            reserved: None,
        }
    }

    /// Makes room for one run with this ranking, until the next `reserve` or `add_run`.
    pub fn reserve(&mut self, ranking: &Ranking) -> Result<(), Memory>
        ensures room { OnOk result (self.new.room ≡ Some (take self.old.depth ranking.now)) }
        ensures depth { self.new.depth ≡ self.old.depth }
        ensures runs { self.new.runs ≡ self.old.runs }
    {
        let alloc = *self.runs.allocator();
        forget(&mut self.index, &mut self.reserved);
        let docs = first_docs::<Brand>(alloc, ranking, self.depth, Blank::new(1))?;
        self.runs.reserve(1)?;
        make_rooms(&mut self.index, alloc, docs.as_slice())?;
        self.reserved = Some(docs);
        Ok(())
    }

    /// Adds a run, for whose ranking room is reserved.
    pub fn add_run(&mut self, run: RunId, ranking: &Ranking)
        requires room { self.old.room ≡ Some (take self.old.depth ranking.now) }
        requires is_new { has_run run self.old.runs ≡ false }
        ensures runs { self.new.runs ≡ with_run
            (record { run = run; docs = take self.old.depth ranking.now }) self.old.runs }
        ensures is_in { IsTrue (has_run run self.new.runs) }
        ensures others { KeepsOthers self.old.runs self.new.runs run }
        ensures depth { self.new.depth ≡ self.old.depth }
    {
        if let Some(docs) = self.reserved.take() {
            let more = add_holders(&mut self.index, docs.as_slice(), run);
            // the index tells with its length that no document stands twice
            let _entries = self.index.len();
            self.held_docs += more;
            put_run(&mut self.runs, RunDocs { run, docs });
        }
    }

    /// Takes a run out. Reserved room stays.
    pub fn drop_run(&mut self, run: RunId)
        requires { IsTrue (has_run run self.old.runs) }
        ensures runs { self.new.runs ≡ without_run run self.old.runs }
        ensures others { KeepsOthers self.old.runs self.new.runs run }
        ensures depth { self.new.depth ≡ self.old.depth }
        ensures room { self.new.room ≡ self.old.room }
    {
        let docs = take_run(&mut self.runs, run);
        // the index tells with its length that no document stands twice
        let _before = self.index.len();
        let fewer = remove_holders(&mut self.index, docs.as_slice(), run);
        let _after = self.index.len();
        self.held_docs -= fewer;
    }

    /// The runs that hold a document, by number, in one step. A step is a look-up by document.
    pub fn holders<L: Ledger>(&self, doc: DocId, steps: &mut Steps<L>) -> &[RunId]
        ensures value { result.now ≡ holders_of doc self.now.runs }
        ensures each { (run : RunId) → has_id run result.now ≡ pool_holds self.now.runs run doc }
        ensures ascending { AllPairs (λ a b. a.0 < b.0) result.now }
        ensures by_number { AreByNumber self.now.runs }
        ensures cost { steps.new ≡ steps.old + 1 }
    {
        steps.tick();
        match self.index.get(&doc) {
            Some(holders) => holders.as_slice(),
            None => &[],
        }
    }

    /// Whether a run holds a document, in one step.
    pub fn holds<L: Ledger>(&self, run: RunId, doc: DocId, steps: &mut Steps<L>) -> bool
        ensures value { result ≡ pool_holds self.now.runs run doc }
        ensures cost { steps.new ≡ steps.old + 1 }
    {
        is_among(run, self.holders(doc, steps))
    }

    /// How many documents a run holds: none where it isn't in the pool.
    pub fn count_of(&self, run: RunId) -> usize
        ensures { result ≡ length (pool_docs self.now.runs run) }
    {
        docs_of(self.runs.as_slice(), run).len()
    }

    /// The document that a run holds at a place by rank, from 0, in one step.
    pub fn doc_at<L: Ledger>(&self, run: RunId, place: usize, steps: &mut Steps<L>) -> DocId
        requires { place < length (pool_docs self.now.runs run) }
        ensures doc { slice_get (pool_docs self.now.runs run) place ≡ Some result }
        ensures each { (doc : DocId)
            → has_doc doc (pool_docs self.now.runs run) ≡ pool_holds self.now.runs run doc }
        ensures cost { steps.new ≡ steps.old + 1 }
    {
        doc_at(self.runs.as_slice(), run, place, steps)
    }

    /// How many documents some run holds.
    pub fn len(&self) -> usize
        ensures { IsCount (λ doc. some_run_holds doc self.now.runs) result }
    {
        self.held_docs
    }

    /// The documents that some run holds, each once, by docno.
    pub fn docs(&self, names: &Names) -> Result<Vec<DocId>, Memory>
        requires docs_named { All
            (λ held. All (λ doc. doc.0 < length names.now) held.docs) self.now.runs }
        ensures each { IfOk result (λ docs. (doc : DocId)
            → has_doc doc docs.items ≡ some_run_holds doc self.now.runs) }
        ensures ascending { IfOk result (λ docs. AreByDocno names.now docs.items) }
    {
        // names tell with their length that no name stands twice
        let _ = names.len();
        let mut docs = docs_held(&self.index, *self.runs.allocator())?;
        docs.sort_unstable_by(|a, b| names.name_or_empty(*a).cmp(names.name_or_empty(*b)));
        Ok(docs)
    }
}

/// Gives reserved room back.
fn forget(index: &mut Index, reserved: &mut Option<Vec<DocId>>)
    ensures gone { IfSome reserved.old
        (λ docs. All (λ doc. is_vacant index.new doc ≡ false) docs.items) }
    ensures holders { (doc : DocId) → holders_at index.new doc ≡ holders_at index.old doc }
    ensures none { reserved.new ≡ None }
{
    if let Some(docs) = reserved.take() {
        drop_empties(index, docs.as_slice());
    }
}

/// The first documents of a ranking, at most so many as the depth.
fn first_docs<L: Ledger>(
    alloc: Global,
    ranking: &Ranking,
    depth: u32,
    blank: Blank,
) -> Result<Vec<DocId>, Memory>
    requires name { blank.name ≡ L.name }
    requires parts { blank.parts ≡ L.parts }
    requires some { 0 < L.parts }
    ensures docs { IfOk result (λ docs. docs.items ≡ take depth ranking.now) }
    ensures distinct { IfOk result (λ docs. AreDistinct docs.items) }
{
    let mut steps: Steps<L> = Steps::new(blank);
    let count = depth.min(ranking.len());
    let mut docs = Vec::with_capacity(alloc, count as usize)?;
    for place in 0..count {
        docs.push(ranking.doc_at(place + 1, &mut steps))?;
    }
    Ok(docs)
}
