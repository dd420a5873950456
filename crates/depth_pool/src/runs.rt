//! The runs of a pool by number, each with the documents that it holds by rank.
ghost use Rattle.std.specs.Prelude.{◌≡◌, ◌+◌, ◌<◌, ◌==◌, AllPairs, IsTrue, Some, length, slice_get, vec_len, vec_capacity, nat_lt};
ghost use Rattle.std.specs.List.{position_or_len};
ghost use Rattle.decimal_rank.specs.declared.naming.DocId.{DocId};
ghost use Rattle.depth_pool.specs.Holdings.{Held, AreByNumber, pool_docs, has_id, has_run, has_doc, pool_holds, with_run, without_run};

use decimal_rank::{DocId, Steps};
use std::marker::Model;
use std::sync::ledger::Ledger;

/// The number of a run, from 0 in the order of submission.
#[derive(Clone, Copy, Debug, Default, PartialEq, Eq, PartialOrd, Ord)]
pub struct RunId(pub u16);

/// Whether a run is among runs that stand by number.
pub fn is_among(run: RunId, runs: &[RunId]) -> bool
    requires { AllPairs (λ a b. a.0 < b.0) runs.now }
    ensures { result ≡ has_id run runs.now }
{
    runs.binary_search(&run).is_ok()
}

/// A run, and the documents that it holds by rank.
#[derive(Drop)]
pub(crate) struct RunDocs {
    pub(crate) run: RunId,
    pub(crate) docs: Vec<DocId>,
}

impl Model for RunDocs {
    ghost use Rattle.depth_pool.specs.Holdings.{Held};

    ghost Value = { Held };

    ghost view = { λ held. record { run = held.run; docs = held.docs.items } };
}

/// Puts a run in by number, where there is room.
pub(crate) fn put_run(runs: &mut Vec<RunDocs>, held: RunDocs)
    requires { vec_len runs.old < vec_capacity runs.old }
    ensures { runs.new.items ≡ with_run held runs.old.items }
{
    let place = place_after(runs.as_slice(), held.run);
    runs.insert(place, held).unwrap();
}

/// The index of the first run with a greater number.
fn place_after(runs: &[RunDocs], run: RunId) -> usize
    ensures { result ≡ position_or_len (λ held. nat_lt run.0 held.run.0) runs.now }
{
    for (i, held) in runs.iter().enumerate() {
        if run.0 < held.run.0 {
            return i;
        }
    }
    runs.len()
}

/// Takes a run out, and gives the documents that it held.
pub(crate) fn take_run(runs: &mut Vec<RunDocs>, run: RunId) -> Vec<DocId>
    requires by_number { AreByNumber runs.old.items }
    requires is_in { IsTrue (has_run run runs.old.items) }
    ensures runs { runs.new.items ≡ without_run run runs.old.items }
    ensures docs { (doc : DocId) → has_doc doc result.items ≡ pool_holds runs.old.items run doc }
    ensures len { vec_len runs.new + 1 ≡ vec_len runs.old }
    ensures capacity { vec_capacity runs.new ≡ vec_capacity runs.old }
{
    let index = index_of(runs.as_slice(), run);
    let RunDocs { run: _, docs } = runs.remove(index);
    docs
}

/// The document that a run holds at a place by rank, in one step. Nothing else gives an entry out.
pub(crate) fn doc_at<L: Ledger>(
    runs: &[RunDocs],
    run: RunId,
    place: usize,
    steps: &mut Steps<L>,
) -> DocId
    requires by_number { AreByNumber runs.now }
    requires within { place < length (pool_docs runs.now run) }
    ensures doc { slice_get (pool_docs runs.now run) place ≡ Some result }
    ensures cost { steps.new ≡ steps.old + 1 }
{
    steps.tick();
    let docs = docs_of(runs, run);
    docs[place]
}

/// The documents that a run holds.
pub(crate) fn docs_of(runs: &[RunDocs], run: RunId) -> &[DocId]
    requires { AreByNumber runs.now }
    ensures { result.now ≡ pool_docs runs.now run }
{
    match runs.get(index_of(runs, run)) {
        Some(held) => held.docs.as_slice(),
        None => &[],
    }
}

/// The index of a run, or the number of runs where it isn't there.
fn index_of(runs: &[RunDocs], run: RunId) -> usize
    requires { AreByNumber runs.now }
    ensures { result ≡ position_or_len (λ held. held.run.0 == run.0) runs.now }
{
    match runs.binary_search_by(|held| held.run.cmp(&run)) {
        Ok(index) => index,
        Err(_) => runs.len(),
    }
}
