//! Tried is what a pool and its runs hold, whatever the order of the runs, and after one is
//! dropped.
ghost use Rattle.std.specs.Prelude.{◌≡◌, ◌≢◌, ◌<◌, [], ◌∷◌, false, true, List, All, IfOk, OnOk, length};
ghost use Rattle.decimal_rank.specs.declared.naming.DocId.{DocId};
ghost use Rattle.depth_pool.specs.Holdings.{KeepsOthers, has_run};

use crate::docnos::add_docnos;
use decimal_rank::{DocId, Names, Ranking, Steps};
use depth_pool::{Pool, RunId};
use std::alloc::Global;
use std::marker::Brand;
use std::process::Abort;
use std::sync::ledger::{Blank, Ledger};
use std::test::Fail;

/// Three rankings of the documents 0 to 5. The first is longer than the depth of 3.
fn ranking_of(alloc: Global, run: RunId) -> Result<Ranking, Fail>
    ensures { IfOk result (λ ranking. All (λ doc. doc.0 < 6) ranking) }
{
    let docs = match run.0 {
        0 => vec![in alloc; DocId(0), DocId(1), DocId(4), DocId(5)]?,
        1 => vec![in alloc; DocId(2), DocId(3), DocId(5)]?,
        _ => vec![in alloc; DocId(4), DocId(2)]?,
    };
    Ok(Ranking::listed(docs)?)
}

/// Adds a run with its ranking.
fn submit(alloc: Global, pool: &mut Pool, run: RunId) -> Result<(), Fail>
    requires is_new { has_run run pool.old.runs ≡ false }
    requires named { All (λ held. All (λ doc. doc.0 < 6) held.docs) pool.old.runs }
    ensures is_in { OnOk result (has_run run pool.new.runs ≡ true) }
    ensures named { OnOk result (All (λ held. All (λ doc. doc.0 < 6) held.docs) pool.new.runs) }
    ensures others { OnOk result (KeepsOthers pool.old.runs pool.new.runs run) }
{
    let ranking = ranking_of(alloc, run)?;
    pool.reserve(&ranking)?;
    pool.add_run(run, &ranking);
    Ok(())
}

/// Adds three runs in this order to an empty pool.
fn fill(
    alloc: Global,
    pool: &mut Pool,
    first: RunId,
    second: RunId,
    third: RunId,
) -> Result<(), Fail>
    requires empty { pool.old.runs ≡ [] }
    requires before { first ≢ second }
    requires between { first ≢ third }
    requires after { second ≢ third }
    ensures is_in { OnOk result (has_run second pool.new.runs ≡ true) }
    ensures named { OnOk result (All (λ held. All (λ doc. doc.0 < 6) held.docs) pool.new.runs) }
{
    submit(alloc, pool, first)?;
    submit(alloc, pool, second)?;
    submit(alloc, pool, third)
}

/// A pool of depth 3 with three runs that came in this order.
fn filled(alloc: Global, first: RunId, second: RunId, third: RunId) -> Result<Pool, Fail>
    requires before { first ≢ second }
    requires between { first ≢ third }
    requires after { second ≢ third }
    ensures is_in { IfOk result (λ pool. has_run second pool.runs ≡ true) }
    ensures named { IfOk result (λ pool. All (λ held. All (λ doc. doc.0 < 6) held.docs) pool.runs) }
{
    let mut pool = Pool::new(alloc, 3);
    match fill(alloc, &mut pool, first, second, third) {
        Ok(()) => Ok(pool),
        Err(fail) => Err(fail),
    }
}

/// Each document and each run that holds it.
fn held<L: Ledger>(alloc: Global, pool: &Pool, blank: Blank) -> Result<Vec<(u32, u16)>, Fail>
    requires name { blank.name ≡ L.name }
    requires parts { blank.parts ≡ L.parts }
    requires some { 0 < L.parts }
{
    let mut steps = Steps::<L>::new(blank);
    let mut pairs = Vec::new(alloc);
    for doc in 0..7 {
        for run in pool.holders(DocId(doc), &mut steps) {
            pairs.push((doc, run.0))?;
        }
    }
    Ok(pairs)
}

/// Whether a run holds just these documents, by rank.
fn are_held<L: Ledger>(pool: &Pool, run: RunId, docs: &[DocId], blank: Blank) -> bool
    requires name { blank.name ≡ L.name }
    requires parts { blank.parts ≡ L.parts }
    requires some { 0 < L.parts }
{
    if pool.count_of(run) != docs.len() {
        return false;
    }
    let mut steps = Steps::<L>::new(blank);
    for place in 0..docs.len() {
        if pool.doc_at(run, place, &mut steps) != docs[place] {
            return false;
        }
    }
    true
}

/// Whether each of three runs holds a document.
fn holders_told<L: Ledger>(pool: &Pool, doc: u32, blank: Blank) -> [bool; 3]
    requires name { blank.name ≡ L.name }
    requires parts { blank.parts ≡ L.parts }
    requires some { 0 < L.parts }
{
    let mut steps = Steps::<L>::new(blank);
    let doc = DocId(doc);
    [
        pool.holds(RunId(0), doc, &mut steps),
        pool.holds(RunId(1), doc, &mut steps),
        pool.holds(RunId(2), doc, &mut steps),
    ]
}

/// The pairs of a pool of three runs that came in this order.
fn pairs_of(
    alloc: Global,
    first: RunId,
    second: RunId,
    third: RunId,
) -> Result<Vec<(u32, u16)>, Fail>
    requires before { first ≢ second }
    requires between { first ≢ third }
    requires after { second ≢ third }
{
    let pool = filled(alloc, first, second, third)?;
    held::<Brand>(alloc, &pool, Blank::new(1))
}

/// The pairs that are left of such a pool, once the second run is dropped.
fn pairs_left(
    alloc: Global,
    first: RunId,
    dropped: RunId,
    third: RunId,
) -> Result<Vec<(u32, u16)>, Fail>
    requires before { first ≢ dropped }
    requires between { first ≢ third }
    requires after { dropped ≢ third }
{
    let mut pool = filled(alloc, first, dropped, third)?;
    pool.drop_run(dropped);
    held::<Brand>(alloc, &pool, Blank::new(1))
}

#[test]
fn holders_ascend_whatever_the_order_of_the_runs(rt: HostRuntime) -> Result<(), Fail> {
    let alloc = rt.alloc();
    let all = [
        (0, 0),
        (1, 0),
        (2, 1),
        (2, 2),
        (3, 1),
        (4, 0),
        (4, 2),
        (5, 1),
    ];
    for [first, second, third] in [[0, 1, 2], [2, 1, 0], [1, 2, 0]] {
        assert!(rt; first != second && first != third && second != third);
        let pairs = pairs_of(alloc, RunId(first), RunId(second), RunId(third))?;
        assert!(rt; pairs.as_slice() == all.as_slice());
    }
    Ok(())
}

#[test]
fn a_dropped_run_holds_nothing(rt: HostRuntime) -> Result<(), Fail> {
    let alloc = rt.alloc();
    let cases: [([u16; 3], &[(u32, u16)]); 3] = [
        ([1, 0, 2], &[(2, 1), (2, 2), (3, 1), (4, 2), (5, 1)]),
        ([0, 1, 2], &[(0, 0), (1, 0), (2, 2), (4, 0), (4, 2)]),
        ([1, 2, 0], &[(0, 0), (1, 0), (2, 1), (3, 1), (4, 0), (5, 1)]),
    ];
    for ([first, dropped, third], left) in cases {
        assert!(rt; first != dropped && first != third && dropped != third);
        let pairs = pairs_left(alloc, RunId(first), RunId(dropped), RunId(third))?;
        assert!(rt; pairs.as_slice() == left);
    }
    Ok(())
}

#[test]
fn a_run_holds_what_stands_within_the_depth(rt: HostRuntime) -> Result<(), Fail> {
    expect_holders(&rt, &filled(rt.alloc(), RunId(0), RunId(1), RunId(2))?);
    Ok(())
}

fn expect_holders(rt: &impl Abort, pool: &Pool) {
    let cases = [
        (0, [true, false, false]),
        (2, [false, true, true]),
        (4, [true, false, true]),
        (5, [false, true, false]),
        (6, [false, false, false]),
    ];
    for (doc, told) in cases {
        assert!(rt; holders_told::<Brand>(pool, doc, Blank::new(1)) == told);
    }
}

#[test]
fn the_documents_of_a_run_stand_by_rank(rt: HostRuntime) -> Result<(), Fail> {
    let mut pool = filled(rt.alloc(), RunId(2), RunId(1), RunId(0))?;
    let cases: [(u16, &[DocId]); 4] = [
        (0, &[DocId(0), DocId(1), DocId(4)]),
        (1, &[DocId(2), DocId(3), DocId(5)]),
        (2, &[DocId(4), DocId(2)]),
        (3, &[]),
    ];
    for (run, docs) in cases {
        assert!(rt; are_held::<Brand>(&pool, RunId(run), docs, Blank::new(1)));
    }
    pool.drop_run(RunId(1));
    assert!(rt; pool.count_of(RunId(1)) == 0);
    Ok(())
}

/// Docnos of the documents 0 to 5, whose order isn't that of the numbers.
const DOCNOS: [&[u8]; 6] = [b"F", b"B", b"E", b"A", b"D", b"C"];

#[test]
fn the_documents_of_a_pool_stand_by_docno(rt: HostRuntime) -> Result<(), Fail> {
    let alloc = rt.alloc();
    let mut names = Names::new(alloc);
    add_docnos(alloc, &mut names, &DOCNOS)?;
    expect_docs(&rt, alloc, &names, RunId(0), RunId(2))?;
    expect_docs(&rt, alloc, &names, RunId(2), RunId(0))
}

/// The run 1 came between these two.
fn expect_docs(
    rt: &impl Abort,
    alloc: Global,
    names: &Names,
    first: RunId,
    third: RunId,
) -> Result<(), Fail> {
    assert!(rt; first != RunId(1) && third != RunId(1) && first != third);
    let mut pool = filled(alloc, first, RunId(1), third)?;
    expect_docs_left(rt, names, &mut pool, RunId(1))
}

/// The documents of three runs, and those left once the run between is dropped.
fn expect_docs_left(
    rt: &impl Abort,
    names: &Names,
    pool: &mut Pool,
    dropped: RunId,
) -> Result<(), Fail>
    requires is_in { has_run dropped pool.old.runs ≡ true }
    requires named { All (λ held. All (λ doc. doc.0 < 6) held.docs) pool.old.runs }
{
    assert!(rt; names.len() == 6);
    let all = [3, 1, 5, 4, 2, 0].map(|doc| DocId(doc));
    assert!(rt; are_docs(names, pool, &all)?);
    pool.drop_run(dropped);
    let left = [1, 4, 2, 0].map(|doc| DocId(doc));
    assert!(rt; are_docs(names, pool, &left)?);
    Ok(())
}

/// Whether a pool holds just these documents, by docno.
fn are_docs(names: &Names, pool: &Pool, wanted: &[DocId]) -> Result<bool, Fail>
    requires named { All (λ held. All (λ doc. doc.0 < length names.now) held.docs) pool.now.runs }
{
    let docs = pool.docs(names)?;
    Ok(docs.as_slice() == wanted && pool.len() == wanted.len())
}
