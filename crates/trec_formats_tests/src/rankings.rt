//! Names that are numbered, and documents by rank.
ghost use Rattle.std.specs.Prelude.{◌≡◌, ◌<◌, IfOk, length};

use decimal_rank::{Decimal, DocId, Names, RankFault, Ranking, Scored, Steps, Text, rank};
use std::alloc::Global;
use std::marker::Brand;
use std::process::Abort;
use std::sync::ledger::{Blank, Ledger};
use std::test::Fail;

/// Numbers a name. None where a thousand have numbers.
fn add(alloc: Global, names: &mut Names, name: &[u8]) -> Result<Option<DocId>, Fail> {
    if names.len() >= 1000 {
        return Ok(None);
    }
    Ok(Some(names.add(Text::from_slice(alloc, name)?)?))
}

/// The numbers of a and b, which are added, and then those of b and c.
fn numbers_told(alloc: Global, names: &mut Names) -> Result<[Option<DocId>; 4], Fail> {
    let a = add(alloc, names, b"a")?;
    let b = add(alloc, names, b"b")?;
    Ok([a, b, names.find(b"b"), names.find(b"c")])
}

fn are_numbered(alloc: Global, names: &mut Names) -> Result<bool, Fail> {
    let numbers = [Some(DocId(0)), Some(DocId(1)), Some(DocId(1)), None];
    Ok(numbers_told(alloc, names)? == numbers && names.len() == 2)
}

#[test]
fn names_are_numbered_as_they_come(rt: HostRuntime) -> Result<(), Fail> {
    assert!(rt; are_numbered(rt.alloc(), &mut Names::new(rt.alloc()))?);
    Ok(())
}

fn line(doc: DocId, score: &[u8]) -> Result<Scored, Fail>
    ensures { IfOk result (λ line. line.doc ≡ doc) }
{
    let score = Decimal::read(score).ok().ok_or("no score")?;
    Ok(Scored { doc, score })
}

/// The documents by rank, and each document's place.
fn by_rank<L: Ledger>(alloc: Global, ranking: &Ranking, blank: Blank) -> Result<Vec<u32>, Fail>
    requires name { blank.name ≡ L.name }
    requires parts { blank.parts ≡ L.parts }
    requires some { 0 < L.parts }
{
    let mut steps = Steps::<L>::new(blank);
    let mut docs = Vec::new(alloc);
    for place in 1..=ranking.len() {
        let doc = ranking.doc_at(place, &mut steps);
        docs.push(doc.0)?;
        docs.push(ranking.place_of(doc, &mut steps).ok_or("no place")?)?;
    }
    Ok(docs)
}

/// Numbers A, B and C.
fn add_three(alloc: Global, names: &mut Names) -> Result<(), Fail> {
    for name in [b"A", b"B", b"C"] {
        add(alloc, names, name)?;
    }
    Ok(())
}

/// A, B and C by rank, where they have these scores, and the place of each.
fn places_of(alloc: Global, names: &Names, scores: [&[u8]; 3]) -> Result<Vec<u32>, Fail>
    requires { length names.now ≡ 3 }
{
    let lines = [
        line(DocId(0), scores[0])?,
        line(DocId(1), scores[1])?,
        line(DocId(2), scores[2])?,
    ];
    let ranking = rank(alloc, &lines, names).ok().ok_or("no ranking")?;
    by_rank::<Brand>(alloc, &ranking, Blank::new(1))
}

/// Whether A, B and C stand so, each with its place.
fn are_placed(
    alloc: Global,
    names: &Names,
    scores: [&[u8]; 3],
    docs_and_places: &[u32],
) -> Result<bool, Fail>
    requires { length names.now ≡ 3 }
{
    Ok(places_of(alloc, names, scores)?.as_slice() == docs_and_places)
}

#[test]
fn greatest_score_first_and_ties_by_greatest_docno(rt: HostRuntime) -> Result<(), Fail> {
    let mut names = Names::new(rt.alloc());
    add_three(rt.alloc(), &mut names)?;
    expect_places(&rt, rt.alloc(), &names)
}

fn expect_places(rt: &impl Abort, alloc: Global, names: &Names) -> Result<(), Fail> {
    assert!(rt; names.len() == 3);
    let cases: [([&[u8]; 3], [u32; 6]); 3] = [
        ([b"3", b"2", b"1"], [0, 1, 1, 2, 2, 3]),
        ([b"2", b"2.00", b"20e-1"], [2, 1, 1, 2, 0, 3]),
        ([b"5", b"70", b"5"], [1, 1, 2, 2, 0, 3]),
    ];
    for (scores, docs_and_places) in cases {
        assert!(rt; are_placed(alloc, names, scores, &docs_and_places)?);
    }
    Ok(())
}

/// The fault of a list in which the documents A and B stand twice each.
fn fault_of_repeats(alloc: Global, names: &Names) -> Result<Option<RankFault>, Fail>
    requires { length names.now ≡ 3 }
{
    let lines = [
        line(DocId(1), b"3")?,
        line(DocId(0), b"2")?,
        line(DocId(0), b"1")?,
        line(DocId(1), b"1")?,
    ];
    Ok(rank(alloc, &lines, names).err())
}

#[test]
fn a_document_that_stands_twice_is_told(rt: HostRuntime) -> Result<(), Fail> {
    let mut names = Names::new(rt.alloc());
    add_three(rt.alloc(), &mut names)?;
    expect_repeats(&rt, rt.alloc(), &names)
}

fn expect_repeats(rt: &impl Abort, alloc: Global, names: &Names) -> Result<(), Fail> {
    assert!(rt; names.len() == 3);
    assert!(rt;
        fault_of_repeats(alloc, names)?
            == Some(RankFault::Twice {
                first: 2,
                second: 3
            })
    );
    Ok(())
}

#[test]
fn a_ranking_lists_this_very_order(rt: HostRuntime) -> Result<(), Fail> {
    let alloc = rt.alloc();
    let ranking = Ranking::listed(vec![in alloc; DocId(7), DocId(2), DocId(5)]?)?;
    let docs = by_rank::<Brand>(alloc, &ranking, Blank::new(1))?;
    assert!(rt; docs.as_slice() == [7, 1, 2, 2, 5, 3].as_slice());
    Ok(())
}
