//! Tried are the counts and the trail of a view after each grade, and its lines by docno.
ghost use Rattle.std.specs.Prelude.{◌≡◌, ◌<◌, All, length};
ghost use Rattle.std.specs.Bool.{OnTrue};

use crate::docnos::add_docnos;
use decimal_rank::{DocId, Names};
use qrels_view::{DocnoOrder, View};
use std::alloc::Global;
use std::process::Abort;
use std::test::Fail;

/// Gives a document a grade, or takes it away. False where the trail has no room for one more.
fn grade(view: &mut View, doc: u32, new: Option<u8>) -> Result<bool, Fail> {
    if view.trail().len() >= 1000 {
        return Ok(false);
    }
    view.reserve()?;
    let old = view.effective(DocId(doc));
    view.apply(DocId(doc), old, new);
    Ok(true)
}

const A: u32 = 0;

const B: u32 = 1;

const E: u32 = 2;

/// A document and its new grade, and after it the relevant documents, the others with a grade, and
/// the trail.
type Step = (u32, Option<u8>, u32, u32, &'static [DocId]);

fn steps() -> [Step; 9] {
    [
        (B, Some(1), 1, 0, &[DocId(B)]),
        (E, Some(0), 1, 1, &[DocId(B), DocId(E)]),
        // a document that never had a grade, and has none
        (A, None, 1, 1, &[DocId(B), DocId(E)]),
        (A, Some(2), 2, 1, &[DocId(B), DocId(E), DocId(A)]),
        // grades that change and that go
        (B, Some(0), 1, 2, &[DocId(B), DocId(E), DocId(A)]),
        (B, None, 1, 1, &[DocId(B), DocId(E), DocId(A)]),
        (E, None, 1, 0, &[DocId(B), DocId(E), DocId(A)]),
        (B, None, 1, 0, &[DocId(B), DocId(E), DocId(A)]),
        (B, Some(2), 2, 0, &[DocId(B), DocId(E), DocId(A)]),
    ]
}

#[test]
fn grades_come_and_change_and_go(rt: HostRuntime) -> Result<(), Fail> {
    expect_counts(&rt, &mut View::new(rt.alloc(), 1))
}

fn expect_counts(rt: &impl Abort, view: &mut View) -> Result<(), Fail> {
    for step in steps() {
        assert!(rt; grade(view, step.0, step.1)? && is_after(view, &step));
    }
    Ok(())
}

/// Whether a view is as it has to be after a step.
fn is_after(view: &View, (doc, new, relevant, non_relevant, trail): &Step) -> bool {
    view.effective(DocId(*doc)) == *new
        && view.relevant() == *relevant
        && view.non_relevant() == *non_relevant
        && view.trail() == *trail
}

#[test]
fn the_place_of_a_document_stays(rt: HostRuntime) -> Result<(), Fail> {
    expect_places(&rt, &mut View::new(rt.alloc(), 1))
}

fn expect_places(rt: &impl Abort, view: &mut View) -> Result<(), Fail> {
    let steps = [
        (B, Some(1), [None, Some(1), None]),
        (E, Some(0), [None, Some(1), Some(2)]),
        (B, None, [None, Some(1), Some(2)]),
        (A, Some(2), [Some(3), Some(1), Some(2)]),
        (E, Some(3), [Some(3), Some(1), Some(2)]),
    ];
    for (doc, new, places) in steps {
        assert!(rt; grade(view, doc, new)? && places_of(view) == places);
    }
    Ok(())
}

fn places_of(view: &View) -> [Option<u32>; 3] {
    [
        view.place(DocId(A)),
        view.place(DocId(B)),
        view.place(DocId(E)),
    ]
}

#[test]
fn a_level_of_two(rt: HostRuntime) -> Result<(), Fail> {
    expect_level(&rt, &mut View::new(rt.alloc(), 2))
}

fn expect_level(rt: &impl Abort, view: &mut View) -> Result<(), Fail> {
    assert!(rt; view.level() == 2);
    for (doc, new) in [(A, Some(1)), (B, Some(2)), (E, Some(3))] {
        assert!(rt; grade(view, doc, new)?);
    }
    assert!(rt; (view.relevant(), view.non_relevant()) == (2, 1));
    Ok(())
}

/// Whether each document of the trail has a name.
fn are_named(view: &View, names: &Names) -> bool
    ensures { OnTrue result (All (λ graded. graded.doc.0 < length names.now) view.now.graded) }
{
    let len = names.len();
    for doc in view.trail() {
        if doc.0 >= len {
            return false;
        }
    }
    true
}

/// The qrels text after a line. It is empty where a document has no name.
fn text_after(alloc: Global, line: &[u8], view: &View, names: &Names) -> Result<Vec<u8>, Fail> {
    let mut out = Vec::new(alloc);
    if are_named(view, names) {
        out.extend_from_slice(line)?;
        view.write(b"7", names, &mut out)?;
    }
    Ok(out)
}

/// Four docnos, of the documents 0 to 3.
const DOCNOS: [&[u8]; 4] = [b"d9", b"d3", b"E9", b"d1"];

/// A document and its new grade.
type Grade = (u32, Option<u8>);

const GRADES: [Grade; 5] = [
    (1, Some(10)),
    (0, Some(0)),
    (3, Some(1)),
    (2, Some(255)),
    (3, None),
];

#[test]
fn lines_stand_by_docno(rt: HostRuntime) -> Result<(), Fail> {
    let alloc = rt.alloc();
    let mut names = Names::new(alloc);
    add_docnos(alloc, &mut names, &DOCNOS)?;
    expect_lines(&rt, alloc, &names, &mut View::new(alloc, 1))
}

fn expect_lines(
    rt: &impl Abort,
    alloc: Global,
    names: &Names,
    view: &mut View,
) -> Result<(), Fail> {
    for (doc, new) in GRADES {
        assert!(rt; grade(view, doc, new)?);
    }
    let text = text_after(alloc, b"6 0 d 1\n", view, names)?;
    assert!(rt; text.as_slice() == b"6 0 d 1\n7 0 E9 255\n7 0 d3 10\n7 0 d9 0\n".as_slice());
    Ok(())
}

#[test]
fn a_kept_order_gives_the_same_lines(rt: HostRuntime) -> Result<(), Fail> {
    let alloc = rt.alloc();
    let mut names = Names::new(alloc);
    add_docnos(alloc, &mut names, &DOCNOS)?;
    expect_same_lines(&rt, alloc, &names, &mut DocnoOrder::new(alloc))
}

fn expect_same_lines(
    rt: &impl Abort,
    alloc: Global,
    names: &Names,
    order: &mut DocnoOrder,
) -> Result<(), Fail> {
    assert!(rt; are_same_lines(alloc, &GRADES, names, order)?);
    // what is kept is the order of a longer view
    assert!(rt; are_same_lines(alloc, &GRADES[2..3], names, order)?);
    Ok(())
}

/// Whether a reading of a new view with the kept order gives the text of one without, after each of
/// these grades.
fn are_same_lines(
    alloc: Global,
    grades: &[Grade],
    names: &Names,
    order: &mut DocnoOrder,
) -> Result<bool, Fail> {
    are_same_texts(alloc, &mut View::new(alloc, 1), grades, names, order)
}

/// Whether after each of these grades a reading with the kept order gives the text of one without.
fn are_same_texts(
    alloc: Global,
    view: &mut View,
    grades: &[Grade],
    names: &Names,
    order: &mut DocnoOrder,
) -> Result<bool, Fail> {
    for (doc, new) in grades {
        if !grade(view, *doc, *new)? || !is_same_text(alloc, view, names, order)? {
            return Ok(false);
        }
    }
    Ok(true)
}

/// Whether a reading with a kept order gives the text of a reading without one.
fn is_same_text(
    alloc: Global,
    view: &View,
    names: &Names,
    order: &mut DocnoOrder,
) -> Result<bool, Fail> {
    let mut out = Vec::new(alloc);
    if are_named(view, names) {
        view.write_by(b"7", names, order, &mut out)?;
    }
    Ok(out == text_after(alloc, b"", view, names)?)
}

#[test]
fn no_grade_no_line(rt: HostRuntime) -> Result<(), Fail> {
    let names = Names::new(rt.alloc());
    assert!(rt; has_no_line(rt.alloc(), &View::new(rt.alloc(), 1), &names)?);
    Ok(())
}

fn has_no_line(alloc: Global, view: &View, names: &Names) -> Result<bool, Fail> {
    Ok(text_after(alloc, b"", view, names)?.is_empty())
}
