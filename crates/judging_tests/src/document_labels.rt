//! Tried are the labels and effective grades of one document, and those of three documents of a
//! topic.
use decimal_rank::{DocId, Text};
use labels::{Labels, TopicLabels};
use std::alloc::Global;
use std::process::Abort;
use std::test::Fail;

/// What happens to a document.
#[derive(Clone, Copy)]
enum Call {
    // an assessor's grade
    Set(&'static [u8], u8),
    Rule(u8),
}

/// The labels after these calls.
fn played(alloc: Global, calls: &[Call]) -> Result<Labels, Fail> {
    let mut labels = Labels::new(alloc);
    for call in calls {
        play(alloc, &mut labels, call)?;
    }
    Ok(labels)
}

fn play(alloc: Global, labels: &mut Labels, call: &Call) -> Result<(), Fail> {
    match call {
        Call::Set(assessor, grade) => set(alloc, labels, assessor, *grade)?,
        Call::Rule(grade) => labels.rule(*grade),
    }
    Ok(())
}

fn set(alloc: Global, labels: &mut Labels, assessor: &[u8], grade: u8) -> Result<(), Fail> {
    let assessor = Text::from_slice(alloc, assessor)?;
    labels.reserve()?;
    if labels.count() < u32::MAX {
        labels.set(assessor, grade);
    }
    Ok(())
}

/// The effective grade after these calls where so many labels are needed, and whether they show a
/// disagreement.
fn effective_after(alloc: Global, need: u32, calls: &[Call]) -> Result<(Option<u8>, bool), Fail> {
    let labels = played(alloc, calls)?;
    Ok((labels.effective(need), labels.disagrees(need)))
}

const P: &[u8] = b"p";

const Q: &[u8] = b"q";

const R: &[u8] = b"r";

#[test]
fn the_effective_grade_where_two_labels_are_needed(rt: HostRuntime) -> Result<(), Fail> {
    let alloc = rt.alloc();
    let rows: [(&[Call], Option<u8>, bool); 9] = [
        (&[], None, false),
        (&[Call::Set(P, 1)], None, false),
        (&[Call::Set(P, 1), Call::Set(Q, 1)], Some(1), false),
        (&[Call::Set(P, 0), Call::Set(Q, 0)], Some(0), false),
        (&[Call::Set(P, 1), Call::Set(Q, 2)], None, true),
        (
            &[Call::Set(P, 1), Call::Set(Q, 2), Call::Rule(2)],
            Some(2),
            false,
        ),
        (
            &[
                Call::Set(P, 1),
                Call::Set(Q, 2),
                Call::Rule(2),
                Call::Set(P, 0),
            ],
            Some(2),
            false,
        ),
        (
            &[Call::Set(P, 1), Call::Set(Q, 1), Call::Set(P, 0)],
            None,
            true,
        ),
        (
            &[Call::Set(P, 1), Call::Set(Q, 1), Call::Set(R, 1)],
            None,
            false,
        ),
    ];
    for (calls, effective, disagrees) in rows {
        assert!(rt; effective_after(alloc, 2, calls)? == (effective, disagrees));
    }
    Ok(())
}

#[test]
fn the_effective_grade_where_one_label_is_needed(rt: HostRuntime) -> Result<(), Fail> {
    let alloc = rt.alloc();
    let rows: [(&[Call], Option<u8>); 5] = [
        (&[], None),
        (&[Call::Set(P, 1)], Some(1)),
        (&[Call::Set(P, 1), Call::Set(P, 0)], Some(0)),
        (&[Call::Set(P, 1), Call::Set(Q, 2)], None),
        (&[Call::Set(P, 1), Call::Rule(2), Call::Rule(0)], Some(0)),
    ];
    for (calls, effective) in rows {
        assert!(rt; effective_after(alloc, 1, calls)? == (effective, false));
    }
    Ok(())
}

#[test]
fn the_label_of_each_assessor(rt: HostRuntime) -> Result<(), Fail> {
    let calls = [
        Call::Set(P, 1),
        Call::Set(Q, 2),
        Call::Rule(3),
        Call::Set(P, 0),
    ];
    expect_two_labels(&rt, &played(rt.alloc(), &calls)?);
    Ok(())
}

fn expect_two_labels(rt: &impl Abort, labels: &Labels) {
    assert!(rt; labels.count() == 2);
    let grades = [P, Q, R].map(|assessor| labels.grade_of(assessor));
    assert!(rt; grades == [Some(0), Some(2), None]);
}

#[test]
fn the_grades_of_the_first_two_assessors(rt: HostRuntime) -> Result<(), Fail> {
    let alloc = rt.alloc();
    let rows: [(&[Call], [Option<u8>; 2]); 4] = [
        (&[Call::Rule(3)], [None, None]),
        (&[Call::Set(P, 1)], [Some(1), None]),
        // a later grade stays at its assessor's place
        (
            &[Call::Set(P, 1), Call::Set(Q, 2), Call::Set(P, 0)],
            [Some(0), Some(2)],
        ),
        (
            &[Call::Set(P, 1), Call::Set(Q, 2), Call::Set(R, 3)],
            [Some(1), Some(2)],
        ),
    ];
    for (calls, grades) in rows {
        assert!(rt; grades_after(alloc, calls)? == grades);
    }
    Ok(())
}

fn grades_after(alloc: Global, calls: &[Call]) -> Result<[Option<u8>; 2], Fail> {
    Ok(played(alloc, calls)?.grades())
}

/// What happens to a document of a topic.
#[derive(Clone, Copy)]
enum LabelStep {
    // an assessor's grade
    Set(u32, &'static [u8], u8),
    Rule(u32, u8),
}

/// Marks a document. False where a ruling comes before the first label.
fn play_at(alloc: Global, marks: &mut TopicLabels, mark: &LabelStep) -> Result<bool, Fail> {
    match mark {
        LabelStep::Set(doc, assessor, grade) => {
            set_at(alloc, marks, DocId(*doc), assessor, *grade)?;
            Ok(true)
        }
        LabelStep::Rule(doc, grade) => Ok(rule_at(marks, DocId(*doc), *grade)),
    }
}

fn set_at(
    alloc: Global,
    marks: &mut TopicLabels,
    doc: DocId,
    assessor: &[u8],
    grade: u8,
) -> Result<(), Fail> {
    let assessor = Text::from_slice(alloc, assessor)?;
    marks.reserve(doc)?;
    if marks.count(doc) < u32::MAX {
        marks.set(doc, assessor, grade);
    }
    Ok(())
}

fn rule_at(marks: &mut TopicLabels, doc: DocId, grade: u8) -> bool {
    let is_marked = marks.count(doc) > 0;
    if is_marked {
        marks.rule(doc, grade);
    }
    is_marked
}

const A: u32 = 4;

const B: u32 = 2;

const C: u32 = 9;

/// Marks of three documents, after each of which: the document, its labels, its effective grade
/// where two labels are needed, and the documents that show a disagreement.
type Row = (LabelStep, u32, u32, Option<u8>, &'static [DocId]);

fn rows() -> [Row; 9] {
    [
        (LabelStep::Set(B, P, 1), B, 1, None, &[]),
        (LabelStep::Set(A, P, 1), A, 1, None, &[]),
        (LabelStep::Set(A, Q, 2), A, 2, None, &[DocId(A)]),
        // the order is that of the first labels
        (LabelStep::Set(B, Q, 0), B, 2, None, &[DocId(B), DocId(A)]),
        (LabelStep::Rule(B, 3), B, 2, Some(3), &[DocId(A)]),
        // a label in place of the assessor's earlier one
        (LabelStep::Set(A, Q, 1), A, 2, Some(1), &[]),
        (LabelStep::Set(A, P, 0), A, 2, None, &[DocId(A)]),
        (LabelStep::Set(B, P, 2), B, 2, Some(3), &[DocId(A)]),
        (LabelStep::Set(A, R, 0), A, 3, None, &[]),
    ]
}

#[test]
fn the_marks_of_three_documents(rt: HostRuntime) -> Result<(), Fail> {
    let mut marks = TopicLabels::new(rt.alloc());
    expect_marks(&rt, rt.alloc(), &mut marks)
}

fn expect_marks(rt: &impl Abort, alloc: Global, marks: &mut TopicLabels) -> Result<(), Fail> {
    for (call, doc, count, effective, disagreements) in rows() {
        assert!(rt; play_at(alloc, marks, &call)?);
        let doc = DocId(doc);
        assert!(rt; (marks.count(doc), marks.effective(2, doc)) == (count, effective));
        assert!(rt; are_disagreements(alloc, marks, 2, disagreements)?);
    }
    assert!(rt; are_disagreements(alloc, marks, 1, &[])?);
    Ok(())
}

/// Whether just these documents show a disagreement where so many labels are needed.
fn are_disagreements(
    alloc: Global,
    marks: &TopicLabels,
    need: u32,
    wanted: &[DocId],
) -> Result<bool, Fail> {
    let listed = marks.disagreements(alloc, need)?;
    Ok(listed.as_slice() == wanted)
}

#[test]
fn the_label_of_each_assessor_of_each_document(rt: HostRuntime) -> Result<(), Fail> {
    let mut marks = TopicLabels::new(rt.alloc());
    expect_calls(&rt, rt.alloc(), &mut marks)?;
    expect_grades(&rt, &marks);
    Ok(())
}

/// Labels of A and B; a ruling of C, which has no label, isn't taken.
fn expect_calls(rt: &impl Abort, alloc: Global, marks: &mut TopicLabels) -> Result<(), Fail> {
    let calls = [
        LabelStep::Set(A, P, 1),
        LabelStep::Set(B, Q, 2),
        LabelStep::Rule(A, 3),
        LabelStep::Set(A, P, 0),
    ];
    for call in &calls {
        assert!(rt; play_at(alloc, marks, call)?);
    }
    assert!(rt; !rule_at(marks, DocId(C), 1));
    Ok(())
}

fn expect_grades(rt: &impl Abort, marks: &TopicLabels) {
    let labels = [
        (P, A, Some(0)),
        (Q, A, None),
        (P, B, None),
        (Q, B, Some(2)),
        (P, C, None),
    ];
    for (assessor, doc, grade) in labels {
        assert!(rt; marks.grade_of(assessor, DocId(doc)) == grade);
        assert!(rt; marks.has_label(assessor, DocId(doc)) == grade.is_some());
    }
    for (doc, grade) in [(A, Some(3)), (B, Some(2)), (C, None)] {
        assert!(rt; marks.effective(1, DocId(doc)) == grade);
    }
}

#[test]
fn the_documents_with_a_label(rt: HostRuntime) -> Result<(), Fail> {
    let mut marks = TopicLabels::new(rt.alloc());
    expect_labelled(&rt, rt.alloc(), &mut marks)
}

fn expect_labelled(rt: &impl Abort, alloc: Global, marks: &mut TopicLabels) -> Result<(), Fail> {
    for call in [
        LabelStep::Set(A, P, 1),
        LabelStep::Set(B, Q, 2),
        LabelStep::Set(A, P, 0),
    ] {
        assert!(rt; play_at(alloc, marks, &call)?);
    }
    let labelled: &[DocId] = &[DocId(A), DocId(B)];
    assert!(rt; marks.docs() == labelled);
    assert!(rt; counts_of(marks) == [Some(1), Some(1), None]);
    Ok(())
}

/// How many labels A, B and C have.
fn counts_of(marks: &TopicLabels) -> [Option<u32>; 3] {
    [
        count_at(marks, DocId(A)),
        count_at(marks, DocId(B)),
        count_at(marks, DocId(C)),
    ]
}

fn count_at(marks: &TopicLabels, doc: DocId) -> Option<u32> {
    let labels = marks.labels(doc)?;
    Some(labels.count())
}
