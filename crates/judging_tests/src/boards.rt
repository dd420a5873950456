//! Tried are boards: the cell, the summary and the rankings of a run after each list, withdrawal
//! and grade.

mod scored_board;

use crate::boards::scored_board::Scored;
use crate::letters::{A, B, C, D, E, F};
use decimal_rank::ONE;
use measures::Summary;
use std::alloc::Global;
use std::process::Abort;
use std::test::Fail;

/// A change of a board.
#[derive(Clone, Copy)]
enum Call {
    // the list of a run on a topic, by rank
    Submit(u16, u16, &'static [u32]),
    Withdraw(u16),
    // the grade of a topic's document, or none
    Grade(u16, u32, Option<u8>),
}

/// False where a call's condition doesn't hold.
fn play(alloc: Global, scored: &mut Scored, call: &Call) -> Result<bool, Fail> {
    match call {
        Call::Submit(run, topic, docs) => {
            scored.try_room(alloc, docs)?;
            scored.submit(alloc, *run, *topic, docs)
        }
        Call::Withdraw(run) => {
            scored.withdraw(*run);
            Ok(true)
        }
        Call::Grade(topic, doc, grade) => scored.grade(*topic, *doc, *grade),
    }
}

const X: u16 = 0;

const Y: u16 = 1;

/// What a cell has: the documents, the relevant ones of the topic and of the list, and of those the
/// ones within the first R ranks; the first relevant rank; the sum of AP; and bpref over what.
type Figures = (u32, u32, u32, u32, u32, u64, (u64, u64));

fn figures_of(scored: &Scored, run: u16, topic: u16) -> Option<Figures> {
    let cell = scored.cell(run, topic)?;
    let bpref = (cell.bpref_num, cell.bpref_den);
    Some((
        cell.ret,
        cell.rel,
        cell.rel_ret,
        cell.r_prec,
        cell.first,
        cell.ap_sum,
        bpref,
    ))
}

const HALF: u64 = 500_000_000_000_000;

const THIRD: u64 = 333_333_333_333_333;

/// Calls, each with the cell of X on topic 0 after it.
type Row = (Call, Figures);

/// A relevant document isn't in the list of X.
fn rows_of_a_document_outside() -> [Row; 10] {
    [
        // judged before the run comes
        (Call::Grade(0, D, Some(1)), (0, 1, 0, 0, 0, 0, (0, 1))),
        (Call::Submit(X, 0, &[A, B, C]), (3, 1, 0, 0, 0, 0, (0, 1))),
        (Call::Grade(0, A, Some(1)), (3, 2, 1, 1, 1, ONE, (1, 2))),
        (Call::Grade(0, B, Some(0)), (3, 2, 1, 1, 1, ONE, (1, 2))),
        (
            Call::Grade(0, C, Some(1)),
            (3, 3, 2, 2, 1, ONE + 2 * THIRD, (1, 3)),
        ),
        (
            Call::Grade(0, B, Some(1)),
            (3, 4, 3, 3, 1, 3 * ONE - 1, (3, 4)),
        ),
        (
            Call::Grade(0, A, None),
            (3, 3, 2, 2, 2, HALF + 2 * THIRD, (2, 3)),
        ),
        (Call::Grade(0, C, Some(0)), (3, 2, 1, 1, 2, HALF, (1, 2))),
        (Call::Withdraw(Y), (3, 2, 1, 1, 2, HALF, (1, 2))),
        (Call::Withdraw(X), (0, 2, 0, 0, 0, 0, (0, 2))),
    ]
}

/// A ruling, and then labels that no more agree.
fn rows_of_a_ruling() -> [Row; 5] {
    [
        (Call::Submit(X, 0, &[B, E, A]), (3, 0, 0, 0, 0, 0, (0, 1))),
        (Call::Grade(0, E, Some(0)), (3, 0, 0, 0, 0, 0, (0, 1))),
        (Call::Grade(0, B, Some(1)), (3, 1, 1, 1, 1, ONE, (1, 1))),
        (
            Call::Grade(0, A, Some(2)),
            (3, 2, 2, 1, 1, ONE + 2 * THIRD, (1, 2)),
        ),
        (Call::Grade(0, B, None), (3, 1, 1, 0, 3, THIRD, (0, 1))),
    ]
}

/// Two runs, and all their documents judged.
fn rows_of_two_runs() -> [Row; 9] {
    [
        (Call::Submit(X, 0, &[A, B, E]), (3, 0, 0, 0, 0, 0, (0, 1))),
        (Call::Submit(Y, 0, &[C, D, F]), (3, 0, 0, 0, 0, 0, (0, 1))),
        (Call::Grade(0, A, Some(0)), (3, 0, 0, 0, 0, 0, (0, 1))),
        (Call::Grade(0, C, Some(1)), (3, 1, 0, 0, 0, 0, (0, 1))),
        (Call::Grade(0, D, Some(0)), (3, 1, 0, 0, 0, 0, (0, 1))),
        (Call::Grade(0, B, Some(1)), (3, 2, 1, 1, 2, HALF, (1, 4))),
        (Call::Grade(0, E, Some(0)), (3, 2, 1, 1, 2, HALF, (1, 4))),
        (Call::Grade(0, F, Some(2)), (3, 3, 1, 1, 2, HALF, (2, 9))),
        // a grade on another topic
        (Call::Grade(1, B, Some(0)), (3, 3, 1, 1, 2, HALF, (2, 9))),
    ]
}

/// Grades below a level of 2 count as judged.
fn rows_of_level_two() -> [Row; 4] {
    [
        (Call::Submit(X, 0, &[A, B, E]), (3, 0, 0, 0, 0, 0, (0, 1))),
        (Call::Grade(0, A, Some(1)), (3, 0, 0, 0, 0, 0, (0, 1))),
        (Call::Grade(0, B, Some(2)), (3, 1, 1, 0, 2, HALF, (0, 1))),
        (Call::Grade(0, A, Some(3)), (3, 2, 2, 2, 1, 2 * ONE, (2, 2))),
    ]
}

/// That the cell of X on topic 0, which has this level, is so after each call.
fn expect_cells(rt: &impl Abort, alloc: Global, level: u8, rows: &[Row]) -> Result<(), Fail> {
    let mut scored = Scored::new(alloc, level, 1)?;
    expect_cells_on(rt, alloc, &mut scored, rows)
}

fn expect_cells_on(
    rt: &impl Abort,
    alloc: Global,
    scored: &mut Scored,
    rows: &[Row],
) -> Result<(), Fail> {
    for (call, figures) in rows {
        assert!(rt; play(alloc, scored, call)?);
        assert!(rt; figures_of(scored, X, 0) == Some(*figures));
    }
    Ok(())
}

#[test]
fn the_cell_after_each_change(rt: HostRuntime) -> Result<(), Fail> {
    let alloc = rt.alloc();
    expect_cells(&rt, alloc, 1, &rows_of_a_document_outside())?;
    expect_cells(&rt, alloc, 1, &rows_of_a_ruling())?;
    expect_cells(&rt, alloc, 1, &rows_of_two_runs())?;
    expect_cells(&rt, alloc, 2, &rows_of_level_two())
}

/// A document of grade 1 is relevant on topic 1 alone, where topic 0 has the level 2.
#[test]
fn each_topic_has_its_level(rt: HostRuntime) -> Result<(), Fail> {
    let mut scored = Scored::new(rt.alloc(), 2, 1)?;
    expect_levels(&rt, rt.alloc(), &mut scored)
}

fn expect_levels(rt: &impl Abort, alloc: Global, scored: &mut Scored) -> Result<(), Fail> {
    for topic in [0, 1] {
        assert!(rt; scored.submit(alloc, X, topic, &[A, B])?);
        assert!(rt; scored.grade(topic, A, Some(1))?);
    }
    assert!(rt; figures_of(scored, X, 0) == Some((2, 0, 0, 0, 0, 0, (0, 1))));
    assert!(rt; figures_of(scored, X, 1) == Some((2, 1, 1, 1, 1, ONE, (1, 1))));
    Ok(())
}

/// What a summary has: the counted topics, the counts, and the means but for those at cutoffs.
type Means = (u32, [u64; 3], [u64; 4]);

fn means_of(summary: &Summary) -> Means {
    (
        summary.topics,
        [summary.ret, summary.rel, summary.rel_ret],
        [summary.map, summary.r_prec, summary.bpref, summary.recip],
    )
}

/// Calls, each with the means of X after it.
fn mean_rows() -> [(Call, Means); 9] {
    [
        // no topic counts
        (Call::Submit(X, 0, &[B, E, A]), (0, [0; 3], [0; 4])),
        // a topic counts where none of its documents is relevant
        (Call::Grade(0, E, Some(0)), (1, [3, 0, 0], [0; 4])),
        (
            Call::Grade(0, B, Some(1)),
            (1, [3, 1, 1], [ONE, ONE, ONE, ONE]),
        ),
        (
            Call::Grade(0, A, Some(2)),
            (1, [3, 2, 2], [(ONE + 2 * THIRD) / 2, HALF, HALF, ONE]),
        ),
        // a topic that X lacks counts too
        (
            Call::Grade(1, A, Some(1)),
            (
                2,
                [3, 3, 2],
                [(ONE + 2 * THIRD) / 2 / 2, HALF / 2, HALF / 2, HALF],
            ),
        ),
        // as for another run
        (
            Call::Submit(Y, 1, &[A]),
            (
                2,
                [3, 3, 2],
                [(ONE + 2 * THIRD) / 2 / 2, HALF / 2, HALF / 2, HALF],
            ),
        ),
        // it counts no more
        (
            Call::Grade(1, A, None),
            (1, [3, 2, 2], [(ONE + 2 * THIRD) / 2, HALF, HALF, ONE]),
        ),
        (
            Call::Grade(0, B, None),
            (1, [3, 1, 1], [THIRD, 0, 0, THIRD]),
        ),
        (Call::Withdraw(X), (1, [0, 1, 0], [0; 4])),
    ]
}

#[test]
fn the_summary_after_each_change(rt: HostRuntime) -> Result<(), Fail> {
    let mut scored = Scored::new(rt.alloc(), 1, 1)?;
    expect_means(&rt, rt.alloc(), &mut scored)
}

fn expect_means(rt: &impl Abort, alloc: Global, scored: &mut Scored) -> Result<(), Fail> {
    for (call, means) in mean_rows() {
        assert!(rt; play(alloc, scored, &call)?);
        assert!(rt; means_of(&scored.summary(X)) == means);
    }
    Ok(())
}

/// Calls, each with the number of documents that X and Y have on topics 0 and 1 after it.
fn held_rows() -> [(Call, [Option<u32>; 4]); 5] {
    [
        (Call::Submit(Y, 1, &[C, A]), [None, None, None, Some(2)]),
        (Call::Submit(X, 1, &[]), [None, Some(0), None, Some(2)]),
        (
            Call::Submit(X, 0, &[A, B, E]),
            [Some(3), Some(0), None, Some(2)],
        ),
        (
            Call::Grade(1, C, Some(1)),
            [Some(3), Some(0), None, Some(2)],
        ),
        (Call::Withdraw(X), [None, None, None, Some(2)]),
    ]
}

#[test]
fn the_rankings_after_each_change(rt: HostRuntime) -> Result<(), Fail> {
    let mut scored = Scored::new(rt.alloc(), 1, 1)?;
    expect_lengths(&rt, rt.alloc(), &mut scored)
}

fn expect_lengths(rt: &impl Abort, alloc: Global, scored: &mut Scored) -> Result<(), Fail> {
    for (call, held) in held_rows() {
        assert!(rt; play(alloc, scored, &call)?);
        let found = [
            scored.held(X, 0),
            scored.held(X, 1),
            scored.held(Y, 0),
            scored.held(Y, 1),
        ];
        assert!(rt; found == held);
    }
    Ok(())
}
