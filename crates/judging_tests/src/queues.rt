//! Tried is the order of a queue after each call.
use crate::letters::{A, B, C, D, E, F, G};
use crate::queued_topics::QueuedTopic;
use decimal_rank::DocId;
use depth_pool::RunId;
use std::alloc::Global;
use std::process::Abort;
use std::test::Fail;

/// What happens to a topic.
enum Call {
    // a run that holds these documents
    Submit(&'static [u32]),
    Withdraw(u16),
    Judge(u32, bool),
    Regrade(u32, Option<bool>),
}

/// Whether the call's conditions held.
fn play(alloc: Global, topic: &mut QueuedTopic, call: &Call) -> Result<bool, Fail> {
    match call {
        Call::Submit(docs) => {
            topic.submit(alloc, docs)?;
            Ok(true)
        }
        Call::Withdraw(run) => Ok(topic.withdraw(RunId(*run))),
        Call::Judge(doc, relevant) => topic.judge(DocId(*doc), *relevant),
        Call::Regrade(place, relevant) => Ok(topic.regrade(*place, *relevant)),
    }
}

/// The runs X, Y and Z, by submission.
const X: RunId = RunId(0);

const Y: RunId = RunId(1);

const Z: RunId = RunId(2);

#[test]
fn the_order_after_each_call(rt: HostRuntime) -> Result<(), Fail> {
    let alloc = rt.alloc();
    let rows: [&[(Call, &[RunId])]; 2] = [
        &[
            (Call::Submit(&[A, B, E]), &[X]),
            (Call::Submit(&[C, D, F]), &[X, Y]),
            (Call::Judge(A, false), &[Y, X]),
            (Call::Judge(C, true), &[Y, X]),
            // a grade that changes is no new judgement
            (Call::Regrade(1, Some(true)), &[Y, X]),
            (Call::Regrade(2, None), &[X, Y]),
            (Call::Withdraw(0), &[Y]),
            // by the trail, and not by submission
            (Call::Submit(&[A, G]), &[Z, Y]),
        ],
        &[
            (Call::Submit(&[A, B]), &[X]),
            (Call::Submit(&[A, C]), &[X, Y]),
            (Call::Judge(A, true), &[X, Y]),
            (Call::Judge(C, false), &[X, Y]),
            (Call::Judge(B, false), &[Y, X]),
        ],
    ];
    for row in rows {
        expect_orders(&rt, alloc, row)?;
    }
    Ok(())
}

fn expect_orders(rt: &impl Abort, alloc: Global, row: &[(Call, &[RunId])]) -> Result<(), Fail> {
    let mut topic = QueuedTopic::new(alloc);
    expect_orders_of(rt, alloc, &mut topic, row)
}

fn expect_orders_of(
    rt: &impl Abort,
    alloc: Global,
    topic: &mut QueuedTopic,
    row: &[(Call, &[RunId])],
) -> Result<(), Fail> {
    for (call, order) in row {
        assert!(rt; play(alloc, topic, call)?);
        assert!(rt; topic.order() == *order);
    }
    Ok(())
}
