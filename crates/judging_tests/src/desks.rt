//! Tried are the live leases of a document, assessor and topic, and leases by number.
use decimal_rank::{DocId, Text};
use lease_desk::{Desk, LeaseEnd};
use std::alloc::Global;
use std::process::Abort;
use std::test::Fail;

const P: u8 = b'p';

const Q: u8 = b'q';

const R: u8 = b'r';

/// Grants a lease to an assessor of one letter, and tells its number: none where the desk has a
/// thousand.
fn grant(
    alloc: Global,
    desk: &mut Desk,
    assessor: u8,
    topic: u16,
    doc: u32,
    until: u64,
) -> Result<Option<u32>, Fail> {
    if desk.len() >= 1000 {
        return Ok(None);
    }
    let assessor = Text::from_slice(alloc, &[assessor])?;
    desk.reserve()?;
    Ok(Some(desk.grant(assessor, topic, DocId(doc), until)))
}

/// Ends a lease. False where there is none of this number, and where it has an end.
fn end(desk: &mut Desk, number: u32, how: LeaseEnd) -> bool {
    if let Some(lease) = desk.find(number)
        && lease.end.is_none()
    {
        desk.end(number, how);
        return true;
    }
    false
}

/// Grants five leases, of which the last has an earlier moment than those before it.
fn grant_five(alloc: Global, desk: &mut Desk) -> Result<(), Fail> {
    let leases = [
        (P, 0, 5, 1600),
        (Q, 0, 5, 2000),
        (P, 0, 6, 1800),
        (P, 1, 5, 1700),
        (Q, 1, 7, 1500),
    ];
    for (assessor, topic, doc, until) in leases {
        grant(alloc, desk, assessor, topic, doc, until)?;
    }
    Ok(())
}

/// What a desk tells at a moment: the live leases on the document, of the assessor and on the
/// topic, and whether the assessor has one on the document.
type Told = (u32, u32, u32, bool);

fn told(desk: &Desk, assessor: u8, topic: u16, doc: u32, now: u64) -> Told {
    (
        desk.live_on(topic, DocId(doc), now),
        desk.live_of(&[assessor], now),
        desk.live_on_topic(topic, now),
        desk.has(&[assessor], topic, DocId(doc), now),
    )
}

#[test]
fn a_lease_is_live_before_its_moment(rt: HostRuntime) -> Result<(), Fail> {
    let mut desk = Desk::new(rt.alloc());
    expect_moments(&rt, rt.alloc(), &mut desk)
}

fn expect_moments(rt: &impl Abort, alloc: Global, desk: &mut Desk) -> Result<(), Fail> {
    grant_five(alloc, desk)?;
    let cases = [
        (P, 0, 5, 1000, (2, 3, 3, true)),
        (Q, 0, 6, 1000, (1, 2, 3, false)),
        (Q, 1, 7, 1000, (1, 2, 2, true)),
        (P, 1, 5, 1000, (1, 3, 2, true)),
        (R, 0, 9, 1000, (0, 0, 3, false)),
        (R, 2, 5, 1000, (0, 0, 0, false)),
        (Q, 1, 7, 1499, (1, 2, 2, true)),
        (Q, 1, 7, 1500, (0, 1, 1, false)),
        (P, 0, 5, 1599, (2, 3, 3, true)),
        (P, 0, 5, 1600, (1, 2, 2, false)),
        (Q, 0, 5, 1999, (1, 1, 1, true)),
        (Q, 0, 5, 2000, (0, 0, 0, false)),
    ];
    for (assessor, topic, doc, now, wanted) in cases {
        assert!(rt; told(desk, assessor, topic, doc, now) == wanted);
    }
    Ok(())
}

/// Ends the leases 3 and 2 of five.
fn end_two(alloc: Global, desk: &mut Desk) -> Result<[bool; 2], Fail> {
    grant_five(alloc, desk)?;
    let graded = end(desk, 3, LeaseEnd::Graded);
    Ok([graded, end(desk, 2, LeaseEnd::Released)])
}

#[test]
fn a_lease_with_an_end_is_not_live(rt: HostRuntime) -> Result<(), Fail> {
    let mut desk = Desk::new(rt.alloc());
    expect_ends(&rt, rt.alloc(), &mut desk)
}

fn expect_ends(rt: &impl Abort, alloc: Global, desk: &mut Desk) -> Result<(), Fail> {
    assert!(rt; end_two(alloc, desk)? == [true, true]);
    // it has an end, and there is no lease 6
    assert!(rt; !end(desk, 2, LeaseEnd::Graded) && !end(desk, 6, LeaseEnd::Graded));
    let cases = [
        (P, 0, 6, (0, 2, 1, false)),
        (Q, 0, 5, (1, 1, 1, false)),
        (P, 0, 5, (1, 2, 1, true)),
        (P, 1, 5, (1, 2, 2, true)),
    ];
    for (assessor, topic, doc, wanted) in cases {
        assert!(rt; told(desk, assessor, topic, doc, 1000) == wanted);
    }
    Ok(())
}

#[test]
fn leases_are_found_by_number(rt: HostRuntime) -> Result<(), Fail> {
    let mut desk = Desk::new(rt.alloc());
    expect_leases(&rt, rt.alloc(), &mut desk)
}

/// A lease: its number, its assessor's letter, its topic and document, its moment and its end.
type Row = (u32, u8, (u16, u32), u64, Option<LeaseEnd>);

fn row_of(desk: &Desk, number: u32) -> Option<Row> {
    let lease = desk.find(number)?;
    let letter = *lease.assessor.bytes().first()?;
    Some((
        lease.number,
        letter,
        (lease.topic, lease.doc.0),
        lease.until,
        lease.end,
    ))
}

fn expect_leases(rt: &impl Abort, alloc: Global, desk: &mut Desk) -> Result<(), Fail> {
    assert!(rt; end_two(alloc, desk)? == [true, true]);
    assert!(rt; desk.len() == 5);
    let rows = [
        None,
        Some((1, P, (0, 5), 1600, None)),
        Some((2, Q, (0, 5), 2000, Some(LeaseEnd::Released))),
        Some((3, P, (0, 6), 1800, Some(LeaseEnd::Graded))),
        Some((4, P, (1, 5), 1700, None)),
        Some((5, Q, (1, 7), 1500, None)),
        None,
    ];
    for (number, row) in rows.iter().enumerate() {
        assert!(rt; row_of(desk, number as u32) == *row);
    }
    Ok(())
}
