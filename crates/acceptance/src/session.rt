//! `session` through the top call, where a link or a body is none that a line of a case could tell.
use crate::calls::session_over;
use crate::links::{NO_FAULTS, link_of, no_answers, waiting_link};
use std::alloc::Global;
use std::sync::Wait;
use std::test::Fail;
use std::thread::Threads;

/// Each session begins with this request.
pub(crate) const TOPICS: &[u8] =
    b"POST /topics HTTP/1.1\r\nX-Campaign-Key: ORGANISERORGAN01\r\nContent-Length: 37\r\n\r\n<top>\n<num> 1\n<title> pooling\n</top>\n";

pub(crate) const TOPICS_TAKEN: &[u8] =
    b"HTTP/1.1 201 Created\r\nContent-Type: application/json\r\nContent-Length: 13\r\n\r\n{\"topics\":1}\n";

pub(crate) const SUBMIT: &[u8] =
    b"POST /runs/X HTTP/1.1\r\nX-Campaign-Key: GROUPGROUPGROUP1\r\nContent-Length: 39\r\n\r\n1 Q0 a 1 3 X\n1 Q0 b 2 2 X\n1 Q0 e 3 1 X\n";

pub(crate) const SUBMITTED: &[u8] =
    b"HTTP/1.1 201 Created\r\nContent-Type: application/json\r\nContent-Length: 33\r\n\r\n{\"lines\":3,\"run\":\"X\",\"topics\":1}\n";

pub(crate) const POOL: &[u8] =
    b"GET /topics/1/pool HTTP/1.1\r\nX-Campaign-Key: ORGANISERORGAN01\r\nContent-Length: 0\r\n\r\n";

pub(crate) const POOL_SHOWN: &[u8] =
    b"HTTP/1.1 200 OK\r\nContent-Type: application/json\r\nContent-Length: 35\r\n\r\n{\"docs\":[\"a\",\"b\",\"e\"],\"topic\":\"1\"}\n";

const RUN: &[u8] = b"1 Q0 a 1 3 X\n1 Q0 b 2 2 X\n1 Q0 e 3 1 X\n";

const LONGEST: &[u8] =
    b"POST /runs/X HTTP/1.1\r\nX-Campaign-Key: GROUPGROUPGROUP1\r\nContent-Length: 16777216\r\n\r\n";

const TOO_LONG: &[u8] =
    b"POST /runs/X HTTP/1.1\r\nX-Campaign-Key: GROUPGROUPGROUP1\r\nContent-Length: 16777217\r\n\r\n";

const TOO_LONG_TOLD: &[u8] =
    b"HTTP/1.1 413 Content Too Large\r\nContent-Type: application/json\r\nContent-Length: 17\r\nConnection: close\r\n\r\n{\"fault\":\"body\"}\n";

/// The most bytes of a body.
const MOST_BODY: usize = 16_777_216;

/// One text and another behind it.
pub(crate) fn both(alloc: Global, first: &[u8], second: &[u8]) -> Result<Vec<u8>, Fail> {
    let mut text = Vec::from_slice(alloc, first)?;
    text.extend_from_slice(second)?;
    Ok(text)
}

/// Whether a session of the topics and these two pieces ends with this status and gives this answer
/// to them.
fn answers<W: Threads + Wait + Sync + AllocGlobal>(
    rt: &W,
    first: &[u8],
    second: &[u8],
    status: u8,
    answer: &[u8],
) -> Result<bool, Fail> {
    let alloc = rt.alloc();
    let first = both(alloc, TOPICS, first)?;
    let mut link = link_of(alloc, &first, second, NO_FAULTS)?;
    let (ended, out) = session_over(rt, &mut link)?;
    Ok(
        ended == status
            && out.written().is_empty()
            && link.written().strip_prefix(TOPICS_TAKEN) == Some(answer),
    )
}

/// Whether the longest body is taken, and one byte more is not.
fn takes_the_longest<W: Threads + Wait + Sync + AllocGlobal>(rt: &W) -> Result<bool, Fail> {
    let mut body = Vec::from_slice(rt.alloc(), RUN)?;
    body.resize(MOST_BODY, b' ')?;
    Ok(answers(rt, LONGEST, &body, 0, SUBMITTED)? && answers(rt, TOO_LONG, b"", 11, TOO_LONG_TOLD)?)
}

#[test]
fn the_longest_body_is_taken(rt: HostRuntime) -> Result<(), Fail> {
    assert!(rt; takes_the_longest(&rt)?);
    Ok(())
}

/// The status of a session over a link that waits for its own answer.
fn status_of_waiting<W: Threads + Wait + Sync + AllocGlobal>(rt: &W) -> Result<u8, Fail> {
    let answers = no_answers(rt.alloc())?;
    let mut link = waiting_link(rt.alloc(), TOPICS, POOL, &answers, &answers, 1)?;
    let (status, _) = session_over(rt, &mut link)?;
    Ok(status)
}

#[test]
fn an_answer_is_written_before_more_is_read(rt: HostRuntime) -> Result<(), Fail> {
    assert!(rt; status_of_waiting(&rt)? == 0);
    Ok(())
}
