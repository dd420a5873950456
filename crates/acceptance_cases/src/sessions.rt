//! What a call has to come to: its status, what it prints, its answers, and what its disk holds.
ghost use Rattle.std.specs.Prelude.{◌≤◌, length};

use crate::archives::copies_of;
use crate::calls::{ALL, Ended, Part, called, checked, held_session};
use crate::marks::{bytes_of, cut, shown};
use crate::messages::Exchange;
use crate::outcomes::Outcome;
use crate::stages::{NONE, Stage, Unplayed};
use decimal_rank::Memory;
use std::alloc::Global;
use std::sync::Wait;
use std::thread::Threads;

/// What is written behind the answers to these messages; None where it doesn't begin with them.
pub(crate) fn behind<'x>(written: &'x [u8], exchanges: &[Exchange]) -> Option<&'x [u8]> {
    let mut rest = written;
    for exchange in exchanges {
        rest = rest.strip_prefix(exchange.answer.as_slice())?;
    }
    Some(rest)
}

/// Whether exactly the answers to these messages are written.
pub(crate) fn is_answered(written: &[u8], exchanges: &[Exchange]) -> bool {
    match behind(written, exchanges) {
        Some(rest) => rest.is_empty(),
        None => false,
    }
}

/// How many of the messages are answered as they have to be, up to the first that isn't.
pub(crate) fn answered_count(written: &[u8], exchanges: &[Exchange]) -> usize
    ensures { result ≤ length exchanges.now }
{
    for count in 0..exchanges.len() {
        if behind(written, &exchanges[..count + 1]).is_none() {
            return count;
        }
    }
    exchanges.len()
}

/// Calls the program, and tells where its status, what it prints or an answer is another one.
pub(crate) fn play_call<W: Threads + Wait + Sync + AllocGlobal>(
    rt: &W,
    stage: &mut Stage,
    words: &str,
    wanted: &str,
) -> Result<Outcome, Unplayed> {
    let ended = called(rt, words, stage, ALL, stage.fails)?;
    let outcome = compare(rt.alloc(), &ended, &stage.exchanges, wanted)?;
    let releases = copies_of(rt.alloc(), ended.kept())?;
    stage.go_on(ended.held(), releases)?;
    Ok(outcome)
}

fn compare(
    alloc: Global,
    ended: &Ended,
    exchanges: &[Exchange],
    wanted: &str,
) -> Result<Outcome, Unplayed> {
    if !is_ended_so(alloc, ended, wanted)? {
        return Ok(Outcome::Other(told(alloc, ended)?));
    }
    if !is_answered(ended.answered(), exchanges) {
        return Ok(Outcome::Other(told_answer(alloc, ended, exchanges)?));
    }
    Ok(Outcome::Right)
}

/// Whether a call ended with the status of these words, and printed their text. A star at its end
/// is any text.
pub(crate) fn is_ended_so(alloc: Global, ended: &Ended, wanted: &str) -> Result<bool, Memory> {
    let (status, text) = cut(wanted);
    if status.parse::<u8>().ok() != Some(ended.status) {
        return Ok(false);
    }
    match text.strip_suffix("*") {
        Some(start) => Ok(ended.printed().starts_with(&bytes_of(alloc, start)?)),
        None => Ok(ended.printed() == bytes_of(alloc, text)?.as_slice()),
    }
}

/// The status of a call and what it printed.
pub(crate) fn told(alloc: Global, ended: &Ended) -> Result<String, Memory> {
    let text = shown(alloc, ended.printed())?;
    let status = ended.status;
    Ok(format!(in alloc; "{status} {text}")?)
}

/// The first message that is answered otherwise, and what is written from there on.
fn told_answer(alloc: Global, ended: &Ended, exchanges: &[Exchange]) -> Result<String, Memory> {
    let count = answered_count(ended.answered(), exchanges);
    let rest = behind(ended.answered(), &exchanges[..count]).unwrap_or(&[]);
    let text = shown(alloc, rest)?;
    Ok(format!(in alloc; "message {}: {text}", count.saturating_add(1))?)
}

/// Whether `check` sees the same on both disks, and leaves the same on them.
pub(crate) fn is_held_alike<W: Threads + Wait + Sync + AllocGlobal>(
    rt: &W,
    stage: &Stage,
    one: &[u8],
    other: &[u8],
) -> Result<bool, Memory> {
    let one = checked(rt, stage, one)?;
    let other = checked(rt, stage, other)?;
    Ok(one.status == 0 && are_alike(&one, &other))
}

fn are_alike(one: &Ended, other: &Ended) -> bool {
    one.status == other.status && one.printed() == other.printed() && one.held() == other.held()
}

/// Whether a session's disk holds what a session of this part of its messages leaves.
pub(crate) fn holds<W: Threads + Wait + Sync + AllocGlobal>(
    rt: &W,
    stage: &Stage,
    held: &[u8],
    part: Part,
) -> Result<bool, Memory> {
    let other = held_session(rt, stage, part, NONE)?;
    is_held_alike(rt, stage, held, other.held())
}

/// Whether the disk holds these bytes. A star at their end is any bytes.
pub(crate) fn play_held(alloc: Global, stage: &Stage, text: &str) -> Result<Outcome, Unplayed> {
    let is_held = match text.strip_suffix("*") {
        Some(start) => stage.disk.starts_with(&bytes_of(alloc, start)?),
        None => stage.disk.as_slice() == bytes_of(alloc, text)?.as_slice(),
    };
    if is_held {
        return Ok(Outcome::Right);
    }
    Ok(Outcome::Other(shown(alloc, &stage.disk)?))
}
