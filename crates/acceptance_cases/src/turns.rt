//! A session in which each call fails in turn, until none does: a read or a write of its link, or a
//! call on its disk; or whose text is cut at each byte. And a compaction in which each call on its
//! disk fails in turn. What has to hold is said at the function of each kind.
//!
//!     each read fails -> 23
//!
//! Behind the arrow stands how many turns there are.
use crate::calls::{ALL, Ended, Part, called, checked, cut_session, held_session};
use crate::outcomes::Outcome;
use crate::sessions::{answered_count, behind, holds, is_answered, is_held_alike};
use crate::stages::{Fails, NONE, Stage, Unplayed};
use decimal_rank::Memory;
use std::alloc::Global;
use std::sync::Wait;
use std::thread::Threads;

/// More turns than any session here has.
const MOST_TURNS: usize = 10_000;

/// The answer to a command that a fault of the disk kept out.
const FAULT: &[u8] =
    b"HTTP/1.1 503 Service Unavailable\r\nContent-Type: application/json\r\nContent-Length: 17\r\n\r\n{\"fault\":\"disk\"}\n";

const ACCEPTED: &[u8] = b"HTTP/1.1 201 ";

/// What is done at each place in turn.
#[derive(Clone, Copy)]
pub(crate) enum Kind {
    Read,
    Write,
    DiskCall,
    CompactionCall,
    Cut,
}

/// What a turn came to.
#[derive(Clone, Copy)]
enum Turn {
    /// No call failed, or there is no such place, and all is as it has to be.
    Over,
    Holds,
    /// It holds, and the call failed while the disk was opened.
    HoldsUnopened,
    /// It holds, and the journal has the command that was answered by a fault.
    HoldsMore,
    Breaks,
}

/// How many turns came to what.
#[derive(Drop)]
struct Tally {
    turns: usize,
    unopened: usize,
    more: usize,
}

impl Tally {
    fn note(&mut self, turn: Turn) {
        self.turns = self.turns.saturating_add(1);
        match turn {
            Turn::HoldsUnopened => self.unopened = self.unopened.saturating_add(1),
            Turn::HoldsMore => self.more = self.more.saturating_add(1),
            Turn::Over | Turn::Holds | Turn::Breaks => {}
        }
    }
}

/// The kind that these words name.
pub(crate) fn kind_of(words: &str) -> Option<Kind> {
    if words == "read fails" {
        return Some(Kind::Read);
    }
    if words == "write fails" {
        return Some(Kind::Write);
    }
    if words == "disk call fails" {
        return Some(Kind::DiskCall);
    }
    if words == "disk call of a compaction fails" {
        return Some(Kind::CompactionCall);
    }
    if words == "cut" {
        return Some(Kind::Cut);
    }
    None
}

/// Takes each turn of a kind, and tells their count where another one is wanted.
pub(crate) fn play_turns<W: Threads + Wait + Sync + AllocGlobal>(
    rt: &W,
    stage: &Stage,
    kind: Kind,
    wanted: &str,
) -> Result<Outcome, Unplayed> {
    let alloc = rt.alloc();
    let mut tally = Tally {
        turns: 0,
        unopened: 0,
        more: 0,
    };
    for place in 1..MOST_TURNS {
        match take_turn(rt, stage, kind, place)? {
            Turn::Over => return Ok(Outcome::of(counted(alloc, &tally)?, wanted)),
            Turn::Breaks => return Ok(Outcome::Other(format!(in alloc; "breaks at {place}")?)),
            turn => tally.note(turn),
        }
    }
    Err(Unplayed)
}

fn counted(alloc: Global, tally: &Tally) -> Result<String, Memory> {
    let Tally {
        turns,
        unopened,
        more,
    } = *tally;
    if unopened == 0 {
        return Ok(format!(in alloc; "{turns}")?);
    }
    Ok(format!(in alloc;
        "{turns}, of which {unopened} in opening; behind {more} the journal has the command that failed"
    )?)
}

fn take_turn<W: Threads + Wait + Sync + AllocGlobal>(
    rt: &W,
    stage: &Stage,
    kind: Kind,
    place: usize,
) -> Result<Turn, Memory> {
    match kind {
        Kind::Read => fail_read(rt, stage, place),
        Kind::Write => fail_write(rt, stage, place),
        Kind::DiskCall => fail_disk_call(rt, stage, place),
        Kind::CompactionCall => fail_compaction(rt, stage, place),
        Kind::Cut => cut_at(rt, stage, place),
    }
}

fn turn_if(holds: bool, turn: Turn) -> Turn {
    if holds { turn } else { Turn::Breaks }
}

fn first(count: usize) -> Part {
    Part {
        count,
        without: usize::MAX,
    }
}

/// Whether a session ended well, with each answer as it has to be.
fn is_whole(ended: &Ended, stage: &Stage) -> bool {
    ended.status == 0 && is_answered(ended.answered(), &stage.exchanges)
}

/// Exactly these first messages are answered.
fn are_first_answered(ended: &Ended, stage: &Stage, count: usize) -> bool {
    count <= stage.exchanges.len() && is_answered(ended.answered(), &stage.exchanges[..count])
}

/// A read gives one message. Those before the one that fails are answered and kept, and the status
/// is 10. The last read finds the end.
fn fail_read<W: Threads + Wait + Sync + AllocGlobal>(
    rt: &W,
    stage: &Stage,
    place: usize,
) -> Result<Turn, Memory> {
    let fails = Fails {
        read: place as u64,
        ..NONE
    };
    let ended = held_session(rt, stage, ALL, fails)?;
    let before = place.saturating_sub(1);
    if before > stage.exchanges.len() {
        return Ok(turn_if(is_whole(&ended, stage), Turn::Over));
    }
    if ended.status != 10 || !are_first_answered(&ended, stage, before) {
        return Ok(Turn::Breaks);
    }
    Ok(turn_if(holds(rt, stage, ended.held(), first(before))?, Turn::Holds))
}

/// An answer is one write. Those before the one that fails are written, its own message is kept
/// too, and the status is 8.
fn fail_write<W: Threads + Wait + Sync + AllocGlobal>(
    rt: &W,
    stage: &Stage,
    place: usize,
) -> Result<Turn, Memory> {
    let fails = Fails {
        write: place as u64,
        ..NONE
    };
    let ended = held_session(rt, stage, ALL, fails)?;
    if place > stage.exchanges.len() {
        return Ok(turn_if(is_whole(&ended, stage), Turn::Over));
    }
    if ended.status != 8 || !are_first_answered(&ended, stage, place.saturating_sub(1)) {
        return Ok(Turn::Breaks);
    }
    Ok(turn_if(holds(rt, stage, ended.held(), first(place))?, Turn::Holds))
}

/// In opening the status is 5, nothing is answered, and the campaign is as it was. Else the status
/// is 0.
fn fail_disk_call<W: Threads + Wait + Sync + AllocGlobal>(
    rt: &W,
    stage: &Stage,
    place: usize,
) -> Result<Turn, Memory> {
    let fails = Fails {
        disk: place as u64,
        ..NONE
    };
    let ended = held_session(rt, stage, ALL, fails)?;
    if ended.disk_faults() == 0 {
        return Ok(turn_if(is_whole(&ended, stage), Turn::Over));
    }
    match ended.status {
        0 => fail_command(rt, stage, &ended),
        5 if ended.answered().is_empty() => Ok(turn_if(
            holds(rt, stage, ended.held(), first(0))?,
            Turn::HoldsUnopened,
        )),
        _ => Ok(Turn::Breaks),
    }
}

/// The status is 5, and the campaign is as it was.
fn fail_compaction<W: Threads + Wait + Sync + AllocGlobal>(
    rt: &W,
    stage: &Stage,
    place: usize,
) -> Result<Turn, Memory> {
    let fails = Fails {
        disk: place as u64,
        ..NONE
    };
    let ended = called(rt, "compact", stage, first(0), fails)?;
    if ended.disk_faults() == 0 {
        return Ok(turn_if(ended.status == 0, Turn::Over));
    }
    let before = checked(rt, stage, &stage.disk)?;
    let after = checked(rt, stage, ended.held())?;
    let same = after.status == 0 && after.printed() == before.printed();
    Ok(turn_if(ended.status == 5 && same, Turn::Holds))
}

/// One message, which is accepted otherwise, is answered by a fault; all other answers are those of
/// the session without it. The journal is that session's too; or it has the command at its end,
/// where none was accepted since.
fn fail_command<W: Threads + Wait + Sync + AllocGlobal>(
    rt: &W,
    stage: &Stage,
    ended: &Ended,
) -> Result<Turn, Memory> {
    let place = answered_count(ended.answered(), &stage.exchanges);
    let part = Part {
        count: usize::MAX,
        without: place,
    };
    let other = held_session(rt, stage, part, NONE)?;
    let Some(later) = later_answers(ended, &other, stage, place) else {
        return Ok(Turn::Breaks);
    };
    if is_held_alike(rt, stage, ended.held(), other.held())? {
        return Ok(Turn::Holds);
    }
    if has_accepted(later) {
        return Ok(Turn::Breaks);
    }
    let part = first(place.saturating_add(1));
    Ok(turn_if(holds(rt, stage, ended.held(), part)?, Turn::HoldsMore))
}

/// The answers behind the fault that answers this message, where they are those of the session
/// without it.
fn later_answers<'x>(
    ended: &'x Ended,
    other: &Ended,
    stage: &Stage,
    place: usize,
) -> Option<&'x [u8]> {
    if !stage.exchanges.get(place)?.answer.starts_with(ACCEPTED) {
        return None;
    }
    let before = stage.exchanges.get(..place)?;
    let later = behind(ended.answered(), before)?.strip_prefix(FAULT)?;
    if other.status == 0 && behind(other.answered(), before)? == later {
        Some(later)
    } else {
        None
    }
}

/// Whether a command was accepted, by the answers.
fn has_accepted(answers: &[u8]) -> bool {
    for place in 0..answers.len() {
        if answers[place..].starts_with(ACCEPTED) {
            return true;
        }
    }
    false
}

/// The text of all messages comes in two pieces, and the session is as it has to be.
fn cut_at<W: Threads + Wait + Sync + AllocGlobal>(
    rt: &W,
    stage: &Stage,
    place: usize,
) -> Result<Turn, Memory> {
    let mut text = Vec::new(rt.alloc());
    for exchange in &stage.exchanges {
        text.extend_from_slice(&exchange.message)?;
    }
    if place >= text.len() {
        return Ok(Turn::Over);
    }
    let ended = cut_session(rt, stage, &text, place)?;
    Ok(turn_if(is_whole(&ended, stage), Turn::Holds))
}
