//! Plays cases of the whole program: calls of its top call over files, an output, a link, a disk
//! and an archive in memory, each with what it has to come to. It reads them from standard input
//! and prints each line that comes to something else, or that each case passes.
//!
//!     lines judging
//!     org POST /topics <top>|<num> 1|<title> pooling|</top>| -> 201 {"topics":1}|
//!     org POST /open -> 201 {"done":true}|
//!     campaign session -> 0
//!
//!     case a campaign is opened once
//!     begins judging
//!     org POST /open -> 409 {"phase":"judging","refusal":"wrong-phase"}|
//!     campaign session -> 0
//!     campaign check -> 0 entries 3|phase judging|
//!
//!     cases 1, lines 6
//!
//! The lines before all others begin each case, and `begins` stands for the lines of this name. The
//! last line says how many cases there are, and how many lines they play. Another line may be
//!
//!     org GET /table -> 200        a message of the link, and its answer (`messages`)
//!     file q.txt 1 0 A 1|          what the next calls find (`stages`)
//!     campaign session -> 0        a call by these words, its status and what it prints; all
//!                                  messages since the last call are given, each in a piece of
//!                                  its own, and have to be answered so (`sessions`)
//!     holds POOLJRNL*              what the disk holds now; a star is any bytes behind
//!     settings hold = 2 => .. ->   a `check` under other settings (`settings`)
//!     each read fails -> 23        a loop over the session of the messages, and how many turns it
//!                                  takes (`turns`)
//!     crash 8 -> write 1 2 1 2 1   what a crash leaves behind a call on the disk (`crashes`)
//!
//! In all texts bytes have marks (`marks`). What can't be played is told `?`.
#![tactic(auto)]

mod archives;
mod calls;
mod crashes;
mod marks;
mod messages;
mod outcomes;
mod sessions;
mod settings;
mod stages;
mod turns;

use crashes::play_crash;
use marks::cut;
use messages::is_request;
use outcomes::Outcome;
use sessions::{play_call, play_held};
use settings::play_settings;
use stages::{Stage, Unplayed};
use std::alloc::Global;
use std::io;
use std::process::ExitCode;
use std::sync::Wait;
use std::thread::Threads;
use turns::{kind_of, play_turns};

/// How many cases and lines were played, and how many of the lines came to something else.
#[derive(Drop)]
struct Counts {
    cases: u64,
    lines: u64,
    differing: u64,
}

/// What a line comes to: its words, and what is wanted behind the arrow, if there is one.
fn play_words<W: Threads + Wait + Sync + AllocGlobal>(
    rt: &W,
    stage: &mut Stage,
    words: &str,
    wanted: Option<&str>,
) -> Result<Outcome, Unplayed> {
    let (verb, rest) = cut(words);
    let told = wanted.unwrap_or("");
    if verb == "campaign" {
        return play_call(rt, stage, rest, told);
    }
    if verb == "settings" {
        return play_settings(rt, stage, rest, told);
    }
    if verb == "crash" {
        return play_crash(rt, stage, rest, told);
    }
    if verb == "each" {
        return play_turns(rt, stage, kind_of(rest).ok_or(Unplayed)?, told);
    }
    if verb == "holds" {
        return play_held(rt.alloc(), stage, rest);
    }
    set(rt.alloc(), stage, words, wanted)?;
    Ok(Outcome::Right)
}

/// A line that is played later: a message, or what the next call finds.
fn set(
    alloc: Global,
    stage: &mut Stage,
    words: &str,
    wanted: Option<&str>,
) -> Result<(), Unplayed> {
    if is_request(words) {
        return stage.exchange(alloc, words, wanted.unwrap_or(""));
    }
    let (verb, rest) = cut(words);
    if verb != "raw" {
        return stage.set(alloc, words);
    }
    match wanted {
        Some(answer) => stage.end_raw(alloc, rest, answer),
        None => stage.begin_raw(alloc, rest),
    }
}

/// The words of a line, and what is wanted behind its arrow.
fn parts_of(line: &str) -> (&str, Option<&str>) {
    match line.split_once(" ->") {
        Some((words, wanted)) => (words, Some(wanted.trim_start())),
        None => (line, None),
    }
}

/// Plays a line, and prints it where it comes to something else.
fn play<W: Threads + Wait + Sync + AllocGlobal + Print>(
    rt: &W,
    case: &str,
    stage: &mut Stage,
    line: &str,
    counts: &mut Counts,
) -> io::Result<()> {
    let (words, wanted) = parts_of(line);
    counts.lines = counts.lines.saturating_add(1);
    match &play_words(rt, stage, words, wanted) {
        Ok(Outcome::Right) => Ok(()),
        Ok(Outcome::Other(told)) => tell_other(rt, case, words, told.as_str(), counts),
        Err(Unplayed) => tell_other(rt, case, words, "?", counts),
    }
}

fn tell_other(
    rt: &impl Print,
    case: &str,
    words: &str,
    told: &str,
    counts: &mut Counts,
) -> io::Result<()> {
    counts.differing = counts.differing.saturating_add(1);
    println!(rt; "{case}: {words} -> {told}")
}

fn play_lines<W: Threads + Wait + Sync + AllocGlobal + Print>(
    rt: &W,
    case: &str,
    stage: &mut Stage,
    lines: &str,
    counts: &mut Counts,
) -> io::Result<()> {
    for line in lines.lines() {
        if !line.is_empty() && !line.starts_with('#') {
            play(rt, case, stage, line, counts)?;
        }
    }
    Ok(())
}

/// The lines of this name; none where there are no such.
fn lines_of<'x>(text: &'x str, name: &str) -> &'x str {
    for block in text.split("\nlines ").skip(1) {
        let (title, lines) = block.split_once('\n').unwrap_or((block, ""));
        if title == name {
            return before_cases(lines);
        }
    }
    ""
}

fn before_cases(text: &str) -> &str {
    text.split_once("\ncase ").unwrap_or((text, "")).0
}

/// Plays the lines of a case, some of which stand for others.
fn play_case_lines<W: Threads + Wait + Sync + AllocGlobal + Print>(
    rt: &W,
    text: &str,
    case: &str,
    stage: &mut Stage,
    counts: &mut Counts,
) -> io::Result<()> {
    let (name, lines) = case.split_once('\n').unwrap_or((case, ""));
    for line in lines.lines() {
        match line.strip_prefix("begins ") {
            Some(begun) => play_lines(rt, name, stage, lines_of(text, begun), counts)?,
            None => play_lines(rt, name, stage, line, counts)?,
        }
    }
    Ok(())
}

/// Plays a case on a stage of its own, all of whose messages have to be given in the end.
fn play_case<W: Threads + Wait + Sync + AllocGlobal + Print>(
    rt: &W,
    text: &str,
    case: &str,
    counts: &mut Counts,
) -> io::Result<()> {
    let (name, _) = case.split_once('\n').unwrap_or((case, ""));
    let mut stage = Stage::new(rt.alloc());
    counts.cases = counts.cases.saturating_add(1);
    play_lines(rt, name, &mut stage, head_of(text), counts)?;
    play_case_lines(rt, text, case, &mut stage, counts)?;
    if stage.exchanges.is_empty() {
        return Ok(());
    }
    tell_other(
        rt,
        name,
        "its end",
        "messages that no call was given",
        counts,
    )
}

/// The lines before all others.
fn head_of(text: &str) -> &str {
    text.split_once("\nlines ").unwrap_or((text, "")).0
}

fn main(rt: HostRuntime) -> io::Result<ExitCode> {
    let text = io::read_to_string(rt.alloc(), rt.reader())?;
    let text = text.as_str();
    let (text, counted) = text.split_once("\ncases ").unwrap_or((text, ""));
    let mut counts = Counts {
        cases: 0,
        lines: 0,
        differing: 0,
    };
    for case in text.split("\ncase ").skip(1) {
        play_case(&rt, text, case, &mut counts)?;
    }
    tell_end(&rt, counted.trim_end(), &counts)
}

/// Tells that each case passes, where there are as many as is said, one at least, and no line comes
/// to something else.
fn tell_end<W: AllocGlobal + Print>(
    rt: &W,
    counted: &str,
    counts: &Counts,
) -> io::Result<ExitCode> {
    let Counts {
        cases,
        lines,
        differing,
    } = *counts;
    let own = format!(in rt.alloc(); "{cases}, lines {lines}")?;
    if cases == 0 || own.as_str() != counted {
        println!(rt; "cases {counted} -> {own}")?;
        return Ok(ExitCode::from(1));
    }
    if differing == 0 {
        println!(rt; "each case passes")?;
    }
    Ok(ExitCode::from(u8::from(differing > 0)))
}
