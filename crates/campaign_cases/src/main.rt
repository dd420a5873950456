//! Plays cases of a campaign: requests at moments of their own, each with what it has to be told.
//! It reads them from standard input and prints each line that is told something else, or that each
//! case passes.
//!
//!     form lease POST /topics/$/lease
//!
//!     # a lease ends at its moment
//!     campaign 3 2 1
//!     org 1000 topics -> topics 1
//!     grp 1000 submit X abe -> submitted X 1 3
//!     org 1000 open -> done 1000
//!     p 1000 lease 1 -> leased 1 b 1600
//!     p 1600 grade 1 0 -> refused Expired { until: 1600 }
//!     entries -> 5
//!
//!     cases 1, lines 6
//!
//! The lines before all others are the forms of the verbs (`requests`).
//! `campaign` founds one of this depth, this hold, and so many labels that a document of the topic
//! 1 needs; a fourth number is a level of that topic's own. Its other rules stand in `founded_by`.
//! In a page `|` ends a line. A line that can't be played is told `?`. The last line of all says how
//! many cases and lines stand before it.
//!
//! - The cases and the verbs: `stdin`; `tests/courses` plays random cases, beside a plain walk over
//!   what happened.
//! - `campaigns`: the campaign of a case, and what it tells a line. `requests`: the request of a
//!   verb. `answers`: what a reply says.
#![tactic(auto)]

mod answers;
mod campaigns;
mod requests;

use campaign_core::State;
use campaigns::{answer, founded};
use requests::Door;
use std::io;
use std::process::ExitCode;

/// How many cases and lines were played, and how many of the lines are told something else.
#[derive(Drop)]
struct Counts {
    cases: u64,
    lines: u64,
    differing: u64,
}

/// Plays a line, and prints it where it isn't told what stands behind its arrow.
fn play(
    rt: &HostRuntime,
    door: &Door,
    state: &mut State,
    line: &str,
    counts: &mut Counts,
) -> io::Result<()> {
    let (words, wanted) = line.split_once(" ->").unwrap_or((line, ""));
    let told = answer(rt.alloc(), door, state, words);
    let told = told.as_ref().map_or("?", String::as_str);
    counts.lines = counts.lines.saturating_add(1);
    if told != wanted.trim_start() {
        counts.differing = counts.differing.saturating_add(1);
        println!(rt; "{words} -> {told}")?;
    }
    Ok(())
}

fn play_lines(
    rt: &HostRuntime,
    door: &Door,
    state: &mut State,
    lines: &str,
    counts: &mut Counts,
) -> io::Result<()> {
    for line in lines.lines() {
        if !line.is_empty() && !line.starts_with('#') {
            play(rt, door, state, line, counts)?;
        }
    }
    Ok(())
}

/// Plays the lines of a case in its campaign, which ends with them.
fn play_in(
    rt: &HostRuntime,
    door: &Door,
    mut state: State,
    lines: &str,
    counts: &mut Counts,
) -> io::Result<()> {
    counts.cases = counts.cases.saturating_add(1);
    play_lines(rt, door, &mut state, lines, counts)
}

/// Plays the lines of a case in a campaign of the rules that its first line tells.
fn play_case(rt: &HostRuntime, door: &Door, case: &str, counts: &mut Counts) -> io::Result<()> {
    let (rules, lines) = case.split_once('\n').unwrap_or((case, ""));
    let Some(state) = founded(rt.alloc(), rules) else {
        counts.differing = counts.differing.saturating_add(1);
        return Ok(println!(rt; "campaign {rules} -> ?")?);
    };
    play_in(rt, door, state, lines, counts)
}

/// Plays the cases of a text, and tells how they went.
fn play_all(rt: &HostRuntime, door: &Door, text: &str) -> io::Result<ExitCode> {
    let (text, counted) = text.split_once("\ncases ").unwrap_or((text, ""));
    let mut counts = Counts {
        cases: 0,
        lines: 0,
        differing: 0,
    };
    for case in text.split("\ncampaign ").skip(1) {
        play_case(rt, door, case, &mut counts)?;
    }
    tell_end(rt, counted.trim_end(), &counts)
}

/// Tells that each case passes, where there are as many as is said, one at least, and no line is
/// told something else.
fn tell_end(rt: &HostRuntime, counted: &str, counts: &Counts) -> io::Result<ExitCode> {
    let Counts {
        cases,
        lines,
        differing,
    } = *counts;
    let own = format!(in rt.alloc(); "{cases}, lines {lines}")?;
    if cases == 0 || own.as_str() != counted {
        println!(rt; "cases {counted} -> {own}")?;
        return Ok(ExitCode::from(1));
    }
    if differing == 0 {
        println!(rt; "each case passes")?;
    }
    Ok(ExitCode::from(u8::from(differing > 0)))
}

fn main(rt: HostRuntime) -> io::Result<ExitCode> {
    let text = io::read_to_string(rt.alloc(), rt.reader())?;
    let text = text.as_str();
    let (forms, _) = text.split_once("\ncampaign ").unwrap_or((text, ""));
    match Door::new(rt.alloc(), forms) {
        Some(door) => play_all(&rt, &door, text),
        None => Ok(ExitCode::from(7)),
    }
}
