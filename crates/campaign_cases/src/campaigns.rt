//! The campaign of a case, and what it tells a line.
ghost use Rattle.std.specs.Prelude.{◌≡◌, ◌==◌, ◌<◌, ◌≤◌, ◌∷◌, [], IfOk, Some, codes, if◌then◌else◌};

use crate::answers::words_of;
use crate::requests::{Asked, Door, ask_of, asked_of, cut};
use campaign_core::{Prepared, State, Verdict};
use decimal_rank::{Memory, Rows, Steps, Text};
use rulebook::{MAX_MOMENT, Reply, Rules, TopicLevel};
use std::alloc::Global;
use std::marker::Brand;
use std::sync::ledger::{Blank, Ledger};

/// A new campaign, by its depth, its hold, the labels that a document of the topic 1 needs, and the
/// level of that topic where it has its own.
pub(crate) fn founded(alloc: Global, words: &str) -> Option<State> {
    let (depth, rest) = cut(words);
    let (hold, rest) = cut(rest);
    let (labels, level) = cut(rest);
    let depth = depth.parse::<u16>().ok()?;
    let hold = hold.parse::<u8>().ok()?;
    let level = own_level(level)?;
    if depth < 1 || depth > 1000 || hold < 1 || hold > 50 || level > 3 {
        return None;
    }
    founded_by(alloc, depth, hold, labels == "2", level).ok()
}

/// The level of a word, and 0 where there is no word.
fn own_level(word: &str) -> Option<u8> {
    if word.is_empty() {
        return Some(0);
    }
    word.parse::<u8>().ok()
}

fn founded_by(
    alloc: Global,
    depth: u16,
    hold: u8,
    is_doubled: bool,
    level: u8,
) -> Result<State, Memory>
    requires low_depth { 1 ≤ depth }
    requires high_depth { depth ≤ 1000 }
    requires low_hold { 1 ≤ hold }
    requires high_hold { hold ≤ 50 }
    requires level { level ≤ 3 }
{
    let doubles = if is_doubled {
        first_topic(alloc)?
    } else {
        Rows::new(Vec::new(alloc))
    };
    let levels = levels_by(alloc, level)?;
    let rules = Rules {
        depth,
        term: 600,
        hold,
        level: 1,
        top_grade: 3,
        doubles,
        levels,
    };
    State::found(alloc, rules)
}

/// The topic 1 with this level, and none at 0.
fn levels_by(alloc: Global, level: u8) -> Result<Rows<TopicLevel>, Memory>
    ensures { IfOk result (λ levels. levels
        ≡ (if level == 0 then [] else record { topic = codes "1"; level = level } ∷ [])) }
{
    let mut levels = Vec::new(alloc);
    if level > 0 {
        let topic = Text::from_slice(alloc, b"1")?;
        levels.push(TopicLevel { topic, level })?;
    }
    Ok(Rows::new(levels))
}

/// The list of the topic 1.
fn first_topic(alloc: Global) -> Result<Rows<Text>, Memory>
    ensures { IfOk result (λ topics. topics ≡ (codes "1" ∷ [])) }
{
    let mut topics = Vec::new(alloc);
    topics.push(Text::from_slice(alloc, b"1")?)?;
    Ok(Rows::new(topics))
}

/// What a line is told. The campaign itself tells how many entries it has, its phase, and the runs
/// of its first topic in the judging order, each with its mean of precisions.
pub(crate) fn answer(alloc: Global, door: &Door, state: &mut State, words: &str) -> Option<String> {
    if words == "entries" {
        return entries(alloc, state);
    }
    if words == "phase" {
        return phase(alloc, state);
    }
    if words == "order" {
        return order(alloc, state);
    }
    told(alloc, door, state, &asked_of(words)?)
}

fn entries(alloc: Global, state: &State) -> Option<String> {
    let entries = state.entries();
    format!(in alloc; "{entries}").ok()
}

fn phase(alloc: Global, state: &State) -> Option<String> {
    let phase = state.phase();
    format!(in alloc; "{phase:?}").ok()
}

fn order(alloc: Global, state: &State) -> Option<String> {
    let mut words = String::new(alloc);
    if state.topics() > 0 {
        for run in state.queue(0).order() {
            let mean = state.board().summary(*run).map;
            let run = run.0;
            let line = format!(in alloc; "{run} {mean}|").ok()?;
            words.push_str(line.as_str()).ok()?;
        }
    }
    Some(words)
}

/// What a request is told. Its entry is committed or cancelled.
fn told(alloc: Global, door: &Door, state: &mut State, asked: &Asked) -> Option<String> {
    let (who, number, ask) = ask_of(alloc, door, asked)?;
    match state
        .prepare(&who, number, ask, asked.moment.min(MAX_MOMENT))
        .ok()?
    {
        Verdict::Told(reply) => words_of(alloc, &reply, 0),
        Verdict::Ready(prepared) => told_after(alloc, state, prepared, asked.is_kept),
    }
}

fn told_after(alloc: Global, state: &mut State, prepared: Prepared, is_kept: bool) -> Option<String>
    requires { state.old.prepared ≡ Some prepared }
{
    let moment = prepared.core().moment;
    if !is_kept {
        state.cancel(prepared);
        return format!(in alloc; "cancelled {moment}").ok();
    }
    let reply = committed::<Brand>(state, prepared, Blank::new(1));
    words_of(alloc, &reply, moment)
}

fn committed<L: Ledger>(state: &mut State, prepared: Prepared, blank: Blank) -> Reply
    requires prepared { state.old.prepared ≡ Some prepared }
    requires name { blank.name ≡ L.name }
    requires parts { blank.parts ≡ L.parts }
    requires some { 0 < L.parts }
{
    let mut steps = Steps::<L>::new(blank);
    state.commit(prepared, &mut steps)
}
