//! Commands, by their kinds.
ghost use Rattle.std.specs.Prelude.{◌≡◌, ◌&&◌, ◌^◌};
ghost use Rattle.std.specs.Int.{w32};
ghost use Rattle.record_codec.specs.Outcomes.{GivesRead, GivesReadBy};
ghost use Rattle.record_codec.specs.Readings.{amend_of, are_in_range, command_read, grade_of_parts, graded_doc_read, graded_lease_read, leveled_read, levels_in_range, name_read, number_read, rule_of, rules_read, run_read, settings_read, submit_of, topics_read, value_by};

use crate::cursor::Cursor;
use crate::entries::fields::{docno, name};
use crate::entries::lists::{campaign_topics, doubles, run_lists, topic_levels};
use crate::faults::CodecFault;
use crate::layout::{
    AMEND, FOUND, FOUND_WITH_LEVELS, GRADE, LEASE, OPEN, PUBLISH, RELEASE, RULE, SUBMIT, TOPICS,
    WITHDRAW,
};
use decimal_rank::{Rows, Text};
use rulebook::{Command, MAX_DEPTH, MAX_HOLD, MAX_TERM, Rules};
use std::alloc::Global;

/// The rules as they stand, whatever their numbers.
#[tactic(auto, unfolding(crate::specs::Readings::settings_read))]
fn settings(alloc: Global, left: &mut Cursor) -> Result<Rules, CodecFault>
    ensures { GivesRead result left.new.bytes.now (settings_read left.old.bytes.now) }
{
    let depth = left.number16()?;
    let term = left.number64()?;
    let hold = left.byte()?;
    let level = left.byte()?;
    let top_grade = left.byte()?;
    let doubles = doubles(alloc, left)?;
    Ok(Rules {
        depth,
        term,
        hold,
        level,
        top_grade,
        doubles,
        levels: Rows::new(Vec::new(alloc)),
    })
}

/// Whether the numbers of rules are in their ranges.
fn are_in_range(rules: &Rules) -> bool
    ensures { result ≡ are_in_range rules.now }
{
    1 <= rules.depth
        && rules.depth <= MAX_DEPTH
        && 1 <= rules.term
        && rules.term <= MAX_TERM
        && 1 <= rules.hold
        && rules.hold <= MAX_HOLD
        && 1 <= rules.top_grade
        && 1 <= rules.level
        && rules.level <= rules.top_grade
}

#[tactic(auto, unfolding(crate::specs::Readings::rules_read))]
fn found(alloc: Global, left: &mut Cursor) -> Result<Rules, CodecFault>
    ensures { GivesRead result left.new.bytes.now (rules_read left.old.bytes.now) }
{
    let rules = settings(alloc, left)?;
    if !are_in_range(&rules) {
        return Err(CodecFault::NoEntry);
    }
    Ok(rules)
}

fn levels_in_range(rules: &Rules) -> bool
    ensures { result ≡ levels_in_range rules.now }
{
    let top = rules.top_grade;
    rules
        .levels
        .items()
        .iter()
        .all(|own| 1 <= own.level && own.level <= top)
}

/// The rules, and behind them levels of topics.
#[tactic(auto, unfolding(crate::specs::Readings::leveled_read))]
fn found_with_levels(alloc: Global, left: &mut Cursor) -> Result<Rules, CodecFault>
    ensures { GivesRead result left.new.bytes.now (leveled_read left.old.bytes.now) }
{
    let mut rules = found(alloc, left)?;
    rules.levels = topic_levels(alloc, left)?;
    if !levels_in_range(&rules) {
        return Err(CodecFault::NoEntry);
    }
    Ok(rules)
}

#[tactic(auto, unfolding(crate::specs::Readings::run_read))]
fn submit(alloc: Global, left: &mut Cursor) -> Result<Command, CodecFault>
    ensures { GivesRead result left.new.bytes.now
        (value_by submit_of (run_read left.old.bytes.now)) }
{
    let run = name(alloc, left)?;
    let lists = run_lists(alloc, left)?;
    Ok(Command::Submit { run, lists })
}

#[tactic(auto, unfolding(crate::specs::Readings::graded_lease_read))]
fn grade(left: &mut Cursor) -> Result<Command, CodecFault>
    ensures { GivesRead result left.new.bytes.now
        (value_by grade_of_parts (graded_lease_read left.old.bytes.now)) }
{
    let lease = left.number32()?;
    let grade = left.byte()?;
    Ok(Command::Grade { lease, grade })
}

/// A topic, a document and its grade.
#[tactic(auto, unfolding(crate::specs::Readings::graded_doc_read))]
fn graded_doc(alloc: Global, left: &mut Cursor) -> Result<(Text, Text, u8), CodecFault>
    ensures { GivesReadBy (λ graded. (graded.0, (graded.1, graded.2))) result left.new.bytes.now
        (graded_doc_read left.old.bytes.now) }
{
    let topic = name(alloc, left)?;
    let doc = docno(alloc, left)?;
    let grade = left.byte()?;
    Ok((topic, doc, grade))
}

fn amend(alloc: Global, left: &mut Cursor) -> Result<Command, CodecFault>
    ensures { GivesRead result left.new.bytes.now
        (value_by amend_of (graded_doc_read left.old.bytes.now)) }
{
    let (topic, doc, grade) = graded_doc(alloc, left)?;
    Ok(Command::Amend { topic, doc, grade })
}

fn rule(alloc: Global, left: &mut Cursor) -> Result<Command, CodecFault>
    ensures { GivesRead result left.new.bytes.now
        (value_by rule_of (graded_doc_read left.old.bytes.now)) }
{
    let (topic, doc, grade) = graded_doc(alloc, left)?;
    Ok(Command::Rule { topic, doc, grade })
}

/// The kind of a command, and its fields.
#[tactic(auto, unfolding(crate::specs::Readings::command_read, crate::specs::Readings::command_of))]
pub(crate) fn command(alloc: Global, left: &mut Cursor) -> Result<Command, CodecFault>
    ensures { GivesRead result left.new.bytes.now (command_read left.old.bytes.now) }
{
    match left.byte()? {
        FOUND => Ok(Command::Found {
            rules: found(alloc, left)?,
        }),
        TOPICS => Ok(Command::Topics {
            topics: campaign_topics(alloc, left)?,
        }),
        SUBMIT => submit(alloc, left),
        OPEN => Ok(Command::Open),
        LEASE => Ok(Command::Lease {
            topic: name(alloc, left)?,
        }),
        GRADE => grade(left),
        RELEASE => Ok(Command::Release {
            lease: left.number32()?,
        }),
        AMEND => amend(alloc, left),
        RULE => rule(alloc, left),
        WITHDRAW => Ok(Command::Withdraw {
            run: name(alloc, left)?,
        }),
        PUBLISH => Ok(Command::Publish),
        FOUND_WITH_LEVELS => Ok(Command::Found {
            rules: found_with_levels(alloc, left)?,
        }),
        _ => Err(CodecFault::NoEntry),
    }
}
