//! The first entry of a campaign: made of its rules, and known among records.
ghost use Rattle.std.specs.Prelude.{◌≡◌, ◌∷◌, [], IfOk, IfSome, IsTrue, MatchOption, map, take};
ghost use Rattle.rulebook.specs.Histories.Legal.{founding};
ghost use Rattle.rulebook.specs.Spelling.{are_rules, entry_bytes};
ghost use Rattle.book.specs.Laws.{Laws};
ghost use Rattle.book.specs.Opening.Replays.{IsFoundingRecord, NeverBegins};

use campaign_core::{Replay, State};
use decimal_rank::{Memory, Rows, Text};
use journal::Frame;
use record_codec::{CodecFault, read_payload, write_entry};
use rulebook::{Rules, TopicLevel, founding_core, rules_founded};
use std::alloc::Global;

fn copy_of_names(alloc: Global, names: &[Text]) -> Result<Vec<Text>, Memory>
    ensures { IfOk result (λ copy. copy.items ≡ names.now) }
{
    let mut copies = Vec::with_capacity(alloc, names.len())?;
    for name in names {
        copies.push(name.copy()?)?;
    }
    Ok(copies)
}

fn copy_of_levels(alloc: Global, levels: &[TopicLevel]) -> Result<Vec<TopicLevel>, Memory>
    ensures { IfOk result (λ copy. copy.items ≡ levels.now) }
{
    let mut copies = Vec::with_capacity(alloc, levels.len())?;
    for own in levels {
        copies.push(TopicLevel {
            topic: own.topic.copy()?,
            level: own.level,
        })?;
    }
    Ok(copies)
}

fn copy_of_rules(alloc: Global, rules: &Rules) -> Result<Rules, Memory>
    ensures { IfOk result (λ copy. copy ≡ rules.now) }
{
    let doubles = Rows::new(copy_of_names(alloc, rules.doubles.items())?);
    let levels = Rows::new(copy_of_levels(alloc, rules.levels.items())?);
    Ok(Rules {
        depth: rules.depth,
        term: rules.term,
        hold: rules.hold,
        level: rules.level,
        top_grade: rules.top_grade,
        doubles,
        levels,
    })
}

/// The spelling of the first entry of a campaign of these rules.
pub(crate) fn founding_bytes(alloc: Global, rules: Rules) -> Result<Vec<u8>, Memory>
    requires { IsTrue (are_rules rules) }
    ensures { IfOk result (λ bytes. bytes.items ≡ entry_bytes (founding rules).core) }
{
    let core = founding_core(alloc, rules)?;
    let mut bytes = Vec::new(alloc);
    write_entry(&core, &mut bytes)?;
    Ok(bytes)
}

/// The record of the first entry of a campaign of these rules.
pub(crate) fn founding_frame(alloc: Global, rules: Rules) -> Result<Frame, Memory>
    requires laws { Laws }
    requires rules { IsTrue (are_rules rules) }
    ensures { IfOk result (λ frame. frame ≡ entry_bytes (founding rules).core) }
{
    let bytes = founding_bytes(alloc, rules)?;
    Frame::of(alloc, &bytes)
}

/// A new campaign of these rules, and the record of its first entry.
pub(crate) fn founded(alloc: Global, rules: Rules) -> Result<(State, Frame), Memory>
    requires laws { Laws }
    requires rules { IsTrue (are_rules rules) }
    ensures history { IfOk result (λ made. made.0.history ≡ founding rules ∷ []) }
    ensures frame { IfOk result (λ made. made.1 ≡ entry_bytes (founding rules).core) }
{
    let copy = copy_of_rules(alloc, &rules)?;
    let frame = founding_frame(alloc, copy)?;
    let state = State::found(alloc, rules)?;
    Ok((state, frame))
}

/// The campaign that a first record founds. None is that it founds none. A bundle never does.
pub(crate) fn begin(alloc: Global, first: &[u8]) -> Result<Option<Replay>, Memory>
    requires laws { Laws }
    ensures { IfOk result
        (λ begun. MatchOption begun (NeverBegins first.now) (IsFoundingRecord first.now)) }
{
    let mut cores = match read_payload(alloc, first) {
        Ok(cores) => cores,
        Err(CodecFault::NoEntry) => return Ok(None),
        Err(CodecFault::Memory) => return Err(Memory),
    };
    if cores.len() > 1 {
        return Ok(None);
    }
    let Some(core) = cores.pop() else {
        return Ok(None);
    };
    let Some(rules) = rules_founded(core) else {
        return Ok(None);
    };
    Ok(Some(Replay::found(alloc, rules)?))
}
