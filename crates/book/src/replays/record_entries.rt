//! Entries from records: each is read, answered by the rules at its own moment, and added where
//! they add that very entry.
ghost use Rattle.std.specs.Prelude.{◌≤◌, IfOk, IsTrue, length};
ghost use Rattle.rulebook.specs.Requests.Limits.{max_entry_bytes};
ghost use Rattle.rulebook.specs.Spelling.{entry_bytes, has_spelling};
ghost use Rattle.journal.specs.KeptRecords.{payloads as payloads_of};
ghost use Rattle.book.specs.Laws.{Laws};
ghost use Rattle.book.specs.Opening.Replays.{AreFit, Enters, EntersAll, EntersCores, EntersPayload};

use campaign_core::Replay;
use decimal_rank::Memory;
use record_codec::{CodecFault, read_payload};
use rulebook::{EntryCore, MAX_ENTRY_BYTES};
use std::alloc::Global;

/// Adds the entry of a core, where the rules accept one after those that are there. False is that
/// they accept none.
fn enter(replay: &mut Replay, core: EntryCore) -> Result<bool, Memory>
    requires laws { Laws }
    requires spelled { IsTrue (has_spelling core) }
    requires short { length (entry_bytes core) ≤ max_entry_bytes }
    ensures { IfOk result (λ entered. Enters replay.old core entered replay.new) }
{
    let _legal = replay.entries();
    if !core.command.is_givable(core.caller.role) {
        return Ok(false);
    }
    replay.enter(core)
}

/// Adds the entries of cores, one after another, up to one that the rules don't accept.
fn enter_cores(replay: &mut Replay, cores: Vec<EntryCore>) -> Result<bool, Memory>
    requires laws { Laws }
    requires fit { AreFit cores.items }
    ensures { IfOk result (λ entered. EntersCores replay.old cores.items entered replay.new) }
{
    for core in cores {
        match enter(replay, core) {
            Ok(true) => {}
            Ok(false) => return Ok(false),
            Err(Memory) => return Err(Memory),
        }
    }
    Ok(true)
}

/// Adds the entries that a payload spells, one or a bundle's. False is that it spells none, or that
/// the rules don't accept one of them: those before it were added.
pub(crate) fn enter_payload(
    alloc: Global,
    replay: &mut Replay,
    payload: &[u8],
) -> Result<bool, Memory>
    requires laws { Laws }
    ensures { IfOk result (λ entered. EntersPayload replay.old payload.now entered replay.new) }
{
    let _legal = replay.entries();
    let cores = match read_payload(alloc, payload) {
        Ok(cores) => cores,
        Err(CodecFault::NoEntry) => return Ok(false),
        Err(CodecFault::Memory) => return Err(Memory),
    };
    if payload.len() > MAX_ENTRY_BYTES as usize {
        return Ok(false);
    }
    enter_cores(replay, cores)
}

/// Adds the entries that payloads spell, each of which is freed then. False is that not all of them
/// can come about: those before the first that can't were added.
pub(crate) fn enter_each(
    alloc: Global,
    replay: &mut Replay,
    payloads: Vec<Vec<u8>>,
) -> Result<bool, Memory>
    requires laws { Laws }
    ensures { IfOk result
        (λ entered. EntersAll replay.old (payloads_of payloads.items) entered replay.new) }
{
    for payload in payloads {
        match enter_payload(alloc, replay, &payload) {
            Ok(true) => {}
            Ok(false) => return Ok(false),
            Err(Memory) => return Err(Memory),
        }
    }
    Ok(true)
}

/// The same, where the payloads stay.
pub(crate) fn enter_all(
    alloc: Global,
    replay: &mut Replay,
    payloads: &[Vec<u8>],
) -> Result<bool, Memory>
    requires laws { Laws }
    ensures { IfOk result
        (λ entered. EntersAll replay.old (payloads_of payloads.now) entered replay.new) }
{
    for place in 0..payloads.len() {
        match enter_payload(alloc, replay, &payloads[place]) {
            Ok(true) => {}
            Ok(false) => return Ok(false),
            Err(Memory) => return Err(Memory),
        }
    }
    Ok(true)
}
