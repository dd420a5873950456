//! The tables of a bundle: the callers and the texts that its entries use, each once, in the order
//! of first use. A caller stands in its table as the bytes by which it is spelled, so that both are
//! names.
ghost use Rattle.std.specs.Prelude.{◌≡◌, ◌+◌, ◌<◌, ◌≤◌, ◌^◌, IfOk, IsTrue, List, OnOk, bytes_eq, length, map};
ghost use Rattle.std.specs.List.{list_all};
ghost use Rattle.rulebook.specs.declared.rules.Caller.{Caller};
ghost use Rattle.trec_formats.specs.Names.{is_name};
ghost use Rattle.record_codec.specs.Bundles.{caller_bytes, is_packable, most_bundled, texts_of};
ghost use Rattle.record_codec.specs.Tables.{callers_of, index_of, same_caller, with_use};

use crate::bundles::briefs::add_texts;
use crate::spelling::put_caller;
use decimal_rank::{Memory, Names, Text};
use rulebook::{Caller, EntryCore};
use std::alloc::Global;

/// The callers of the entries.
pub(crate) fn callers_in(alloc: Global, cores: &[EntryCore]) -> Result<Names, Memory>
    requires few { length cores.now ≤ most_bundled }
    requires packable { IsTrue (list_all is_packable cores.now) }
    ensures { IfOk result (λ callers. callers ≡ map caller_bytes (callers_of cores.now)) }
{
    let mut callers = Names::new(alloc);
    let mut spelled = Vec::new(alloc);
    for core in cores {
        spell(&core.caller, &mut spelled)?;
        add_use(&mut callers, alloc, spelled.as_slice())?;
    }
    Ok(callers)
}

/// The texts of the entries.
pub(crate) fn texts_in(alloc: Global, cores: &[EntryCore]) -> Result<Names, Memory>
    requires { length cores.now ≤ most_bundled }
    ensures { IfOk result (λ texts. texts ≡ texts_of cores.now) }
{
    let mut texts = Names::new(alloc);
    for core in cores {
        add_texts(&mut texts, alloc, &core.command)?;
    }
    Ok(texts)
}

/// The index of a caller, for whose bytes there is a buffer.
pub(crate) fn caller_index(
    callers: &Names,
    caller: &Caller,
    spelled: &mut Vec<u8>,
) -> Result<u64, Memory>
    requires { IsTrue (is_name caller.now.name) }
    ensures { (table : List Caller) → callers.now ≡ map caller_bytes table
        → IfOk result (λ index. index ≡ index_of same_caller table caller.now) }
{
    spell(caller, spelled)?;
    Ok(index(callers, spelled.as_slice()))
}

/// The index of bytes in a table, or its length where they aren't there.
pub(crate) fn index(table: &Names, bytes: &[u8]) -> u64
    ensures { result ≡ index_of bytes_eq table.now bytes.now }
{
    match table.find(bytes) {
        Some(place) => place.0 as u64,
        None => table.len() as u64,
    }
}

/// The bytes of a caller, alone in the buffer.
fn spell(caller: &Caller, spelled: &mut Vec<u8>) -> Result<(), Memory>
    requires { IsTrue (is_name caller.now.name) }
    ensures { OnOk result (spelled.new.items ≡ caller_bytes caller.now) }
{
    spelled.clear();
    put_caller(caller, spelled)
}

/// The bytes go last in the table, where they aren't there.
pub(crate) fn add_use(table: &mut Names, alloc: Global, bytes: &[u8]) -> Result<(), Memory>
    requires { length table.old + 1 < 2 ^ 32 }
    ensures { OnOk result (table.new ≡ with_use bytes_eq table.old bytes.now) }
{
    if table.find(bytes).is_some() {
        return Ok(());
    }
    table.add(Text::from_slice(alloc, bytes)?)?;
    Ok(())
}
