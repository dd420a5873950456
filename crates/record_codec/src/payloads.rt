//! Payloads from bytes: the one entry, or the entries of a bundle. A bundle is read loosely, and
//! its entries are written again: bytes that differ from these are no bundle.
ghost use Rattle.std.specs.Prelude.{◌≡◌, IfErr, IfOk, List};
ghost use Rattle.rulebook.specs.declared.entry.EntryCore.{EntryCore};
ghost use Rattle.std.specs.Option.{option_map};
ghost use Rattle.record_codec.specs.BundleGrammar.{alone, bundle_of, payload_of};
ghost use Rattle.record_codec.specs.Readings.{entry_of};
ghost use Rattle.record_codec.specs.Outcomes.{FindsWholeBy, OnNoEntry};
ghost use Rattle.record_codec.specs.Payloads.{IsPayload};

use crate::bundles::bundle_reading::loose_entries;
use crate::bundles::packing::can_pack;
use crate::bundles::write_bundle;
use crate::cursor::Cursor;
use crate::entries::whole_entry;
use crate::faults::CodecFault;
use rulebook::EntryCore;
use std::alloc::Global;

#[tactic(auto, unfolding(crate::specs::BundleGrammar::bundle_of))]
fn bundle(alloc: Global, bytes: &[u8]) -> Result<Vec<EntryCore>, CodecFault>
    ensures { FindsWholeBy (λ cores. cores.items) result (bundle_of bytes.now) }
{
    let cores = loose_entries(alloc, bytes)?;
    if !can_pack(&cores) {
        return Err(CodecFault::NoEntry);
    }
    let mut again = Vec::with_capacity(alloc, bytes.len())?;
    write_bundle(&cores, &mut again)?;
    if again.as_slice() != bytes {
        return Err(CodecFault::NoEntry);
    }
    Ok(cores)
}

/// The entry that is all of the bytes, alone.
fn lone_entry(alloc: Global, bytes: &[u8]) -> Result<Vec<EntryCore>, CodecFault>
    ensures { FindsWholeBy (λ cores. cores.items) result (option_map alone (entry_of bytes.now)) }
{
    let mut cores = Vec::with_capacity(alloc, 1)?;
    cores.push(whole_entry(alloc, bytes)?)?;
    Ok(cores)
}

#[tactic(auto, unfolding(crate::specs::BundleGrammar::payload_of))]
fn payload(alloc: Global, bytes: &[u8]) -> Result<Vec<EntryCore>, CodecFault>
    ensures { FindsWholeBy (λ cores. cores.items) result (payload_of bytes.now) }
{
    // a spelling never begins with 0
    if Cursor::new(bytes).byte()? == 0 {
        return bundle(alloc, bytes);
    }
    lone_entry(alloc, bytes)
}

/// The entries whose bundle the bytes are, or the one whose spelling they are. `NoEntry` where they
/// are neither.
pub fn read_payload(alloc: Global, bytes: &[u8]) -> Result<Vec<EntryCore>, CodecFault>
    ensures entries { IfOk result (λ cores. IsPayload bytes.now cores.items) }
    ensures none { IfErr result (λ fault. OnNoEntry fault ((cores : List EntryCore)
        → IsPayload bytes.now cores → ⊥)) }
{
    payload(alloc, bytes)
}
