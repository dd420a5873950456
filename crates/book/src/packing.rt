//! The payloads of a compacted journal, from the records of a journal. Their entries are read
//! again, record by record, and gathered into bundles, so that those of one bundle alone are held
//! at a time.
ghost use Rattle.std.specs.Prelude.{◌≡◌, ◌≤◌, ◌∷◌, ◌++◌, [], List, IfOk, IsTrue, OnOk, false, length, true};
ghost use Rattle.journal.specs.KeptRecords.{payloads as payloads_of};
ghost use Rattle.record_codec.specs.Bundles.{is_brief as is_brief_one, most_bundled};
ghost use Rattle.record_codec.specs.Payloads.{IsPayload};
ghost use Rattle.rulebook.specs.Campaign.{History};
ghost use Rattle.rulebook.specs.Requests.Limits.{max_entry_bytes};
ghost use Rattle.rulebook.specs.Spelling.{entry_bytes, has_spelling};
ghost use Rattle.rulebook.specs.declared.entry.EntryCore.{EntryCore as Core};
ghost use Rattle.book.specs.Compaction.Compactings.{bundle_of_part, compacted_payloads};
ghost use Rattle.book.specs.Laws.{Laws};
ghost use Rattle.book.specs.Compaction.Packings.{AreShort, CanPack, PacksTo};
ghost use Rattle.book.specs.Stories.{IsStory};

use decimal_rank::Memory;
use record_codec::{CodecFault, MOST_BUNDLED, is_brief, read_payload, write_bundle, write_entry};
use rulebook::EntryCore;
use std::alloc::Global;

/// Ends the bundle that has begun, where it has entries.
fn end_part(
    alloc: Global,
    payloads: &mut Vec<Vec<u8>>,
    part: &mut Vec<EntryCore>,
) -> Result<(), Memory>
    requires laws { Laws }
    requires can { (left : List Core) × CanPack part.old.items left }
    requires short { AreShort payloads.old.items }
    ensures payloads { OnOk result (payloads_of payloads.new.items
        ≡ payloads_of payloads.old.items ++ bundle_of_part part.old.items) }
    ensures short { OnOk result (AreShort payloads.new.items) }
    ensures part { OnOk result (part.new.items ≡ []) }
{
    if part.len() == 0 {
        return Ok(());
    }
    let mut bundle = Vec::new(alloc);
    write_bundle(part, &mut bundle)?;
    payloads.push(bundle)?;
    part.clear();
    Ok(())
}

/// Adds the spelling of an entry.
fn put_single(alloc: Global, payloads: &mut Vec<Vec<u8>>, core: &EntryCore) -> Result<(), Memory>
    requires spelled { IsTrue (has_spelling core.now) }
    requires fits { length (entry_bytes core.now) ≤ max_entry_bytes }
    requires short { AreShort payloads.old.items }
    ensures payloads { OnOk result (payloads_of payloads.new.items
        ≡ payloads_of payloads.old.items ++ entry_bytes core.now ∷ []) }
    ensures short { OnOk result (AreShort payloads.new.items) }
{
    let mut bytes = Vec::new(alloc);
    write_entry(core, &mut bytes)?;
    payloads.push(bytes)?;
    Ok(())
}

/// Packs an entry that no bundle may have.
fn pack_single(
    alloc: Global,
    payloads: &mut Vec<Vec<u8>>,
    part: &mut Vec<EntryCore>,
    core: &EntryCore,
) -> Result<(), Memory>
    requires laws { Laws }
    requires other { is_brief_one core.now.command ≡ false }
    requires can { (left : List Core) × CanPack part.old.items (core.now ∷ left) }
    requires short { AreShort payloads.old.items }
    ensures packs { OnOk result ((left : List Core) → CanPack part.old.items (core.now ∷ left)
        → PacksTo (payloads_of payloads.old.items) part.old.items (core.now ∷ left)
        (payloads_of payloads.new.items) part.new.items left) }
    ensures short { OnOk result (AreShort payloads.new.items) }
{
    end_part(alloc, payloads, part)?;
    put_single(alloc, payloads, core)?;
    Ok(())
}

/// Packs an entry as the first one of the next bundle.
fn pack_first(
    alloc: Global,
    payloads: &mut Vec<Vec<u8>>,
    part: &mut Vec<EntryCore>,
    core: EntryCore,
) -> Result<(), Memory>
    requires laws { Laws }
    requires brief { is_brief_one core.command ≡ true }
    requires full { length part.old.items ≡ most_bundled }
    requires can { (left : List Core) × CanPack part.old.items (core ∷ left) }
    requires short { AreShort payloads.old.items }
    ensures packs { OnOk result ((left : List Core) → CanPack part.old.items (core ∷ left)
        → PacksTo (payloads_of payloads.old.items) part.old.items (core ∷ left)
        (payloads_of payloads.new.items) part.new.items left) }
    ensures short { OnOk result (AreShort payloads.new.items) }
{
    end_part(alloc, payloads, part)?;
    part.push(core)?;
    Ok(())
}

/// Packs one entry: by its spelling, or as the next one of a bundle.
fn pack_core(
    alloc: Global,
    payloads: &mut Vec<Vec<u8>>,
    part: &mut Vec<EntryCore>,
    core: EntryCore,
) -> Result<(), Memory>
    requires laws { Laws }
    requires can { (left : List Core) × CanPack part.old.items (core ∷ left) }
    requires short { AreShort payloads.old.items }
    ensures packs { OnOk result ((left : List Core) → CanPack part.old.items (core ∷ left)
        → PacksTo (payloads_of payloads.old.items) part.old.items (core ∷ left)
        (payloads_of payloads.new.items) part.new.items left) }
    ensures short { OnOk result (AreShort payloads.new.items) }
{
    if !is_brief(&core.command) {
        return pack_single(alloc, payloads, part, &core);
    }
    if part.len() == MOST_BUNDLED {
        return pack_first(alloc, payloads, part, core);
    }
    part.push(core)?;
    Ok(())
}

/// Packs entries, one after another.
fn pack_cores(
    alloc: Global,
    payloads: &mut Vec<Vec<u8>>,
    part: &mut Vec<EntryCore>,
    cores: Vec<EntryCore>,
) -> Result<(), Memory>
    requires laws { Laws }
    requires can { (left : List Core) × CanPack part.old.items (cores.items ++ left) }
    requires short { AreShort payloads.old.items }
    ensures packs { OnOk result ((left : List Core) → CanPack part.old.items (cores.items ++ left)
        → PacksTo (payloads_of payloads.old.items) part.old.items (cores.items ++ left)
        (payloads_of payloads.new.items) part.new.items left) }
    ensures short { OnOk result (AreShort payloads.new.items) }
{
    for core in cores {
        pack_core(alloc, payloads, part, core)?;
    }
    Ok(())
}

/// Packs the entries that a record spells.
fn pack_record(
    alloc: Global,
    payloads: &mut Vec<Vec<u8>>,
    part: &mut Vec<EntryCore>,
    record_: &[u8],
) -> Result<(), Memory>
    requires laws { Laws }
    requires spells { (cores : List Core) × IsPayload record_.now cores
        × ((left : List Core) × CanPack part.old.items (cores ++ left)) }
    requires short { AreShort payloads.old.items }
    ensures packs { OnOk result ((cores : List Core) (left : List Core)
        → IsPayload record_.now cores → CanPack part.old.items (cores ++ left)
        → PacksTo (payloads_of payloads.old.items) part.old.items (cores ++ left)
        (payloads_of payloads.new.items) part.new.items left) }
    ensures short { OnOk result (AreShort payloads.new.items) }
{
    match read_payload(alloc, record_) {
        Ok(cores) => {
            pack_cores(alloc, payloads, part, cores)?;
            Ok(())
        }
        Err(CodecFault::NoEntry) => unreachable!(),
        Err(CodecFault::Memory) => Err(Memory),
    }
}

/// The payloads of the compacted journal of a campaign whose entries these records are.
pub(crate) fn pack(alloc: Global, records: &[Vec<u8>]) -> Result<Vec<Vec<u8>>, Memory>
    requires laws { Laws }
    requires story { (H : History) × IsStory (payloads_of records.now) H }
    ensures packed { IfOk result (λ packed. (H : History) → IsStory (payloads_of records.now) H
        → payloads_of packed.items ≡ compacted_payloads H) }
    ensures short { IfOk result (λ packed. AreShort packed.items) }
{
    let mut payloads = Vec::new(alloc);
    let mut part = Vec::new(alloc);
    for place in 0..records.len() {
        pack_record(alloc, &mut payloads, &mut part, &records[place])?;
    }
    end_part(alloc, &mut payloads, &mut part)?;
    Ok(payloads)
}
