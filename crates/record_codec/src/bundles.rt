//! Bundles to bytes: the byte 0, the table of the callers, the table of the texts, and the entries,
//! each table and the entries behind their count.
ghost use Rattle.std.specs.Prelude.{◌≡◌, ◌<◌, ◌≤◌, ◌++◌, IfOk, IsTrue, List, OnOk, length, map};
ghost use Rattle.std.specs.List.{All, list_all};
ghost use Rattle.rulebook.specs.declared.rules.Caller.{Caller};
ghost use Rattle.rulebook.specs.Spelling.{is_number, short};
ghost use Rattle.record_codec.specs.Bundles.{are_rising, bundle_bytes, caller_bytes, counted_items, have_bundle, is_packable, item_bytes, item_of, items_of, number_code};

pub(crate) mod briefs;
mod bundle_items;
pub(crate) mod bundle_reading;
mod bundle_tables;
pub(crate) mod packing;
mod varint_reading;
mod varints;

use crate::bundles::briefs::{brief_of, put_brief};
use crate::bundles::bundle_items::BundleItem;
use crate::bundles::bundle_tables::{caller_index, callers_in, texts_in};
use crate::bundles::varints::put_varint;
use crate::layout::BUNDLE;
use crate::spelling::put_text;
use decimal_rank::{DocId, Memory, Names, append};
use rulebook::EntryCore;

/// Appends the bundle of the entries.
pub fn write_bundle(cores: &[EntryCore], out: &mut Vec<u8>) -> Result<(), Memory>
    requires { IsTrue (have_bundle cores.now) }
    ensures { OnOk result (out.new.items ≡ out.old.items ++ bundle_bytes cores.now) }
{
    let alloc = *out.allocator();
    let callers = callers_in(alloc, cores)?;
    let texts = texts_in(alloc, cores)?;
    out.push(BUNDLE)?;
    put_callers(&callers, out)?;
    put_texts(&texts, out)?;
    put_items(cores, &callers, &texts, out)
}

/// A table of callers, which are spelled already.
fn put_callers(callers: &Names, out: &mut Vec<u8>) -> Result<(), Memory>
    ensures { OnOk result
        (out.new.items ≡ out.old.items ++ counted_items (λ caller. caller) callers.now) }
{
    put_varint(callers.len() as u64, out)?;
    for place in 0..callers.len() {
        append(out, callers.name(DocId(place)))?;
    }
    Ok(())
}

/// A table of texts.
fn put_texts(texts: &Names, out: &mut Vec<u8>) -> Result<(), Memory>
    requires { All (λ text. length text < 256) texts.now }
    ensures { OnOk result (out.new.items ≡ out.old.items ++ counted_items short texts.now) }
{
    put_varint(texts.len() as u64, out)?;
    for place in 0..texts.len() {
        put_text(texts.name(DocId(place)), out)?;
    }
    Ok(())
}

/// The entries, with the indices of their callers and texts.
fn put_items(
    cores: &[EntryCore],
    callers: &Names,
    texts: &Names,
    out: &mut Vec<u8>,
) -> Result<(), Memory>
    requires packable { IsTrue (list_all is_packable cores.now) }
    requires rising { IsTrue (are_rising 0 cores.now) }
    ensures { (table : List Caller) → callers.now ≡ map caller_bytes table
        → OnOk result (out.new.items
        ≡ out.old.items ++ counted_items item_bytes (items_of table texts.now 0 cores.now)) }
{
    put_varint(cores.len() as u64, out)?;
    let mut spelled = Vec::new(*out.allocator());
    let mut earlier: u64 = 0;
    for core in cores {
        let item = item_of(core, callers, texts, earlier, &mut spelled)?;
        put_item(&item, out)?;
        earlier = core.moment;
    }
    Ok(())
}

/// The entry with its indices, behind one at the moment `earlier`; the buffer is for its caller's
/// bytes.
fn item_of(
    core: &EntryCore,
    callers: &Names,
    texts: &Names,
    earlier: u64,
    spelled: &mut Vec<u8>,
) -> Result<BundleItem, Memory>
    requires packable { IsTrue (is_packable core.now) }
    requires later { earlier ≤ core.now.moment }
    ensures { (table : List Caller) → callers.now ≡ map caller_bytes table
        → IfOk result (λ item. item ≡ item_of table texts.now earlier core.now) }
{
    Ok(BundleItem {
        caller: caller_index(callers, &core.caller, spelled)?,
        number: number_code(core.number),
        passed: core.moment - earlier,
        command: brief_of(&core.command, texts),
    })
}

/// 0, or the number and 1.
fn number_code(number: Option<u64>) -> u64
    requires { IsTrue (is_number number) }
    ensures { result ≡ number_code number }
{
    match number {
        None => 0,
        Some(number) => number + 1,
    }
}

fn put_item(item: &BundleItem, out: &mut Vec<u8>) -> Result<(), Memory>
    ensures { OnOk result (out.new.items ≡ out.old.items ++ item_bytes item.now) }
{
    put_varint(item.caller, out)?;
    put_varint(item.number, out)?;
    put_varint(item.passed, out)?;
    put_brief(item.command, out)
}
