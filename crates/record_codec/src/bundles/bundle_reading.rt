//! The entries of a bundle, read loosely: whether a table is in the order of first use, and each
//! number in its shortest form, isn't looked at.
ghost use Rattle.std.specs.Prelude.{◌≡◌};
ghost use Rattle.std.specs.Option.{option_and_then};
ghost use Rattle.record_codec.specs.Outcomes.{FindsWholeBy, GivesRead, GivesReadBy};
ghost use Rattle.record_codec.specs.BundleGrammar.{brief_grade_read, brief_read, bundled_read, coded_number_read, cores_read, count_read, entries_read, graded_use_read, later_read, lease_read, parts_read, table_read, used_read};
ghost use Rattle.record_codec.specs.Readings.{amend_of, byte_read, caller_read, grade_of_parts, rule_of, short_read, value_by, whole_value};

use crate::bundles::varint_reading::varint;
use crate::cursor::Cursor;
use crate::entries::fields::{caller, short};
use crate::entries::lists::{Item, items_of};
use crate::faults::CodecFault;
use crate::layout::{
    AMEND, GRADE, LEASE, LEASE_BOUND, MOST_USES, OPEN, PUBLISH, RELEASE, RULE, WITHDRAW,
};
use decimal_rank::Text;
use rulebook::{Caller, Command, EntryCore, MAX_MOMENT};
use std::alloc::Global;

impl Item for Caller {
    type Value = Caller;

    ghost at = { caller_read };

    fn read(alloc: Global, left: &mut Cursor) -> Result<Caller, CodecFault> {
        caller(alloc, left)
    }
}

struct Short;

impl Item for Short {
    type Value = Text;

    ghost at = { short_read };

    fn read(alloc: Global, left: &mut Cursor) -> Result<Text, CodecFault> {
        let text = short(left)?;
        Ok(Text::from_slice(alloc, text)?)
    }
}

/// How many there are of what follows.
#[tactic(auto, unfolding(crate::specs::BundleGrammar::count_read))]
fn count(left: &mut Cursor) -> Result<u32, CodecFault>
    ensures { GivesRead result left.new.bytes.now (count_read left.old.bytes.now) }
{
    let count = varint(left)?;
    if count > MOST_USES {
        return Err(CodecFault::NoEntry);
    }
    Ok(count as u32)
}

#[tactic(auto, unfolding(crate::specs::BundleGrammar::table_read))]
fn table<I: Item>(alloc: Global, left: &mut Cursor) -> Result<Vec<I::Value>, CodecFault>
    ensures { GivesReadBy (λ table. table.items) result left.new.bytes.now
        (table_read I.at left.old.bytes.now) }
{
    let count = count(left)?;
    items_of::<I>(alloc, left, count)
}

/// The caller of an index.
#[tactic(auto, unfolding(crate::specs::BundleGrammar::used_read))]
fn used_caller(left: &mut Cursor, callers: &[Caller]) -> Result<Caller, CodecFault>
    ensures { GivesRead result left.new.bytes.now (used_read callers.now left.old.bytes.now) }
{
    let index = varint(left)?;
    let Some(caller) = callers.get(index as usize) else {
        return Err(CodecFault::NoEntry);
    };
    Ok(caller.copy()?)
}

/// The text of an index.
#[tactic(auto, unfolding(crate::specs::BundleGrammar::used_read))]
fn used_text(left: &mut Cursor, texts: &[Text]) -> Result<Text, CodecFault>
    ensures { GivesRead result left.new.bytes.now (used_read texts.now left.old.bytes.now) }
{
    let index = varint(left)?;
    let Some(text) = texts.get(index as usize) else {
        return Err(CodecFault::NoEntry);
    };
    Ok(text.copy()?)
}

/// The number that a request may have.
#[tactic(auto, unfolding(crate::specs::BundleGrammar::coded_number_read))]
fn coded_number(left: &mut Cursor) -> Result<Option<u64>, CodecFault>
    ensures { GivesRead result left.new.bytes.now (coded_number_read left.old.bytes.now) }
{
    let code = varint(left)?;
    if code == 0 {
        return Ok(None);
    }
    Ok(Some(code - 1))
}

/// The moment, given that of the entry before.
#[tactic(auto, unfolding(crate::specs::BundleGrammar::later_read))]
fn later(left: &mut Cursor, earlier: u64) -> Result<u64, CodecFault>
    ensures { GivesRead result left.new.bytes.now (later_read earlier left.old.bytes.now) }
{
    let passed = varint(left)?;
    if earlier > MAX_MOMENT || passed > MAX_MOMENT - earlier {
        return Err(CodecFault::NoEntry);
    }
    Ok(earlier + passed)
}

#[tactic(auto, unfolding(crate::specs::BundleGrammar::lease_read))]
fn lease(left: &mut Cursor) -> Result<u32, CodecFault>
    ensures { GivesRead result left.new.bytes.now (lease_read left.old.bytes.now) }
{
    let lease = varint(left)?;
    if lease >= LEASE_BOUND {
        return Err(CodecFault::NoEntry);
    }
    Ok(lease as u32)
}

#[tactic(auto, unfolding(crate::specs::BundleGrammar::brief_grade_read))]
fn grade(left: &mut Cursor) -> Result<Command, CodecFault>
    ensures { GivesRead result left.new.bytes.now
        (value_by grade_of_parts (brief_grade_read left.old.bytes.now)) }
{
    let lease = lease(left)?;
    let grade = left.byte()?;
    Ok(Command::Grade { lease, grade })
}

/// A topic, a document and its grade.
#[tactic(auto, unfolding(crate::specs::BundleGrammar::graded_use_read))]
fn graded_doc(left: &mut Cursor, texts: &[Text]) -> Result<(Text, Text, u8), CodecFault>
    ensures { GivesReadBy (λ graded. (graded.0, (graded.1, graded.2))) result left.new.bytes.now
        (graded_use_read texts.now left.old.bytes.now) }
{
    let topic = used_text(left, texts)?;
    let doc = used_text(left, texts)?;
    let grade = left.byte()?;
    Ok((topic, doc, grade))
}

fn amend(left: &mut Cursor, texts: &[Text]) -> Result<Command, CodecFault>
    ensures { GivesRead result left.new.bytes.now
        (value_by amend_of (graded_use_read texts.now left.old.bytes.now)) }
{
    let (topic, doc, grade) = graded_doc(left, texts)?;
    Ok(Command::Amend { topic, doc, grade })
}

fn rule(left: &mut Cursor, texts: &[Text]) -> Result<Command, CodecFault>
    ensures { GivesRead result left.new.bytes.now
        (value_by rule_of (graded_use_read texts.now left.old.bytes.now)) }
{
    let (topic, doc, grade) = graded_doc(left, texts)?;
    Ok(Command::Rule { topic, doc, grade })
}

/// The kind of a command, and its fields.
#[tactic(auto, unfolding(crate::specs::BundleGrammar::brief_read, crate::specs::BundleGrammar::brief_of_kind))]
fn brief(left: &mut Cursor, texts: &[Text]) -> Result<Command, CodecFault>
    ensures { GivesRead result left.new.bytes.now (brief_read texts.now left.old.bytes.now) }
{
    match left.byte()? {
        OPEN => Ok(Command::Open),
        LEASE => Ok(Command::Lease {
            topic: used_text(left, texts)?,
        }),
        GRADE => grade(left),
        RELEASE => Ok(Command::Release {
            lease: lease(left)?,
        }),
        AMEND => amend(left, texts),
        RULE => rule(left, texts),
        WITHDRAW => Ok(Command::Withdraw {
            run: used_text(left, texts)?,
        }),
        PUBLISH => Ok(Command::Publish),
        _ => Err(CodecFault::NoEntry),
    }
}

/// An entry, given the moment of the one before.
#[tactic(auto, unfolding(crate::specs::BundleGrammar::bundled_read))]
fn bundled(
    left: &mut Cursor,
    callers: &[Caller],
    texts: &[Text],
    earlier: u64,
) -> Result<EntryCore, CodecFault>
    ensures { GivesRead result left.new.bytes.now
        (bundled_read callers.now texts.now earlier left.old.bytes.now) }
{
    let caller = used_caller(left, callers)?;
    let number = coded_number(left)?;
    let moment = later(left, earlier)?;
    let command = brief(left, texts)?;
    Ok(EntryCore {
        caller,
        number,
        moment,
        command,
    })
}

/// So many entries, one behind the other.
fn cores(
    alloc: Global,
    left: &mut Cursor,
    callers: &[Caller],
    texts: &[Text],
    count: u32,
) -> Result<Vec<EntryCore>, CodecFault>
    ensures { GivesReadBy (λ cores. cores.items) result left.new.bytes.now
        (cores_read callers.now texts.now count 0 left.old.bytes.now) }
{
    let mut cores = Vec::new(alloc);
    let mut earlier = 0;
    for _ in 0..count {
        let core = bundled(left, callers, texts, earlier)?;
        earlier = core.moment;
        cores.push(core)?;
    }
    Ok(cores)
}

#[tactic(auto, unfolding(crate::specs::BundleGrammar::entries_read))]
fn entries(
    alloc: Global,
    left: &mut Cursor,
    callers: &[Caller],
    texts: &[Text],
) -> Result<Vec<EntryCore>, CodecFault>
    ensures { GivesReadBy (λ cores. cores.items) result left.new.bytes.now
        (entries_read callers.now texts.now left.old.bytes.now) }
{
    let count = count(left)?;
    cores(alloc, left, callers, texts, count)
}

#[tactic(auto, unfolding(crate::specs::BundleGrammar::parts_read))]
fn parts(alloc: Global, left: &mut Cursor) -> Result<Vec<EntryCore>, CodecFault>
    ensures { GivesReadBy (λ cores. cores.items) result left.new.bytes.now
        (parts_read left.old.bytes.now) }
{
    let callers = table::<Caller>(alloc, left)?;
    let texts = table::<Short>(alloc, left)?;
    entries(alloc, left, &callers, &texts)
}

/// The entries that all of the bytes but the first give.
pub(crate) fn loose_entries(alloc: Global, bytes: &[u8]) -> Result<Vec<EntryCore>, CodecFault>
    ensures { FindsWholeBy (λ cores. cores.items) result
        (whole_value (option_and_then (λ b. parts_read b.1) (byte_read bytes.now))) }
{
    let mut left = Cursor::new(bytes);
    let _zero = left.byte()?;
    let cores = parts(alloc, &mut left)?;
    if !left.is_at_end() {
        return Err(CodecFault::NoEntry);
    }
    Ok(cores)
}
