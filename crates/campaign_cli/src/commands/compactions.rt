//! `compact`: replaces the records of the journal on the disk by bundles of entries, in place. The
//! campaign is opened as `check` opens it. The memory for what is printed is taken first, so that
//! want of it leaves the journal as it was.
ghost use Rattle.std.specs.Prelude.{◌≡◌, ◌++◌, [], IsTrue, OnOk};
ghost use Rattle.rulebook.specs.Spelling.{are_rules};
ghost use Rattle.campaign_cli.specs.declared.endings.Cause.TheVariants.{Done};
ghost use Rattle.campaign_cli.specs.Causes.{SaysOrShort, ending_of};
ghost use Rattle.campaign_cli.specs.Ends.CompactEnds.{CompactEnds, Compacting, compact_text};

use crate::endings::{Cause, Outcome};
use crate::openings::{own_settings, told_of};
use crate::printing::add_count;
use crate::surroundings::shelves::Shelf;
use book::{CompactEnd, Disk, compact};
use campaign_settings::Settings;
use decimal_rank::Memory;
use std::alloc::Global;

/// More bytes than what is printed has.
const MOST_TEXT: usize = 80;

/// Reads the settings, opens the journal of their campaign on the disk, compacts it, and tells its
/// entries and its bytes.
pub(crate) fn compact_campaign<F: Shelf, D: Disk>(
    alloc: Global,
    shelf: &mut F,
    disk: D,
) -> (Outcome, D)
    ensures { CompactEnds D.seen (F.seen shelf.old) (F.seen shelf.new)
        disk result.1 (ending_of result.0) }
{
    let Ok(text) = Vec::with_capacity(alloc, MOST_TEXT) else {
        return (Outcome::Silent(Cause::Memory), disk);
    };
    match own_settings(alloc, shelf) {
        Ok(settings) => compact_journal(alloc, settings, text, disk),
        Err(outcome) => (outcome, disk),
    }
}

/// Compacts the journal of the campaign of these settings, and tells what came of that.
fn compact_journal<D: Disk>(
    alloc: Global,
    settings: Settings,
    text: Vec<u8>,
    disk: D,
) -> (Outcome, D)
    requires rules { IsTrue (are_rules settings.rules) }
    requires empty { text.items ≡ [] }
    ensures { Compacting D.seen settings disk result.1 (ending_of result.0) }
{
    let Settings { rules, callers: _ } = settings;
    let (disk, end) = compact(alloc, disk, rules);
    match end {
        CompactEnd::Done {
            entries,
            before,
            after,
        } => (told_numbers(entries, before, after, text), disk),
        CompactEnd::Fault(why) => (told_of(alloc, why), disk),
    }
}

fn told_numbers(entries: u32, before: u64, after: u64, text: Vec<u8>) -> Outcome
    requires { text.items ≡ [] }
    ensures { SaysOrShort Done (compact_text entries before after) (ending_of result) }
{
    let mut text = text;
    match add_numbers(entries, before, after, &mut text) {
        Ok(()) => Outcome::Text(Cause::Done, text),
        Err(Memory) => Outcome::Silent(Cause::Memory),
    }
}

fn add_numbers(entries: u32, before: u64, after: u64, text: &mut Vec<u8>) -> Result<(), Memory>
    ensures { OnOk result (text.new.items ≡ text.old.items ++ compact_text entries before after) }
{
    add_count(b"entries ", u64::from(entries), text)?;
    add_count(b"before ", before, text)?;
    add_count(b"after ", after, text)?;
    Ok(())
}
