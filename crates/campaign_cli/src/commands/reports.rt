//! The reports on the archive: `history RUN`, `compare A B` and `export`.
ghost use Rattle.std.specs.Prelude.{◌≡◌, ◌++◌, IfOk, IsTrue, OnOk};
ghost use Rattle.std.specs.List.{flat_map, list_all};
ghost use Rattle.archive_reports.specs.Comparisons.{pairs_of};
ghost use Rattle.release_archive.specs.Releases.{is_sound};
ghost use Rattle.rulebook.specs.Reports.Systems.{is_mean};
ghost use Rattle.campaign_cli.specs.declared.endings.Cause.TheVariants.{Unknown};
ghost use Rattle.campaign_cli.specs.Causes.{SaysOrShort, ending_of};
ghost use Rattle.campaign_cli.specs.Ends.ReportEnds.{CompareEnds, ListingEnds, cause_of_end as cause_by, compare_text, difference, export_text, history_line, history_text, no_release_line};

use crate::endings::{Cause, Outcome};
use crate::printing::{add_count, add_number, name_line};
use archive_reports::{HistoryRow, Pairs, compare, history, write_csv};
use decimal_rank::Memory;
use measures::write_four;
use release_archive::{KeepEnd, Keeper, Kept};
use std::alloc::Global;

/// Tells a run in each release that has it, by the releases' names.
pub(crate) fn tell_history<K: Keeper>(alloc: Global, run: &[u8], keeper: &mut K) -> Outcome
    ensures { ListingEnds (history_text run.now) (K.seen keeper.old) (K.seen keeper.new)
        (ending_of result) }
{
    match keeper.all(alloc) {
        Ok(all) => match history_text(alloc, run, &all) {
            Ok(text) => Outcome::Text(Cause::Done, text),
            Err(Memory) => Outcome::Silent(Cause::Memory),
        },
        Err(end) => Outcome::Silent(cause_of(end)),
    }
}

/// Tells all systems of the archive as CSV.
pub(crate) fn export_releases<K: Keeper>(alloc: Global, keeper: &mut K) -> Outcome
    ensures { ListingEnds export_text (K.seen keeper.old) (K.seen keeper.new)
        (ending_of result) }
{
    match keeper.all(alloc) {
        Ok(all) => match export_text(alloc, &all) {
            Ok(text) => Outcome::Text(Cause::Done, text),
            Err(Memory) => Outcome::Silent(Cause::Memory),
        },
        Err(end) => Outcome::Silent(cause_of(end)),
    }
}

/// Tells how two releases agree, or which name the archive has no release of.
pub(crate) fn compare_releases<K: Keeper>(
    alloc: Global,
    first: &[u8],
    second: &[u8],
    keeper: &mut K,
) -> Outcome
    ensures { CompareEnds first.now second.now (K.seen keeper.old) (K.seen keeper.new)
        (ending_of result) }
{
    let kept = match keeper.find(alloc, first) {
        Ok(Some(kept)) => kept,
        Ok(None) => return unknown(alloc, first),
        Err(end) => return Outcome::Silent(cause_of(end)),
    };
    match keeper.find(alloc, second) {
        Ok(Some(other)) => match compare_text(alloc, &kept, &other) {
            Ok(text) => Outcome::Text(Cause::Done, text),
            Err(Memory) => Outcome::Silent(Cause::Memory),
        },
        Ok(None) => unknown(alloc, second),
        Err(end) => Outcome::Silent(cause_of(end)),
    }
}

fn cause_of(end: KeepEnd) -> Cause
    ensures { result ≡ cause_by end }
{
    match end {
        KeepEnd::Failed => Cause::Keeper,
        KeepEnd::Memory => Cause::Memory,
    }
}

/// That the archive has no release of a name.
fn unknown(alloc: Global, name: &[u8]) -> Outcome
    ensures { SaysOrShort Unknown (no_release_line name.now) (ending_of result) }
{
    match name_line(alloc, b"unknown ", name) {
        Ok(line) => Outcome::Text(Cause::Unknown, line),
        Err(Memory) => Outcome::Silent(Cause::Memory),
    }
}

fn history_text(alloc: Global, run: &[u8], all: &[Kept]) -> Result<Vec<u8>, Memory>
    requires { IsTrue (list_all is_sound all.now) }
    ensures { IfOk result (λ text. text.items ≡ history_text run.now all.now) }
{
    let rows = history(alloc, run, all)?;
    let text = rows_text(alloc, &rows)?;
    Ok(text)
}

fn rows_text(alloc: Global, rows: &[HistoryRow]) -> Result<Vec<u8>, Memory>
    requires { IsTrue (list_all (λ row. is_mean row.map) rows.now) }
    ensures { IfOk result (λ text. text.items ≡ flat_map history_line rows.now) }
{
    let mut text = Vec::new(alloc);
    for row in rows {
        add_row(row, &mut text)?;
    }
    Ok(text)
}

fn add_row(row: &HistoryRow, text: &mut Vec<u8>) -> Result<(), Memory>
    requires { IsTrue (is_mean row.now.map) }
    ensures { OnOk result (text.new.items ≡ text.old.items ++ history_line row.now) }
{
    text.extend_from_slice(row.name.bytes())?;
    add_number(b"\t", u64::from(row.topics), text)?;
    text.extend_from_slice(b"\t")?;
    write_four(row.map, text)?;
    text.extend_from_slice(b"\n")?;
    Ok(())
}

fn export_text(alloc: Global, all: &[Kept]) -> Result<Vec<u8>, Memory>
    requires { IsTrue (list_all is_sound all.now) }
    ensures { IfOk result (λ text. text.items ≡ export_text all.now) }
{
    let mut text = Vec::new(alloc);
    write_csv(alloc, all, &mut text)?;
    Ok(text)
}

fn compare_text(alloc: Global, kept: &Kept, other: &Kept) -> Result<Vec<u8>, Memory>
    requires sound { IsTrue (is_sound kept.now) }
    requires other_sound { IsTrue (is_sound other.now) }
    ensures { IfOk result
        (λ text. text.items ≡ compare_text (pairs_of kept.now.systems other.now.systems)) }
{
    let text = pairs_text(alloc, compare(kept, other))?;
    Ok(text)
}

fn pairs_text(alloc: Global, pairs: Pairs) -> Result<Vec<u8>, Memory>
    ensures { IfOk result (λ text. text.items ≡ compare_text pairs) }
{
    let mut text = Vec::new(alloc);
    add_count(b"common ", u64::from(pairs.common), &mut text)?;
    add_count(b"concordant ", u64::from(pairs.concordant), &mut text)?;
    add_count(b"discordant ", u64::from(pairs.discordant), &mut text)?;
    add_count(b"tied ", u64::from(pairs.tied), &mut text)?;
    text.extend_from_slice(b"tau ")?;
    add_difference(pairs.concordant, pairs.discordant, &mut text)?;
    let all = u64::from(pairs.concordant) + u64::from(pairs.discordant) + u64::from(pairs.tied);
    add_count(b"/", all.max(1), &mut text)?;
    Ok(text)
}

fn add_difference(a: u32, b: u32, text: &mut Vec<u8>) -> Result<(), Memory>
    ensures { OnOk result (text.new.items ≡ text.old.items ++ difference a b) }
{
    if a < b {
        add_number(b"-", u64::from(b - a), text)
    } else {
        add_number(b"", u64::from(a - b), text)
    }
}
