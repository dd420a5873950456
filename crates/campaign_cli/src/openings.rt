//! The campaign of the settings, as the disk holds it.
ghost use Rattle.std.specs.Prelude.{◌≡◌, IfErr, IfOk, IsTrue};
ghost use Rattle.book.specs.Opening.Openings.{Opened, Refused};
ghost use Rattle.rulebook.specs.Spelling.{are_rules};
ghost use Rattle.campaign_cli.specs.Ends.BookEnds.{IsGiven, IsOpened, IsToldOf, NoSettings, Unopened, cause_of_none, cause_without_settings, entry_line};
ghost use Rattle.campaign_cli.specs.Causes.{IsWay, ending_of};
ghost use Rattle.campaign_cli.specs.Surroundings.Shelves.{KeepsFiles};

use crate::endings::{Cause, Outcome};
use crate::printing::add_count;
use crate::readings::read;
use crate::surroundings::shelves::Shelf;
use book::{Book, BookFault, Disk};
use campaign_settings::{Settings, SettingsEnd, read_settings};
use decimal_rank::Memory;
use routes::Keys;
use std::alloc::Global;

/// The file with the settings.
const SETTINGS_FILE: &[u8] = b"campaign.toml";

/// What is printed where the settings are refused.
const SETTINGS_LINE: &[u8] = b"input: campaign.toml\n";

/// What is printed where the disk is another campaign's.
const RULES_LINE: &[u8] = b"input: rules\n";

const HEADER_LINE: &[u8] = b"damaged header\n";

/// Reads the settings, and opens the campaign of their rules from the disk; or why there is none.
pub(crate) fn open_book<F: Shelf, D: Disk>(
    alloc: Global,
    shelf: &mut F,
    disk: D,
) -> Result<(Book<D>, Keys), (Outcome, D)>
    ensures opened { IfOk result
        (λ found. IsOpened D.seen (F.seen shelf.old) disk found.0 found.1) }
    ensures unopened { IfErr result (λ given.
        IsWay (Unopened D.seen (F.seen shelf.old) (F.seen shelf.new) disk given.1)
        (cause_of_none D.seen) (ending_of given.0)) }
    ensures follows { KeepsFiles (F.seen shelf.old) (F.seen shelf.new) }
{
    match own_settings(alloc, shelf) {
        Ok(settings) => open_settings(alloc, settings, disk),
        Err(outcome) => Err((outcome, disk)),
    }
}

/// The settings, or why there are none.
pub(crate) fn own_settings<F: Shelf>(alloc: Global, shelf: &mut F) -> Result<Settings, Outcome>
    ensures given { IfOk result (λ settings. IsGiven (F.seen shelf.old) settings) }
    ensures rules { IfOk result (λ settings. IsTrue (are_rules settings.rules)) }
    ensures none { IfErr result (λ outcome.
        IsWay (NoSettings (F.seen shelf.old) (F.seen shelf.new))
        cause_without_settings (ending_of outcome)) }
    ensures follows { KeepsFiles (F.seen shelf.old) (F.seen shelf.new) }
{
    let text = match read(alloc, shelf, SETTINGS_FILE) {
        Ok(text) => text,
        Err(cause) => return Err(Outcome::Silent(cause)),
    };
    match read_settings(alloc, &text) {
        Ok(settings) => Ok(settings),
        Err(SettingsEnd::Refused) => Err(Outcome::Line(Cause::Input, SETTINGS_LINE)),
        Err(SettingsEnd::Memory) => Err(Outcome::Silent(Cause::Memory)),
    }
}

/// Opens the campaign of these settings.
fn open_settings<D: Disk>(
    alloc: Global,
    settings: Settings,
    disk: D,
) -> Result<(Book<D>, Keys), (Outcome, D)>
    requires { IsTrue (are_rules settings.rules) }
    ensures opened { IfOk result (λ found. Opened D.seen settings.rules disk found.0) }
    ensures callers { IfOk result (λ found. found.1 ≡ settings.callers) }
    ensures refused { IfErr result (λ given. (why : BookFault)
        × Refused D.seen settings.rules disk given.1 why × IsToldOf why (ending_of given.0)) }
{
    let Settings { rules, callers } = settings;
    match Book::open(alloc, disk, rules) {
        Ok(book) => Ok((book, callers)),
        Err((disk, fault)) => Err((told_of(alloc, fault), disk)),
    }
}

/// What is told of a disk that isn't opened, or fails once it is.
pub(crate) fn told_of(alloc: Global, fault: BookFault) -> Outcome
    ensures { IsToldOf fault (ending_of result) }
{
    match fault {
        BookFault::Disk => Outcome::Silent(Cause::Disk),
        BookFault::Header => Outcome::Line(Cause::Damaged, HEADER_LINE),
        BookFault::Damaged { entry } => match entry_line(alloc, entry) {
            Ok(line) => Outcome::Text(Cause::Damaged, line),
            Err(Memory) => Outcome::Silent(Cause::Memory),
        },
        BookFault::RulesDiffer => Outcome::Line(Cause::Input, RULES_LINE),
        BookFault::Memory => Outcome::Silent(Cause::Memory),
    }
}

fn entry_line(alloc: Global, entry: u32) -> Result<Vec<u8>, Memory>
    ensures { IfOk result (λ line. line.items ≡ entry_line entry) }
{
    let mut line = Vec::new(alloc);
    add_count(b"damaged entry ", u64::from(entry), &mut line)?;
    Ok(line)
}
