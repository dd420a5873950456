//! `archive NAME`: puts the release of the campaign on the disk into the archive. The campaign is
//! opened as `check` opens it. All that may be printed is made before the archive is asked, so
//! memory can't be short behind an addition.
ghost use Rattle.std.specs.Prelude.{◌≡◌, ◌≤◌, IfOk, IsTrue};
ghost use Rattle.trec_formats.specs.Names.{is_name};
ghost use Rattle.rulebook.specs.declared.rules.Phase.TheVariants.{Published};
ghost use Rattle.rulebook.specs.Campaign.{phase};
ghost use Rattle.release_archive.specs.Releases.{is_sound};
ghost use Rattle.campaign_cli.specs.Ends.ArchiveEnds.{ArchiveEnds, Archiving, PutsRelease, cause_of, release_of_history};
ghost use Rattle.campaign_cli.specs.Causes.{IsWay, ending_of};

use crate::endings::{Cause, Outcome};
use crate::openings::open_book;
use crate::pages::page_of;
use crate::printing::name_line;
use crate::surroundings::shelves::Shelf;
use book::{Book, Disk};
use decimal_rank::{Memory, Text};
use release_archive::{ArchiveEnd, Archived, Keeper, Kept, archive_release};
use rulebook::{Phase, Query};
use std::alloc::Global;

/// What is printed where another release has the name.
const DIFFERS_LINE: &[u8] = b"differs\n";

/// What is printed where the campaign isn't published.
const UNPUBLISHED_LINE: &[u8] = b"unpublished\n";

/// Reads the settings, opens their campaign from the disk and puts its release into the archive
/// under a name.
pub(crate) fn archive_campaign<F: Shelf, D: Disk, K: Keeper>(
    alloc: Global,
    name: &[u8],
    shelf: &mut F,
    keeper: &mut K,
    disk: D,
) -> (Outcome, D)
    requires { IsTrue (is_name name.now) }
    ensures ends { ArchiveEnds D.seen name.now (K.seen keeper.old) (K.seen keeper.new)
        (F.seen shelf.old) (F.seen shelf.new) disk result.1 (ending_of result.0) }
    ensures later { (K.seen keeper.old).faults ≤ (K.seen keeper.new).faults }
{
    match open_book(alloc, shelf, disk) {
        Ok((book, _callers)) => archive_book(alloc, name, book, keeper),
        Err(given) => given,
    }
}

/// Puts the release of a book's campaign into the archive.
fn archive_book<D: Disk, K: Keeper>(
    alloc: Global,
    name: &[u8],
    book: Book<D>,
    keeper: &mut K,
) -> (Outcome, D)
    requires { IsTrue (is_name name.now) }
    ensures archiving { IsWay
        (Archiving name.now book.history (K.seen keeper.old) (K.seen keeper.new))
        (cause_of name.now) (ending_of result.0) }
    ensures disk { result.1 ≡ book.disk }
    ensures later { (K.seen keeper.old).faults ≤ (K.seen keeper.new).faults }
{
    let mut book = book;
    match book.phase() {
        Phase::Published => match release_of(alloc, name, &mut book) {
            Ok(kept) => {
                // (its memory is free for the addition)
                let disk = book.close();
                (put(alloc, name, &kept, keeper), disk)
            }
            Err(Memory) => (Outcome::Silent(Cause::Memory), book.close()),
        },
        Phase::Collecting | Phase::Judging => {
            (
                Outcome::Line(Cause::Unpublished, UNPUBLISHED_LINE),
                book.close(),
            )
        }
    }
}

/// What an archive keeps of a published campaign.
fn release_of<D: Disk>(alloc: Global, name: &[u8], book: &mut Book<D>) -> Result<Kept, Memory>
    requires name { IsTrue (is_name name.now) }
    requires published { phase book.old.history ≡ Published }
    ensures same { book.new ≡ book.old }
    ensures kept { IfOk result (λ kept. kept ≡ release_of_history name.now book.old.history) }
    ensures sound { IfOk result (λ kept. IsTrue (is_sound kept)) }
{
    let name = Text::from_slice(alloc, name)?;
    let qrels = page_of(alloc, book, Query::ReleaseQrels { release: 1 })?;
    let systems = book.systems()?;
    Ok(Kept {
        name,
        qrels,
        systems,
    })
}

/// Puts a release into the archive, and tells what came of that.
fn put<K: Keeper>(alloc: Global, name: &[u8], kept: &Kept, keeper: &mut K) -> Outcome
    requires { IsTrue (is_sound kept.now) }
    ensures puts { PutsRelease name.now kept.now (K.seen keeper.old) (K.seen keeper.new)
        (ending_of result) }
    ensures later { (K.seen keeper.old).faults ≤ (K.seen keeper.new).faults }
{
    let archived = match name_line(alloc, b"archived ", name) {
        Ok(line) => line,
        Err(Memory) => return Outcome::Silent(Cause::Memory),
    };
    let there = match name_line(alloc, b"kept ", name) {
        Ok(line) => line,
        Err(Memory) => return Outcome::Silent(Cause::Memory),
    };
    match archive_release(alloc, keeper, kept) {
        Ok(Archived::New) => Outcome::Text(Cause::Done, archived),
        Ok(Archived::Same) => Outcome::Text(Cause::Done, there),
        Err(ArchiveEnd::Differs) => Outcome::Line(Cause::Differs, DIFFERS_LINE),
        Err(ArchiveEnd::Failed) => Outcome::Silent(Cause::Keeper),
        Err(ArchiveEnd::Memory) => Outcome::Silent(Cause::Memory),
    }
}
