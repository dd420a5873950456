//! Opening a book. The journal is opened, and each of its records is entered; a journal without
//! records gets the founding entry.
//!
//! # The way of an opening
//!
//! `Book::open` reads the records (`Journal::open`). Without any it journals the founding entry
//! (`opening::establish`). Else the first has to be a founding entry (`founding::begin`), which
//! begins a `Replay` of `campaign_core`; each other one is read, prepared at its own moment and
//! committed there (`record_entries::enter_all`, `campaign_core/src/replays.rt`), as a request's
//! is. Then the first record is compared with the settings' founding entry, and `Replay::finish`
//! gives the state. While entries are replayed the board doesn't follow, since no command looks at
//! it: the runs' lists wait.
ghost use Rattle.std.specs.Prelude.{◌≡◌, ◌<◌, ◌≤◌, ◌^◌, [], ◌∷◌, List, None, IfErr, IfOk, IsTrue, length};
ghost use Rattle.journal.specs.declared.dues.Due.TheVariants.{Nothing};
ghost use Rattle.journal.specs.KeptRecords.{Settled, payloads as payloads_of};
ghost use Rattle.rulebook.specs.declared.rules.Rules.{Rules as CampaignRules};
ghost use Rattle.rulebook.specs.Histories.Legal.{founding};
ghost use Rattle.rulebook.specs.Spelling.{are_rules};
ghost use Rattle.book.specs.Laws.{Laws};
ghost use Rattle.book.specs.Books.{IsSound};
ghost use Rattle.book.specs.Opening.Openings.{Opened, Refused};
ghost use Rattle.book.specs.JournaledEntries.{EndsWithin};
ghost use Rattle.book.specs.Stories.{IsStory};
ghost use Rattle.book.specs.Opening.OpenJournals.{KeepsStory, OpensRecords, book_fault_of};

use crate::books::Book;
use crate::faults::BookFault;
use crate::journaling::pending::Pending;
use crate::laws::rule_laws;
use crate::replays::founding::founded;
use crate::replays::replay;
use campaign_core::State;
use decimal_rank::Memory;
use journal::{Disk, Failed, Frame, Journal, OpenFault};
use rulebook::Rules;
use std::alloc::Global;

impl<D: Disk> Book<D> {
    /// Opens a disk as the book of a campaign with these rules. A disk without records gets the
    /// founding entry. One that isn't a journal, or isn't a campaign's, is not opened; all its
    /// records are entries or none is taken.
    pub fn open(alloc: Global, disk: D, rules: Rules) -> Result<Book<D>, (D, BookFault)>
        requires rules { IsTrue (are_rules rules) }
        ensures opened { IfOk result (λ book. Opened D.seen rules disk book) }
        ensures refused { IfErr result (λ fault. Refused D.seen rules disk fault.0 fault.1) }
    {
        rule_laws();
        let opening = disk.faults();
        match Journal::open(alloc, disk) {
            Ok((journal, records)) => open_records(alloc, opening, journal, records, rules),
            Err((disk, fault)) => Err((disk, fault_of(fault))),
        }
    }
}

/// What the journal's fault is told as.
pub(crate) fn fault_of(fault: OpenFault) -> BookFault
    ensures { result ≡ book_fault_of fault }
{
    match fault {
        OpenFault::Disk => BookFault::Disk,
        OpenFault::Header => BookFault::Header,
        OpenFault::Memory => BookFault::Memory,
    }
}

/// Makes a book of an open journal, whose records these are. Each is freed once its entries are
/// there.
fn open_records<D: Disk>(
    alloc: Global,
    opening: u64,
    journal: Journal<D>,
    records: Vec<Vec<u8>>,
    rules: Rules,
) -> Result<Book<D>, (D, BookFault)>
    requires laws { Laws }
    requires rules { IsTrue (are_rules rules) }
    requires small { journal.place < 2 ^ 39 }
    requires settled { Settled (D.seen journal.disk).images journal.place
        (payloads_of records.items) }
    requires nothing_due { journal.due ≡ Nothing }
    requires later { opening ≤ (D.seen journal.disk).faults }
    ensures { OpensRecords D.seen rules (payloads_of records.items) opening journal.disk result }
{
    if records.len() == 0 {
        return start(alloc, opening, journal, rules);
    }
    journal.stands();
    let mut others = records;
    let first = others.remove(0);
    match replay(alloc, &first, others, rules) {
        Ok(state) => Ok(book_of(alloc, opening, journal, state)),
        Err(fault) => Err((journal.close(), fault)),
    }
}

/// Makes a book of a journal without records.
fn start<D: Disk>(
    alloc: Global,
    opening: u64,
    journal: Journal<D>,
    rules: Rules,
) -> Result<Book<D>, (D, BookFault)>
    requires laws { Laws }
    requires rules { IsTrue (are_rules rules) }
    requires settled { Settled (D.seen journal.disk).images journal.place [] }
    requires nothing_due { journal.due ≡ Nothing }
    requires later { opening ≤ (D.seen journal.disk).faults }
    ensures { OpensRecords D.seen rules [] opening journal.disk result }
{
    journal.stands();
    match founded(alloc, rules) {
        Ok((state, frame)) => establish(alloc, opening, journal, state, &frame),
        Err(Memory) => Err((journal.close(), BookFault::Memory)),
    }
}

/// Adds the founding entry to a journal without records.
fn establish<D: Disk>(
    alloc: Global,
    opening: u64,
    journal: Journal<D>,
    state: State,
    frame: &Frame,
) -> Result<Book<D>, (D, BookFault)>
    requires short { length frame.now ≤ 2 ^ 25 }
    requires settled { Settled (D.seen journal.disk).images journal.place [] }
    requires nothing_due { journal.due ≡ Nothing }
    requires later { opening ≤ (D.seen journal.disk).faults }
    requires founded { IsStory (frame.now ∷ []) state.history }
    ensures { (rules : CampaignRules) → state.history ≡ founding rules ∷ []
        → OpensRecords D.seen rules [] opening journal.disk result }
{
    let mut journal = journal;
    journal.stands();
    match journal.append(frame) {
        Ok(()) => Ok(book_of(alloc, opening, journal, state)),
        Err(Failed) => Err((journal.close(), BookFault::Disk)),
    }
}

/// The book of a journal and of the entries that it keeps.
fn book_of<D: Disk>(alloc: Global, opening: u64, journal: Journal<D>, state: State) -> Book<D>
    requires settled { KeepsStory (D.seen journal.disk).images journal.place state.history }
    requires within { EndsWithin journal.place state.history }
    requires nothing_due { journal.due ≡ Nothing }
    requires later { opening ≤ (D.seen journal.disk).faults }
    ensures view { result ≡ record {
      disk = journal.disk;
      history = state.history;
      pending = None;
      opening = opening;
    } }
    ensures sound { IsSound D.seen result }
{
    let _legal = state.entries();
    let book = Book {
        alloc,
        state,
        journal,
        pending: Pending::none(),
        opening,
    };
    book.stands();
    book
}
