//! A book: the accepted entries, and the journal that keeps them. A request is answered by the
//! entries; the entry that it adds joins them once it is journaled.
//!
//! # The way of a command to the disk
//!
//! `Book::act` asks `State::prepare`; a reply that adds nothing is given at once, and no call is
//! made on the disk. The entry of an accepted command is spelled into a frame
//! (`journaling::frame_of`), which is the last memory that is taken. `journaling::keep` mends what
//! an earlier failure left due, and appends the record. Then `State::commit` adds the entry, and
//! its reply is given. Where the append failed the entry is dropped (`State::cancel`), and the
//! answer is a fault of the disk; the record may be on the disk, until the next command mends it
//! away.
ghost use Rattle.std.specs.Prelude.{◌≡◌, length, IfOk, IsSome, IsTrue, Some};
ghost use Rattle.std.specs.Option.{option_map};
ghost use Rattle.campaign_core.specs.Views.Tallies.{IsTally, submitted_at};
ghost use Rattle.rulebook.specs.Campaign.{phase as phase_of};
ghost use Rattle.rulebook.specs.Histories.Stories.{IsAddressed};
ghost use Rattle.rulebook.specs.Reports.Systems.{are_sound_systems, systems};
ghost use Rattle.book.specs.Books.{Acts, IsSound};
ghost use Rattle.book.specs.JournaledEntries.{Accepts, EndsWithin, EntryHasRoom, KeepsBook};

use crate::journaling::commits::commit;
use crate::journaling::pending::Pending;
use crate::journaling::{frame_of, keep};
use crate::laws::rule_laws;
use campaign_core::{Prepared, State, Tally, Verdict};
use decimal_rank::{Memory, Rows};
use depth_pool::RunId;
use journal::{Disk, Failed, Journal};
use rulebook::{Addressed, Answer, Phase, System};
use std::alloc::Global;
use std::marker::{Brand, Model};
use std::sync::ledger::Blank;

/// A campaign on a disk. Contracts see the disk, the accepted entries, the entry that may be on the
/// disk though its journaling failed, and the count of the disk's faults when it was opened.
pub struct Book<D: Disk> {
    pub(crate) alloc: Global,
    pub(crate) state: State,
    pub(crate) journal: Journal<D>,
    pub(crate) pending: Pending,
    pub(crate) opening: u64,
}

impl<D: Disk> Model for Book<D> {
    ghost use Rattle.book.specs.Books.{BookView};
    ghost use Rattle.book.specs.JournaledEntries.{IsKept};

    ghost Value = { BookView D };

    ghost view = { λ book. record {
      disk = book.journal.disk;
      history = book.state.history;
      pending = book.pending;
      opening = book.opening;
    } };

    ghost invariant = { λ book. IsKept D.seen
        (record { journal = book.journal; history = book.state.history; pending = book.pending })
        book.opening };
}

// a call of its own, so that no caller's proof takes a book apart
impl<D: Disk + Drop> Drop for Book<D> {
    fn drop(self) {
        let Book {
            alloc: _,
            state: _,
            journal: _,
            pending: _,
            opening: _,
        } = self;
    }
}

impl<D: Disk> Book<D> {
    /// How many entries were accepted.
    pub fn entries(&self) -> u32
        ensures { result ≡ length self.now.history }
    {
        self.state.entries()
    }

    /// The campaign's phase.
    pub fn phase(&self) -> Phase
        ensures { result ≡ phase_of self.now.history }
    {
        self.state.phase()
    }

    /// How the judgements and the runs stand.
    pub fn tally(&self) -> Tally
        ensures { IsTally self.now.history result }
    {
        self.state.tally()
    }

    /// The name of a submitted run, by its number of submission from 0.
    pub fn run_name(&self, run: RunId) -> &[u8]
        requires { IsSome (submitted_at self.now.history run) }
        ensures { option_map (λ run. run.name) (submitted_at self.now.history run)
            ≡ Some result.now }
    {
        self.state.run_name(run)
    }

    /// The state of the campaign.
    pub fn state(&self) -> &State
        ensures { result.now.history ≡ self.now.history }
    {
        &self.state
    }

    /// The live runs by submission, each with its submitter's name and its sums and means.
    pub fn systems(&self) -> Result<Rows<System>, Memory>
        ensures systems { IfOk result (λ rows. rows ≡ systems self.now.history) }
        ensures sound { IfOk result (λ rows. IsTrue (are_sound_systems rows)) }
    {
        self.state.systems()
    }

    /// What a book keeps true.
    pub fn stands(&self)
        ensures { IsSound D.seen self.now }
    {
        self.journal.stands();
    }

    /// Answers a request. An entry is accepted once it is journaled; what a failed journaling left
    /// is mended first. All memory is taken before the first call on the disk.
    pub fn act(&mut self, asked: Addressed) -> Answer
        requires { IsAddressed asked }
        ensures { Acts D.seen self.old asked result self.new }
    {
        rule_laws();
        self.journal.stands();
        let _legal = self.state.entries();
        let Addressed {
            who,
            number,
            ask,
            moment,
        } = asked;
        match self.state.prepare(&who, number, ask, moment) {
            Ok(Verdict::Told(reply)) => Answer::Reply(reply),
            Ok(Verdict::Ready(prepared)) => {
                let answer = accept(
                    self.alloc,
                    &mut self.state,
                    &mut self.journal,
                    &mut self.pending,
                    prepared,
                );
                self.journal.stands();
                answer
            }
            Err(Memory) => Answer::Memory,
        }
    }

    /// The disk, on which no call is made.
    pub fn close(self) -> D
        ensures { result ≡ self.disk }
    {
        let Book {
            alloc: _,
            state: _,
            journal,
            pending: _,
            opening: _,
        } = self;
        journal.close()
    }
}

/// Journals the prepared entry, and adds it once that is done.
fn accept<D: Disk>(
    alloc: Global,
    state: &mut State,
    journal: &mut Journal<D>,
    pending: &mut Pending,
    prepared: Prepared,
) -> Answer
    requires prepared { state.old.prepared ≡ Some prepared }
    requires keeps { KeepsBook D.seen journal.old state.old.history pending.old }
    requires within { EndsWithin journal.old.place state.old.history }
    requires room { EntryHasRoom state.old.history prepared }
    ensures { Accepts D.seen
        (record { journal = journal.old; history = state.old.history; pending = pending.old })
        prepared result
        (record { journal = journal.new; history = state.new.history; pending = pending.new }) }
{
    journal.stands();
    let Ok(frame) = frame_of(alloc, prepared.core()) else {
        state.cancel(prepared);
        return Answer::Memory;
    };
    match keep(journal, pending, &prepared, &frame) {
        Ok(()) => Answer::Reply(commit::<Brand>(state, prepared, Blank::new(1))),
        Err(Failed) => {
            state.cancel(prepared);
            Answer::DiskFault
        }
    }
}
