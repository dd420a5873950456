//! A journal: records on a disk, to which one is added at a time.
ghost use Rattle.std.specs.Prelude.{◌≡◌, ◌≢◌, ℕ, ◌+◌, ◌*◌, ◌<◌, ◌≤◌, ◌^◌, List, Some, length, true, IfErr, IfOk};
ghost use Rattle.journal.specs.declared.dues.Due.TheVariants.{Nothing};
ghost use Rattle.journal.specs.Appends.{Appends};
ghost use Rattle.journal.specs.Format.{decode, place_behind};
ghost use Rattle.journal.specs.Journals.{KeepsRecords};
ghost use Rattle.journal.specs.KeptRecords.{HoldsRecords, Settled, payloads};
ghost use Rattle.journal.specs.Mends.{Mends};
ghost use Rattle.journal.specs.Openings.{NotRecovered, Recovered};
ghost use Rattle.journal.specs.Replacements.{HasAlone, Replaces};

use crate::appends::append_frame;
use crate::appends::frames::Frame;
use crate::dues::Due;
use crate::mends::mend_due;
use crate::opening::{OpenFault, recover};
use crate::reading::Records;
use crate::replacing::areas::Area;
use crate::replacing::{ReplaceEnd, replace_records};
use disk_model::{Disk, Failed, MOST_BYTES};
use std::alloc::Global;
use std::marker::Model;

/// A journal over a disk. Contracts see the disk, the place of the gate behind the last record, and
/// what a mend has to do. The records themselves are known from the images of the disk: each clause
/// speaks of whatever list of records the disk keeps, with the payload that may be pending.
#[derive(Drop)]
pub struct Journal<D: Disk> {
    disk: D,
    place: u64,
    due: Due,
}

impl<D: Disk> Model for Journal<D> {
    ghost use Rattle.std.specs.Prelude.{◌<◌, ◌^◌};
    ghost use Rattle.journal.specs.KeptRecords.{KeepsAny};
    ghost use Rattle.journal.specs.Journals.{JournalState};

    ghost Value = { JournalState D };

    ghost view = { λ journal.
        record { disk = journal.disk; place = journal.place; due = journal.due } };

    ghost invariant = { λ journal. (journal.place < 2 ^ 40)
        × KeepsAny (D.seen journal.disk).images journal.place journal.due };
}

impl<D: Disk> Journal<D> {
    /// Reads the records of a disk and mends its end. A disk with no more bytes than a header and a
    /// gate becomes an empty journal. One that is no journal is left as it is. A disk of 2^39 bytes
    /// and more finds no memory.
    pub fn open(alloc: Global, disk: D) -> Result<(Journal<D>, Vec<Vec<u8>>), (D, OpenFault)>
        ensures recovered { IfOk result (λ opened. Recovered D.seen disk opened.0.disk
            opened.0.place (payloads opened.1.items)) }
        ensures nothing_due { IfOk result (λ opened. opened.0.due ≡ Nothing) }
        ensures refused { IfErr result (λ fault. NotRecovered D.seen disk fault.0 fault.1) }
    {
        let mut disk = disk;
        match recover(alloc, &mut disk) {
            Ok(found) => {
                let Records { payloads, place } = found;
                let journal = Journal {
                    disk,
                    place: place as u64,
                    due: Due::Nothing,
                };
                Ok((journal, payloads))
            }
            Err(fault) => Err((disk, fault)),
        }
    }

    /// Adds a frame's record, and acknowledges it by Ok. Where the last append or mend failed it
    /// mends first. It takes no memory.
    pub fn append(&mut self, frame: &Frame) -> Result<(), Failed>
        requires { self.old.place + 6 + length frame.now ≤ 2 ^ 40 }
        ensures { Appends D.seen self.old self.new frame.now result }
    {
        append_frame(
            &mut self.disk,
            &mut self.place,
            &mut self.due,
            frame.bytes(),
        )
    }

    /// Leaves the acknowledged records alone on the disk. It takes no memory.
    pub fn mend(&mut self) -> Result<(), Failed>
        ensures { Mends D.seen self.old self.new result }
    {
        mend_due(&mut self.disk, self.place, &mut self.due)
    }

    /// Puts the records of an area in the place of all others, where they take no more room. Where
    /// the last append or mend failed it mends first. It takes no memory.
    pub fn replace(self, area: Area) -> (D, ReplaceEnd)
        requires { 2 * (self.place + 1) ≤ 2 ^ 40 }
        ensures { Replaces D.seen self.disk result.0 self.place self.due area result.1 }
    {
        let Journal { disk, place, due } = self;
        let mut disk = disk;
        let mut due = due;
        let end = replace_records(&mut disk, place, &mut due, area.written());
        (disk, end)
    }

    /// What a journal keeps is what each image of its disk gives; the place follows from the
    /// payloads.
    pub fn stands(&self)
        ensures stands { (all pending : List (List ℕ)) → KeepsRecords D.seen self.now all pending
            → (image : List ℕ) → (D.seen self.now.disk).images image
            → HoldsRecords all pending image }
        ensures alone { (all : List (List ℕ))
            → Settled (D.seen self.now.disk).images self.now.place all
            → (image : List ℕ) → (D.seen self.now.disk).images image → decode image ≡ Some all }
        ensures total { (all pending : List (List ℕ)) → KeepsRecords D.seen self.now all pending
            → self.now.place ≡ place_behind all }
        ensures length { (all : List (List ℕ))
            → Settled (D.seen self.now.disk).images self.now.place all
            → HasAlone (D.seen self.now.disk).images all }
    {}

    /// How many bytes the journal has, where nothing is due.
    pub fn length(&self) -> u64
        ensures { result ≡ self.now.place + 1 }
    {
        self.place + 1
    }

    /// Whether the next append mends first.
    pub fn is_due(&self) -> bool
        ensures { (result ≡ true → self.now.due ≢ Nothing)
            × (self.now.due ≢ Nothing → result ≡ true) }
    {
        self.due != Due::Nothing
    }

    /// Whether a frame's record can be added: with it the journal has at most `MOST_BYTES` of the
    /// disk.
    pub fn has_room(&self, frame: &Frame) -> bool
        ensures { (result ≡ true → self.now.place + 6 + length frame.now ≤ 2 ^ 40)
            × (self.now.place + 6 + length frame.now ≤ 2 ^ 40 → result ≡ true) }
    {
        self.place + 6 + frame.payload().len() as u64 <= MOST_BYTES
    }

    /// The disk, on which no call is made.
    pub fn close(self) -> D
        ensures { result ≡ self.disk }
    {
        let Journal {
            disk,
            place: _,
            due: _,
        } = self;
        disk
    }
}
