//! A list of notes that a hall can hold.
ghost use Rattle.std.specs.Prelude.{length};
ghost use Rattle.hall.specs.declared.stories.Story.{Story};
ghost use Rattle.hall_tally.specs.Tallies.{Tells};

use decimal_rank::Memory;
use hall::Storied;
use std::alloc::Global;

/// A note of a worker: which of its own it is, from 0.
#[derive(Clone, Copy, Debug)]
pub struct Note {
    pub worker: u32,
    pub number: u32,
}

/// What a worker asks.
#[derive(Clone, Copy, Debug)]
pub enum Asked {
    Write(Note),
    /// How many notes there are.
    Count,
}

/// What a worker is told.
#[derive(Clone, Copy, Debug, PartialEq, Eq)]
pub enum Told {
    /// The note stands at this place, from 1.
    At(u64),
    Counted(u64),
    Memory,
}

/// The notes that were written.
#[derive(Drop)]
pub struct Tally {
    pub notes: Vec<Note>,
}

impl Tally {
    /// A list with one note, which is no worker's.
    pub fn new(alloc: Global) -> Result<Tally, Memory> {
        let mut notes = Vec::new(alloc);
        notes.push(Note {
            worker: u32::MAX,
            number: 0,
        })?;
        Ok(Tally { notes })
    }
}

impl Storied for Tally {
    ghost use Rattle.std.specs.Prelude.{List};
    ghost use Rattle.hall_tally.specs.Tallies.{Tells, story_of_notes};

    type Ask = Asked;

    type Entry = Note;

    type Answer = Told;

    ghost story = { λ tally. story_of_notes tally.notes.items };

    ghost fits = { λ _. Unit {0} };

    ghost tells = { Tells };

    fn length(&self) -> u64 {
        self.notes.len() as u64
    }

    fn act(&mut self, ask: Asked) -> Told {
        match ask {
            Asked::Write(note) => match self.notes.push(note) {
                Ok(()) => Told::At(self.notes.len() as u64),
                Err(_) => Told::Memory,
            },
            Asked::Count => Told::Counted(self.notes.len() as u64),
        }
    }
}

/// Whether the notes behind the first are those of so many workers, so many of each, and each
/// worker's in their order.
pub fn are_in_order(notes: &[Note], workers: u32, each: u32) -> bool {
    let mut counts = [0u32; 4];
    for note in notes.iter().skip(1) {
        let worker = note.worker as usize;
        if worker >= counts.len() || counts[worker] != note.number {
            return false;
        }
        counts[worker] = note.number.saturating_add(1);
    }
    counts.iter().enumerate().all(|(worker, count)| *count
        == if worker < workers as usize { each } else { 0 })
}
