//! A shelf in memory, whose reads fail as it is told.
ghost use Rattle.std.specs.Prelude.{◌≡◌, ◌≤◌, ◌↔◌, IsTrue, IfOk, IfSome, length, option_copied};
ghost use Rattle.decimal_rank.specs.Outputs.FailurePlans.{fails_next};
ghost use Rattle.campaign_cli.specs.Surroundings.Shelves.{GivesFile, LacksFile, file_at, told_by, after_file_read};

use crate::surroundings::faults::ShelfFault;
use crate::surroundings::shelves::{MOST_BYTES, Shelf};
use decimal_rank::{FailurePlan, Text, count_more};
use std::alloc::Global;
use std::marker::Model;

/// A shelf in memory, which tells its files.
#[derive(Debug)]
pub struct MemoryShelf {
    files: Vec<(Text, Text)>,
    plan: FailurePlan,
    faults: u64,
    misses: u64,
}

impl Model for MemoryShelf {
    ghost use Rattle.campaign_cli.specs.Surroundings.Shelves.{MemoryShelfState};

    ghost Value = { MemoryShelfState };

    ghost view = { λ shelf. record {
      files = shelf.files.items;
      plan = shelf.plan;
      faults = shelf.faults;
      misses = shelf.misses;
    } };
}

// a call of its own, so that no caller's proof takes a shelf apart
impl Drop for MemoryShelf {
    fn drop(self) {
        let MemoryShelf {
            files: _,
            plan: _,
            faults: _,
            misses: _,
        } = self;
    }
}

impl MemoryShelf {
    /// A shelf of these files, by name and bytes. The reads at the places in `fails`, from 1, fail.
    pub fn new(files: Vec<(Text, Text)>, fails: Vec<u64>) -> MemoryShelf
        ensures { result ≡ record {
          files = files.items;
          plan = record { fails = fails.items; calls = 0 };
          faults = 0;
          misses = 0;
        } }
    {
        MemoryShelf {
            files,
            plan: FailurePlan::new(fails),
            faults: 0,
            misses: 0,
        }
    }

    /// How many calls answered `Failed` for want of memory: none, since `read_file` answers
    /// `Memory`.
    pub fn wants(&self) -> u64
        ensures { result ≡ 0 }
    {
        0
    }
}

impl Shelf for MemoryShelf {
    ghost seen = { told_by };

    /// A read that is to fail changes the counts alone; another one never answers `Failed`.
    fn read_file(&mut self, alloc: Global, name: &[u8]) -> Result<Vec<u8>, ShelfFault>
        ensures bytes { IfOk result (λ bytes. GivesFile (told_by self.old) name.now bytes.items) }
        ensures lacks { result ≡ Err ShelfFault.Absent → LacksFile (told_by self.old) name.now }
        ensures failed { (result ≡ Err ShelfFault.Failed) ↔ IsTrue (fails_next self.old.plan) }
        ensures after { self.new ≡ after_file_read self.old result }
    {
        if self.plan.call() {
            self.faults = count_more(self.faults);
            return Err(ShelfFault::Failed);
        }
        match bytes_of(&self.files, name) {
            Some(bytes) => match Vec::from_slice(alloc, bytes) {
                Ok(copy) => Ok(copy),
                Err(_) => Err(ShelfFault::Memory),
            },
            None => {
                self.misses = count_more(self.misses);
                Err(ShelfFault::Absent)
            }
        }
    }
}

fn bytes_of<'a>(files: &'a [(Text, Text)], name: &[u8]) -> Option<&'a [u8]>
    ensures value { option_copied result ≡ file_at files.now name.now }
    ensures few { IfSome result (λ bytes. length bytes.now ≤ 268435456) }
{
    files
        .iter()
        .find(|file| file.0.bytes() == name && file.1.bytes().len() <= MOST_BYTES)
        .map(|file| file.1.bytes())
}
