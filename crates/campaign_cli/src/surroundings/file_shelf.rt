//! The files of the folder that the program runs in.
ghost use Rattle.std.specs.Prelude.{◌≡◌, ◌≤◌, None, IfOk, length};

use crate::surroundings::faults::ShelfFault;
use crate::surroundings::shelves::{MOST_BYTES, Shelf};
use decimal_rank::count_more;
use std::alloc::Global;
use std::fs;
use std::io::{ErrorKind, Read};
use std::rt::Files;

/// The files of the system, by path. It tells its counts alone.
#[derive(Drop)]
pub struct FileShelf<R: Files> {
    files: R,
    faults: u64,
    misses: u64,
}

impl<R: Files + Drop> FileShelf<R> {
    /// A shelf of the system's files, of which no call failed yet.
    pub fn new(files: R) -> FileShelf<R>
        ensures { ⟦<FileShelf<R> as Shelf>⟧.seen result
            ≡ record { files = None; faults = 0; misses = 0 } }
    {
        FileShelf {
            files,
            faults: 0,
            misses: 0,
        }
    }
}

impl<R: Files + Drop> Shelf for FileShelf<R> {
    ghost seen = { λ shelf. record
        { files = None; faults = shelf.faults; misses = shelf.misses } };

    fn read_file(&mut self, alloc: Global, name: &[u8]) -> Result<Vec<u8>, ShelfFault> {
        let result = read_short(&self.files, alloc, name);
        match result {
            Err(ShelfFault::Absent) => self.misses = count_more(self.misses),
            Err(ShelfFault::Failed) => self.faults = count_more(self.faults),
            Ok(_) | Err(ShelfFault::Memory) => {}
        }
        result
    }
}

fn read_short<R: Files>(files: &R, alloc: Global, name: &[u8]) -> Result<Vec<u8>, ShelfFault>
    ensures { IfOk result (λ bytes. length bytes.items ≤ 268435456) }
{
    let Ok(path) = str::from_utf8(name) else {
        return Err(ShelfFault::Absent);
    };
    let file = match fs::open(files, path) {
        Ok(file) => file,
        Err(error) => return Err(fault_of(error.kind())),
    };
    let mut bytes = Vec::new(alloc);
    match file.take(MOST_BYTES as u64 + 1).read_to_end(&mut bytes) {
        Ok(_) if bytes.len() <= MOST_BYTES => Ok(bytes),
        Ok(_) => Err(ShelfFault::Absent),
        Err(error) => Err(fault_of(error.kind())),
    }
}

fn fault_of(kind: ErrorKind) -> ShelfFault {
    match kind {
        ErrorKind::NotFound => ShelfFault::Absent,
        ErrorKind::OutOfMemory => ShelfFault::Memory,
        _ => ShelfFault::Failed,
    }
}
