//! A shelf that tells on standard error which file couldn't be read.
use campaign_cli::{MOST_BYTES, Shelf, ShelfFault};
use std::alloc::Global;

/// A shelf, and standard error.
#[derive(Drop)]
pub struct ReportingShelf<F: Shelf, E: Eprint> {
    shelf: F,
    errors: E,
}

impl<F: Shelf, E: Eprint> ReportingShelf<F, E> {
    /// This shelf, whose failures are told there.
    pub fn new(shelf: F, errors: E) -> ReportingShelf<F, E> {
        ReportingShelf { shelf, errors }
    }
}

impl<F: Shelf, E: Eprint> Shelf for ReportingShelf<F, E> {
    ghost seen = { λ it. F.seen it.shelf };

    fn read_file(&mut self, alloc: Global, name: &[u8]) -> Result<Vec<u8>, ShelfFault> {
        let given = self.shelf.read_file(alloc, name);
        let file = str::from_utf8(name).unwrap_or("a file");
        let _ = match given {
            Err(ShelfFault::Absent) => eprintln!(self.errors;
                "campaign: {file} can't be read: this folder has no such file, or it has more than {MOST_BYTES} bytes: look at its name and at the folder"
            ),
            Err(ShelfFault::Failed) => eprintln!(self.errors;
                "campaign: {file} can't be read: look at its permissions, and whether it is a file"
            ),
            Err(ShelfFault::Memory) | Ok(_) => Ok(()),
        };
        given
    }
}
