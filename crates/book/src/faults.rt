//! Why a book isn't opened.

use decimal_rank::Memory;

/// Why a disk isn't opened as a book.
#[derive(Clone, Copy, Debug, PartialEq, Eq)]
pub enum BookFault {
    /// A call on the disk failed.
    Disk,
    /// The bytes are more than an empty journal's and begin otherwise.
    Header,
    /// The first so many entries of the records, counted from 1, aren't a campaign's; those before
    /// the last of them are. A record that has no entries counts as one.
    Damaged { entry: u32 },
    /// The records are the entries of a campaign with other rules.
    RulesDiffer,
    Memory,
}

impl From<Memory> for BookFault {
    ghost use Rattle.std.specs.Prelude.{◌≡◌};
    ghost use Rattle.book.specs.declared.faults.BookFault.TheVariants.{Memory as NoMemory};

    ghost from_gives = { λ _ fault. fault ≡ NoMemory };

    fn from(_memory: Memory) -> BookFault {
        BookFault::Memory
    }
}
