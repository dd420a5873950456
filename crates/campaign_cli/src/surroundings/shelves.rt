//! What files are read from.
ghost use Rattle.std.specs.Prelude.{◌≡◌, IfOk};
ghost use Rattle.decimal_rank.specs.Causes.{Rose};
ghost use Rattle.campaign_cli.specs.Surroundings.Shelves.{ShelfState, GivesFile, LacksFile, KeepsFiles};

use crate::surroundings::faults::ShelfFault;
use std::alloc::Global;

/// The most bytes that a file may have to be read.
pub const MOST_BYTES: usize = 268_435_456;

/// Files by name.
pub trait Shelf {
    /// What the shelf tells.
    ghost seen: { Self → ShelfState };

    /// The bytes of the file of this name, at most `MOST_BYTES`; a longer file is as absent.
    fn read_file(&mut self, alloc: Global, name: &[u8]) -> Result<Vec<u8>, ShelfFault>
        ensures follows { KeepsFiles (seen self.old) (seen self.new) }
        ensures bytes { IfOk result (λ bytes. GivesFile (seen self.old) name.now bytes.items) }

        // an absent file is a miss and no fault
        ensures lacks { result ≡ Err ShelfFault.Absent → LacksFile (seen self.old) name.now }
        ensures missed { result ≡ Err ShelfFault.Absent
            → Rose (seen self.old).misses (seen self.new).misses }
        ensures no_fault { result ≡ Err ShelfFault.Absent
            → (seen self.new).faults ≡ (seen self.old).faults }

        // a failed read is a fault and no miss
        ensures failed { result ≡ Err ShelfFault.Failed
            → Rose (seen self.old).faults (seen self.new).faults }
        ensures no_miss { result ≡ Err ShelfFault.Failed
            → (seen self.new).misses ≡ (seen self.old).misses };
}
