//! A file that a command reads.
ghost use Rattle.std.specs.Prelude.{IfOk, IfErr};
ghost use Rattle.campaign_cli.specs.Causes.{IsUnread};
ghost use Rattle.campaign_cli.specs.Surroundings.Shelves.{GivesFile, KeepsFiles};

use crate::endings::Cause;
use crate::surroundings::faults::ShelfFault;
use crate::surroundings::shelves::Shelf;
use std::alloc::Global;

/// The bytes of a file, or why there are none: it wasn't read, or there was no memory for them.
pub(crate) fn read<F: Shelf>(alloc: Global, shelf: &mut F, name: &[u8]) -> Result<Vec<u8>, Cause>
    ensures given { IfOk result (λ bytes. GivesFile (F.seen shelf.old) name.now bytes.items) }
    ensures unread { IfErr result (λ cause. IsUnread (F.seen shelf.old) (F.seen shelf.new)
        name.now cause) }
    ensures follows { KeepsFiles (F.seen shelf.old) (F.seen shelf.new) }
{
    match shelf.read_file(alloc, name) {
        Ok(bytes) => Ok(bytes),
        Err(ShelfFault::Absent) => Err(Cause::File),
        Err(ShelfFault::Failed) => Err(Cause::File),
        Err(ShelfFault::Memory) => Err(Cause::Memory),
    }
}
