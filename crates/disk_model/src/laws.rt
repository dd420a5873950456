//! What callers may rely on of the images of a disk in memory, as a law.
ghost use Rattle.std.specs.Prelude.{ℕ, List};
ghost use Rattle.disk_model.specs.MemoryDisks.{MemoryDiskState};
ghost use Rattle.disk_model.specs.Syncs.{Agrees, since_sync};

use crate::disks::Disk;
use crate::memory_disk::MemoryDisk;

/// Each image is the bytes of the last sync wherever nothing was written or cut off since then, and
/// its length is between the least and the greatest since then.
pub fn images_agree_with_the_last_sync()
    ensures { (disk : MemoryDiskState) (image : List ℕ)
        → (⟦<MemoryDisk as Disk>⟧.seen disk).images image → Agrees (since_sync disk.held) image }
{}
