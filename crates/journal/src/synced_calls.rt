//! A write and a cut that are synced at once: after Ok each image is an old one with all of it
//! done, and before that one with all, a part or nothing of it done.
ghost use Rattle.std.specs.Prelude.{◌≡◌, ℕ, ◌+◌, ◌≤◌, ◌^◌, List, length, take, OnOk};
ghost use Rattle.decimal_rank.specs.Causes.{HasCause};
ghost use Rattle.disk_model.specs.Disks.{CutShort, EachMoment, Follows, Torn, written};
ghost use Rattle.journal.specs.DiskSteps.{ReachesTo, WithStep};

use disk_model::{Disk, Failed};

/// Writes the piece and syncs.
pub(crate) fn write_through<D: Disk>(disk: &mut D, place: u64, piece: &[u8]) -> Result<(), Failed>
    requires within { ReachesTo place (D.seen disk.old).images }
    requires room { place + length piece.now ≤ 2 ^ 40 }
    ensures done { OnOk result (Follows (λ earlier image. image ≡ written place piece.now earlier)
        (D.seen disk.old).images (D.seen disk.new).images) }
    ensures crash { Follows (Torn place (length piece.now))
        (D.seen disk.old).images (D.seen disk.new).images }
    ensures any_moment { EachMoment D.seen disk.old disk.new
        (WithStep (Torn place (length piece.now)) (D.seen disk.old).images) }
    ensures cause { HasCause (D.seen disk.old).faults (D.seen disk.new).faults result }
{
    disk.write_at(place, piece)?;
    disk.sync()?;
    Ok(())
}

/// Writes the one piece, then the other, and syncs.
pub(crate) fn write_both_through<D: Disk>(
    disk: &mut D,
    place: u64,
    piece: &[u8],
    start: u64,
    other: &[u8],
) -> Result<(), Failed>
    requires within { ReachesTo place (D.seen disk.old).images }
    requires start { ReachesTo start (D.seen disk.old).images }
    requires room { place + length piece.now ≤ 2 ^ 40 }
    requires space { start + length other.now ≤ 2 ^ 40 }
    ensures done { OnOk result (Follows
        (λ earlier image. image ≡ written start other.now (written place piece.now earlier))
        (D.seen disk.old).images (D.seen disk.new).images) }
    ensures any_moment { EachMoment D.seen disk.old disk.new
        (WithStep (Torn start (length other.now))
        (WithStep (Torn place (length piece.now)) (D.seen disk.old).images)) }
    ensures cause { HasCause (D.seen disk.old).faults (D.seen disk.new).faults result }
{
    disk.write_at(place, piece)?;
    disk.write_at(start, other)?;
    disk.sync()?;
    Ok(())
}

/// Cuts the disk and syncs.
pub(crate) fn cut_through<D: Disk>(disk: &mut D, to: u64) -> Result<(), Failed>
    requires within { ReachesTo to (D.seen disk.old).images }
    ensures done { OnOk result (Follows (λ earlier image. image ≡ take to earlier)
        (D.seen disk.old).images (D.seen disk.new).images) }
    ensures crash { Follows (CutShort to) (D.seen disk.old).images (D.seen disk.new).images }
    ensures any_moment { EachMoment D.seen disk.old disk.new
        (WithStep (CutShort to) (D.seen disk.old).images) }
    ensures cause { HasCause (D.seen disk.old).faults (D.seen disk.new).faults result }
{
    disk.cut(to)?;
    disk.sync()?;
    Ok(())
}
