//! The four steps of an append and of a mend, each synced: a frame behind a closed gate, the gate
//! opened, the gate closed, and what stands behind it cut off.
ghost use Rattle.std.specs.Prelude.{ℕ, ◌+◌, ◌≤◌, ◌^◌, [], ◌∷◌, ◌++◌, List, length, OnOk};
ghost use Rattle.decimal_rank.specs.Causes.{HasCause};
ghost use Rattle.disk_model.specs.Disks.{EachMoment};
ghost use Rattle.journal.specs.Format.{payload_behind};
ghost use Rattle.journal.specs.Frames.{IsFrame};
ghost use Rattle.journal.specs.KeptRecords.{ClosesAt, CutDue, EndsClosed, GateDue, HoldsRecords, Settled, Staged};
ghost use Rattle.journal.specs.DiskSteps.{ReachesTo};

use crate::layout::{CLOSED, OPEN};
use crate::synced_calls::{cut_through, write_through};
use disk_model::{Disk, Failed};

/// Writes a frame behind the closed gate at this place.
pub(crate) fn stage<D: Disk>(disk: &mut D, place: u64, bytes: &[u8]) -> Result<(), Failed>
    requires within { ReachesTo (place + 1) (D.seen disk.old).images }
    requires room { place + 1 + length bytes.now ≤ 2 ^ 40 }
    ensures done { OnOk result ((all : List (List ℕ)) → Settled (D.seen disk.old).images place all
        → Staged (D.seen disk.new).images place all bytes.now) }
    ensures left { (all : List (List ℕ)) → Settled (D.seen disk.old).images place all
        → CutDue (D.seen disk.new).images place all }
    ensures any_moment { (all pending : List (List ℕ)) → Settled (D.seen disk.old).images place all
        → EachMoment D.seen disk.old disk.new (HoldsRecords all pending) }
    ensures cause { HasCause (D.seen disk.old).faults (D.seen disk.new).faults result }
{
    write_through(disk, place + 1, bytes)
}

/// Opens the gate in front of a frame.
pub(crate) fn open_gate<D: Disk>(disk: &mut D, place: u64) -> Result<(), Failed>
    requires within { ReachesTo place (D.seen disk.old).images }
    requires room { place + 1 ≤ 2 ^ 40 }
    ensures done { OnOk result ((all : List (List ℕ)) (bytes : List ℕ) → IsFrame bytes
        → Staged (D.seen disk.old).images place all bytes
        → Settled (D.seen disk.new).images (place + length bytes)
        (all ++ payload_behind bytes ∷ [])) }
    ensures closed { OnOk result ((all : List (List ℕ)) (bytes : List ℕ) → IsFrame bytes
        → Staged (D.seen disk.old).images place all bytes
        → EndsClosed (D.seen disk.new).images (place + length bytes)) }
    ensures left { (all : List (List ℕ)) (bytes : List ℕ) → IsFrame bytes
        → Staged (D.seen disk.old).images place all bytes
        → GateDue (D.seen disk.new).images place all (payload_behind bytes ∷ []) }
    ensures any_moment { (all : List (List ℕ)) (bytes : List ℕ) → IsFrame bytes
        → Staged (D.seen disk.old).images place all bytes
        → EachMoment D.seen disk.old disk.new (HoldsRecords all (payload_behind bytes ∷ [])) }
    ensures cause { HasCause (D.seen disk.old).faults (D.seen disk.new).faults result }
{
    write_through(disk, place, &[OPEN])
}

/// Closes a gate that may be open or missing.
pub(crate) fn close_gate<D: Disk>(disk: &mut D, place: u64) -> Result<(), Failed>
    requires within { ReachesTo place (D.seen disk.old).images }
    requires room { place + 1 ≤ 2 ^ 40 }
    ensures done { OnOk result ((all pending : List (List ℕ))
        → GateDue (D.seen disk.old).images place all pending
        → CutDue (D.seen disk.new).images place all) }
    ensures closed { OnOk result ((all pending : List (List ℕ))
        → GateDue (D.seen disk.old).images place all pending
        → ClosesAt (D.seen disk.new).images place) }
    ensures left { (all pending : List (List ℕ))
        → GateDue (D.seen disk.old).images place all pending
        → GateDue (D.seen disk.new).images place all pending }
    ensures any_moment { (all pending : List (List ℕ))
        → GateDue (D.seen disk.old).images place all pending
        → EachMoment D.seen disk.old disk.new (HoldsRecords all pending) }
    ensures cause { HasCause (D.seen disk.old).faults (D.seen disk.new).faults result }
{
    write_through(disk, place, &[CLOSED])
}

/// Cuts off what stands behind the closed gate.
pub(crate) fn trim<D: Disk>(disk: &mut D, place: u64) -> Result<(), Failed>
    requires within { ReachesTo (place + 1) (D.seen disk.old).images }
    requires room { place + 1 ≤ 2 ^ 40 }
    ensures done { OnOk result ((all : List (List ℕ)) → CutDue (D.seen disk.old).images place all
        → Settled (D.seen disk.new).images place all) }
    ensures closed { OnOk result (ClosesAt (D.seen disk.old).images place
        → EndsClosed (D.seen disk.new).images place) }
    ensures left { (all : List (List ℕ)) → CutDue (D.seen disk.old).images place all
        → CutDue (D.seen disk.new).images place all }
    ensures any_moment { (all pending : List (List ℕ)) → CutDue (D.seen disk.old).images place all
        → EachMoment D.seen disk.old disk.new (HoldsRecords all pending) }
    ensures cause { HasCause (D.seen disk.old).faults (D.seen disk.new).faults result }
{
    cut_through(disk, place + 1)
}
