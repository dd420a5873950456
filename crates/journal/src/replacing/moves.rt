//! Records that take the place of others, in five phases, each synced: they are written behind the
//! old ones; byte 8 is set to 2, from where on they count; they are written behind the header too;
//! byte 8 is set to 3; and what stands behind them is cut off. A crash at any moment leaves the old
//! records or the new ones, and from the second phase's end on the new ones.
ghost use Rattle.std.specs.Prelude.{◌≡◌, ℕ, ◌+◌, ◌*◌, ◌≤◌, ◌^◌, List, length, OnOk};
ghost use Rattle.decimal_rank.specs.Causes.{HasCause};
ghost use Rattle.disk_model.specs.Disks.{EachMoment};
ghost use Rattle.journal.specs.Format.{place_behind};
ghost use Rattle.journal.specs.KeptRecords.{EndsClosed, HasSettled, Settled};
ghost use Rattle.journal.specs.MovedAreas.{GivesOneOf, GivesRecords, HasTurned, IsArea, IsBack, IsMoved, IsOneImage, IsPlaced, IsTurned};

use crate::appends::stages::trim;
use crate::layout::{HEADER_LENGTH, MOVED, MOVING, STATE_PLACE, TOLD_PLACE};
use crate::synced_calls::{write_both_through, write_through};
use disk_model::{Disk, Failed};

/// Puts the records of an area in the place of those behind the header, where nothing is due.
pub(crate) fn move_in<D: Disk>(disk: &mut D, place: u64, area: &[u8]) -> Result<(), Failed>
    requires settled { HasSettled (D.seen disk.old).images place }
    requires area { (all : List (List ℕ)) × IsArea area.now all }
    requires fits { 16 + length area.now ≤ place + 1 }
    requires room { 2 * (place + 1) ≤ 2 ^ 40 }
    ensures moved { OnOk result ((old all : List (List ℕ))
        → Settled (D.seen disk.old).images place old → IsArea area.now all
        → Settled (D.seen disk.new).images (place_behind all) all) }
    ensures closed { OnOk result ((old all : List (List ℕ))
        → Settled (D.seen disk.old).images place old → IsArea area.now all
        → EndsClosed (D.seen disk.new).images (place_behind all)) }
    ensures any_moment { (old all : List (List ℕ))
        → Settled (D.seen disk.old).images place old → IsArea area.now all
        → EachMoment D.seen disk.old disk.new (GivesOneOf old all) }
    ensures cause { HasCause (D.seen disk.old).faults (D.seen disk.new).faults result }
{
    place_area(disk, place, area)?;
    turn(disk, place + 1)?;
    settle(disk, area)?;
    Ok(())
}

/// Tells in the header the place behind the closed gate at this place, and writes the area there.
fn place_area<D: Disk>(disk: &mut D, place: u64, area: &[u8]) -> Result<(), Failed>
    requires settled { HasSettled (D.seen disk.old).images place }
    requires area { (all : List (List ℕ)) × IsArea area.now all }
    requires fits { 16 + length area.now ≤ place + 1 }
    requires room { 2 * (place + 1) ≤ 2 ^ 40 }
    ensures placed { OnOk result ((old all : List (List ℕ))
        → Settled (D.seen disk.old).images place old → IsArea area.now all
        → IsOneImage (D.seen disk.new).images (IsPlaced (place + 1) old all)) }
    ensures any_moment { (old : List (List ℕ)) → Settled (D.seen disk.old).images place old
        → EachMoment D.seen disk.old disk.new (GivesRecords old) }
    ensures cause { HasCause (D.seen disk.old).faults (D.seen disk.new).faults result }
{
    let start = place + 1;
    let told = start.to_le_bytes();
    write_both_through(disk, TOLD_PLACE as u64, &told[..7], start, area)
}

/// Has the records at the place count.
fn turn<D: Disk>(disk: &mut D, place: u64) -> Result<(), Failed>
    requires placed { (old all : List (List ℕ))
        × IsOneImage (D.seen disk.old).images (IsPlaced place old all) }
    ensures turned { OnOk result ((old all : List (List ℕ))
        → IsOneImage (D.seen disk.old).images (IsPlaced place old all)
        → IsOneImage (D.seen disk.new).images (IsTurned place all)) }
    ensures any_moment { (old all : List (List ℕ))
        → IsOneImage (D.seen disk.old).images (IsPlaced place old all)
        → EachMoment D.seen disk.old disk.new (GivesOneOf old all) }
    ensures cause { HasCause (D.seen disk.old).faults (D.seen disk.new).faults result }
{
    write_through(disk, STATE_PLACE as u64, &[MOVING])
}

/// Moves the records that stand at a place behind the header.
pub(crate) fn settle<D: Disk>(disk: &mut D, area: &[u8]) -> Result<(), Failed>
    requires turned { HasTurned (D.seen disk.old).images area.now }
    ensures settled { OnOk result ((place : ℕ) (all : List (List ℕ))
        → IsOneImage (D.seen disk.old).images (IsTurned place all) → IsArea area.now all
        → Settled (D.seen disk.new).images (place_behind all) all) }
    ensures closed { OnOk result ((place : ℕ) (all : List (List ℕ))
        → IsOneImage (D.seen disk.old).images (IsTurned place all) → IsArea area.now all
        → EndsClosed (D.seen disk.new).images (place_behind all)) }
    ensures any_moment { (place : ℕ) (all : List (List ℕ))
        → IsOneImage (D.seen disk.old).images (IsTurned place all) → IsArea area.now all
        → EachMoment D.seen disk.old disk.new (GivesRecords all) }
    ensures cause { HasCause (D.seen disk.old).faults (D.seen disk.new).faults result }
{
    put_behind_header(disk, area)?;
    turn_back(disk)?;
    trim(disk, (HEADER_LENGTH + area.len()) as u64 - 1)?;
    Ok(())
}

/// Writes the area behind the header.
fn put_behind_header<D: Disk>(disk: &mut D, area: &[u8]) -> Result<(), Failed>
    requires turned { HasTurned (D.seen disk.old).images area.now }
    ensures moved { OnOk result ((place : ℕ) (all : List (List ℕ))
        → IsOneImage (D.seen disk.old).images (IsTurned place all) → IsArea area.now all
        → IsOneImage (D.seen disk.new).images (IsMoved place all)) }
    ensures any_moment { (place : ℕ) (all : List (List ℕ))
        → IsOneImage (D.seen disk.old).images (IsTurned place all) → IsArea area.now all
        → EachMoment D.seen disk.old disk.new (GivesRecords all) }
    ensures cause { HasCause (D.seen disk.old).faults (D.seen disk.new).faults result }
{
    write_through(disk, HEADER_LENGTH as u64, area)
}

/// Has the records behind the header count again.
fn turn_back<D: Disk>(disk: &mut D) -> Result<(), Failed>
    requires moved { (place : ℕ) × (all : List (List ℕ))
        × IsOneImage (D.seen disk.old).images (IsMoved place all) }
    ensures back { OnOk result ((place : ℕ) (all : List (List ℕ))
        → IsOneImage (D.seen disk.old).images (IsMoved place all)
        → IsOneImage (D.seen disk.new).images (IsBack all)) }
    ensures any_moment { (place : ℕ) (all : List (List ℕ))
        → IsOneImage (D.seen disk.old).images (IsMoved place all)
        → EachMoment D.seen disk.old disk.new (GivesRecords all) }
    ensures cause { HasCause (D.seen disk.old).faults (D.seen disk.new).faults result }
{
    write_through(disk, STATE_PLACE as u64, &[MOVED])
}
