//! Opening a journal. The bytes are read whole, at once; what a crash left behind the last whole
//! record is mended. Bytes that are no journal are left as they are.
ghost use Rattle.std.specs.Prelude.{◌≡◌, ◌≢◌, ℕ, ◌+◌, ◌≤◌, ◌<◌, ◌^◌, [], List, length, take, true, IfErr, IfOk, IfSome, OnOk, nat_eq};
ghost use Rattle.std.specs.List.{starts_with};
ghost use Rattle.decimal_rank.specs.Causes.{HasCause, Rose};
ghost use Rattle.disk_model.specs.Disks.{EachMoment, NoFurther};
ghost use Rattle.journal.specs.declared.opening.OpenFault.{OpenFault};
ghost use Rattle.journal.specs.declared.opening.OpenFault.TheVariants.{Disk as DiskFault, Memory as MemoryFault};
ghost use Rattle.journal.specs.Format.{decode, empty_journal, mark, state_byte};
ghost use Rattle.journal.specs.KeptRecords.{payloads};
ghost use Rattle.journal.specs.Moments.{DecodesAs, Turned, Turns};
ghost use Rattle.journal.specs.Openings.{HasBytes, NotRecovered, NotRecoveredFrom, Recovered, RecoveredFrom};

use crate::layout::{EMPTY_JOURNAL, HEADER_LENGTH, MOST_OPENED, MOVING, STATE_PLACE};
use crate::mends::mend_due;
use crate::reading::{Records, behind, due_at, has_mark, read_records, told_place_of};
use crate::replacing::areas::area_of;
use crate::replacing::moves::settle;
use decimal_rank::Memory;
use disk_model::{Disk, Failed};
use std::alloc::Global;

/// Why a journal isn't opened.
#[derive(Clone, Copy, Debug, PartialEq, Eq)]
pub enum OpenFault {
    /// A call on the disk failed.
    Disk,
    /// The bytes are more than an empty journal's and begin otherwise.
    Header,
    Memory,
}

impl From<Failed> for OpenFault {
    ghost from_gives = { λ _ fault. fault ≡ DiskFault };

    fn from(_failed: Failed) -> OpenFault {
        OpenFault::Disk
    }
}

impl From<Memory> for OpenFault {
    ghost from_gives = { λ _ fault. fault ≡ MemoryFault };

    fn from(_memory: Memory) -> OpenFault {
        OpenFault::Memory
    }
}

/// Reads a journal's records and mends it; a disk with fewer bytes than a record takes becomes an
/// empty journal.
pub(crate) fn recover<D: Disk>(alloc: Global, disk: &mut D) -> Result<Records, OpenFault>
    ensures recovered { IfOk result (λ found. Recovered D.seen disk.old disk.new
        found.place (payloads found.payloads.items)) }
    ensures refused { IfErr result (λ fault. NotRecovered D.seen disk.old disk.new fault) }
{
    let bytes = read_all(alloc, disk)?;
    if bytes.len() <= EMPTY_JOURNAL.len() {
        begin_empty(disk)?;
        return Ok(Records {
            payloads: Vec::new(alloc),
            place: HEADER_LENGTH,
        });
    }
    recover_records(alloc, disk, &bytes)
}

/// All bytes of the disk, which are then the only ones that a crash leaves.
fn read_all<D: Disk>(alloc: Global, disk: &mut D) -> Result<Vec<u8>, OpenFault>
    ensures alone { IfOk result (λ bytes. (image : List ℕ) → (D.seen disk.new).images image
        → image ≡ bytes.items) }
    ensures told { IfOk result
        (λ bytes. IfSome (D.seen disk.old).content (λ content. content ≡ bytes.items)) }
    ensures few { IfOk result (λ bytes. length bytes.items < 2 ^ 39) }
    ensures any_moment { IfOk result
        (λ bytes. Turned D.seen disk.old disk.new (λ image. image ≡ bytes.items)) }
    ensures any_moment_err { IfErr result
        (λ _. Turns D.seen disk.old disk.new (DecodesAs (D.seen disk.old).content)) }
    ensures content { (D.seen disk.new).content ≡ (D.seen disk.old).content }
    ensures crash { NoFurther (D.seen disk.old).images (D.seen disk.new).images }
    ensures fault { IfErr result (λ fault. fault ≢ OpenFault.Header) }
    ensures disk { IfErr result (λ fault. fault ≡ DiskFault
        → Rose (D.seen disk.old).faults (D.seen disk.new).faults) }
    ensures later { (D.seen disk.old).faults ≤ (D.seen disk.new).faults }
{
    disk.sync()?;
    let count = disk.len()?;
    if count >= MOST_OPENED {
        return Err(OpenFault::Memory);
    }
    let mut bytes = zeros(alloc, count as usize)?;
    disk.read(0, &mut bytes)?;
    Ok(bytes)
}

fn zeros(alloc: Global, count: usize) -> Result<Vec<u8>, Memory>
    ensures { IfOk result (λ bytes. length bytes.items ≡ count) }
{
    let mut bytes = Vec::new(alloc);
    bytes.resize(count, 0)?;
    Ok(bytes)
}

/// Makes an empty journal of a disk that has no more bytes than one.
fn begin_empty<D: Disk>(disk: &mut D) -> Result<(), Failed>
    requires { (image : List ℕ) → (D.seen disk.old).images image → length image ≤ 17 }
    ensures empty { OnOk result ((image : List ℕ) → (D.seen disk.new).images image
        → image ≡ empty_journal) }
    ensures any_moment { EachMoment D.seen disk.old disk.new (λ image. length image ≤ 17) }
    ensures cause { HasCause (D.seen disk.old).faults (D.seen disk.new).faults result }
{
    disk.write_at(0, &EMPTY_JOURNAL)?;
    disk.cut(EMPTY_JOURNAL.len() as u64)?;
    disk.sync()?;
    Ok(())
}

/// Reads the records of these bytes, which are the only ones that a crash leaves, and mends their
/// end; or moves them on where they were being moved.
fn recover_records<D: Disk>(alloc: Global, disk: &mut D, bytes: &[u8]) -> Result<Records, OpenFault>
    requires disk { HasBytes (D.seen disk.old).images bytes.now }
    ensures recovered { IfOk result (λ found. RecoveredFrom (D.seen disk.new).images bytes.now
        found.place (payloads found.payloads.items)) }
    ensures refused { IfErr result
        (λ fault. NotRecoveredFrom D.seen disk.old disk.new bytes.now fault) }
    ensures any_moment { EachMoment D.seen disk.old disk.new
        (λ image. decode image ≡ decode bytes.now) }
    ensures later { (D.seen disk.old).faults ≤ (D.seen disk.new).faults }
{
    if !has_mark(bytes) {
        return Err(OpenFault::Header);
    }
    if bytes[STATE_PLACE] == MOVING {
        move_on(alloc, disk, bytes)
    } else {
        mend_end(alloc, disk, bytes)
    }
}

/// The records stand behind the header.
fn mend_end<D: Disk>(alloc: Global, disk: &mut D, bytes: &[u8]) -> Result<Records, OpenFault>
    requires disk { HasBytes (D.seen disk.old).images bytes.now }
    requires marked { take 8 bytes.now ≡ mark }
    requires at_rest { state_byte bytes.now ≢ 2 }
    ensures recovered { IfOk result (λ found. RecoveredFrom (D.seen disk.new).images bytes.now
        found.place (payloads found.payloads.items)) }
    ensures refused { IfErr result
        (λ fault. NotRecoveredFrom D.seen disk.old disk.new bytes.now fault) }
    ensures any_moment { EachMoment D.seen disk.old disk.new
        (λ image. decode image ≡ decode bytes.now) }
    ensures later { (D.seen disk.old).faults ≤ (D.seen disk.new).faults }
{
    let found = read_records(alloc, behind(bytes, HEADER_LENGTH))?;
    let Records { payloads, place } = found;
    let place = HEADER_LENGTH + place;
    let mut due = due_at(bytes, place);
    mend_due(disk, place as u64, &mut due)?;
    Ok(Records { payloads, place })
}

/// The records stand at the place that is told, and are moved behind the header.
fn move_on<D: Disk>(alloc: Global, disk: &mut D, bytes: &[u8]) -> Result<Records, OpenFault>
    requires disk { HasBytes (D.seen disk.old).images bytes.now }
    requires marked { take 8 bytes.now ≡ mark }
    requires moving { state_byte bytes.now ≡ 2 }
    ensures recovered { IfOk result (λ found. RecoveredFrom (D.seen disk.new).images bytes.now
        found.place (payloads found.payloads.items)) }
    ensures refused { IfErr result
        (λ fault. NotRecoveredFrom D.seen disk.old disk.new bytes.now fault) }
    ensures any_moment { EachMoment D.seen disk.old disk.new
        (λ image. decode image ≡ decode bytes.now) }
    ensures later { (D.seen disk.old).faults ≤ (D.seen disk.new).faults }
{
    let told = told_place_of(bytes);
    if told >= bytes.len() as u64 {
        return Err(OpenFault::Header);
    }
    let found = read_records(alloc, behind(bytes, told as usize))?;
    let Records { payloads, place } = found;
    let end = HEADER_LENGTH + place;
    if end as u64 >= told {
        return Err(OpenFault::Header);
    }
    let area = area_of(alloc, &behind(bytes, told as usize)[..place])?;
    settle(disk, &area)?;
    Ok(Records {
        payloads,
        place: end,
    })
}
