//! The records of a journal's bytes: record after record up to the first that is closed or isn't
//! whole.
ghost use Rattle.std.specs.Prelude.{◌≡◌, ℕ, ◌+◌, ◌≤◌, ◌<◌, ◌∷◌, ◌++◌, [], false, true, List, Some, length, take, drop, IfSome, IfNone, IfOk, nat_eq};
ghost use Rattle.std.specs.Int.{from_le_bytes, w32, w64};
ghost use Rattle.std.specs.List.{starts_with};
ghost use Rattle.journal.specs.Format.{is_whole, mark, records, told_length, told_place};
ghost use Rattle.journal.specs.KeptRecords.{AreRecords, DueAt, IsRecord, payloads};

use crate::dues::Due;
use crate::layout::{HEADER_LENGTH, LENGTH_BYTES, MARK, OPEN, TOLD_PLACE};
use decimal_rank::Memory;
use std::alloc::Global;

/// Records, and the place of the gate behind the last.
#[derive(Drop)]
pub(crate) struct Records {
    pub(crate) payloads: Vec<Vec<u8>>,
    pub(crate) place: usize,
}

pub(crate) fn has_mark(bytes: &[u8]) -> bool
    ensures { result ≡ starts_with nat_eq bytes.now mark }
{
    bytes.starts_with(&MARK)
}

/// Reads all records from the first byte on.
pub(crate) fn read_records(alloc: Global, bytes: &[u8]) -> Result<Records, Memory>
    ensures records { IfOk result (λ found.
        AreRecords (take found.place bytes.now) (payloads found.payloads.items)) }
    ensures within { IfOk result (λ found. found.place ≤ length bytes.now) }
    ensures all { IfOk result (λ found. records 0 (drop found.place bytes.now) ≡ []) }
{
    let mut payloads = Vec::new(alloc);
    let mut place = 0;
    while let Some(count) = record_at(bytes, place) {
        let start = place + 1 + LENGTH_BYTES;
        payloads.push(copy_of(alloc, &bytes[start..start + count])?)?;
        place = start + count;
    }
    Ok(Records { payloads, place })
}

/// The bytes from this place on.
pub(crate) fn behind(bytes: &[u8], place: usize) -> &[u8]
    requires { place ≤ length bytes.now }
    ensures { result.now ≡ drop place bytes.now }
{
    &bytes[place..]
}

/// The place that a header tells.
pub(crate) fn told_place_of(bytes: &[u8]) -> u64
    requires { 16 ≤ length bytes.now }
    ensures { result ≡ told_place bytes.now }
{
    number_of_seven(&bytes[TOLD_PLACE..HEADER_LENGTH])
}

fn number_of_seven(bytes: &[u8]) -> u64
    requires { length bytes.now ≡ 7 }
    ensures { result ≡ from_le_bytes w64 (bytes.now ++ 0 ∷ []) }
{
    u64::from_le_bytes([
        bytes[0], bytes[1], bytes[2], bytes[3], bytes[4], bytes[5], bytes[6], 0,
    ])
}

/// What has to be mended where no record begins.
pub(crate) fn due_at(bytes: &[u8], place: usize) -> Due
    requires { place ≤ length bytes.now }
    ensures { DueAt bytes.now place result }
{
    match bytes.get(place) {
        None => Due::Gate,
        Some(gate) => { if *gate == OPEN { Due::Gate } else { Due::Cut } }
    }
}

/// The length of the payload of the record that begins here, where one does.
fn record_at(bytes: &[u8], place: usize) -> Option<usize>
    requires { place ≤ length bytes.now }
    ensures none { IfNone result (records 0 (drop place bytes.now) ≡ []) }
    ensures some { IfSome result (λ count. IsRecord bytes.now place count) }
{
    match &bytes[place..] {
        [gate, behind @ ..] => {
            if *gate == OPEN {
                payload_length(behind)
            } else {
                None
            }
        }
        [] => None,
    }
}

/// The length that is told behind an open gate, where so many bytes are there.
fn payload_length(behind: &[u8]) -> Option<usize>
    ensures none { IfNone result (is_whole behind.now ≡ false) }
    ensures some { IfSome result
        (λ count. (told_length behind.now ≡ count) × (4 + count ≤ length behind.now)) }
{
    if behind.len() < LENGTH_BYTES {
        return None;
    }
    let count = number_of(&behind[..LENGTH_BYTES]) as usize;
    if behind.len() - LENGTH_BYTES < count {
        return None;
    }
    Some(count)
}

fn number_of(bytes: &[u8]) -> u32
    requires { length bytes.now ≡ 4 }
    ensures { result ≡ from_le_bytes w32 bytes.now }
{
    u32::from_le_bytes([bytes[0], bytes[1], bytes[2], bytes[3]])
}

fn copy_of(alloc: Global, bytes: &[u8]) -> Result<Vec<u8>, Memory>
    ensures { IfOk result (λ copy. copy.items ≡ bytes.now) }
{
    Ok(bytes.to_vec(alloc)?)
}
