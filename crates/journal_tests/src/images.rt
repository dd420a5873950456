//! Images that a stop in a call of the disk may leave: the bytes of the last sync, with others
//! wherever something was written or cut off since.
use crate::openings::text_and_rest;
use disk_model::DiskCall;
use std::alloc::Global;
use std::test::Fail;

/// What stands after a stop where something was written or cut off.
#[derive(Clone, Copy)]
enum Fill {
    Old,
    New,
    Byte(u8),
}

const FILLS: [Fill; 7] = [
    Fill::Old,
    Fill::New,
    Fill::Byte(0),
    Fill::Byte(1),
    Fill::Byte(2),
    Fill::Byte(3),
    Fill::Byte(0x4d),
];

/// A disk on which calls are made again, one by one.
#[derive(Drop)]
struct Replayed {
    synced: Vec<u8>,
    now: Vec<u8>,
    // the places that were neither written nor cut off since the last sync
    same: Vec<bool>,
}

/// The texts of records that the images at each moment of these calls give, each once and with a
/// line's end, in the order in which they come.
pub(crate) fn texts_given(
    alloc: Global,
    start: &[u8],
    calls: &[DiskCall],
) -> Result<Vec<u8>, Fail> {
    let mut disk = at_start(alloc, start)?;
    let mut texts = Vec::new(alloc);
    for call in calls {
        make(alloc, &mut disk, call)?;
        add_texts(alloc, &disk, &mut texts)?;
    }
    let mut lines = Vec::new(alloc);
    for text in &texts {
        lines.extend_from_slice(text)?;
        lines.push(b'\n')?;
    }
    Ok(lines)
}

fn at_start(alloc: Global, start: &[u8]) -> Result<Replayed, Fail> {
    Ok(Replayed {
        synced: start.to_vec(alloc)?,
        now: start.to_vec(alloc)?,
        same: vec![in alloc; true; start.len()]?,
    })
}

fn make(alloc: Global, disk: &mut Replayed, call: &DiskCall) -> Result<(), Fail> {
    match call {
        DiskCall::Len => {}
        DiskCall::Read { .. } => {}
        DiskCall::Write { place, piece } => {
            let written = vec![in alloc; false; piece.bytes().len()]?;
            disk.now = with_piece(alloc, &disk.now, *place as usize, piece.bytes())?;
            disk.same = with_piece(alloc, &disk.same, *place as usize, &written)?;
        }
        DiskCall::Cut { to } => {
            disk.now.truncate(*to as usize);
            disk.same.truncate(*to as usize);
        }
        DiskCall::Sync => {
            disk.synced = disk.now.to_vec(alloc)?;
            disk.same = vec![in alloc; true; disk.now.len()]?;
        }
    }
    Ok(())
}

/// These items with a piece at this place, or at their end where it is behind that.
fn with_piece<T: Copy>(
    alloc: Global,
    items: &[T],
    place: usize,
    piece: &[T],
) -> Result<Vec<T>, Fail> {
    let mut all = items.get(..place).unwrap_or(items).to_vec(alloc)?;
    all.extend_from_slice(piece)?;
    if let Some(rest) = items.get(all.len()..) {
        all.extend_from_slice(rest)?;
    }
    Ok(all)
}

fn add_texts(alloc: Global, disk: &Replayed, texts: &mut Vec<Vec<u8>>) -> Result<(), Fail> {
    let least = disk.synced.len().min(disk.now.len());
    let greatest = disk.synced.len().max(disk.now.len());
    for fill in FILLS {
        for length in [least, greatest] {
            let (text, _rest) = text_and_rest(alloc, &image(alloc, disk, fill, length)?)?;
            if !has(texts, &text) {
                texts.push(text)?;
            }
        }
    }
    Ok(())
}

fn has(texts: &[Vec<u8>], wanted: &[u8]) -> bool {
    for text in texts {
        if text.as_slice() == wanted {
            return true;
        }
    }
    false
}

fn image(alloc: Global, disk: &Replayed, fill: Fill, length: usize) -> Result<Vec<u8>, Fail> {
    let mut bytes = Vec::new(alloc);
    for place in 0..length {
        let here = match disk.same.get(place) {
            Some(true) => Fill::Old,
            Some(false) | None => fill,
        };
        bytes.push(match here {
            Fill::Old => byte_at(&disk.synced, place),
            Fill::New => byte_at(&disk.now, place),
            Fill::Byte(byte) => byte,
        })?;
    }
    Ok(bytes)
}

/// A byte that never was written where there is none.
fn byte_at(bytes: &[u8], place: usize) -> u8 {
    match bytes.get(place) {
        Some(byte) => *byte,
        None => 0x55,
    }
}
