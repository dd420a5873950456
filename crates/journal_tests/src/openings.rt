//! Journals that are opened on a disk in memory, and what their records are.
use disk_model::MemoryDisk;
use journal::{Frame, Journal, OpenFault};
use std::alloc::Global;
use std::test::Fail;

/// Two records, `ab` and `c`.
pub(crate) const WHOLE: [u8; 30] = *b"POOLJRNL\x01\0\0\0\0\0\0\0\x01\x02\0\0\0ab\x01\x01\0\0\0c\0";

/// What an opening answers.
pub(crate) type Opened = Result<(Journal<MemoryDisk>, Vec<Vec<u8>>), (MemoryDisk, OpenFault)>;

/// Opens a disk with these bytes, of whose calls some are to fail.
pub(crate) fn open_copy(alloc: Global, bytes: &[u8], fails: Vec<u64>) -> Result<Opened, Fail> {
    Ok(Journal::open(alloc, MemoryDisk::new(bytes.to_vec(alloc)?, fails)))
}

/// What an append of this payload answers; None where there is no memory or no room.
pub(crate) fn append(
    alloc: Global,
    journal: &mut Journal<MemoryDisk>,
    payload: &[u8],
) -> Option<Result<(), journal::Failed>> {
    if payload.len() > 100 {
        return None;
    }
    match Frame::of(alloc, payload) {
        Ok(frame) => {
            if !journal.has_room(&frame) {
                return None;
            }
            Some(journal.append(&frame))
        }
        Err(_) => None,
    }
}

/// The records that these bytes give, a bar behind each, and what an opening leaves of them.
pub(crate) fn text_and_rest(alloc: Global, bytes: &[u8]) -> Result<(Vec<u8>, Vec<u8>), Fail> {
    match open_copy(alloc, bytes, Vec::new(alloc))? {
        Ok((journal, payloads)) => {
            let disk = journal.close();
            Ok((joined(alloc, &payloads)?, disk.content().to_vec(alloc)?))
        }
        Err((disk, _fault)) => Ok((b"no journal".to_vec(alloc)?, disk.content().to_vec(alloc)?)),
    }
}

fn joined(alloc: Global, payloads: &[Vec<u8>]) -> Result<Vec<u8>, Fail> {
    let mut text = Vec::new(alloc);
    for payload in payloads {
        text.extend_from_slice(payload)?;
        text.push(b'|')?;
    }
    Ok(text)
}
