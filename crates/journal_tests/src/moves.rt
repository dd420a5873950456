//! Tries records that take the place of a journal's: how many bytes they may have, each call of a
//! move failing, and a mend that is due before it.
use crate::openings::{WHOLE, append, open_copy, text_and_rest};
use disk_model::MemoryDisk;
use journal::{Area, Journal, ReplaceEnd};
use std::alloc::Global;
use std::test::Fail;

/// The one record `abc` behind a header of which the place 30 was told, and which was turned back.
const MOVED: [u8; 25] = *b"POOLJRNL\x03\x1e\0\0\0\0\0\0\x01\x03\0\0\0abc\0";

/// The two old records, where the place 30 was told.
const TOLD: [u8; 30] = *b"POOLJRNL\x01\x1e\0\0\0\0\0\0\x01\x02\0\0\0ab\x01\x01\0\0\0c\0";

/// The area of one payload; None where there is no memory.
fn area_of(alloc: Global, payload: &[u8]) -> Option<Area> {
    if payload.len() > 100 {
        return None;
    }
    let payload = Vec::from_slice(alloc, payload).ok()?;
    let payloads = vec![in alloc; payload].ok()?;
    Area::of(alloc, &payloads).ok()
}

/// What a replacement by this payload's record comes to, and the disk.
fn replaced(journal: Journal<MemoryDisk>, area: Area) -> Option<(MemoryDisk, ReplaceEnd)> {
    if journal.length() > 1000 {
        return None;
    }
    Some(journal.replace(area))
}

/// What it comes to on two records, where this call of the disk fails.
pub(crate) fn replaced_where(
    alloc: Global,
    payload: &[u8],
    fail: u64,
) -> Result<Option<(MemoryDisk, ReplaceEnd)>, Fail> {
    match (
        open_copy(alloc, &WHOLE, vec![in alloc; fail]?)?,
        area_of(alloc, payload),
    ) {
        (Ok((journal, _payloads)), Some(area)) => Ok(replaced(journal, area)),
        _ => Ok(None),
    }
}

/// What a journal with these bytes tells as its length.
fn length_of(alloc: Global, bytes: &[u8]) -> Result<Option<u64>, Fail> {
    match open_copy(alloc, bytes, Vec::new(alloc))? {
        Ok((journal, _payloads)) => {
            let length = journal.length();
            let _disk = journal.close();
            Ok(Some(length))
        }
        Err(_) => Ok(None),
    }
}

#[test]
fn an_area_tells_its_bytes_and_a_journal_its_length(rt: HostRuntime) -> Result<(), Fail> {
    let alloc = rt.alloc();
    let area = area_of(alloc, b"abc").ok_or("no area")?;
    assert!(rt; area.bytes() == 9);
    assert!(rt; length_of(alloc, &WHOLE)? == Some(30));
    Ok(())
}

#[test]
fn an_area_that_takes_no_more_bytes_is_moved_in(rt: HostRuntime) -> Result<(), Fail> {
    let alloc = rt.alloc();
    let cases: [(&[u8], ReplaceEnd, &[u8]); 3] = [
        (b"abc", ReplaceEnd::Done, &MOVED),
        (
            b"12345678",
            ReplaceEnd::Done,
            b"POOLJRNL\x03\x1e\0\0\0\0\0\0\x01\x08\0\0\012345678\0",
        ),
        (b"123456789", ReplaceEnd::Larger, &WHOLE),
    ];
    for (payload, wanted, content) in &cases {
        let (disk, end) = replaced_where(alloc, payload, 100)?.ok_or("no move")?;
        assert!(rt; end == *wanted && disk.content() == *content);
    }
    Ok(())
}

/// Whether an opening leaves these bytes.
fn leaves(alloc: Global, bytes: &[u8], wanted: &[u8]) -> Result<bool, Fail> {
    let (_text, left) = text_and_rest(alloc, bytes)?;
    Ok(left.as_slice() == wanted)
}

#[test]
fn a_move_that_failed_at_a_call_is_undone_or_goes_on(rt: HostRuntime) -> Result<(), Fail> {
    let alloc = rt.alloc();
    // The opening makes five calls and the move eleven: the write of 2 is the ninth of all.
    for fail in 6..17 {
        let wanted: &[u8] = if fail == 6 {
            &WHOLE
        } else if fail < 10 {
            &TOLD
        } else {
            &MOVED
        };
        let (disk, end) = replaced_where(alloc, b"abc", fail)?.ok_or("no move")?;
        assert!(rt; end == ReplaceEnd::Failed && leaves(alloc, disk.content(), wanted)?);
    }
    Ok(())
}

/// What a replacement comes to behind an append that failed at its last call, where this call fails
/// too.
fn replaced_behind_a_fault(
    alloc: Global,
    fail: u64,
) -> Result<Option<(MemoryDisk, ReplaceEnd)>, Fail> {
    let (Ok((mut journal, _payloads)), Some(area)) = (
        open_copy(alloc, &WHOLE, vec![in alloc; 9, fail]?)?,
        area_of(alloc, b"abc"),
    ) else {
        return Ok(None);
    };
    let _failed = append(alloc, &mut journal, b"d");
    Ok(replaced(journal, area))
}

/// Whether these bytes give these records.
fn has_records(alloc: Global, bytes: &[u8], wanted: &[u8]) -> Result<bool, Fail> {
    let (text, _left) = text_and_rest(alloc, bytes)?;
    Ok(text.as_slice() == wanted)
}

#[test]
fn what_is_due_is_mended_before_a_move(rt: HostRuntime) -> Result<(), Fail> {
    let alloc = rt.alloc();
    // The mend makes the calls 10 to 13; a record that was pending may stay where it fails.
    let cases: [(u64, ReplaceEnd, &[u8]); 3] = [
        (10, ReplaceEnd::Failed, b"ab|c|d|"),
        (13, ReplaceEnd::Failed, b"ab|c|"),
        (100, ReplaceEnd::Done, b"abc|"),
    ];
    for (fail, wanted, wanted_text) in &cases {
        let (disk, end) = replaced_behind_a_fault(alloc, *fail)?.ok_or("no move")?;
        assert!(rt; end == *wanted && has_records(alloc, disk.content(), wanted_text)?);
    }
    Ok(())
}
