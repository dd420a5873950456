//! Tries what a stop in each call of the disk leaves: of an opening that founds a journal, an
//! append, a mend and a move.
use crate::images::texts_given;
use crate::moves::replaced_where;
use crate::openings::{WHOLE, append, open_copy, text_and_rest};
use disk_model::MemoryDisk;
use std::alloc::Global;
use std::test::Fail;

#[test]
fn a_stop_in_a_move_leaves_the_old_records_or_the_new(rt: HostRuntime) -> Result<(), Fail> {
    let alloc = rt.alloc();
    let (disk, _end) = replaced_where(alloc, b"abc", 100)?.ok_or("no move")?;
    let given = texts_given(alloc, &WHOLE, disk.calls())?;
    assert!(rt; given.as_slice() == b"ab|c|\nabc|\n".as_slice());
    Ok(())
}

/// The disk after an append where this call fails, and one behind it.
fn after_two(alloc: Global, fail: u64) -> Result<Option<MemoryDisk>, Fail> {
    match open_copy(alloc, &WHOLE, vec![in alloc; fail]?)? {
        Ok((mut journal, _payloads)) => {
            let _failed = append(alloc, &mut journal, b"x");
            let _added = append(alloc, &mut journal, b"d");
            Ok(Some(journal.close()))
        }
        Err(_) => Ok(None),
    }
}

/// Whether stops in the calls of a disk give these texts, and the last records are there.
fn gives(alloc: Global, disk: &MemoryDisk, wanted: &[u8]) -> Result<bool, Fail> {
    let given = texts_given(alloc, &WHOLE, disk.calls())?;
    let (text, _left) = text_and_rest(alloc, disk.content())?;
    Ok(given.as_slice() == wanted && text.as_slice() == b"ab|c|d|".as_slice())
}

#[test]
fn a_stop_in_an_append_or_a_mend_leaves_one_record_more_or_none(
    rt: HostRuntime,
) -> Result<(), Fail> {
    let alloc = rt.alloc();
    // The record that failed may be there only where a call on its gate was made.
    let cases: [(u64, &[u8]); 4] = [
        (6, b"ab|c|\nab|c|d|\n"),
        (7, b"ab|c|\nab|c|d|\n"),
        (8, b"ab|c|\nab|c|x|\nab|c|d|\n"),
        (9, b"ab|c|\nab|c|x|\nab|c|d|\n"),
    ];
    for (fail, wanted) in &cases {
        let disk = after_two(alloc, *fail)?.ok_or("no journal")?;
        assert!(rt; gives(alloc, &disk, wanted)?);
    }
    Ok(())
}

/// The disk of an opening where this call fails, and whether it was opened.
fn after_opening(alloc: Global, bytes: &[u8], fail: u64) -> Result<(MemoryDisk, bool), Fail> {
    match open_copy(alloc, bytes, vec![in alloc; fail]?)? {
        Ok((journal, _payloads)) => Ok((journal.close(), true)),
        Err((disk, _fault)) => Ok((disk, false)),
    }
}

/// Whether stops in these calls give no record.
fn gives_none(alloc: Global, start: &[u8], disk: &MemoryDisk) -> Result<bool, Fail> {
    let given = texts_given(alloc, start, disk.calls())?;
    Ok(given.is_empty() || given.as_slice() == b"\n".as_slice())
}

#[test]
fn a_stop_in_an_opening_that_founds_leaves_no_record(rt: HostRuntime) -> Result<(), Fail> {
    let alloc = rt.alloc();
    let starts: [&[u8]; 3] = [b"", b"a file of 17 byte", b"POOLJRNL\x01\0\0\0\0\0\0\0\x01"];
    for start in starts {
        for fail in 1..8 {
            let (disk, is_opened) = after_opening(alloc, start, fail)?;
            // sync, len, read, write, cut, sync
            assert!(rt; is_opened == (fail == 7));
            assert!(rt; gives_none(alloc, start, &disk)?);
        }
    }
    Ok(())
}

/// Whether a mend is made where this call failed in an append before it and that one fails in it,
/// whether it is due then, whether the next one is made, and what is left.
fn mended(
    alloc: Global,
    first: u64,
    then: u64,
) -> Result<Option<((bool, bool, bool), Vec<u8>)>, Fail> {
    match open_copy(alloc, &WHOLE, vec![in alloc; first, then]?)? {
        Ok((mut journal, _payloads)) => {
            let _failed = append(alloc, &mut journal, b"x");
            let is_mended = journal.mend().is_ok();
            let is_due = journal.is_due();
            let is_mended_then = journal.mend().is_ok();
            let disk = journal.close();
            let left = disk.content().to_vec(alloc)?;
            Ok(Some(((is_mended, is_due, is_mended_then), left)))
        }
        Err(_) => Ok(None),
    }
}

#[test]
fn a_mend_that_fails_at_a_call_is_due_again(rt: HostRuntime) -> Result<(), Fail> {
    let alloc = rt.alloc();
    // The call that fails in an append, and one that fails in the mend: of two calls, or of four.
    let cases: [(u64, u64); 12] = [
        (6, 7),
        (6, 8),
        (7, 8),
        (7, 9),
        (8, 9),
        (8, 10),
        (8, 11),
        (8, 12),
        (9, 10),
        (9, 11),
        (9, 12),
        (9, 13),
    ];
    for (first, then) in &cases {
        let (answers, left) = mended(alloc, *first, *then)?.ok_or("no journal")?;
        assert!(rt; answers == (false, true, true) && left.as_slice() == WHOLE.as_slice());
    }
    Ok(())
}
