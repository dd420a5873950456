//! Tries journals on a disk in memory: begun on an empty disk, cut at any byte, with other bytes
//! behind or within, and mended after an append that failed.
use crate::openings::{WHOLE, append, open_copy};
use journal::{Failed, OpenFault};
use std::alloc::Global;
use std::test::Fail;

/// A third behind them, `d`.
const MENDED: [u8; 36] =
    *b"POOLJRNL\x01\0\0\0\0\0\0\0\x01\x02\0\0\0ab\x01\x01\0\0\0c\x01\x01\0\0\0d\0";

/// Where the first record ends, and the second.
const FIRST_END: usize = 23;

const SECOND_END: usize = 29;

/// What two appends leave on an empty disk, where each is answered Ok.
fn after_two(alloc: Global) -> Result<Option<Vec<u8>>, Fail> {
    match open_copy(alloc, b"", Vec::new(alloc))? {
        Ok((mut journal, _records)) => {
            if append(alloc, &mut journal, b"ab") != Some(Ok(())) {
                return Ok(None);
            }
            if append(alloc, &mut journal, b"c") != Some(Ok(())) || journal.is_due() {
                return Ok(None);
            }
            let disk = journal.close();
            Ok(Some(disk.content().to_vec(alloc)?))
        }
        Err(_) => Ok(None),
    }
}

#[test]
fn an_empty_disk_becomes_a_journal_with_what_is_added(rt: HostRuntime) -> Result<(), Fail> {
    let content = after_two(rt.alloc())?.ok_or("no journal")?;
    assert!(rt; content.as_slice() == WHOLE.as_slice());
    Ok(())
}

/// How many records these bytes give, and what an opening leaves of them.
fn left_of(alloc: Global, bytes: &[u8]) -> Result<(Result<usize, OpenFault>, Vec<u8>), Fail> {
    match open_copy(alloc, bytes, Vec::new(alloc))? {
        Ok((journal, records)) => {
            let disk = journal.close();
            Ok((Ok(records.len()), disk.content().to_vec(alloc)?))
        }
        Err((disk, fault)) => Ok((Err(fault), disk.content().to_vec(alloc)?)),
    }
}

/// Whether bytes give so many records, and an opening leaves the kept ones and a gate of them.
fn keeps(alloc: Global, bytes: &[u8], count: usize, kept: &[u8]) -> Result<bool, Fail> {
    let (records, left) = left_of(alloc, bytes)?;
    Ok(records == Ok(count) && left.as_slice().strip_prefix(kept) == Some([0].as_slice()))
}

#[test]
fn a_file_that_is_cut_anywhere_gives_its_whole_records(rt: HostRuntime) -> Result<(), Fail> {
    let alloc = rt.alloc();
    for cut in 0..WHOLE.len() + 1 {
        let (count, end) = if cut < FIRST_END {
            (0, 16)
        } else if cut < SECOND_END {
            (1, FIRST_END)
        } else {
            (2, SECOND_END)
        };
        assert!(rt; keeps(alloc, &WHOLE[..cut], count, &WHOLE[..end])?);
    }
    Ok(())
}

#[test]
fn other_bytes_are_refused_or_mended(rt: HostRuntime) -> Result<(), Fail> {
    let alloc = rt.alloc();
    let cases: [(&[u8], Result<usize, OpenFault>, &[u8]); 11] = [
        (
            b"another file of 17",
            Err(OpenFault::Header),
            b"another file of 17",
        ),
        (
            b"POOLJRNL\x02\0\0\0\0\0\0\0\0\0",
            Err(OpenFault::Header),
            b"POOLJRNL\x02\0\0\0\0\0\0\0\0\0",
        ),
        (b"a file of 17 byte", Ok(0), b"POOLJRNL\x01\0\0\0\0\0\0\0\0"),
        (
            b"POOLJRNL\x01\0\0\0\0\0\0\0\x02\x01\0\0\0a\0",
            Ok(0),
            b"POOLJRNL\x01\0\0\0\0\0\0\0\x02",
        ),
        (
            b"POOLJRNL\x01\0\0\0\0\0\0\0\x01\x03\0\0\0a\0",
            Ok(0),
            b"POOLJRNL\x01\0\0\0\0\0\0\0\0",
        ),
        // bytes 8 to 15 tell nothing where byte 8 isn't 2
        (
            b"POOLJRNL\x07another\x01\x01\0\0\0a\0",
            Ok(1),
            b"POOLJRNL\x07another\x01\x01\0\0\0a\0",
        ),
        // the place 25: a record and a gate fit in front of it
        (
            b"POOLJRNL\x02\x19\0\0\0\0\0\0old text.\x01\x03\0\0\0abc\0",
            Ok(1),
            b"POOLJRNL\x03\x19\0\0\0\0\0\0\x01\x03\0\0\0abc\0",
        ),
        // the place 24: they don't
        (
            b"POOLJRNL\x02\x18\0\0\0\0\0\0old text\x01\x03\0\0\0abc\0",
            Err(OpenFault::Header),
            b"POOLJRNL\x02\x18\0\0\0\0\0\0old text\x01\x03\0\0\0abc\0",
        ),
        // the place 17: no record fits, and there is none
        (
            b"POOLJRNL\x02\x11\0\0\0\0\0\0o\0",
            Ok(0),
            b"POOLJRNL\x03\x11\0\0\0\0\0\0\0",
        ),
        // the place 18, at the end
        (
            b"POOLJRNL\x02\x12\0\0\0\0\0\0ol",
            Err(OpenFault::Header),
            b"POOLJRNL\x02\x12\0\0\0\0\0\0ol",
        ),
        // the place 2^48 + 17
        (
            b"POOLJRNL\x02\x11\0\0\0\0\0\x01o\0",
            Err(OpenFault::Header),
            b"POOLJRNL\x02\x11\0\0\0\0\0\x01o\0",
        ),
    ];
    for (bytes, wanted, wanted_left) in &cases {
        let (records, left) = left_of(alloc, bytes)?;
        assert!(rt; records == *wanted && left.as_slice() == *wanted_left);
    }
    Ok(())
}

/// What an append leaves of two records, and how many calls were done, where this call of the disk
/// fails in the append before it.
fn after_fault(alloc: Global, failing: u64) -> Result<Option<(Vec<u8>, usize)>, Fail> {
    match open_copy(alloc, &WHOLE, vec![in alloc; failing]?)? {
        Ok((mut journal, _records)) => {
            if append(alloc, &mut journal, b"lost") != Some(Err(Failed)) {
                return Ok(None);
            }
            if !journal.is_due() || append(alloc, &mut journal, b"d") != Some(Ok(())) {
                return Ok(None);
            }
            let disk = journal.close();
            Ok(Some((disk.content().to_vec(alloc)?, disk.calls().len())))
        }
        Err(_) => Ok(None),
    }
}

#[test]
fn a_failed_append_is_mended_by_the_next(rt: HostRuntime) -> Result<(), Fail> {
    let alloc = rt.alloc();
    // The opening makes five calls, an append four, and a mend two or four.
    let cases: [(u64, usize); 4] = [(6, 11), (7, 12), (8, 15), (9, 16)];
    for (failing, calls) in &cases {
        let (content, done) = after_fault(alloc, *failing)?.ok_or("no journal")?;
        assert!(rt; content.as_slice() == MENDED.as_slice() && done == *calls);
    }
    Ok(())
}
