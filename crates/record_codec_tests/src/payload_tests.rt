//! Tries payloads: bundles and single entries are read as what they are, and other bytes are none.
use crate::bundle_bytes::{EACH_KIND, ITS_ENTRIES, NO_PAYLOADS, THREE};
use crate::entries::has_fields;
use record_codec::{CodecFault, read_entry, read_payload};
use rulebook::EntryCore;
use std::alloc::Global;
use std::test::Fail;

fn is_no_payload(alloc: Global, bytes: &[u8]) -> bool {
    matches!(read_payload(alloc, bytes), Err(CodecFault::NoEntry))
}

/// Whether the bytes are a payload of these entries, each line of which spells one.
fn are_read(alloc: Global, bytes: &[u8], entries: &str) -> Result<bool, Fail> {
    let cores = read_payload(alloc, bytes).ok().ok_or("a payload")?;
    let mut left = cores.iter();
    for digits in entries.lines() {
        if !is_spelled(alloc, left.next().ok_or("as many entries")?, digits)? {
            return Ok(false);
        }
    }
    Ok(left.next().is_none())
}

/// Whether the digits spell an entry.
fn is_spelled(alloc: Global, core: &EntryCore, digits: &str) -> Result<bool, Fail> {
    let bytes = hex::decode(alloc, digits)?;
    let entry = read_entry(alloc, &bytes).ok().ok_or("an entry")?;
    let fields = (
        entry.caller.name.bytes(),
        entry.caller.role,
        entry.number,
        entry.moment,
        &entry.command,
    );
    Ok(has_fields(core, &fields))
}

#[test]
fn a_bundle_of_each_kind_is_read(rt: HostRuntime) -> Result<(), Fail> {
    let bytes = hex::decode(rt.alloc(), EACH_KIND)?;
    assert!(rt; are_read(rt.alloc(), &bytes, ITS_ENTRIES)?);
    Ok(())
}

#[test]
fn an_entry_alone_is_read(rt: HostRuntime) -> Result<(), Fail> {
    for digits in ITS_ENTRIES.lines() {
        let bytes = hex::decode(rt.alloc(), digits)?;
        assert!(rt; are_read(rt.alloc(), &bytes, digits)?, "{digits}");
    }
    Ok(())
}

#[test]
fn other_bytes_are_no_payload(rt: HostRuntime) -> Result<(), Fail> {
    for line in NO_PAYLOADS.lines() {
        let (fault, digits) = line.split_once(": ").ok_or("a fault and digits")?;
        let bytes = hex::decode(rt.alloc(), digits)?;
        assert!(rt; is_no_payload(rt.alloc(), &bytes), "{fault}");
    }
    Ok(())
}

#[test]
fn a_bundle_that_is_cut_is_none(rt: HostRuntime) -> Result<(), Fail> {
    let bytes = hex::decode(rt.alloc(), THREE)?;
    for cut in 0..bytes.len() {
        assert!(rt; is_no_payload(rt.alloc(), &bytes[..cut]), "{cut}");
    }
    Ok(())
}

/// The front of a bundle, an assessor's Lease the first of its entries, and behind it so many
/// Grades.
fn with_grades(alloc: Global, front: &str, grades: u32) -> Result<Vec<u8>, Fail> {
    let mut bytes = hex::decode(alloc, front)?;
    for _ in 0..grades {
        bytes.extend_from_slice(&[0, 0, 0, 6, 1, 2])?;
    }
    Ok(bytes)
}

#[test]
fn as_many_entries_as_there_may_be(rt: HostRuntime) -> Result<(), Fail> {
    let alloc = rt.alloc();
    let most = with_grades(alloc, "000101700301013180200000000500", 4095)?;
    let cores = read_payload(alloc, &most);
    assert!(rt; matches!(&cores, Ok(cores) if cores.len() == 4096));
    let more = with_grades(alloc, "000101700301013181200000000500", 4096)?;
    assert!(rt; is_no_payload(alloc, &more));
    Ok(())
}
