//! Tries spellings of entries: each command's is read and written again as it was, other and cut
//! bytes are none, and lists and texts are as many and as long as they may be.
use crate::entries::has_fields;
use crate::spellings::{FULL_LISTS, LONG_TEXTS, NO_SPELLINGS, SPELLINGS};
use decimal_rank::Text;
use record_codec::{CodecFault, read_entry, write_entry};
use rulebook::{Caller, Command, EntryCore, Role};
use std::alloc::Global;
use std::test::Fail;

/// p's grade 2 of lease 1 under number 7, at moment 1000.
const GRADE: [u8; 26] = *b"\x01p\x03\x01\x07\0\0\0\0\0\0\0\xe8\x03\0\0\0\0\0\0\x06\x01\0\0\0\x02";

/// Whether a command has this name, which is the first word that is shown of it.
fn is_command(alloc: Global, command: &Command, name: &str) -> bool {
    match format!(in alloc; "{command:?}") {
        Ok(shown) => shown.split_whitespace().next() == Some(name),
        Err(_) => false,
    }
}

/// Whether bytes are read as this command and written as they were.
fn is_read(alloc: Global, bytes: &[u8], name: &str) -> bool {
    let Ok(core) = read_entry(alloc, bytes) else {
        return false;
    };
    let mut out = Vec::new(alloc);
    write_entry(&core, &mut out).is_ok()
        && out.as_slice() == bytes
        && is_command(alloc, &core.command, name)
}

fn is_no_spelling(alloc: Global, bytes: &[u8]) -> bool {
    matches!(read_entry(alloc, bytes), Err(CodecFault::NoEntry))
}

#[test]
fn each_command_is_read_and_written(rt: HostRuntime) -> Result<(), Fail> {
    for line in SPELLINGS.lines() {
        let (name, digits) = line.split_once(": ").ok_or("a name and digits")?;
        let bytes = hex::decode(rt.alloc(), digits)?;
        assert!(rt; is_read(rt.alloc(), &bytes, name), "{name}");
    }
    Ok(())
}

#[test]
fn other_bytes_are_no_spelling(rt: HostRuntime) -> Result<(), Fail> {
    for line in NO_SPELLINGS.lines() {
        let (fault, digits) = line.split_once(": ").ok_or("a fault and digits")?;
        let bytes = hex::decode(rt.alloc(), digits)?;
        assert!(rt; is_no_spelling(rt.alloc(), &bytes), "{fault}");
    }
    Ok(())
}

#[test]
fn a_spelling_that_is_cut_is_none(rt: HostRuntime) {
    for cut in 0..GRADE.len() {
        assert!(rt; is_no_spelling(rt.alloc(), &GRADE[..cut]), "{cut}");
    }
}

#[test]
fn the_fields_of_a_grade(rt: HostRuntime) -> Result<(), Fail> {
    let core = read_entry(rt.alloc(), &GRADE).ok().ok_or("an entry")?;
    let grade = Command::Grade { lease: 1, grade: 2 };
    assert!(rt; has_fields(&core, &(b"p", Role::Assessor, Some(7), 1000, &grade)));
    Ok(())
}

#[test]
fn a_spelling_is_appended(rt: HostRuntime) -> Result<(), Fail> {
    let core = EntryCore {
        caller: Caller {
            name: Text::from_slice(rt.alloc(), b"p")?,
            role: Role::Assessor,
        },
        number: Some(7),
        moment: 1000,
        command: Command::Grade { lease: 1, grade: 2 },
    };
    let mut out = vec![in rt.alloc(); 9]?;
    assert!(rt; write_entry(&core, &mut out).is_ok());
    assert!(rt; out.as_slice().strip_prefix(&[9]) == Some(GRADE.as_slice()));
    Ok(())
}

/// The digits of a number below 1,000, the highest first.
fn digits(number: u32) -> [u8; 3] {
    [
        b'0' + (number / 100 % 10) as u8,
        b'0' + (number / 10 % 10) as u8,
        b'0' + (number % 10) as u8,
    ]
}

/// Bytes, and behind them a count of so many short texts, which differ and ascend below 1,001 of
/// them.
fn with_texts(alloc: Global, front: &str, count: u32) -> Result<Vec<u8>, Fail> {
    let mut bytes = hex::decode(alloc, front)?;
    bytes.extend_from_slice(&count.to_le_bytes())?;
    for number in 0..count {
        let length = if number < 1000 { 3 } else { 1 };
        bytes.push(length)?;
        bytes.extend_from_slice(&digits(number)[..length as usize])?;
    }
    Ok(bytes)
}

/// Bytes, then a long text of so many spaces, then other bytes.
fn with_spaces(alloc: Global, front: &str, count: u16, back: &[u8]) -> Result<Vec<u8>, Fail> {
    let mut bytes = hex::decode(alloc, front)?;
    bytes.extend_from_slice(&count.to_le_bytes())?;
    for _ in 0..count {
        bytes.push(b' ')?;
    }
    bytes.extend_from_slice(back)?;
    Ok(bytes)
}

#[test]
fn as_many_texts_as_there_may_be(rt: HostRuntime) -> Result<(), Fail> {
    let alloc = rt.alloc();
    for (name, front, most) in &FULL_LISTS {
        assert!(rt;
            is_read(alloc, &with_texts(alloc, front, *most)?, name),
            "{name}"
        );
        assert!(rt;
            is_no_spelling(alloc, &with_texts(alloc, front, *most + 1)?),
            "{name}"
        );
    }
    Ok(())
}

#[test]
fn texts_as_long_as_they_may_be(rt: HostRuntime) -> Result<(), Fail> {
    let alloc = rt.alloc();
    for (front, most, back) in &LONG_TEXTS {
        assert!(rt;
            is_read(alloc, &with_spaces(alloc, front, *most, back)?, "Topics"),
            "{front}"
        );
        assert!(rt;
            is_no_spelling(alloc, &with_spaces(alloc, front, *most + 1, back)?),
            "{front}"
        );
    }
    Ok(())
}
