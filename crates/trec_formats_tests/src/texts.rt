//! Texts and rows that are kept, and texts that are read and written.
use decimal_rank::{Memory, Rows, Text, append_all, append_qrel, capped_number, is_number};
use std::cmp::Ordering;
use std::test::Fail;

const SHORT: &[u8] = b"FT911-3";

const LONGEST_IN_PLACE: &[u8] = b"clueweb09-en0000-00-000";

const LONG: &[u8] = b"clueweb09-en0000-00-00000";

/// Whether a text and one of a vector, and their copies, have these bytes.
fn are_alike(text: &Text, vector: &Text, bytes: &[u8]) -> Result<bool, Memory> {
    Ok(
        text.copy()?.bytes() == bytes
            && *text == vector.copy()?
            && vector.cmp(text) == Ordering::Equal,
    )
}

#[test]
fn texts_are_copied(rt: HostRuntime) -> Result<(), Fail> {
    for bytes in [b"".as_slice(), SHORT, LONGEST_IN_PLACE, LONG] {
        let text = Text::from_slice(rt.alloc(), bytes)?;
        let vector = Text::new(Vec::from_slice(rt.alloc(), bytes)?);
        assert!(rt; are_alike(&text, &vector, bytes)?);
    }
    Ok(())
}

#[test]
fn texts_compare_by_their_bytes(rt: HostRuntime) -> Result<(), Fail> {
    let shorter = Text::from_slice(rt.alloc(), LONGEST_IN_PLACE)?;
    let longer = Text::from_slice(rt.alloc(), LONG)?;
    assert!(rt; shorter != longer);
    assert!(rt; shorter < longer);
    assert!(rt; Text::from_slice(rt.alloc(), SHORT)? < shorter);
    Ok(())
}

#[test]
fn rows_lend_their_items(rt: HostRuntime) -> Result<(), Fail> {
    let rows = Rows::new(vec![in rt.alloc(); 3u32, 1]?);
    assert!(rt; rows.items() == [3, 1].as_slice());
    Ok(())
}

/// Whether a text is a number, and the number up to 255.
const NUMBERS: [(&[u8], bool, u64); 4] = [
    (b"", false, 0),
    (b"0", true, 0),
    (b"0255", true, 255),
    (b"256", true, 255),
];

#[test]
fn numbers_are_read_up_to_a_cap(rt: HostRuntime) {
    for (text, is, number) in NUMBERS {
        assert!(rt; is_number(text) == is);
        if is_number(text) {
            assert!(rt; capped_number(text, 255) == number);
        }
    }
    assert!(rt; !is_number(b"-1"));
}

#[test]
fn texts_are_appended(rt: HostRuntime) -> Result<(), Fail> {
    let mut out = Vec::from_slice(rt.alloc(), b"0")?;
    append_all(&mut out, &[b"1", b"", b"23"])?;
    append_qrel(b"401", SHORT, 2, &mut out)?;
    assert!(rt; out.as_slice() == b"0123401 0 FT911-3 2\n".as_slice());
    Ok(())
}
