//! Tried are runs that are fed byte by byte: they are read as at once, with the same lines and
//! faults.
ghost use Rattle.std.specs.Prelude.{◌+◌, ◌≤◌, length};

use crate::faults::is_fault;
use crate::readings::{run_of, short};
use crate::runs_and_qrels::is_list;
use decimal_rank::Memory;
use std::alloc::Global;
use std::cmp::Ordering;
use std::test::Fail;
use trec_formats::{FormatEnd, Kind, RunLine, RunReader, TopicList};

fn feed_bytes(reader: &mut RunReader, text: &[u8]) -> Result<(), Memory>
    requires { reader.old.fed + length text.now ≤ 268435456 }
{
    for byte in text {
        reader.feed(&[*byte])?;
    }
    Ok(())
}

/// A reader that was fed a run in pieces of one byte.
fn fed(alloc: Global, text: &str) -> Result<RunReader, FormatEnd> {
    let text = short(text.as_bytes())?;
    let mut reader = RunReader::new(alloc);
    feed_bytes(&mut reader, text)?;
    Ok(reader)
}

/// What a run is read as that is fed in pieces of one byte.
fn byte_by_byte(alloc: Global, text: &str) -> Result<Vec<RunLine>, FormatEnd> {
    let reader = fed(alloc, text)?;
    reader.finish()
}

fn are_same(a: &RunLine, b: &RunLine) -> bool {
    a.line == b.line
        && a.topic.bytes() == b.topic.bytes()
        && a.doc.bytes() == b.doc.bytes()
        && a.score.compare(&b.score) == Ordering::Equal
}

fn are_all_same(pieces: &[RunLine], whole: &[RunLine]) -> bool {
    pieces.len() == whole.len() && pieces.iter().zip(whole).all(|(a, b)| are_same(a, b))
}

#[test]
fn a_run_in_pieces_of_one_byte(rt: HostRuntime) -> Result<(), Fail> {
    let text =
        "\n \t\n401\x0bQ0\tFR940-1~\x0c 7  010 x \r\nb.c_D-9 ? ! ? 999 ?\r\n\r\n401 0 a 0 0 0";
    let pieces = byte_by_byte(rt.alloc(), text)?;
    let whole = run_of(rt.alloc(), text)?;
    assert!(rt; pieces.len() == 3 && are_all_same(&pieces, &whole));
    Ok(())
}

#[test]
fn faults_in_pieces_of_one_byte(rt: HostRuntime) {
    let texts = [
        "",
        " \t\n\n",
        "1 Q0 A 1 3 t\n1 Q0 B 2 2\n1 Q0 C 3 1 t\n",
        "1 Q0 A 1 3 t\n1 Q0 B 2 2",
        "1 Q0 A 1 3 t u v w\n",
        "a/b Q0 A 1 3 t\n",
        "1 Q0 \x7f 1 3 t\n",
        "1 Q0 A 1 x t\n1 Q0 B\n",
        "1 Q0 A 1 1e401 t\n",
    ];
    for text in texts {
        let end = byte_by_byte(rt.alloc(), text).err();
        assert!(rt; end.is_some(), "{text}");
        assert!(rt; end == run_of(rt.alloc(), text).err(), "{text}");
    }
}

#[test]
fn a_line_cut_inside_it(rt: HostRuntime) {
    let end = byte_by_byte(rt.alloc(), "1 Q0 A 1 3 t\n1 Q0 B 2 2\n").err();
    assert!(rt; is_fault(end, 2, Kind::Fields));
}

/// A run of A and B, in whose first line the second field is long.
fn long_run(alloc: Global) -> Result<String, Fail> {
    let mut text = String::from_str(alloc, "1 ")?;
    for _ in 0..100_000 {
        text.push('Q')?;
    }
    text.push_str(" A 1 3 t\n1 Q0 B 2 2 t\n")?;
    Ok(text)
}

fn are_a_and_b(lines: &[RunLine]) -> bool {
    lines.len() == 2
        && lines[0].doc.bytes() == b"A".as_slice()
        && lines[1].doc.bytes() == b"B".as_slice()
}

#[test]
fn a_long_field_that_is_not_looked_at(rt: HostRuntime) -> Result<(), Fail> {
    let text = long_run(rt.alloc())?;
    assert!(rt; are_a_and_b(&byte_by_byte(rt.alloc(), text.as_str())?));
    Ok(())
}

/// The lists of a run that is fed in pieces of one byte.
fn lists_fed(alloc: Global, text: &str) -> Result<Vec<TopicList>, FormatEnd> {
    let reader = fed(alloc, text)?;
    reader.finish_lists()
}

fn are_two_lists(lists: &[TopicList]) -> bool {
    lists.len() == 2
        && is_list(&lists[0], "1", 2, &["D", "C"])
        && is_list(&lists[1], "2", 1, &["B", "A"])
}

#[test]
fn lists_of_a_run_in_pieces_of_one_byte(rt: HostRuntime) -> Result<(), Fail> {
    let lists = lists_fed(
        rt.alloc(),
        "2 Q0 A 1 3 t\n1 Q0 C 1 1 t\n2 Q0 B 2 4 t\n\n1 Q0 D 1 2 t",
    )?;
    assert!(rt; are_two_lists(&lists));
    let twice = lists_fed(rt.alloc(), "1 Q0 A 1 3 t\n1 Q0 A 2 2 t\n").err();
    assert!(rt; is_fault(twice, 2, Kind::Twice { first: 1 }));
    let cut = lists_fed(rt.alloc(), "1 Q0 A 1 3 t\n1 Q0 A 2\n").err();
    assert!(rt; is_fault(cut, 2, Kind::Fields));
    Ok(())
}
