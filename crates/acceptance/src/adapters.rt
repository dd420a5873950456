//! The adapters over standard input and output, and the link in memory.
use campaign_server::{Failed, Link, MemoryLink, StreamLink, write_all};
use decimal_rank::Text;
use std::process::Abort;
use std::test::Fail;

/// What a read of two bytes gives.
fn read_two(link: &mut MemoryLink) -> (Result<usize, Failed>, [u8; 2]) {
    let mut out = [0; 2];
    (link.read(&mut out), out)
}

fn assert_reads(rt: &impl Abort, link: &mut MemoryLink) {
    let reads = [
        (Ok(2), *b"ab"),
        (Err(Failed), [0; 2]),
        (Ok(1), *b"c\0"),
        (Ok(2), *b"de"),
        (Ok(0), [0; 2]),
    ];
    for read in reads {
        assert!(rt; read_two(link) == read);
    }
}

/// What two writes give, and whether only the second is written.
fn write_two(link: &mut MemoryLink) -> ([Result<usize, Failed>; 2], bool) {
    let counts = [link.write(b"one"), link.write(b"two")];
    (counts, link.written() == b"two".as_slice())
}

/// Three moments, and how often the link wanted memory.
fn moments_told(link: &mut MemoryLink) -> ([u64; 3], u64) {
    let moments = [link.moment(), link.moment(), link.moment()];
    (moments, link.wants())
}

fn assert_writes(rt: &impl Abort, link: &mut MemoryLink) {
    assert!(rt; write_two(link) == ([Err(Failed), Ok(3)], true));
    assert!(rt; moments_told(link) == ([5, 7, 7], 0));
}

#[test]
fn a_link_in_memory(rt: HostRuntime) -> Result<(), Fail> {
    let alloc = rt.alloc();
    let first = Text::from_slice(alloc, b"abc")?;
    let second = Text::from_slice(alloc, b"de")?;
    let mut link = MemoryLink::new(
        vec![in alloc; first, second]?,
        vec![in alloc; 5, 7]?,
        vec![in alloc; 2]?,
        vec![in alloc; 1]?,
    );
    assert_reads(&rt, &mut link);
    assert_writes(&rt, &mut link);
    Ok(())
}

/// Whether the clock goes on from after 2023, and what a read at the end of the input, a text and an
/// empty write give.
fn stream_told(
    link: &mut impl Link,
) -> (
    bool,
    Result<usize, Failed>,
    Result<(), Failed>,
    Result<usize, Failed>,
) {
    let early = link.moment();
    let goes_on = early > 1_700_000_000 && link.moment() >= early;
    let ended = link.read(&mut [0; 8]);
    let written = write_all(link, b"answer\n");
    (goes_on, ended, written, link.write(b""))
}

#[test]
fn the_standard_streams(rt: HostRuntime) -> Result<(), Fail> {
    let mut link = StreamLink::new(rt.clone()?);
    assert!(rt; stream_told(&mut link) == (true, Ok(0), Ok(()), Ok(0)));
    Ok(())
}
