//! Shelves and sinks: those in memory, whose calls fail as planned, a sink that takes one byte of
//! each piece, and the files and the standard output of the system.
ghost use Rattle.campaign_cli.specs.Surroundings.Sinks.{told_by};

use campaign_cli::{
    Failed, FileShelf, MemoryShelf, MemorySink, OutputSink, Shelf, ShelfFault, Sink, write_all,
};
use decimal_rank::{Memory, Text};
use std::alloc::Global;
use std::test::Fail;
use std::{env, fs, process};

/// A sink that takes one byte of each piece.
#[derive(Drop)]
struct ByteSink(MemorySink);

impl Sink for ByteSink {
    ghost writing = { λ sink. told_by sink.0 };

    ghost Keeps = { λ a b. Unit {0} };

    ghost keeps_itself = { λ a. tt };

    ghost keeps_on = { λ a b c p q. tt };

    fn write(&mut self, piece: &[u8]) -> Result<usize, Failed> {
        self.0.write(&piece[..piece.len().min(1)])
    }
}

fn file(alloc: Global, name: &[u8], bytes: &[u8]) -> Result<(Text, Text), Memory> {
    Ok((
        Text::from_slice(alloc, name)?,
        Text::from_slice(alloc, bytes)?,
    ))
}

/// Whether a read of a file gives these bytes or this fault.
fn gives<S: Shelf>(
    alloc: Global,
    shelf: &mut S,
    name: &[u8],
    wanted: Result<&[u8], ShelfFault>,
) -> bool {
    match shelf.read_file(alloc, name) {
        Ok(bytes) => wanted == Ok(bytes.as_slice()),
        Err(fault) => wanted == Err(fault),
    }
}

#[test]
fn a_shelf_in_memory(rt: HostRuntime) -> Result<(), Fail> {
    let alloc = rt.alloc();
    let files = vec![in alloc; file(alloc, b"a", b"one")?, file(alloc, b"b", b"")?]?;
    let mut shelf = MemoryShelf::new(files, vec![in alloc; 2, 5]?);
    let rows: [(&[u8], Result<&[u8], ShelfFault>); 6] = [
        (b"a", Ok(b"one")),
        (b"a", Err(ShelfFault::Failed)),
        (b"b", Ok(b"")),
        (b"c", Err(ShelfFault::Absent)),
        (b"c", Err(ShelfFault::Failed)),
        (b"a", Ok(b"one")),
    ];
    for (name, wanted) in rows {
        assert!(rt; gives(alloc, &mut shelf, name, wanted));
    }
    assert!(rt; shelf.wants() == 0);
    Ok(())
}

#[test]
fn a_sink_in_memory(rt: HostRuntime) -> Result<(), Fail> {
    let mut sink = MemorySink::new(vec![in rt.alloc(); 2]?);
    assert!(rt; sink.write(b"one") == Ok(3));
    assert!(rt; sink.write(b"two") == Err(Failed));
    assert!(rt; sink.write(b" three") == Ok(6));
    assert!(rt; sink.written() == b"one three".as_slice());
    assert!(rt; sink.wants() == 0);
    Ok(())
}

/// What three texts come to.
fn written_in_turn(sink: &mut ByteSink) -> [Result<(), Failed>; 3] {
    [
        write_all(sink, b"pool"),
        write_all(sink, b""),
        write_all(sink, b"rank list"),
    ]
}

#[test]
fn a_text_in_many_writes(rt: HostRuntime) -> Result<(), Fail> {
    let mut sink = ByteSink(MemorySink::new(vec![in rt.alloc(); 8]?));
    assert!(rt; written_in_turn(&mut sink) == [Ok(()), Ok(()), Err(Failed)]);
    assert!(rt; sink.0.written() == b"poolran".as_slice());
    assert!(rt; write_all(&mut sink, b"!") == Ok(()));
    assert!(rt; sink.0.written() == b"poolran!".as_slice());
    Ok(())
}

#[test]
fn files_of_the_system(rt: HostRuntime) -> Result<(), Fail> {
    let folder = env::temp_dir(&rt)?;
    let path = format!(in rt.alloc();
        "{}/campaign_cli_{}",
        folder.display(),
        process::id(rt.process())
    )?;
    let mut shelf = FileShelf::new(rt.clone()?);
    let name = path.as_bytes();
    let is_absent = gives(rt.alloc(), &mut shelf, name, Err(ShelfFault::Absent));
    fs::write(&rt, path.as_str(), b"1 0 A 1\n")?;
    let is_read = gives(rt.alloc(), &mut shelf, name, Ok(b"1 0 A 1\n"));
    fs::remove_file(&rt, path.as_str())?;
    let is_failing = gives(rt.alloc(), &mut shelf, b"/", Err(ShelfFault::Failed));
    assert!(rt; (is_absent, is_read, is_failing) == (true, true, true));
    Ok(())
}

#[test]
fn standard_output(rt: HostRuntime) -> Result<(), Fail> {
    let mut sink = OutputSink::new(rt.clone()?);
    assert!(rt; write_all(&mut sink, b"scores\n") == Ok(()));
    assert!(rt; sink.write(b"") == Ok(0));
    Ok(())
}
