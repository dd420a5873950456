//! Tries a disk that is a file: written, cut, synced, opened again and held by one alone; and a
//! disk in memory whose calls fail as planned.
use disk_model::{Disk, Failed, FileDisk, MemoryDisk};
use std::string::String;
use std::test::Fail;
use std::{env, fs, process};

/// A file of this process alone, in the system's folder for such files.
fn path_of(rt: &HostRuntime, name: &str) -> Result<String, Fail> {
    Ok(format!(in rt.alloc();
        "{}/campaign_{}_{}",
        env::temp_dir(rt)?.display(),
        name,
        process::id(rt.process())
    )?)
}

/// A file that the disk makes is written, cut and synced. It gives how long it was before.
fn write_four<R: std::rt::Files<File = fs::File> + Drop>(
    disk: &mut FileDisk<'_, R>,
) -> Result<u64, Failed> {
    let before = disk.len()?;
    disk.write_at(0, b"abcdef")?;
    disk.write_at(1, b"XY")?;
    disk.cut(4)?;
    disk.sync()?;
    Ok(before)
}

/// The front of a file of four bytes and what stands behind two, and how long it is.
fn read_four<R: std::rt::Files<File = fs::File> + Drop>(
    disk: &mut FileDisk<'_, R>,
) -> Result<([u8; 3], [u8; 2], u64), Failed> {
    let mut front = [0; 3];
    disk.read(0, &mut front)?;
    let mut rest = [0; 2];
    disk.read(2, &mut rest)?;
    Ok((front, rest, disk.len()?))
}

/// Whether a read past the end fails, and the faults before it and behind it.
fn read_five<R: std::rt::Files<File = fs::File> + Drop>(
    disk: &mut FileDisk<'_, R>,
) -> (bool, u64, u64) {
    let before = disk.faults();
    let mut more = [0; 5];
    let fails = disk.read(0, &mut more).is_err();
    (fails, before, disk.faults())
}

/// A file that one disk writes, another reads and a third reads too far.
fn reopened<R: std::rt::Files<File = fs::File> + Drop>(
    rt: &R,
    path: &str,
) -> (
    Result<u64, Failed>,
    Result<([u8; 3], [u8; 2], u64), Failed>,
    (bool, u64, u64),
) {
    // each disk holds the file until it is dropped, at the end of its line
    let written = write_four(&mut FileDisk::new(rt, path));
    let read = read_four(&mut FileDisk::new(rt, path));
    (written, read, read_five(&mut FileDisk::new(rt, path)))
}

#[test]
fn a_file_is_written_cut_synced_and_opened_again(rt: HostRuntime) -> Result<(), Fail> {
    let path = path_of(&rt, "reopened")?;
    let told = reopened(&rt, path.as_str());
    assert!(rt; told == (Ok(0), Ok((*b"aXY", *b"Yd", 4)), (true, 0, 1)));
    fs::remove_file(&rt, path.as_str())?;
    Ok(())
}

/// Whether the first of two disks of a file can be synced, the second not beside it, its faults
/// then, and whether it can once the first is dropped.
fn held_in_turn<R: std::rt::Files<File = fs::File> + Drop>(
    rt: &R,
    path: &str,
) -> (bool, bool, u64, bool) {
    let mut first = FileDisk::new(rt, path);
    let mut second = FileDisk::new(rt, path);
    let holds = first.sync().is_ok();
    let is_refused = second.len().is_err();
    let faults = second.faults();
    drop(first);
    (holds, is_refused, faults, second.sync().is_ok())
}

#[test]
fn a_file_is_the_disk_of_one_alone(rt: HostRuntime) -> Result<(), Fail> {
    let path = path_of(&rt, "locked")?;
    assert!(rt; held_in_turn(&rt, path.as_str()) == (true, true, 1, true));
    fs::remove_file(&rt, path.as_str())?;
    Ok(())
}

/// Whether a write, a sync and a second one fail, how long the disk is between the syncs, and its
/// faults and wants behind them.
fn play(disk: &mut MemoryDisk) -> ([bool; 3], Result<u64, Failed>, u64, u64) {
    let written = disk.write_at(0, b"abc").is_err();
    let synced = disk.sync().is_err();
    let len = disk.len();
    let again = disk.sync().is_err();
    ([written, synced, again], len, disk.faults(), disk.wants())
}

#[test]
fn a_disk_in_memory_fails_the_calls_of_its_plan(rt: HostRuntime) -> Result<(), Fail> {
    let alloc = rt.alloc();
    let mut disk = MemoryDisk::new(Vec::new(alloc), vec![in alloc; 2, 4]?);
    assert!(rt; play(&mut disk) == ([false, true, true], Ok(3), 2, 0));
    assert!(rt; disk.content() == b"abc".as_slice());
    assert!(rt; disk.calls().len() == 2);
    Ok(())
}
