//! Calls of the program, its words apart by blanks, over files, output, a disk and a door in memory
//! and the link of the tests.
ghost use Rattle.campaign_server.specs.Doors.{IsShut};
ghost use Rattle.campaign_server.specs.MemoryForms.MemoryDoors.{told_by};

use crate::links::PlannedLink;
use crate::settings::{SETTINGS, settings_shelf};
use campaign_cli::{MemoryShelf, MemorySink, campaign};
use campaign_server::MemoryDoor;
use disk_model::MemoryDisk;
use release_archive::MemoryKeeper;
use std::alloc::Global;
use std::sync::Wait;
use std::test::Fail;
use std::thread::Threads;

fn words_of(alloc: Global, text: &str) -> Result<Vec<String>, Fail> {
    let mut words = Vec::new(alloc);
    for word in text.split_whitespace() {
        words.push(String::from_str(alloc, word)?)?;
    }
    Ok(words)
}

/// The status of the program, and the disk.
pub(crate) fn ended_at<W: Threads + Wait + Sync + AllocGlobal>(
    rt: &W,
    words: &str,
    shelf: &mut MemoryShelf,
    out: &mut MemorySink,
    own: &mut PlannedLink,
    disk: MemoryDisk,
    door: &mut MemoryDoor<PlannedLink>,
) -> Result<(u8, MemoryDisk), Fail>
    requires { IsShut (told_by door.old) }
{
    let alloc = rt.alloc();
    let words = words_of(alloc, words)?;
    let mut keeper = MemoryKeeper::new(Vec::new(alloc), Vec::new(alloc));
    let (status, disk) = campaign(rt, alloc, &words, shelf, out, own, disk, door, &mut keeper);
    Ok((status.0, disk))
}

/// A door without links.
fn shut_door(alloc: Global) -> MemoryDoor<PlannedLink>
    ensures { IsShut (told_by result) }
{
    MemoryDoor::new(Vec::new(alloc), Vec::new(alloc))
}

/// The status of the program under these settings over a disk and a link, what it prints, and the
/// disk.
pub(crate) fn ended_under<W: Threads + Wait + Sync + AllocGlobal>(
    rt: &W,
    words: &str,
    settings: &str,
    own: &mut PlannedLink,
    disk: MemoryDisk,
) -> Result<(u8, MemorySink, MemoryDisk), Fail> {
    let alloc = rt.alloc();
    let mut shelf = settings_shelf(alloc, settings)?;
    let mut out = MemorySink::new(Vec::new(alloc));
    let mut door = shut_door(alloc);
    let (status, disk) = ended_at(rt, words, &mut shelf, &mut out, own, disk, &mut door)?;
    Ok((status, out, disk))
}

pub(crate) fn empty_disk(alloc: Global) -> MemoryDisk {
    MemoryDisk::new(Vec::new(alloc), Vec::new(alloc))
}

/// The status of a session over a link on an empty disk, and what it prints.
pub(crate) fn session_over<W: Threads + Wait + Sync + AllocGlobal>(
    rt: &W,
    link: &mut PlannedLink,
) -> Result<(u8, MemorySink), Fail> {
    let disk = empty_disk(rt.alloc());
    let (status, out, _) = ended_under(rt, "session", SETTINGS, link, disk)?;
    Ok((status, out))
}
