//! A call of the program over files, an output, a link, a disk and an archive in memory.
ghost use Rattle.std.specs.Prelude.{◌≡◌, IfOk, IsTrue};
ghost use Rattle.campaign_server.specs.Doors.{IsShut};
ghost use Rattle.campaign_server.specs.MemoryForms.MemoryDoors.{told_by};
ghost use Rattle.campaign_server.specs.ConnectionLoop.Pieces.{are_filled};

use crate::archives::keeper_of;
use crate::messages::Exchange;
use crate::stages::{Fails, File, NONE, Stage};
use campaign_cli::{MemoryShelf, MemorySink, campaign};
use campaign_server::{MemoryDoor, MemoryLink};
use decimal_rank::{Memory, Text};
use disk_model::{Disk, DiskCall, MemoryDisk};
use release_archive::{Kept, MemoryKeeper};
use rulebook::MAX_MOMENT;
use std::alloc::Global;
use std::sync::Wait;
use std::thread::Threads;

/// What a call of the program came to.
pub(crate) struct Ended {
    pub(crate) status: u8,
    out: MemorySink,
    own: MemoryLink,
    disk: MemoryDisk,
    keeper: MemoryKeeper,
}

impl Drop for Ended {
    fn drop(self) {
        let Ended {
            status: _,
            out: _,
            own: _,
            disk: _,
            keeper: _,
        } = self;
    }
}

impl Ended {
    /// What it printed.
    pub(crate) fn printed(&self) -> &[u8] {
        self.out.written()
    }

    /// What it answered on its link.
    pub(crate) fn answered(&self) -> &[u8] {
        self.own.written()
    }

    /// What its disk holds.
    pub(crate) fn held(&self) -> &[u8] {
        self.disk.content()
    }

    /// The releases that its archive holds.
    pub(crate) fn kept(&self) -> &[Kept] {
        self.keeper.kept()
    }

    /// The calls on its disk that did their work.
    pub(crate) fn disk_calls(&self) -> &[DiskCall] {
        self.disk.calls()
    }

    /// How many calls on its disk failed.
    pub(crate) fn disk_faults(&self) -> u64 {
        self.disk.faults()
    }
}

/// Which messages of a case are given: the first so many, but for one.
#[derive(Clone, Copy)]
pub(crate) struct Part {
    pub(crate) count: usize,
    pub(crate) without: usize,
}

/// All messages.
pub(crate) const ALL: Part = Part {
    count: usize::MAX,
    without: usize::MAX,
};

/// Calls the program on the case's link, which gives the case's messages, each in a piece of its
/// own.
pub(crate) fn called<W: Threads + Wait + Sync + AllocGlobal>(
    rt: &W,
    words: &str,
    stage: &Stage,
    part: Part,
    fails: Fails,
) -> Result<Ended, Memory> {
    let pieces = pieces_of(rt.alloc(), &stage.exchanges, part)?;
    called_over(rt, words, stage, pieces, &stage.disk, fails)
}

/// Calls `session` on this part of the case's messages.
pub(crate) fn held_session<W: Threads + Wait + Sync + AllocGlobal>(
    rt: &W,
    stage: &Stage,
    part: Part,
    fails: Fails,
) -> Result<Ended, Memory> {
    called(rt, "session", stage, part, fails)
}

/// Calls `check` on a disk of these bytes.
pub(crate) fn checked<W: Threads + Wait + Sync + AllocGlobal>(
    rt: &W,
    stage: &Stage,
    held: &[u8],
) -> Result<Ended, Memory> {
    called_over(rt, "check", stage, Vec::new(rt.alloc()), held, NONE)
}

/// Calls `session` on all of the case's messages in one text, which comes in two pieces, the first
/// of so many bytes.
pub(crate) fn cut_session<W: Threads + Wait + Sync + AllocGlobal>(
    rt: &W,
    stage: &Stage,
    text: &[u8],
    count: usize,
) -> Result<Ended, Memory> {
    let count = count.min(text.len());
    let pieces = with_piece(Vec::new(rt.alloc()), &text[..count])?;
    let pieces = with_piece(pieces, &text[count..])?;
    called_over(rt, "session", stage, pieces, &stage.disk, NONE)
}

fn called_over<W: Threads + Wait + Sync + AllocGlobal>(
    rt: &W,
    words: &str,
    stage: &Stage,
    pieces: Vec<Text>,
    held: &[u8],
    fails: Fails,
) -> Result<Ended, Memory>
    requires { IsTrue (are_filled pieces.items) }
{
    let alloc = rt.alloc();
    let own = link_of(alloc, pieces, stage.clock, fails)?;
    let words = words_of(alloc, words)?;
    let shelf = shelf_of(alloc, &stage.files, fails.file)?;
    let out = MemorySink::new(places(alloc, fails.output)?);
    let disk = disk_of(alloc, held, fails.disk)?;
    let keeper = keeper_of(alloc, &stage.releases, fails.keeper)?;
    Ok(ended_by(rt, &words, shelf, out, own, disk, keeper))
}

fn ended_by<W: Threads + Wait + Sync + AllocGlobal>(
    rt: &W,
    words: &[String],
    shelf: MemoryShelf,
    out: MemorySink,
    own: MemoryLink,
    disk: MemoryDisk,
    keeper: MemoryKeeper,
) -> Ended {
    let alloc = rt.alloc();
    let (mut shelf, mut out, mut own, mut keeper) = (shelf, out, own, keeper);
    let mut door = shut_door(alloc);
    let (status, disk) = campaign(
        rt,
        alloc,
        words,
        &mut shelf,
        &mut out,
        &mut own,
        disk,
        &mut door,
        &mut keeper,
    );
    Ended {
        status: status.0,
        out,
        own,
        disk,
        keeper,
    }
}

/// A door without links.
fn shut_door(alloc: Global) -> MemoryDoor<MemoryLink>
    ensures { IsShut (told_by result) }
{
    MemoryDoor::new(Vec::new(alloc), Vec::new(alloc))
}

fn words_of(alloc: Global, text: &str) -> Result<Vec<String>, Memory> {
    let mut words = Vec::new(alloc);
    for word in text.split_whitespace() {
        words.push(String::from_str(alloc, word)?)?;
    }
    Ok(words)
}

fn shelf_of(alloc: Global, files: &[File], fail: u64) -> Result<MemoryShelf, Memory> {
    let mut rows = Vec::new(alloc);
    for file in files {
        rows.push(row_of(alloc, file)?)?;
    }
    Ok(MemoryShelf::new(rows, places(alloc, fail)?))
}

fn row_of(alloc: Global, file: &File) -> Result<(Text, Text), Memory> {
    let name = Text::from_slice(alloc, &file.name)?;
    Ok((name, Text::from_slice(alloc, &file.bytes)?))
}

/// A link whose clock stands at this moment.
fn link_of(
    alloc: Global,
    pieces: Vec<Text>,
    moment: u64,
    fails: Fails,
) -> Result<MemoryLink, Memory>
    requires { IsTrue (are_filled pieces.items) }
{
    let moments = vec![in alloc; moment.min(MAX_MOMENT)]?;
    let reads = places(alloc, fails.read)?;
    let writes = places(alloc, fails.write)?;
    Ok(MemoryLink::new(pieces, moments, reads, writes))
}

fn disk_of(alloc: Global, held: &[u8], fail: u64) -> Result<MemoryDisk, Memory> {
    let fails = places(alloc, fail)?;
    Ok(MemoryDisk::new(Vec::from_slice(alloc, held)?, fails))
}

/// This place alone; none where it is 0.
fn places(alloc: Global, place: u64) -> Result<Vec<u64>, Memory> {
    let mut places = Vec::new(alloc);
    if place > 0 {
        places.push(place)?;
    }
    Ok(places)
}

fn pieces_of(alloc: Global, exchanges: &[Exchange], part: Part) -> Result<Vec<Text>, Memory>
    ensures { IfOk result (λ pieces. IsTrue (are_filled pieces.items)) }
{
    let mut pieces = Vec::new(alloc);
    for place in 0..exchanges.len().min(part.count) {
        if place != part.without {
            pieces = with_piece(pieces, &exchanges[place].message)?;
        }
    }
    Ok(pieces)
}

/// The pieces and one more, where it isn't empty.
fn with_piece(pieces: Vec<Text>, bytes: &[u8]) -> Result<Vec<Text>, Memory>
    requires { IsTrue (are_filled pieces.items) }
    ensures { IfOk result (λ pieces. IsTrue (are_filled pieces.items)) }
{
    let mut pieces = pieces;
    if bytes.is_empty() {
        return Ok(pieces);
    }
    let piece = Text::from_slice(*pieces.allocator(), bytes)?;
    pieces.push(piece)?;
    Ok(pieces)
}
