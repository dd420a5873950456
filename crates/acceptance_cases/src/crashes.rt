//! What a crash behind each call of a session on its disk may leave, and what is read from it.
//!
//!     crash 8 -> write 1 2 1 2 1
//!
//! Behind the eighth call, a write: so many entries has the campaign of the disk whose torn bytes
//! are the old ones, the new ones, all 00, all 01, all 4d. Torn are the bytes that were written
//! since the last sync, and those past a length that changed. Where its length changed, these five
//! are told of the least and then of the greatest length; where nothing is torn there is one.
use crate::calls::{ALL, checked, held_session};
use crate::outcomes::Outcome;
use crate::stages::{Stage, Unplayed};
use decimal_rank::{Failed, Memory};
use disk_model::{Disk, DiskCall, MOST_BYTES, MemoryDisk};
use std::alloc::Global;
use std::sync::Wait;
use std::thread::Threads;

/// What torn bytes are.
#[derive(Clone, Copy)]
enum Fill {
    Old,
    New,
    Byte(u8),
}

const FILLS: [Fill; 5] = [
    Fill::Old,
    Fill::New,
    Fill::Byte(0),
    Fill::Byte(1),
    Fill::Byte(77),
];

/// The bytes at the last sync, the disk now, and what a crash may have torn: the bytes of a range,
/// and the length.
struct Torn {
    old: Vec<u8>,
    now: MemoryDisk,
    start: usize,
    end: usize,
    least: usize,
    greatest: usize,
}

impl Drop for Torn {
    fn drop(self) {
        let Torn {
            old: _,
            now: _,
            start: _,
            end: _,
            least: _,
            greatest: _,
        } = self;
    }
}

impl Torn {
    fn new(alloc: Global, held: &[u8]) -> Result<Torn, Memory> {
        let old = Vec::from_slice(alloc, held)?;
        let now = MemoryDisk::new(Vec::from_slice(alloc, held)?, Vec::new(alloc));
        Ok(Torn {
            old,
            now,
            start: usize::MAX,
            end: 0,
            least: held.len(),
            greatest: held.len(),
        })
    }

    /// Makes a call that did its work.
    fn make(&mut self, call: &DiskCall) -> Result<(), Unplayed> {
        match call {
            DiskCall::Len | DiskCall::Read { .. } => Ok(()),
            DiskCall::Write { place, piece } => {
                write(&mut self.now, *place, piece.bytes())?;
                self.tear(*place as usize, piece.bytes().len());
                Ok(())
            }
            DiskCall::Cut { to } => {
                cut(&mut self.now, *to)?;
                self.tear(usize::MAX, 0);
                Ok(())
            }
            DiskCall::Sync => Ok(self.sync()?),
        }
    }

    /// So many bytes from this place on are torn, and those past the least length.
    fn tear(&mut self, place: usize, count: usize) {
        let length = self.now.content().len();
        self.least = self.least.min(length);
        self.greatest = self.greatest.max(length);
        if count > 0 {
            self.start = self.start.min(place);
            self.end = self.end.max(place.saturating_add(count));
        }
        if self.least < self.greatest {
            self.start = self.start.min(self.least);
            self.end = self.end.max(self.greatest);
        }
    }

    fn sync(&mut self) -> Result<(), Memory> {
        self.old.clear();
        self.old.extend_from_slice(self.now.content())?;
        self.start = usize::MAX;
        self.end = 0;
        self.least = self.old.len();
        self.greatest = self.old.len();
        Ok(())
    }

    fn byte_at(&self, place: usize, fill: Fill) -> u8 {
        let old = self.old.get(place).copied().unwrap_or(0);
        if place < self.start || place >= self.end {
            return old;
        }
        match fill {
            Fill::Old => old,
            Fill::New => self.now.content().get(place).copied().unwrap_or(0),
            Fill::Byte(byte) => byte,
        }
    }

    /// What a crash may leave, of this length.
    fn image(&self, alloc: Global, length: usize, fill: Fill) -> Result<Vec<u8>, Memory> {
        let mut image = Vec::new(alloc);
        for place in 0..length {
            image.push(self.byte_at(place, fill))?;
        }
        Ok(image)
    }
}

fn write(disk: &mut MemoryDisk, place: u64, piece: &[u8]) -> Result<(), Unplayed> {
    let length = disk.content().len() as u64;
    if place > length || place > MOST_BYTES || piece.len() as u64 > MOST_BYTES - place {
        return Err(Unplayed);
    }
    match disk.write_at(place, piece) {
        Ok(()) => Ok(()),
        Err(Failed) => Err(Unplayed),
    }
}

fn cut(disk: &mut MemoryDisk, to: u64) -> Result<(), Unplayed> {
    let length = disk.content().len() as u64;
    if to > length {
        return Err(Unplayed);
    }
    match disk.cut(to) {
        Ok(()) => Ok(()),
        Err(Failed) => Err(Unplayed),
    }
}

/// Tells what may be left behind the call at this place, from 1.
pub(crate) fn play_crash<W: Threads + Wait + Sync + AllocGlobal>(
    rt: &W,
    stage: &Stage,
    place: &str,
    wanted: &str,
) -> Result<Outcome, Unplayed> {
    let place = place.parse::<usize>().ok().ok_or(Unplayed)?;
    Ok(Outcome::of(told_at(rt, stage, place)?, wanted))
}

fn told_at<W: Threads + Wait + Sync + AllocGlobal>(
    rt: &W,
    stage: &Stage,
    place: usize,
) -> Result<String, Unplayed> {
    let ended = held_session(rt, stage, ALL, stage.fails)?;
    let calls = ended.disk_calls();
    let last = calls.get(place.saturating_sub(1));
    let Some(last) = last else {
        return Ok(String::from_str(rt.alloc(), "none")?);
    };
    let torn = torn_by(rt.alloc(), &stage.disk, calls, place)?;
    let mut told = String::from_str(rt.alloc(), word_of(last))?;
    tell_images(rt, stage, &torn, &mut told)?;
    Ok(told)
}

/// What these first calls tear on a disk that holds these bytes.
fn torn_by(alloc: Global, held: &[u8], calls: &[DiskCall], count: usize) -> Result<Torn, Unplayed> {
    let mut torn = Torn::new(alloc, held)?;
    for place in 0..calls.len().min(count) {
        torn.make(&calls[place])?;
    }
    Ok(torn)
}

fn word_of(call: &DiskCall) -> &'static str {
    match call {
        DiskCall::Len => "len",
        DiskCall::Read { .. } => "read",
        DiskCall::Write { .. } => "write",
        DiskCall::Cut { .. } => "cut",
        DiskCall::Sync => "sync",
    }
}

fn tell_images<W: Threads + Wait + Sync + AllocGlobal>(
    rt: &W,
    stage: &Stage,
    torn: &Torn,
    told: &mut String,
) -> Result<(), Memory> {
    if torn.start >= torn.end {
        return tell_image(rt, stage, torn, torn.least, Fill::Old, told);
    }
    tell_fills(rt, stage, torn, torn.least, told)?;
    if torn.least < torn.greatest {
        told.push_str(" /")?;
        tell_fills(rt, stage, torn, torn.greatest, told)?;
    }
    Ok(())
}

fn tell_fills<W: Threads + Wait + Sync + AllocGlobal>(
    rt: &W,
    stage: &Stage,
    torn: &Torn,
    length: usize,
    told: &mut String,
) -> Result<(), Memory> {
    for fill in FILLS {
        tell_image(rt, stage, torn, length, fill, told)?;
    }
    Ok(())
}

/// Tells how many entries an image has.
fn tell_image<W: Threads + Wait + Sync + AllocGlobal>(
    rt: &W,
    stage: &Stage,
    torn: &Torn,
    length: usize,
    fill: Fill,
    told: &mut String,
) -> Result<(), Memory> {
    let image = torn.image(rt.alloc(), length, fill)?;
    let ended = checked(rt, stage, &image)?;
    told.push_str(" ")?;
    Ok(told.push_str(entries_of(ended.printed()))?)
}

/// The number behind the first word of what `check` prints.
fn entries_of(printed: &[u8]) -> &str {
    let Ok(text) = str::from_utf8(printed) else {
        return "?";
    };
    let line = text.lines().next().unwrap_or("");
    line.strip_prefix("entries ").unwrap_or("?")
}
