//! What a case has set so far, and the lines that set it.
//!
//!     file r.txt 1 Q0 A 1 3 t|     a file, in place of one of this name
//!     more r.txt 1 Q0 B 2 2 t|     more of a file
//!     no files
//!     disk 17 times x              what the disk holds
//!     end \x01\x05                 what it holds in place of its last byte
//!     clock 1000                   what the link's clock tells
//!     system autumn X grp 1 5      what the archive holds (`archives`)
//!     fails read 2                 of the next call of the program the second read of its link: a
//!                                  `read` or a `write` of the link, a call on the `disk`, a read
//!                                  of a `file`, a write to the `output`, a call on the archive's
//!                                  `keeper`
use crate::archives::add_system;
use crate::marks::{add_times, bytes_of, cut};
use crate::messages::{Exchange, answer_of, request_of};
use decimal_rank::Memory;
use release_archive::Kept;
use std::alloc::{AllocError, AllocFailed, Global};

/// A line that isn't one, or for which memory is short.
#[derive(Drop)]
pub(crate) struct Unplayed;

impl From<Memory> for Unplayed {
    fn from(_memory: Memory) -> Unplayed {
        Unplayed
    }
}

impl From<AllocError> for Unplayed {
    fn from(_error: AllocError) -> Unplayed {
        Unplayed
    }
}

impl<T: Drop> From<AllocFailed<T>> for Unplayed {
    fn from(_failed: AllocFailed<T>) -> Unplayed {
        Unplayed
    }
}

/// The calls that fail, by their places from 1; none where a place is 0.
#[derive(Clone, Copy)]
pub(crate) struct Fails {
    pub(crate) file: u64,
    pub(crate) output: u64,
    pub(crate) read: u64,
    pub(crate) write: u64,
    pub(crate) disk: u64,
    pub(crate) keeper: u64,
}

pub(crate) const NONE: Fails = Fails {
    file: 0,
    output: 0,
    read: 0,
    write: 0,
    disk: 0,
    keeper: 0,
};

/// A file by its name and its bytes.
pub(crate) struct File {
    pub(crate) name: Vec<u8>,
    pub(crate) bytes: Vec<u8>,
}

impl Drop for File {
    fn drop(self) {
        let File { name: _, bytes: _ } = self;
    }
}

/// What the program is called over, and the messages of its link with their answers.
pub(crate) struct Stage {
    pub(crate) files: Vec<File>,
    pub(crate) disk: Vec<u8>,
    pub(crate) releases: Vec<Kept>,
    pub(crate) exchanges: Vec<Exchange>,
    /// The first bytes of a raw message.
    begun: Vec<u8>,
    pub(crate) clock: u64,
    pub(crate) fails: Fails,
}

// a call of its own, so that no caller's proof takes a stage apart
impl Drop for Stage {
    fn drop(self) {
        let Stage {
            files: _,
            disk: _,
            releases: _,
            exchanges: _,
            begun: _,
            clock: _,
            fails: _,
        } = self;
    }
}

impl Stage {
    /// No files, an empty disk and archive, and no messages.
    pub(crate) fn new(alloc: Global) -> Stage {
        Stage {
            files: Vec::new(alloc),
            disk: Vec::new(alloc),
            releases: Vec::new(alloc),
            exchanges: Vec::new(alloc),
            begun: Vec::new(alloc),
            clock: 0,
            fails: NONE,
        }
    }

    /// Sets what a line says.
    pub(crate) fn set(&mut self, alloc: Global, line: &str) -> Result<(), Unplayed> {
        let (verb, rest) = cut(line);
        if verb == "file" {
            return Ok(self.put(alloc, rest, true)?);
        }
        if verb == "more" {
            return Ok(self.put(alloc, rest, false)?);
        }
        if verb == "disk" {
            self.disk.clear();
            return Ok(add_times(alloc, rest, &mut self.disk)?);
        }
        if verb == "end" {
            self.disk.pop();
            return Ok(add_times(alloc, rest, &mut self.disk)?);
        }
        if verb == "system" {
            return add_system(alloc, &mut self.releases, rest);
        }
        self.set_plain(verb, rest)
    }

    fn set_plain(&mut self, verb: &str, rest: &str) -> Result<(), Unplayed> {
        if verb == "clock" {
            self.clock = rest.parse::<u64>().ok().ok_or(Unplayed)?;
            return Ok(());
        }
        if verb == "no" && rest == "files" {
            self.files.clear();
            return Ok(());
        }
        if verb == "fails" {
            return self.fail(rest);
        }
        Err(Unplayed)
    }

    /// The call of this kind at this place fails.
    fn fail(&mut self, words: &str) -> Result<(), Unplayed> {
        let (kind, place) = cut(words);
        let place = place.parse::<u64>().ok().ok_or(Unplayed)?;
        if kind == "file" {
            self.fails.file = place;
        } else if kind == "output" {
            self.fails.output = place;
        } else if kind == "read" {
            self.fails.read = place;
        } else if kind == "write" {
            self.fails.write = place;
        } else if kind == "disk" {
            self.fails.disk = place;
        } else if kind == "keeper" {
            self.fails.keeper = place;
        } else {
            return Err(Unplayed);
        }
        Ok(())
    }

    /// Adds a text to the file that is named before it, which may begin anew.
    fn put(&mut self, alloc: Global, words: &str, is_new: bool) -> Result<(), Memory> {
        let (name, text) = cut(words);
        let place = place_of(&self.files, name);
        if place >= self.files.len() {
            self.files.push(empty_file(alloc, name)?)?;
        }
        match self.files.get_mut(place) {
            Some(file) => fill(alloc, file, text, is_new),
            None => Ok(()),
        }
    }

    /// Adds a request and its answer.
    pub(crate) fn exchange(
        &mut self,
        alloc: Global,
        line: &str,
        answer: &str,
    ) -> Result<(), Unplayed> {
        let message = request_of(alloc, line)?;
        let answer = answer_of(alloc, answer)?;
        Ok(self.exchanges.push(Exchange { message, answer })?)
    }

    /// Adds bytes to the raw message that is begun.
    pub(crate) fn begin_raw(&mut self, alloc: Global, bytes: &str) -> Result<(), Unplayed> {
        Ok(add_times(alloc, bytes, &mut self.begun)?)
    }

    /// Adds the raw message that these bytes end, and its answer.
    pub(crate) fn end_raw(
        &mut self,
        alloc: Global,
        bytes: &str,
        answer: &str,
    ) -> Result<(), Unplayed> {
        add_times(alloc, bytes, &mut self.begun)?;
        let answer = answer_of(alloc, answer)?;
        let message = std::mem::replace(&mut self.begun, Vec::new(alloc));
        Ok(self.exchanges.push(Exchange { message, answer })?)
    }

    /// Goes on with what the disk and the archive hold now, without messages and failing calls.
    pub(crate) fn go_on(&mut self, held: &[u8], releases: Vec<Kept>) -> Result<(), Memory> {
        self.exchanges.clear();
        self.fails = NONE;
        self.releases = releases;
        self.disk.clear();
        Ok(self.disk.extend_from_slice(held)?)
    }
}

/// The place of the file of this name; behind all files where there is none.
fn place_of(files: &[File], name: &str) -> usize {
    for place in 0..files.len() {
        if files[place].name.as_slice() == name.as_bytes() {
            return place;
        }
    }
    files.len()
}

fn empty_file(alloc: Global, name: &str) -> Result<File, Memory> {
    Ok(File {
        name: bytes_of(alloc, name)?,
        bytes: Vec::new(alloc),
    })
}

fn fill(alloc: Global, file: &mut File, text: &str, is_new: bool) -> Result<(), Memory> {
    if is_new {
        file.bytes.clear();
    }
    add_times(alloc, text, &mut file.bytes)
}
