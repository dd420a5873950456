//! The bytes of a disk in memory, and the calls that made them.
ghost use Rattle.std.specs.Prelude.{◌≡◌, ◌≤◌, ℕ, List, [], length, OnErr, OnOk};
ghost use Rattle.disk_model.specs.Calls.{LeavesContent};
ghost use Rattle.disk_model.specs.Disks.{written};
ghost use Rattle.disk_model.specs.MemoryDisks.{begun_with, content_of, with_call};

use crate::disk_calls::DiskCall;
use decimal_rank::{Memory, Text};
use std::marker::Model;

/// What a disk holds, and the calls that made it. Contracts see the content before the first call,
/// and the calls.
pub(crate) struct HeldBytes {
    // the content before the first call, from the first one on that changes it
    start: Option<Vec<u8>>,
    content: Vec<u8>,
    calls: Vec<DiskCall>,
}

impl Model for HeldBytes {
    ghost use Rattle.std.specs.Prelude.{◌≡◌};
    ghost use Rattle.disk_model.specs.Calls.{content_after};
    ghost use Rattle.disk_model.specs.MemoryDisks.{HeldContent, begun_with};

    ghost Value = { HeldContent };

    ghost view = { λ held. record {
      start = begun_with held.start held.content.items;
      calls = held.calls.items;
    } };

    ghost invariant = { λ held. held.content.items
        ≡ content_after held.calls.items (begun_with held.start held.content.items) };
}

// a call of its own, so that no caller's proof takes the bytes apart
impl Drop for HeldBytes {
    fn drop(self) {
        let HeldBytes {
            start: _,
            content: _,
            calls: _,
        } = self;
    }
}

impl HeldBytes {
    pub(crate) fn new(content: Vec<u8>) -> HeldBytes
        ensures { result ≡ record { start = content.items; calls = [] } }
    {
        let alloc = *content.allocator();
        HeldBytes {
            start: None,
            content,
            calls: Vec::new(alloc),
        }
    }

    pub(crate) fn content(&self) -> &[u8]
        ensures { result.now ≡ content_of self.now }
    {
        &self.content
    }

    pub(crate) fn calls(&self) -> &[DiskCall]
        ensures { result.now ≡ self.now.calls }
    {
        &self.calls
    }

    /// Keeps a call that leaves the content.
    pub(crate) fn note(&mut self, call: DiskCall) -> Result<(), Memory>
        requires { LeavesContent call }
        ensures ok { OnOk result (self.new ≡ with_call self.old call) }
        ensures err { OnErr result (self.new ≡ self.old) }
        ensures content { content_of self.new ≡ content_of self.old }
    {
        self.calls.reserve(1)?;
        self.calls.push_reserved(call);
        Ok(())
    }

    /// Writes over what is there, and past the end.
    pub(crate) fn write(&mut self, place: u64, piece: &[u8]) -> Result<(), Memory>
        requires { place ≤ length (content_of self.old) }
        ensures ok { OnOk result
            (self.new ≡ with_call self.old (DiskCall.Write place piece.now)) }
        ensures err { OnErr result (self.new ≡ self.old) }
    {
        let kept = Text::from_slice(*self.content.allocator(), piece)?;
        keep_start(&mut self.start, &self.content)?;
        self.calls.reserve(1)?;
        overwrite(&mut self.content, place as usize, piece)?;
        self.calls
            .push_reserved(DiskCall::Write { place, piece: kept });
        Ok(())
    }

    /// Keeps the first bytes alone.
    pub(crate) fn cut(&mut self, to: u64) -> Result<(), Memory>
        requires { to ≤ length (content_of self.old) }
        ensures ok { OnOk result (self.new ≡ with_call self.old (DiskCall.Cut to)) }
        ensures err { OnErr result (self.new ≡ self.old) }
    {
        keep_start(&mut self.start, &self.content)?;
        self.calls.reserve(1)?;
        self.content.truncate(to as usize);
        self.calls.push_reserved(DiskCall::Cut { to });
        Ok(())
    }
}

/// Keeps the content of the start, before it is changed.
fn keep_start(start: &mut Option<Vec<u8>>, content: &Vec<u8>) -> Result<(), Memory>
    ensures begun { (later : List ℕ)
        → OnOk result (begun_with start.new later ≡ begun_with start.old content.now.items) }
    ensures err { OnErr result (start.new ≡ start.old) }
{
    match *start {
        Some(_) => Ok(()),
        None => {
            *start = Some(content.to_vec(*content.allocator())?);
            Ok(())
        }
    }
}

/// Writes the piece over what is there, and past the end.
fn overwrite(content: &mut Vec<u8>, place: usize, piece: &[u8]) -> Result<(), Memory>
    requires { place ≤ length content.old.items }
    ensures ok { OnOk result (content.new.items ≡ written place piece.now content.old.items) }
    ensures err { OnErr result (content.new.items ≡ content.old.items) }
{
    let over = (content.len() - place).min(piece.len());
    content.extend_from_slice(&piece[over..])?;
    content[place..place + over].copy_from_slice(&piece[..over]);
    Ok(())
}
