//! The campaign of other settings.
//!
//!     settings hold = 2 => hold = 0 -> 3 input: campaign.toml|
//!
//! `check` over the case's disk, with these words in place of those in its `campaign.toml`.
use crate::calls::checked;
use crate::marks::bytes_of;
use crate::outcomes::Outcome;
use crate::sessions::{is_ended_so, told};
use crate::stages::{File, Stage, Unplayed};
use std::alloc::Global;
use std::sync::Wait;
use std::thread::Threads;

/// Tells what `check` comes to under the changed settings, where it isn't what is wanted.
pub(crate) fn play_settings<W: Threads + Wait + Sync + AllocGlobal>(
    rt: &W,
    stage: &Stage,
    change: &str,
    wanted: &str,
) -> Result<Outcome, Unplayed> {
    let alloc = rt.alloc();
    let other = changed(alloc, stage, change)?;
    let ended = checked(rt, &other, &stage.disk)?;
    if is_ended_so(alloc, &ended, wanted)? {
        return Ok(Outcome::Right);
    }
    Ok(Outcome::Other(told(alloc, &ended)?))
}

/// A stage with the changed settings alone.
fn changed(alloc: Global, stage: &Stage, change: &str) -> Result<Stage, Unplayed> {
    let (old, new) = change.split_once(" =>").ok_or(Unplayed)?;
    let old = bytes_of(alloc, old)?;
    let new = bytes_of(alloc, new.strip_prefix(" ").unwrap_or(new))?;
    let file = stage.files.get(0).ok_or(Unplayed)?;
    let bytes = replaced(alloc, &file.bytes, &old, &new)?;
    let name = Vec::from_slice(alloc, &file.name)?;
    let mut other = Stage::new(alloc);
    other.files.push(File { name, bytes })?;
    Ok(other)
}

/// The text with these bytes in place of the first that are the old ones.
fn replaced(alloc: Global, text: &[u8], old: &[u8], new: &[u8]) -> Result<Vec<u8>, Unplayed> {
    for place in 0..text.len() {
        if let Some(behind) = text[place..].strip_prefix(old) {
            let mut bytes = Vec::from_slice(alloc, &text[..place])?;
            bytes.extend_from_slice(new)?;
            bytes.extend_from_slice(behind)?;
            return Ok(bytes);
        }
    }
    Err(Unplayed)
}
