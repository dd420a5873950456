//! The archive of a case.
//!
//!     system autumn X grp 1 500000000000000     one system more of a release: the release's name,
//!                                               the run, its group, how many topics counted, and
//!                                               its map in units of 10^-15
use crate::marks::cut;
use crate::stages::Unplayed;
use decimal_rank::{Memory, Rows, Text};
use measures::Summary;
use release_archive::{Kept, MemoryKeeper, archive_release, is_sound};
use rulebook::System;
use std::alloc::Global;

/// Adds a system to the release that a line names, which is there from then on.
pub(crate) fn add_system(
    alloc: Global,
    releases: &mut Vec<Kept>,
    words: &str,
) -> Result<(), Unplayed> {
    let (name, words) = cut(words);
    let system = system_of(alloc, words)?;
    let place = place_of(releases, name);
    if place >= releases.len() {
        releases.push(empty_release(alloc, name)?)?;
    }
    match releases.get_mut(place) {
        Some(kept) => {
            let mut systems = copied(alloc, kept.systems.items())?;
            systems.push(system)?;
            kept.systems = Rows::new(systems);
            Ok(())
        }
        None => Ok(()),
    }
}

/// The place of the release of this name; behind all where there is none.
fn place_of(releases: &[Kept], name: &str) -> usize {
    for place in 0..releases.len() {
        if releases[place].name.bytes() == name.as_bytes() {
            return place;
        }
    }
    releases.len()
}

fn empty_release(alloc: Global, name: &str) -> Result<Kept, Memory> {
    Ok(Kept {
        name: Text::from_slice(alloc, name.as_bytes())?,
        qrels: Text::from_slice(alloc, b"")?,
        systems: Rows::new(Vec::new(alloc)),
    })
}

fn system_of(alloc: Global, words: &str) -> Result<System, Unplayed> {
    let (run, words) = cut(words);
    let (group, words) = cut(words);
    let (topics, map) = cut(words);
    let topics = topics.parse::<u32>().ok().ok_or(Unplayed)?;
    let map = map.parse::<u64>().ok().ok_or(Unplayed)?;
    Ok(System {
        run: Text::from_slice(alloc, run.as_bytes())?,
        group: Text::from_slice(alloc, group.as_bytes())?,
        summary: summary_of(topics, map),
    })
}

fn summary_of(topics: u32, map: u64) -> Summary {
    Summary {
        topics,
        ret: 0,
        rel: 0,
        rel_ret: 0,
        map,
        r_prec: 0,
        bpref: 0,
        recip: 0,
        at: [0; 9],
    }
}

fn copied(alloc: Global, systems: &[System]) -> Result<Vec<System>, Memory> {
    let mut copies = Vec::new(alloc);
    for system in systems {
        copies.push(system.copy()?)?;
    }
    Ok(copies)
}

/// These releases.
pub(crate) fn copies_of(alloc: Global, releases: &[Kept]) -> Result<Vec<Kept>, Memory> {
    let mut copies = Vec::new(alloc);
    for kept in releases {
        copies.push(kept.copy(alloc)?)?;
    }
    Ok(copies)
}

/// A keeper of these releases, whose call at a place from then on fails; none where it is 0.
pub(crate) fn keeper_of(
    alloc: Global,
    releases: &[Kept],
    fail: u64,
) -> Result<MemoryKeeper, Memory> {
    let mut fails = Vec::new(alloc);
    if fail > 0 {
        // (each release is looked for and added before)
        fails.push(fail.saturating_add(2 * releases.len() as u64))?;
    }
    let mut keeper = MemoryKeeper::new(Vec::new(alloc), fails);
    for kept in releases {
        if is_sound(kept) && archive_release(alloc, &mut keeper, kept).is_err() {
            return Err(Memory);
        }
    }
    Ok(keeper)
}
