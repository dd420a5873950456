//! `drill` through the top call.
use crate::calls::{empty_disk, ended_under};
use crate::links::idle_link;
use crate::settings::SETTINGS;
use std::sync::Wait;
use std::test::Fail;
use std::thread::Threads;

/// The status of the program with these words, and what it prints.
fn drilled<W: Threads + Wait + Sync + AllocGlobal>(
    rt: &W,
    words: &str,
) -> Result<(u8, Vec<u8>), Fail> {
    let alloc = rt.alloc();
    let mut own = idle_link(alloc)?;
    let (status, out, _) = ended_under(rt, words, SETTINGS, &mut own, empty_disk(alloc))?;
    Ok((status, Vec::from_slice(alloc, out.written())?))
}

/// Whether a drill ends well, tells first what it plays, and prints the same a second time.
fn is_played_alike<W: Threads + Wait + Sync + AllocGlobal>(rt: &W) -> Result<bool, Fail> {
    let (status, first) = drilled(rt, "drill 1 20 10 100")?;
    let (status_then, second) = drilled(rt, "drill 1 20 10 100")?;
    Ok(
        (status, status_then) == (0, 0)
            && first.starts_with(b"runs 20\ntopics 10\nlines 20000\n")
            && first == second,
    )
}

#[test]
fn a_campaign_is_played_alike_each_time(rt: HostRuntime) -> Result<(), Fail> {
    assert!(rt; is_played_alike(&rt)?);
    Ok(())
}
