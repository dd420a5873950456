//! `serve` through the top call.
ghost use Rattle.std.specs.Prelude.{◌≡◌, ◌≤◌, All, IfOk};
ghost use Rattle.campaign_server.specs.Doors.{IsNew, IsShut};
ghost use Rattle.campaign_server.specs.MemoryForms.MemoryDoors.{told_by};

use crate::calls::{empty_disk, ended_at, ended_under};
use crate::links::{
    Answers, Faults, NO_FAULTS, PlannedLink, idle_link, link_of, no_answers, waiting_link,
};
use crate::session::{POOL, POOL_SHOWN, SUBMIT, SUBMITTED, TOPICS, TOPICS_TAKEN, both};
use crate::settings::{SETTINGS, settings_shelf};
use campaign_cli::MemorySink;
use campaign_server::{End, Link, MemoryDoor};
use decimal_rank::Memory;
use disk_model::MemoryDisk;
use std::alloc::Global;
use std::sync::Wait;
use std::test::Fail;
use std::thread::Threads;

/// The status of the program with these words over a door and an empty disk, and what the disk has
/// then.
fn served_at<W: Threads + Wait + Sync + AllocGlobal>(
    rt: &W,
    words: &str,
    door: &mut MemoryDoor<PlannedLink>,
) -> Result<(u8, Vec<u8>), Fail>
    requires { IsShut (told_by door.old) }
{
    let alloc = rt.alloc();
    let mut shelf = settings_shelf(alloc, SETTINGS)?;
    let mut out = MemorySink::new(Vec::new(alloc));
    let mut own = idle_link(alloc)?;
    let disk = empty_disk(alloc);
    let (status, disk) = ended_at(rt, words, &mut shelf, &mut out, &mut own, disk, door)?;
    Ok((status, content_of(alloc, disk)?))
}

fn content_of(alloc: Global, disk: MemoryDisk) -> Result<Vec<u8>, Fail> {
    Ok(Vec::from_slice(alloc, disk.content())?)
}

/// What `check` prints of a disk with these bytes.
fn page_of<W: Threads + Wait + Sync + AllocGlobal>(rt: &W, held: &[u8]) -> Result<Vec<u8>, Fail> {
    let alloc = rt.alloc();
    let mut own = idle_link(alloc)?;
    let disk = MemoryDisk::new(Vec::from_slice(alloc, held)?, Vec::new(alloc));
    let (_, out, _) = ended_under(rt, "check", SETTINGS, &mut own, disk)?;
    Ok(Vec::from_slice(alloc, out.written())?)
}

/// The links and one more, all of them new.
fn with_link<I: Link + Drop>(links: Vec<I>, link: I) -> Result<Vec<I>, Memory>
    requires all { All (λ link. IsNew (I.seen link)) links.items }
    requires new { IsNew (I.seen link) }
    ensures { IfOk result (λ links. All (λ link. IsNew (I.seen link)) links.items) }
{
    let mut links = links;
    links.push(link)?;
    Ok(links)
}

/// Three links: one that gives the topics and fails so, and two that give a submission and ask for
/// the pool.
fn three_links(alloc: Global, faults: Faults) -> Result<Vec<PlannedLink>, Fail>
    ensures { IfOk result
        (λ links. All (λ link. IsNew (⟦<PlannedLink as Link>⟧.seen link)) links.items) }
{
    let links = with_link(Vec::new(alloc), link_of(alloc, TOPICS, b"", faults)?)?;
    let links = with_link(links, link_of(alloc, SUBMIT, b"", NO_FAULTS)?)?;
    Ok(with_link(links, link_of(alloc, POOL, b"", NO_FAULTS)?)?)
}

/// Whether these are the ends and the written bytes of the links that a door was handed, in order.
fn are_served(door: &MemoryDoor<PlannedLink>, rows: &[(End, &[u8])]) -> bool {
    let served = door.served();
    served.len() == rows.len()
        && served
            .iter()
            .zip(rows)
            .all(|(link, row)| link.1 == row.0 && link.0.written() == row.1)
}

/// Whether a server whose first link fails so ends well, that link with this end and answer.
fn leaves_others_answered<W: Threads + Wait + Sync + AllocGlobal>(
    rt: &W,
    faults: Faults,
    first: (End, &[u8]),
) -> Result<bool, Fail> {
    let alloc = rt.alloc();
    let mut door = MemoryDoor::new(three_links(alloc, faults)?, Vec::new(alloc));
    let words = "serve --port 7000 --workers 1 --connections 3";
    let (status, _) = served_at(rt, words, &mut door)?;
    let rows = [first, (End::Ended, SUBMITTED), (End::Ended, POOL_SHOWN)];
    Ok(status == 0 && door.opened() == Some(7000) && are_served(&door, &rows))
}

#[test]
fn a_failing_link_leaves_the_others_answered(rt: HostRuntime) -> Result<(), Fail> {
    // the read or the write that fails on the first link, its end and its bytes
    let cases: [(u64, u64, End, &[u8]); 3] = [
        (2, 0, End::ReadFault, TOPICS_TAKEN),
        (0, 1, End::WriteFault, b""),
        (0, 0, End::Ended, TOPICS_TAKEN),
    ];
    for (read, write, end, answer) in cases {
        assert!(rt; leaves_others_answered(&rt, Faults { read, write }, (end, answer))?);
    }
    Ok(())
}

/// A door with three links, of whose calls this one fails; none where it is 0.
fn door_of_three(alloc: Global, fail: u64) -> Result<MemoryDoor<PlannedLink>, Fail>
    ensures { IfOk result (λ door. IsShut (told_by door)) }
{
    let mut fails = Vec::new(alloc);
    if fail > 0 {
        fails.push(fail)?;
    }
    Ok(MemoryDoor::new(three_links(alloc, NO_FAULTS)?, fails))
}

/// The status of the program with these words over a door and an empty disk, and what `check` prints
/// then.
fn served_and_checked<W: Threads + Wait + Sync + AllocGlobal>(
    rt: &W,
    words: &str,
    door: &mut MemoryDoor<PlannedLink>,
) -> Result<(u8, Vec<u8>), Fail>
    requires { IsShut (told_by door.old) }
{
    let (status, held) = served_at(rt, words, door)?;
    Ok((status, page_of(rt, &held)?))
}

/// The most connections of a server, the call on its door that fails, the status, how many links are
/// served, and the entries.
type Ending<'a> = (&'a str, u64, u8, usize, &'a str);

fn ends_so<W: Threads + Wait + Sync + AllocGlobal>(
    rt: &W,
    (connections, fail, status, count, entries): Ending<'_>,
) -> Result<bool, Fail> {
    let mut door = door_of_three(rt.alloc(), fail)?;
    let words = format!(in rt.alloc();
        "serve --port 65535 --workers 1 --connections {connections}"
    )?;
    let (ended, page) = served_and_checked(rt, words.as_str(), &mut door)?;
    Ok(
        ended == status
            && door.served().len() == count
            && door.opened().is_some() == (fail != 1)
            && page.starts_with(entries.as_bytes()),
    )
}

#[test]
fn a_server_ends_with_its_door_or_its_connections(rt: HostRuntime) -> Result<(), Fail> {
    let cases = [
        ("9", 0, 0, 3, "entries 3\n"),
        ("3", 0, 0, 3, "entries 3\n"),
        ("1", 0, 0, 1, "entries 2\n"),
        ("3", 3, 6, 1, "entries 2\n"),
        ("3", 1, 6, 0, "entries 1\n"),
    ];
    for case in cases {
        assert!(rt; ends_so(&rt, case)?);
    }
    Ok(())
}

/// A link that asks for the pool once so many answers were written on the next link.
fn asking_link(
    alloc: Global,
    answers: &Answers,
    next_answers: &Answers,
    awaited_count: u64,
) -> Result<PlannedLink, Fail>
    ensures { IfOk result (λ link. IsNew (⟦<PlannedLink as Link>⟧.seen link)) }
{
    waiting_link(
        alloc,
        &POOL[..20],
        &POOL[20..],
        answers,
        next_answers,
        awaited_count,
    )
}

/// A link that waits for none and gives the topics and a run.
fn beginning_link(alloc: Global, answers: &Answers) -> Result<PlannedLink, Fail>
    ensures { IfOk result (λ link. IsNew (⟦<PlannedLink as Link>⟧.seen link)) }
{
    waiting_link(alloc, TOPICS, SUBMIT, answers, answers, 0)
}

/// Two links, of which the first waits for the second to be answered twice.
fn two_waiting(alloc: Global) -> Result<Vec<PlannedLink>, Fail>
    ensures { IfOk result
        (λ links. All (λ link. IsNew (⟦<PlannedLink as Link>⟧.seen link)) links.items) }
{
    let one = no_answers(alloc)?;
    let two = no_answers(alloc)?;
    let links = with_link(Vec::new(alloc), asking_link(alloc, &one, &two, 2)?)?;
    Ok(with_link(links, beginning_link(alloc, &two)?)?)
}

/// Two links in front of these two, of which each waits for the next to be answered.
fn four_waiting(alloc: Global) -> Result<Vec<PlannedLink>, Fail>
    ensures { IfOk result
        (λ links. All (λ link. IsNew (⟦<PlannedLink as Link>⟧.seen link)) links.items) }
{
    let one = no_answers(alloc)?;
    let two = no_answers(alloc)?;
    let three = no_answers(alloc)?;
    let four = no_answers(alloc)?;
    let links = with_link(Vec::new(alloc), asking_link(alloc, &one, &two, 1)?)?;
    let links = with_link(links, asking_link(alloc, &two, &three, 1)?)?;
    let links = with_link(links, asking_link(alloc, &three, &four, 2)?)?;
    Ok(with_link(links, beginning_link(alloc, &four)?)?)
}

/// Whether so many links were served, of which each but one shows the pool with the run that came
/// on that one.
fn have_waited(door: &MemoryDoor<PlannedLink>, last: &[u8], count: usize) -> bool {
    let served = door.served();
    let shown = served
        .iter()
        .filter(|link| link.0.written() == POOL_SHOWN)
        .count();
    served.len() == count
        && shown.saturating_add(1) == count
        && served.iter().all(|link| {
            link.1 == End::Ended && (link.0.written() == POOL_SHOWN || link.0.written() == last)
        })
}

/// Whether as many workers as links answer these links, each of which waits for the next but the
/// last.
fn are_all_answered<W: Threads + Wait + Sync + AllocGlobal>(
    rt: &W,
    links: Vec<PlannedLink>,
) -> Result<bool, Fail>
    requires { All (λ link. IsNew (⟦<PlannedLink as Link>⟧.seen link)) links.items }
{
    let alloc = rt.alloc();
    let count = links.len();
    let last = both(alloc, TOPICS_TAKEN, SUBMITTED)?;
    let mut door = MemoryDoor::new(links, Vec::new(alloc));
    let words = format!(in alloc; "serve --port 7000 --workers {count} --connections {count}")?;
    let (status, _) = served_at(rt, words.as_str(), &mut door)?;
    Ok(status == 0 && have_waited(&door, &last, count))
}

/// Whether two links are all answered, and four.
fn are_answered_that_wait<W: Threads + Wait + Sync + AllocGlobal>(rt: &W) -> Result<bool, Fail> {
    Ok(
        are_all_answered(rt, two_waiting(rt.alloc())?)?
            && are_all_answered(rt, four_waiting(rt.alloc())?)?,
    )
}

#[test]
fn connections_that_wait_are_answered(rt: HostRuntime) -> Result<(), Fail> {
    assert!(rt; are_answered_that_wait(&rt)?);
    Ok(())
}

/// The status of the program with these words, and whether its door was opened.
fn status_and_door<W: Threads + Wait + Sync + AllocGlobal>(
    rt: &W,
    words: &str,
) -> Result<(u8, bool), Fail> {
    let mut door = door_of_three(rt.alloc(), 0)?;
    let (status, _) = served_at(rt, words, &mut door)?;
    Ok((status, door.opened().is_some()))
}

#[test]
fn numbers_out_of_their_ranges_are_usage(rt: HostRuntime) -> Result<(), Fail> {
    let cases = [
        ("serve --port 0 --workers 1 --connections 1", 2),
        ("serve --port 65536 --workers 1 --connections 1", 2),
        ("serve --port 7000 --workers 0 --connections 1", 2),
        ("serve --port 7000 --workers 17 --connections 1", 2),
        ("serve --port 7000 --workers 1 --connections 0", 2),
        ("serve --port 7000 --workers 1 --connections 4294967296", 2),
        ("serve --port 7000 --workers 1 --connections x", 2),
        ("serve --port 7000 --workers 1", 2),
        ("serve --port 7000 --workers 1 --connections 1 1", 2),
        ("serve --connections=1 --workers=16 --port=1", 0),
        ("serve --connections 4294967295 --workers 1 --port 65535", 0),
    ];
    for (words, status) in cases {
        assert!(rt; status_and_door(&rt, words)? == (status, status == 0));
    }
    Ok(())
}
