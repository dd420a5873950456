//! Adds records to a journal, each synced before the next. Usage: `journal_log FILE RECORDS BYTES`;
//! a file `-` stands for a disk in memory. It prints how many records the journal had, and how many
//! more of so many bytes it has now.
#![tactic(auto)]

ghost use Rattle.std.specs.Prelude.{◌≤◌, ◌^◌, IfSome};

use decimal_rank::Memory;
use disk_model::{Disk, FileDisk, MemoryDisk};
use journal::{Frame, Journal, MOST_PAYLOAD, OpenFault};
use std::alloc::Global;
use std::process::ExitCode;
use std::{env, io};

/// What came of the records.
enum Logged {
    Records { before: usize, added: u32 },
    Fault(OpenFault),
}

/// What the words ask for: the file, how many records, and of how many bytes.
fn asked(words: &[String]) -> Option<(&str, u32, usize)>
    ensures { IfSome result (λ asked. asked.2 ≤ 2 ^ 25) }
{
    let [_, file, records, bytes] = words else {
        return None;
    };
    let records = records.as_str().parse::<u32>().ok()?;
    let bytes = bytes.as_str().parse::<usize>().ok()?;
    if bytes > MOST_PAYLOAD {
        return None;
    }
    Some((file.as_str(), records, bytes))
}

fn words_of(rt: &HostRuntime, alloc: Global) -> Option<Vec<String>> {
    let mut words = Vec::new(alloc);
    for word in env::args(rt).ok()? {
        words.push(word).ok()?;
    }
    Some(words)
}

fn frame_of(alloc: Global, bytes: usize) -> Result<Frame, Memory>
    requires { bytes ≤ 2 ^ 25 }
{
    let payload = vec![in alloc; b'r'; bytes]?;
    Frame::of(alloc, &payload)
}

/// Adds records up to the first that isn't acknowledged. How many were.
fn add<D: Disk>(journal: &mut Journal<D>, frame: &Frame, records: u32) -> u32 {
    for added in 0..records {
        if !journal.has_room(frame) || journal.append(frame).is_err() {
            return added;
        }
    }
    records
}

fn log<D: Disk + Drop>(alloc: Global, disk: D, frame: &Frame, records: u32) -> Logged {
    match Journal::open(alloc, disk) {
        Ok((mut journal, before)) => Logged::Records {
            before: before.len(),
            added: add(&mut journal, frame, records),
        },
        Err((_disk, fault)) => Logged::Fault(fault),
    }
}

fn main(rt: HostRuntime) -> io::Result<ExitCode> {
    let alloc = rt.alloc();
    let Some(words) = words_of(&rt, alloc) else {
        return Ok(ExitCode::from(7));
    };
    let Some((file, records, bytes)) = asked(&words) else {
        println!(rt; "usage: journal_log FILE RECORDS BYTES")?;
        return Ok(ExitCode::from(2));
    };
    let Ok(frame) = frame_of(alloc, bytes) else {
        return Ok(ExitCode::from(7));
    };
    let logged = if file == "-" {
        log(
            alloc,
            MemoryDisk::new(Vec::new(alloc), Vec::new(alloc)),
            &frame,
            records,
        )
    } else {
        log(alloc, FileDisk::new(&rt, file), &frame, records)
    };
    match logged {
        Logged::Records { before, added } => {
            println!(rt; "records {before}, added {added}")?;
            Ok(ExitCode::from(if added == records { 0 } else { 5 }))
        }
        Logged::Fault(OpenFault::Header) => Ok(ExitCode::from(9)),
        Logged::Fault(OpenFault::Disk) => Ok(ExitCode::from(5)),
        Logged::Fault(OpenFault::Memory) => Ok(ExitCode::from(7)),
    }
}
