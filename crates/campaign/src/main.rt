//! The program: the files of the system, standard input and output, the machine's clock, the file
//! of the campaign's journal, a TCP door on 127.0.0.1 and the file of an archive, and the top call
//! over them. Standard error is told what failed and what to do (`diagnostics`); what standard
//! output has and the status are the top call's alone.
//!
//! - Here: the adapters, and the call.
//! - `shelf_reports`, `door_reports`: what a shelf and a door tell as they are used. A new ghost
//!   member of these traits wants its line there.
#![tactic(auto)]

mod door_reports;
mod shelf_reports;

use archive_file::SqliteKeeper;
use campaign_cli::{FileShelf, OutputSink, Shelf, Status, campaign};
use campaign_server::StreamLink;
use decimal_rank::Secret;
use diagnostics::{ReportingDisk, tell_journal, tell_settings, tell_status, tell_usage};
use disk_model::FileDisk;
use door_reports::ReportingDoor;
use shelf_reports::ReportingShelf;
use std::alloc::{AllocError, Global};
use std::io::ErrorKind;
use std::path::PathBuf;
use std::process::ExitCode;
use std::{env, fs};

/// The file that keeps the campaign, in the folder that the program runs in.
const JOURNAL: &str = "campaign.journal";

/// The settings of the campaign, in the same folder.
const SETTINGS: &str = "campaign.toml";

/// The file that keeps the releases of campaigns, in the same folder.
const ARCHIVE: &str = "campaign.archive";

/// What is said where tables hash with a secret of the clocks, which is weaker.
const WEAKER: &str =
    "campaign: the system's random source doesn't answer; tables hash with a secret of the clocks";

/// The words after the program's name; none where one of them isn't UTF-8.
fn words(rt: &HostRuntime, alloc: Global) -> Result<Vec<String>, AllocError> {
    let mut words = Vec::new(alloc);
    match env::args(rt) {
        Ok(all) => {
            for word in all.skip(1) {
                words.push(word)?;
            }
        }
        Err(error) if error.kind() == ErrorKind::OutOfMemory => return Err(AllocError),
        Err(_) => {}
    }
    Ok(words)
}

/// Tells why the program ends with this status. The shelf and the door told of theirs, 4 and 6.
fn tell(rt: &HostRuntime, alloc: Global, words: &[String], status: Status) {
    match status.0 {
        2 => tell_usage(rt, words),
        3 if !is_evaluation(words) => look_at_settings(rt, alloc),
        5 => tell_journal(rt, JOURNAL),
        other => tell_status(rt, other),
    }
}

/// Reads the settings again, and tells what is wrong with them.
fn look_at_settings(rt: &HostRuntime, alloc: Global) {
    let Ok(text) = FileShelf::new(rt).read_file(alloc, SETTINGS.as_bytes()) else {
        return;
    };
    tell_settings(rt, alloc, SETTINGS, &text);
}

/// Whether the words are those of `eval`, which has no settings.
fn is_evaluation(words: &[String]) -> bool {
    match words {
        [word, ..] => word.as_str() == "eval",
        [] => false,
    }
}

/// The journal's file, behind a symbolic link too; none where there is no such file yet.
fn journal_file(rt: &HostRuntime) -> Result<Option<PathBuf>, AllocError> {
    match fs::canonicalize(rt, JOURNAL) {
        Ok(path) => Ok(Some(path)),
        Err(error) if error.kind() == ErrorKind::OutOfMemory => Err(AllocError),
        Err(_) => Ok(None),
    }
}

/// What the system tells at the start: the words, and the journal's file.
fn start(rt: &HostRuntime, alloc: Global) -> Result<(Vec<String>, Option<PathBuf>), AllocError> {
    let words = words(rt, alloc)?;
    Ok((words, journal_file(rt)?))
}

fn main(rt: HostRuntime) -> ExitCode {
    let alloc = rt.alloc();
    if !Secret::is_source_answering() {
        let _ = rt.eprintln(WEAKER);
    }
    let status = match start(&rt, alloc) {
        Ok((words, file)) => {
            let journal = match &file {
                Some(path) => path.as_str(),
                None => JOURNAL,
            };
            let mut shelf = ReportingShelf::new(FileShelf::new(&rt), &rt);
            let mut out = OutputSink::new(&rt);
            let mut own = StreamLink::new(&rt);
            let disk = ReportingDisk::new(FileDisk::new(&rt, journal), &rt);
            let mut door = ReportingDoor::new(&rt);
            let mut keeper = SqliteKeeper::new(&rt, ARCHIVE);
            let (status, disk) = campaign(
                &rt,
                alloc,
                &words,
                &mut shelf,
                &mut out,
                &mut own,
                disk,
                &mut door,
                &mut keeper,
            );
            // (then the one file holds all releases)
            keeper.close();
            // (a look at the journal wants its lock)
            drop(disk);
            tell(&rt, alloc, &words, status);
            status
        }
        Err(_) => {
            tell_status(&rt, 7);
            Status(7)
        }
    };
    ExitCode::from(status.0)
}
