//! The program's top call: the words are read as a command, which is run over the shelf, the sink,
//! the link, the disk, the door and the archive that it is given, and the status to end with is
//! told.
ghost use Rattle.campaign_server.specs.Doors.{IsShut};
ghost use Rattle.decimal_rank.specs.Outputs.Writings.{Writing};
ghost use Rattle.campaign_cli.specs.Causes.{ending_of};
ghost use Rattle.campaign_cli.specs.Endings.{Ends, kind_of};
ghost use Rattle.campaign_cli.specs.Kinds.{CommandEnded};
ghost use Rattle.campaign_cli.specs.Surroundings.Outside.{AreSame, outside_behind, outside_of};
ghost use Rattle.campaign_cli.specs.Requests.{IsInRange, request_of_command, request_of_words};

use crate::commands::archives::archive_campaign;
use crate::commands::compactions::compact_campaign;
use crate::commands::displays::show_campaign;
use crate::commands::drills::run_drill;
use crate::commands::evaluations::score_files;
use crate::commands::reports::{compare_releases, export_releases, tell_history};
use crate::commands::servers::run_server;
use crate::commands::sessions::hold_session;
use crate::endings::{Cause, Outcome};
use crate::printing::{status_of, tell};
use crate::statuses::Status;
use crate::surroundings::devices::Devices;
use crate::surroundings::shelves::Shelf;
use crate::words::{Command, USAGE_LINE, read_words};
use book::Disk;
use campaign_server::{Door, Link};
use decimal_rank::{Memory, Output as Sink};
use release_archive::Keeper;
use std::alloc::Global;
use std::sync::Wait;
use std::thread::Threads;

/// Runs the program with the words after its name: reads files from the shelf, writes to the sink,
/// answers its own link or the links of a door that isn't open yet, keeps a campaign on the disk,
/// which it gives back, puts its release into the archive of the keeper or reports on that, and
/// tells the status to end with. What each status says is the law `each_status_says`. It may wait
/// for `serve` alone.
pub fn campaign<
    W: Threads + Wait + Sync,
    F: Shelf,
    O: Sink,
    I: Link,
    D: Disk + Send,
    R: Door,
    K: Keeper,
>(
    rt: &W,
    alloc: Global,
    words: &[String],
    shelf: &mut F,
    out: &mut O,
    own: &mut I,
    disk: D,
    door: &mut R,
    keeper: &mut K,
) -> (Status, D)
    requires { IsShut (R.seen door.old) }
    ensures { Ends D.seen (request_of_words words.now)
        (outside_of (F.seen shelf.old) (O.writing out.old) (I.seen own.old)
        (R.seen door.old) (K.seen keeper.old) disk)
        (outside_of (F.seen shelf.new) (O.writing out.new) (I.seen own.new)
        (R.seen door.new) (K.seen keeper.new) result.1) result.0.0 }
{
    match read_words(alloc, words) {
        Ok(command) => run_and_tell(
            rt,
            alloc,
            command,
            &mut Devices {
                shelf,
                own,
                door,
                keeper,
            },
            out,
            disk,
        ),
        Err(Memory) => (status_of(Cause::Memory), disk),
    }
}

/// Runs a command, and tells what it comes to.
fn run_and_tell<
    W: Threads + Wait + Sync,
    F: Shelf,
    O: Sink,
    I: Link,
    D: Disk + Send,
    R: Door,
    K: Keeper,
>(
    rt: &W,
    alloc: Global,
    command: Command,
    devices: &mut Devices<F, I, R, K>,
    out: &mut O,
    disk: D,
) -> (Status, D)
    requires in_range { IsInRange command }
    requires shut { IsShut (R.seen devices.old.door.now) }
    ensures same { AreSame devices.old devices.new }
    ensures ends { Ends D.seen (request_of_command command.entry)
        (outside_behind F.seen I.seen R.seen K.seen devices.old (O.writing out.old) disk)
        (outside_behind F.seen I.seen R.seen K.seen devices.new (O.writing out.new) result.1)
        result.0.0 }
{
    let (outcome, disk) = run(rt, alloc, command, devices, disk);
    (tell(out, outcome), disk)
}

/// Runs a command, and says what it comes to.
fn run<W: Threads + Wait + Sync, F: Shelf, I: Link, D: Disk + Send, R: Door, K: Keeper>(
    rt: &W,
    alloc: Global,
    command: Command,
    devices: &mut Devices<F, I, R, K>,
    disk: D,
) -> (Outcome, D)
    requires in_range { IsInRange command }
    requires shut { IsShut (R.seen devices.old.door.now) }
    ensures same { AreSame devices.old devices.new }
    ensures ends { (before after : Writing)
        → CommandEnded (kind_of D.seen (request_of_command command.entry))
        (outside_behind F.seen I.seen R.seen K.seen devices.old before disk)
        (outside_behind F.seen I.seen R.seen K.seen devices.new after result.1)
        (ending_of result.0) }
{
    match command {
        Command::Eval { run, qrels } => (score_files(alloc, run, qrels, devices.shelf), disk),
        Command::Session => hold_session(rt, alloc, devices.shelf, devices.own, disk),
        Command::Serve(numbers) => {
            run_server(rt, alloc, numbers, devices.shelf, devices.door, disk)
        }
        Command::Drill(numbers) => (run_drill(rt, alloc, numbers), disk),
        Command::Show(display) => show_campaign(alloc, display, devices.shelf, disk),
        Command::Compact => compact_campaign(alloc, devices.shelf, disk),
        Command::Archive { name } => {
            archive_campaign(alloc, name, devices.shelf, devices.keeper, disk)
        }
        Command::RunHistory { run } => (tell_history(alloc, run, devices.keeper), disk),
        Command::Compare { first, second } => {
            (compare_releases(alloc, first, second, devices.keeper), disk)
        }
        Command::Export => (export_releases(alloc, devices.keeper), disk),
        Command::Usage => (Outcome::Line(Cause::Usage, USAGE_LINE), disk),
    }
}
