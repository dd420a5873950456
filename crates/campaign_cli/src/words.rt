//! The commands of the program, and the words of a call as one of them.
ghost use Rattle.std.specs.Prelude.{◌≡◌, ◌≤◌, IfOk, IfSome, map};
ghost use Rattle.command_words.specs.Words.{view_of};
ghost use Rattle.campaign_cli.specs.Requests.{IsInRange, all_three, archive_by, archive_of, compare_by, compare_of, drill_at, drill_by, drill_of, eval_of, history_by, history_request, request_by_name, request_of_command, request_of_words, serve_at, serve_of, three_numbers};

use crate::commands::displays::Display;
use campaign_server::ServerNumbers;
use command_words::{CommandForm, CommandWords, number_in, read_command};
use decimal_rank::Memory;
use drill::{DrillNumbers, are_numbers};
use std::alloc::Global;
use trec_formats::is_name;

/// The forms of the commands.
static FORMS: [CommandForm<'static>; 12] = [
    ("eval", &["run", "qrels"], &[]),
    ("session", &[], &[]),
    ("serve", &[], &["port", "workers", "connections"]),
    ("drill", &["seed", "runs", "topics", "docs"], &[]),
    ("check", &[], &[]),
    ("compact", &[], &[]),
    ("archive", &["name"], &[]),
    ("history", &["run"], &[]),
    ("compare", &["first", "second"], &[]),
    ("export", &[], &[]),
    ("reuse", &[], &[]),
    ("agreement", &[], &[]),
];

/// What is printed where the words are no command.
pub const USAGE_LINE: &[u8] =
    b"usage: campaign eval RUN QRELS | session | serve --port P --workers W --connections N | drill SEED RUNS TOPICS DOCS | check | compact | archive NAME | history RUN | compare A B | export | reuse | agreement\n";

/// A command of the program. `Eval` scores the run in one file against the qrels in another, by the
/// files' names. `Session` answers the messages of one connection. `Serve` answers those of so many
/// connections to a port, by so many workers. `Drill` plays a campaign that is generated from
/// numbers. `Show` opens the campaign of the folder, and tells a text of it. `Compact` packs its
/// journal. `Archive` puts its release into the archive under a name. `RunHistory` tells a run in
/// each release of the archive, `Compare` how two of them agree, and `Export` all their systems.
#[derive(Clone, Copy, Debug, PartialEq, Eq)]
pub enum Command<'a> {
    Eval { run: &'a [u8], qrels: &'a [u8] },
    Session,
    Serve(ServerNumbers),
    Drill(DrillNumbers),
    Show(Display),
    Compact,
    Archive { name: &'a [u8] },
    RunHistory { run: &'a [u8] },
    Compare { first: &'a [u8], second: &'a [u8] },
    Export,
    Usage,
}

/// The command that the words after the program's name are.
pub fn read_words<'a>(alloc: Global, words: &'a [String]) -> Result<Command<'a>, Memory>
    ensures asked { IfOk result
        (λ command. request_of_words words.now ≡ request_of_command command) }
    ensures in_range { IfOk result (λ command. IsInRange command) }
{
    match read_command(alloc, &FORMS, words)? {
        Some(found) => Ok(command_of(&found)),
        None => Ok(Command::Usage),
    }
}

/// The command of a name and its values, which stand in the order of its form.
fn command_of<'a>(found: &CommandWords<'a>) -> Command<'a>
    ensures request { request_of_command result ≡ request_by_name (view_of found.now) }
    ensures in_range { IsInRange result }
{
    if found.name == "eval" {
        eval_of(found.values.as_slice())
    } else if found.name == "session" {
        Command::Session
    } else if found.name == "serve" {
        serve_of(found.values.as_slice())
    } else if found.name == "drill" {
        drill_of(found.values.as_slice())
    } else if found.name == "check" {
        Command::Show(Display::Check)
    } else if found.name == "compact" {
        Command::Compact
    } else if found.name == "archive" {
        archive_of(found.values.as_slice())
    } else if found.name == "history" {
        history_of(found.values.as_slice())
    } else if found.name == "compare" {
        compare_of(found.values.as_slice())
    } else if found.name == "export" {
        Command::Export
    } else if found.name == "reuse" {
        Command::Show(Display::Reuse)
    } else if found.name == "agreement" {
        Command::Show(Display::Agreement)
    } else {
        Command::Usage
    }
}

fn eval_of<'a>(values: &[&'a str]) -> Command<'a>
    ensures request { request_of_command result ≡ eval_of (map (λ value. value.now) values.now) }
    ensures in_range { IsInRange result }
{
    match values {
        [run, qrels] => Command::Eval {
            run: run.as_bytes(),
            qrels: qrels.as_bytes(),
        },
        _ => Command::Usage,
    }
}

const MOST_PORT: u32 = 65535;

const MOST_WORKERS: u32 = 16;

fn serve_of<'a>(values: &[&'a str]) -> Command<'a>
    ensures request { request_of_command result ≡ serve_of (map (λ value. value.now) values.now) }
    ensures in_range { IsInRange result }
{
    match values {
        [port, workers, connections] => serve_at(
            number_in(1, MOST_PORT, port),
            number_in(1, MOST_WORKERS, workers),
            number_in(1, u32::MAX, connections),
        ),
        _ => Command::Usage,
    }
}

/// The command with these numbers, where each is one.
fn serve_at<'a>(port: Option<u32>, workers: Option<u32>, connections: Option<u32>) -> Command<'a>
    requires port { IfSome port (λ n. n ≤ 65535) }
    requires workers { IfSome workers (λ n. (1 ≤ n) × (n ≤ 16)) }
    requires connections { IfSome connections (λ n. 1 ≤ n) }
    ensures request { request_of_command result ≡ serve_at port workers connections }
    ensures in_range { IsInRange result }
{
    match (port, workers, connections) {
        (Some(port), Some(workers), Some(connections)) => Command::Serve(ServerNumbers {
            port: port as u16,
            workers,
            connections,
        }),
        _ => Command::Usage,
    }
}

fn drill_of<'a>(values: &[&'a str]) -> Command<'a>
    ensures request { request_of_command result ≡ drill_of (map (λ value. value.now) values.now) }
    ensures in_range { IsInRange result }
{
    match values {
        [seed, sizes @ ..] => drill_at(number_in(0, u32::MAX, seed), three_numbers(sizes)),
        [] => Command::Usage,
    }
}

/// The numbers that three words write, where each writes one.
fn three_numbers(words: &[&str]) -> Option<(u32, u32, u32)>
    ensures { result ≡ three_numbers (map (λ word. word.now) words.now) }
{
    match words {
        [runs, topics, docs] => all_three(
            number_in(0, u32::MAX, runs),
            number_in(0, u32::MAX, topics),
            number_in(0, u32::MAX, docs),
        ),
        _ => None,
    }
}

fn all_three(runs: Option<u32>, topics: Option<u32>, docs: Option<u32>) -> Option<(u32, u32, u32)>
    ensures { result ≡ all_three runs topics docs }
{
    match (runs, topics, docs) {
        (Some(runs), Some(topics), Some(docs)) => Some((runs, topics, docs)),
        _ => None,
    }
}

/// The command with this seed and these sizes, where a campaign is generated from them.
fn drill_at<'a>(seed: Option<u32>, sizes: Option<(u32, u32, u32)>) -> Command<'a>
    ensures request { request_of_command result ≡ drill_at seed sizes }
    ensures in_range { IsInRange result }
{
    match (seed, sizes) {
        (Some(seed), Some((runs, topics, docs))) => drill_by(DrillNumbers {
            seed,
            runs,
            topics,
            docs,
        }),
        _ => Command::Usage,
    }
}

fn drill_by<'a>(numbers: DrillNumbers) -> Command<'a>
    ensures request { request_of_command result ≡ drill_by numbers }
    ensures in_range { IsInRange result }
{
    if are_numbers(&numbers) {
        Command::Drill(numbers)
    } else {
        Command::Usage
    }
}

fn archive_of<'a>(values: &[&'a str]) -> Command<'a>
    ensures request { request_of_command result ≡ archive_of (map (λ value. value.now) values.now) }
    ensures in_range { IsInRange result }
{
    match values {
        [name] => archive_by(name.as_bytes()),
        _ => Command::Usage,
    }
}

fn archive_by<'a>(name: &'a [u8]) -> Command<'a>
    ensures request { request_of_command result ≡ archive_by name.now }
    ensures in_range { IsInRange result }
{
    if is_name(name) {
        Command::Archive { name }
    } else {
        Command::Usage
    }
}

fn history_of<'a>(values: &[&'a str]) -> Command<'a>
    ensures request { request_of_command result
        ≡ history_request (map (λ value. value.now) values.now) }
    ensures in_range { IsInRange result }
{
    match values {
        [run] => history_by(run.as_bytes()),
        _ => Command::Usage,
    }
}

fn history_by<'a>(run: &'a [u8]) -> Command<'a>
    ensures request { request_of_command result ≡ history_by run.now }
    ensures in_range { IsInRange result }
{
    if is_name(run) {
        Command::RunHistory { run }
    } else {
        Command::Usage
    }
}

fn compare_of<'a>(values: &[&'a str]) -> Command<'a>
    ensures request { request_of_command result ≡ compare_of (map (λ value. value.now) values.now) }
    ensures in_range { IsInRange result }
{
    match values {
        [first, second] => compare_by(first.as_bytes(), second.as_bytes()),
        _ => Command::Usage,
    }
}

fn compare_by<'a>(first: &'a [u8], second: &'a [u8]) -> Command<'a>
    ensures request { request_of_command result ≡ compare_by first.now second.now }
    ensures in_range { IsInRange result }
{
    if is_name(first) && is_name(second) {
        Command::Compare { first, second }
    } else {
        Command::Usage
    }
}
