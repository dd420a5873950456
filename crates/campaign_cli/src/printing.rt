//! What is printed: what a command comes to, with the status behind it, and lines.
ghost use Rattle.std.specs.Prelude.{◌≡◌, ◌++◌, IfOk, OnOk, decimal};
ghost use Rattle.campaign_cli.specs.Causes.{Prints, TellsEnding, ending_of, status_number};
ghost use Rattle.campaign_cli.specs.Surroundings.Outside.{name_line, word_line};

use crate::endings::{Cause, Outcome};
use crate::statuses::Status;
use decimal_rank::{Failed, Memory, Output as Sink, write_all};
use itoa::Buffer as Digits;
use std::alloc::Global;

/// Prints what a command comes to, and gives the status behind it, or 8 where a write fails.
pub(crate) fn tell<O: Sink>(out: &mut O, outcome: Outcome) -> Status
    ensures { TellsEnding (ending_of outcome) (O.writing out.old) (O.writing out.new) result.0 }
{
    match outcome {
        Outcome::Silent(cause) => status_of(cause),
        Outcome::Line(cause, line) => print(out, line, status_of(cause)),
        Outcome::Text(cause, text) => print(out, &text, status_of(cause)),
    }
}

fn print<O: Sink>(out: &mut O, text: &[u8], status: Status) -> Status
    ensures { Prints (O.writing out.old) (O.writing out.new) text.now status.0 result.0 }
{
    match write_all(out, text) {
        Ok(()) => status,
        Err(Failed) => status_of(Cause::Output),
    }
}

/// The status of a cause.
pub(crate) fn status_of(cause: Cause) -> Status
    ensures { result.0 ≡ status_number cause }
{
    Status(match cause {
        Cause::Done => 0,
        Cause::Usage => 2,
        Cause::Input => 3,
        Cause::File => 4,
        Cause::Disk => 5,
        Cause::Door => 6,
        Cause::Memory => 7,
        Cause::Output => 8,
        Cause::Damaged => 9,
        Cause::Link => 10,
        Cause::Cut => 11,
        Cause::Keeper => 12,
        Cause::Unpublished => 13,
        Cause::Differs => 14,
        Cause::Unknown => 15,
    })
}

/// A line with a name behind a word.
pub(crate) fn name_line(alloc: Global, word: &[u8], name: &[u8]) -> Result<Vec<u8>, Memory>
    ensures { IfOk result (λ line. line.items ≡ name_line word.now name.now) }
{
    let mut line = Vec::new(alloc);
    line.extend_from_slice(word)?;
    line.extend_from_slice(name)?;
    line.extend_from_slice(b"\n")?;
    Ok(line)
}

/// Adds a line with a number behind a word.
pub(crate) fn add_count(word: &[u8], count: u64, text: &mut Vec<u8>) -> Result<(), Memory>
    ensures { OnOk result (text.new.items ≡ text.old.items ++ word_line word.now count) }
{
    add_number(word, count, text)?;
    text.extend_from_slice(b"\n")?;
    Ok(())
}

/// Adds a number behind a word.
pub(crate) fn add_number(word: &[u8], number: u64, text: &mut Vec<u8>) -> Result<(), Memory>
    ensures { OnOk result (text.new.items ≡ text.old.items ++ word.now ++ decimal number) }
{
    text.extend_from_slice(word)?;
    text.extend_from_slice(Digits::new().format(number).as_bytes())?;
    Ok(())
}
