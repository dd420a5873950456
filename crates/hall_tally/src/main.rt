//! Tries a hall with real threads, over a list that begins with one note. First workers ask how
//! many notes there are: as long as that is one, each word of the hall's table has a value that a
//! worker could sleep on, so one that sleeps on another than the turn's is never woken. Then they
//! write notes into the list, each its own numbers in order, and the list is read back. Usage:
//! `hall_tally WORKERS NOTES`, with 1, 2 or 4 workers, each of which counts as often. It prints how
//! many notes stand in the list, and whether each worker's stand there once, in their order.
#![tactic(auto)]

mod tallies;
mod workers;

use hall::Hall;
use std::alloc::Global;
use std::process::ExitCode;
use std::{env, io};
use tallies::{Tally, are_in_order};
use workers::{Crowd, Round, work};

/// What the words ask for: the workers, and how many notes each writes.
fn asked(words: &[String]) -> Option<(Crowd, u32)> {
    let [_, workers, notes] = words else {
        return None;
    };
    let crowd = match workers.as_str() {
        "1" => Crowd::One,
        "2" => Crowd::Two,
        "4" => Crowd::Four,
        _ => return None,
    };
    Some((crowd, notes.as_str().parse::<u32>().ok()?))
}

fn words_of(rt: &HostRuntime, alloc: Global) -> Option<Vec<String>> {
    let mut words = Vec::new(alloc);
    for word in env::args(rt).ok()? {
        words.push(word).ok()?;
    }
    Some(words)
}

fn main(rt: HostRuntime) -> io::Result<ExitCode> {
    let alloc = rt.alloc();
    let Some(words) = words_of(&rt, alloc) else {
        return Ok(ExitCode::from(7));
    };
    let Some((crowd, notes)) = asked(&words) else {
        println!(rt; "usage: hall_tally 1|2|4 NOTES")?;
        return Ok(ExitCode::from(2));
    };
    let Ok(tally) = Tally::new(alloc) else {
        return Ok(ExitCode::from(7));
    };
    match Hall::new(alloc, tally) {
        Ok((hall, pass)) => {
            let pass = work(&rt, &hall, pass, crowd, 0, Round::Counts(notes));
            let pass = work(&rt, &hall, pass, crowd, 0, Round::Notes(notes));
            let tally = hall.close(&rt, pass);
            let written = tally.notes.len();
            let in_order = are_in_order(&tally.notes, crowd.size(), notes);
            println!(rt; "notes {written}, each once and in its worker's order: {in_order}")?;
            Ok(ExitCode::from(0))
        }
        Err((_tally, _memory)) => Ok(ExitCode::from(7)),
    }
}
