//! Workers that ask at the same time.
ghost use Rattle.std.specs.Prelude.{◌≡◌};
ghost use Rattle.std.specs.Thread.{IsSync};

use crate::tallies::{Asked, Note, Tally, Told};
use hall::{Hall, Pass};
use std::sync::Wait;
use std::thread;
use std::thread::Threads;

/// How many workers there are.
#[derive(Clone, Copy, Debug, PartialEq, Eq)]
pub enum Crowd {
    One,
    Two,
    Four,
}

impl Crowd {
    /// How many workers it has.
    pub fn size(self) -> u32 {
        match self {
            Crowd::One => 1,
            Crowd::Two => 2,
            Crowd::Four => 4,
        }
    }
}

/// What each worker does in a round.
#[derive(Clone, Copy, Debug, PartialEq, Eq)]
pub enum Round {
    /// It asks so many times how many notes there are, which stay as many.
    Counts(u32),
    /// It writes so many notes, in order, and asks for the count behind each.
    Notes(u32),
}

/// Whether a count has the note that was written before it.
fn is_among(written: Told, counted: Told) -> bool {
    match (written, counted) {
        (Told::At(place), Told::Counted(notes)) => place <= notes,
        _ => false,
    }
}

/// One worker counts so often.
fn count<R: Wait>(rt: &R, hall: &Hall<Tally>, mut pass: Pass<Tally>, counts: u32) -> Pass<Tally>
    requires { pass.hall ≡ hall.now }
    ensures { result.hall ≡ hall.now }
{
    for _ in 0..counts {
        let _ = hall.act(rt, &mut pass, Asked::Count);
    }
    pass
}

/// One worker writes its notes. It stops where a count hasn't the note, so that the list then lacks
/// some.
fn write<R: Wait>(
    rt: &R,
    hall: &Hall<Tally>,
    mut pass: Pass<Tally>,
    worker: u32,
    notes: u32,
) -> Pass<Tally>
    requires { pass.hall ≡ hall.now }
    ensures { result.hall ≡ hall.now }
{
    for number in 0..notes {
        let written = hall.act(rt, &mut pass, Asked::Write(Note { worker, number }));
        let counted = hall.act(rt, &mut pass, Asked::Count);
        if !is_among(written, counted) {
            break;
        }
    }
    pass
}

/// Each worker takes part in a round, the workers with the numbers from the first one's on. The
/// pass afterwards has seen all that they wrote.
pub fn work<R: Threads + Wait + Sync>(
    rt: &R,
    hall: &Hall<Tally>,
    mut pass: Pass<Tally>,
    crowd: Crowd,
    first: u32,
    round: Round,
) -> Pass<Tally>
    requires pass { pass.hall ≡ hall.now }
    requires shared { IsSync R.row }
    ensures { result.hall ≡ hall.now }
{
    let half = match crowd {
        Crowd::One => return work_alone(rt, hall, pass, first, round),
        Crowd::Two => Crowd::One,
        Crowd::Four => Crowd::Two,
    };
    let other = hall.split(&mut pass);
    let second = first.saturating_add(half.size());
    let (mut pass, other) = thread::join(
        rt,
        move ||
            requires { IsSync R.row × (pass.hall ≡ hall.now) }
            ensures { result.hall ≡ hall.entry.now }
        { work(rt, hall, pass, half, first, round) },
        move ||
            requires { IsSync R.row × (other.hall ≡ hall.now) }
            ensures { result.hall ≡ hall.entry.now }
        { work(rt, hall, other, half, second, round) },
    );
    hall.join(other, &mut pass);
    pass
}

fn work_alone<R: Wait>(
    rt: &R,
    hall: &Hall<Tally>,
    pass: Pass<Tally>,
    worker: u32,
    round: Round,
) -> Pass<Tally>
    requires { pass.hall ≡ hall.now }
    ensures { result.hall ≡ hall.now }
{
    match round {
        Round::Counts(counts) => count(rt, hall, pass, counts),
        Round::Notes(notes) => write(rt, hall, pass, worker, notes),
    }
}
