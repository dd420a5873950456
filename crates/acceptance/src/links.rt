//! The link of the tests: it gives two pieces, fails where it is told to, and may wait for another
//! link before its second piece.
ghost use Rattle.std.specs.Prelude.{◌≤◌, IfOk, None, length};
ghost use Rattle.campaign_server.specs.Doors.{IsNew};

use campaign_server::{Failed, Link};
use std::alloc::Global;
use std::sync::Arc;
use std::sync::atomic::{AtomicU64, Ordering};
use std::test::Fail;

/// How often the awaited link is looked at before the read fails.
const MOST_TRIES: u64 = 1_000_000_000;

/// How many answers were written on a link.
pub(crate) type Answers = Arc<AtomicU64, Global>;

/// The read and the write of a link that fail; none where a place is 0.
#[derive(Clone, Copy)]
pub(crate) struct Faults {
    pub(crate) read: u64,
    pub(crate) write: u64,
}

pub(crate) const NO_FAULTS: Faults = Faults { read: 0, write: 0 };

/// A link that gives two pieces. Before the second it waits until so many answers were written on
/// the awaited link, which may be itself. It tells its counts alone.
#[derive(Drop)]
pub(crate) struct PlannedLink {
    first: Vec<u8>,
    second: Vec<u8>,
    given: usize,
    faults: Faults,
    answers: Answers,
    awaited: Answers,
    awaited_count: u64,
    reads: u64,
    writes: u64,
    written: Vec<u8>,
    read_faults: u64,
    write_faults: u64,
    asked: u64,
}

impl PlannedLink {
    pub(crate) fn written(&self) -> &[u8] {
        &self.written
    }

    /// What is left of the piece that is given now.
    fn rest(&self) -> &[u8] {
        if self.given < self.first.len() {
            return &self.first[self.given..];
        }
        let given = self.given.saturating_sub(self.first.len());
        &self.second[given.min(self.second.len())..]
    }

    /// Whether what is awaited before the second piece comes.
    fn goes_on(&self) -> bool {
        self.given != self.first.len() || comes(&self.awaited, self.awaited_count)
    }
}

/// Whether so many answers were written before the tries were used up.
fn comes(answers: &AtomicU64, awaited: u64) -> bool {
    for _ in 0..MOST_TRIES {
        if answers.load(Ordering::SeqCst) >= awaited {
            return true;
        }
    }
    false
}

fn give(piece: &[u8], out: &mut [u8]) -> usize
    ensures { result ≤ length out.new }
{
    let count = piece.len().min(out.len());
    out[..count].copy_from_slice(&piece[..count]);
    count
}

impl Link for PlannedLink {
    ghost use Rattle.std.proofs.Common.{refl};

    ghost seen = { λ link. record {
      reading = record { taken = None; left = None; last = None; faults = link.read_faults };
      writing = record { written = None; faults = link.write_faults };
      clock = record { moments = None; asked = link.asked };
    } };

    fn read(&mut self, out: &mut [u8]) -> Result<usize, Failed> {
        self.reads = self.reads.saturating_add(1);
        if self.reads == self.faults.read || !self.goes_on() {
            self.read_faults = self.read_faults.saturating_add(1);
            return Err(Failed);
        }
        let count = give(self.rest(), out);
        self.given = self.given.saturating_add(count);
        Ok(count)
    }

    fn write(&mut self, piece: &[u8]) -> Result<usize, Failed> {
        self.writes = self.writes.saturating_add(1);
        if self.writes == self.faults.write || self.written.extend_from_slice(piece).is_err() {
            self.write_faults = self.write_faults.saturating_add(1);
            return Err(Failed);
        }
        self.answers.fetch_add(1, Ordering::SeqCst);
        Ok(piece.len())
    }

    fn moment(&mut self) -> u64 {
        self.asked = self.asked.saturating_add(1);
        0
    }

    ghost tells_alike = { λ _ _.
        record { taken = refl; left = refl; last = refl; written = refl; moments = refl } };
}

pub(crate) fn no_answers(alloc: Global) -> Result<Answers, Fail> {
    Ok(Arc::new(alloc, AtomicU64::new(0))?)
}

/// A link that waits for so many answers on a link.
pub(crate) fn waiting_link(
    alloc: Global,
    first: &[u8],
    second: &[u8],
    answers: &Answers,
    awaited: &Answers,
    awaited_count: u64,
) -> Result<PlannedLink, Fail>
    ensures { IfOk result (λ link. IsNew (⟦<PlannedLink as Link>⟧.seen link)) }
{
    Ok(PlannedLink {
        first: Vec::from_slice(alloc, first)?,
        second: Vec::from_slice(alloc, second)?,
        given: 0,
        faults: NO_FAULTS,
        answers: Arc::try_clone(answers)?,
        awaited: Arc::try_clone(awaited)?,
        awaited_count,
        reads: 0,
        writes: 0,
        written: Vec::new(alloc),
        read_faults: 0,
        write_faults: 0,
        asked: 0,
    })
}

/// A link that waits for none, and fails so.
pub(crate) fn link_of(
    alloc: Global,
    first: &[u8],
    second: &[u8],
    faults: Faults,
) -> Result<PlannedLink, Fail>
    ensures { IfOk result (λ link. IsNew (⟦<PlannedLink as Link>⟧.seen link)) }
{
    let answers = no_answers(alloc)?;
    let mut link = waiting_link(alloc, first, second, &answers, &answers, 0)?;
    link.faults = faults;
    Ok(link)
}

/// A link that gives nothing.
pub(crate) fn idle_link(alloc: Global) -> Result<PlannedLink, Fail> {
    link_of(alloc, b"", b"", NO_FAULTS)
}
