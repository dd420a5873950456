//! A run read as it comes. A line that stands whole in a piece is read in place. Of the line that
//! isn't whole its ended fields are kept as far as they are looked at, and of the present field at
//! most 401 bytes. A line is judged where it ends, since a seventh field makes another fault of it.
ghost use Rattle.std.specs.Prelude.{◌≡◌, ◌≤◌, ◌<◌, ◌+◌, ◌^◌, ◌++◌, ℕ, List, [], ◌∷◌, true, map, length, take, position, Ok, Err, IfOk, OnOk, OnErr, IsErr};
ghost use Rattle.std.specs.List.Sorted.{IsStrictlyIncreasing};
ghost use Rattle.trec_formats.specs.Faults.{IfFault};
ghost use Rattle.trec_formats.specs.RunFormat.LineViews.{view_shown};
ghost use Rattle.trec_formats.specs.Lines.{Row, fields_of};
ghost use Rattle.trec_formats.specs.RunFormat.Lists.{IsRankedRun, IsRankedRunFault};
ghost use Rattle.trec_formats.specs.RunFormat.PackedRuns.{kept_lines, ArePlaced};
ghost use Rattle.trec_formats.specs.RunFormat.Counts.{AreTopicCounts};
ghost use Rattle.trec_formats.specs.RunFormat.RunFields.{kept_fields};
ghost use Rattle.trec_formats.specs.RunFormat.RunStates.{is_break, row_if, AreEnded, AreWithin, ReaderHasRoom, IsFaultBehind, IsRunRead, IsFaulty, IsRunHeld, IsWithin, IsRunAt, IsAfter, IsSound, HasRunFailed, held_by};
ghost use Rattle.trec_formats.specs.RunFormat.Runs.{run_of, line_count_on, IsRun, IsRunFault};

use crate::faults::{FormatEnd, FormatFault, Kind};
use crate::lines::{has_field, is_white_space, line_feed};
use crate::runs::RunLine;
use crate::runs::line_views::LineView;
use crate::runs::lists::{TopicList, rank_packed};
use crate::runs::packed_runs::{PackedRun, push, unpacked};
use crate::runs::run_fields::{KeptLine, end_field, hold, judged};
use crate::runs::run_views::{lent, run_view};
use crate::runs::topic_counts::{TopicCounts, count_line};
use decimal_rank::Memory;
use std::alloc::Global;
use std::marker::Model;

/// The lines that ended, none of which has a fault.
#[derive(Drop)]
struct Ended {
    /// How many lines ended, blank ones among them.
    number: u32,
    run: PackedRun,
    counts: TopicCounts,
}

/// A run that was read up to a byte, without a fault so far.
#[derive(Drop)]
struct RunReading {
    ended: Ended,
    line: KeptLine,
    /// Of the present field.
    held: Vec<u8>,
}

/// How far a run was read.
#[derive(Drop)]
enum RunProgress {
    Reads(RunReading),
    Faulty(FormatFault),
    Failed,
}

/// A run that is read as it comes. Contracts see how many bytes were fed, and what is kept of them.
#[derive(Drop)]
pub struct RunReader {
    alloc: Global,
    progress: RunProgress,
    fed: usize,
}

impl Model for RunReader {
    ghost use Rattle.trec_formats.specs.RunFormat.RunStates.{IsSound, RunFed};

    ghost Value = { RunFed };

    ghost view = { λ reader. record { fed = reader.fed; progress = reader.progress } };

    ghost invariant = { λ reader. IsSound reader.fed reader.progress };
}

fn is_break(byte: u8) -> bool
    ensures { result ≡ is_break byte }
{
    is_white_space(byte) || byte == b'\n'
}

/// The place of the next byte that ends a field.
#[inline(never)]
fn break_at(rest: &[u8]) -> Option<usize>
    ensures { result ≡ position is_break rest.now }
{
    rest.iter().position(|byte| is_break(*byte))
}

/// Adds a line without a fault of its own.
fn add_line(alloc: Global, ended: &mut Ended, line: LineView<'_>) -> Result<(), FormatEnd>
    requires tally { AreTopicCounts ended.old.counts }
    requires few { length ended.old.counts.topics + 1 < 2 ^ 32 }
    requires placed { ArePlaced ended.old.run.bytes.items ended.old.run.lines.items }
    ensures number { OnOk result (ended.new.number ≡ ended.old.number) }
    ensures placed { OnOk result (ArePlaced ended.new.run.bytes.items ended.new.run.lines.items) }
    ensures tally { OnOk result (AreTopicCounts ended.new.counts) }
    ensures few { OnOk result
        (length ended.new.counts.topics ≤ length ended.old.counts.topics + 1) }
    ensures ok { OnOk result ((done : List Row) (row : Row) → AreEnded done ended.old
        → run_of row ≡ Ok (view_shown line.entry) → AreEnded (done ++ row ∷ []) ended.new) }
    ensures fault { IfFault result (λ fault. (done : List Row) (row : Row) → AreEnded done ended.old
        → run_of row ≡ Ok (view_shown line.entry) → ended.old.number ≡ row.0
        → IsFaultBehind done (row ∷ []) fault) }
{
    if !count_line(alloc, &mut ended.counts, line.topic)? {
        return Err(FormatEnd::at(ended.number, Kind::TooLong));
    }
    push(&mut ended.run, line)?;
    Ok(())
}

/// Judges a line that ended.
fn end_line(alloc: Global, ended: &mut Ended, line: &KeptLine) -> Result<(), FormatEnd>
    requires within { AreWithin ended.old }
    requires long { ended.old.number ≤ 268435456 }
    ensures number { OnOk result (ended.new.number ≡ ended.old.number + 1) }
    ensures within { OnOk result (AreWithin ended.new) }
    ensures ok { OnOk result ((done : List Row) (fields : List (List ℕ))
        → AreEnded done ended.old → line.now ≡ kept_fields fields
        → AreEnded (done ++ row_if (ended.old.number + 1) fields) ended.new) }
    ensures fault { IfFault result (λ fault. (done : List Row) (fields : List (List ℕ))
        → AreEnded done ended.old → line.now ≡ kept_fields fields
        → IsFaultBehind done (row_if (ended.old.number + 1) fields) fault) }
{
    ended.number += 1;
    if line.count == 0 {
        return Ok(());
    }
    match judged(line, ended.number) {
        Ok(line) => add_line(alloc, ended, line),
        Err(kind) => Err(FormatEnd::at(ended.number, kind)),
    }
}

/// Reads on, up to the next end of a field. How many bytes were read.
fn step(alloc: Global, reading: &mut RunReading, rest: &[u8]) -> Result<usize, FormatEnd>
    requires within { IsWithin reading.old }
    requires some { 0 < length rest.now }
    requires long { reading.old.ended.number + length rest.now ≤ 268435456 }
    ensures taken { IfOk result (λ taken. (0 < taken) × (taken ≤ length rest.now)
        × (reading.new.ended.number ≤ reading.old.ended.number + taken)) }
    ensures within { OnOk result (IsWithin reading.new) }
    ensures ok { IfOk result (λ taken. (text : List ℕ) → IsRunRead text reading.old
        → IsRunRead (text ++ take taken rest.now) reading.new) }
    ensures fault { IfFault result (λ fault. (text : List ℕ) → IsRunRead text reading.old
        → IsFaulty (text ++ rest.now) fault) }
{
    let Some(end) = break_at(rest) else {
        hold(&mut reading.held, rest)?;
        return Ok(rest.len());
    };
    end_field(&mut reading.line, &mut reading.held, &rest[..end])?;
    if rest[end] != b'\n' {
        return Ok(end + 1);
    }
    end_line(alloc, &mut reading.ended, &reading.line)?;
    reading.line.clear();
    Ok(end + 1)
}

/// Reads a line that stands whole in a piece.
fn whole_line(alloc: Global, ended: &mut Ended, line: &[u8]) -> Result<(), FormatEnd>
    requires within { AreWithin ended.old }
    requires long { ended.old.number + 1 ≤ 268435456 }
    ensures number { OnOk result (ended.new.number ≡ ended.old.number + 1) }
    ensures within { OnOk result (AreWithin ended.new) }
    ensures ok { OnOk result ((done : List Row) → AreEnded done ended.old
        → AreEnded (done ++ row_if (ended.old.number + 1) (fields_of line.now)) ended.new) }
    ensures fault { IfFault result (λ fault. (done : List Row) → AreEnded done ended.old
        → IsFaultBehind done (row_if (ended.old.number + 1) (fields_of line.now)) fault) }
{
    ended.number += 1;
    if !has_field(line) {
        return Ok(());
    }
    match run_view(ended.number, line) {
        Ok(view) => add_line(alloc, ended, lent(&view)),
        Err(kind) => Err(FormatEnd::at(ended.number, kind)),
    }
}

/// Whether a reading stands before a line, of which the next byte isn't white space.
fn begins_line(line: &KeptLine, held: &[u8], next: u8) -> bool
    ensures fields { result ≡ true → line.now.count ≡ 0 }
    ensures held { result ≡ true → held.now ≡ [] }
{
    line.count == 0 && held.is_empty() && !is_white_space(next)
}

/// Reads on, up to the end of a line that stands whole in the rest, or else up to the next end of a
/// field. How many bytes were read.
fn advance(alloc: Global, reading: &mut RunReading, rest: &[u8]) -> Result<usize, FormatEnd>
    requires within { IsWithin reading.old }
    requires some { 0 < length rest.now }
    requires long { reading.old.ended.number + length rest.now ≤ 268435456 }
    ensures taken { IfOk result (λ taken. (0 < taken) × (taken ≤ length rest.now)
        × (reading.new.ended.number ≤ reading.old.ended.number + taken)) }
    ensures within { OnOk result (IsWithin reading.new) }
    ensures ok { IfOk result (λ taken. (text : List ℕ) → IsRunRead text reading.old
        → IsRunRead (text ++ take taken rest.now) reading.new) }
    ensures fault { IfFault result (λ fault. (text : List ℕ) → IsRunRead text reading.old
        → IsFaulty (text ++ rest.now) fault) }
{
    if begins_line(&reading.line, reading.held.as_slice(), rest[0]) {
        if let Some(end) = line_feed(rest) {
            whole_line(alloc, &mut reading.ended, &rest[..end])?;
            return Ok(end + 1);
        }
    }
    step(alloc, reading, rest)
}

/// Reads a piece.
fn read_piece(alloc: Global, reading: &mut RunReading, piece: &[u8]) -> Result<(), FormatEnd>
    requires within { IsWithin reading.old }
    requires long { reading.old.ended.number + length piece.now ≤ 268435456 }
    ensures number { OnOk result
        (reading.new.ended.number ≤ reading.old.ended.number + length piece.now) }
    ensures within { OnOk result (IsWithin reading.new) }
    ensures ok { OnOk result ((text : List ℕ) → IsRunRead text reading.old
        → IsRunRead (text ++ piece.now) reading.new) }
    ensures fault { IfFault result (λ fault. (text : List ℕ) → IsRunRead text reading.old
        → IsFaulty (text ++ piece.now) fault) }
{
    let mut at = 0;
    while at < piece.len() {
        at += advance(alloc, reading, &piece[at..])?;
    }
    Ok(())
}

/// Reads a piece, where no fault was met before.
fn read_on(alloc: Global, progress: &mut RunProgress, piece: &[u8]) -> Result<(), Memory>
    requires room { ReaderHasRoom progress.old (length piece.now) }
    ensures ok { OnOk result ((text : List ℕ) → IsRunAt text progress.old
        → IsRunAt (text ++ piece.now) progress.new) }
    ensures err { OnErr result (progress.new ≡ RunProgress.Failed) }
    ensures stays { progress.old ≡ RunProgress.Failed → IsErr result }
    ensures held { (fed : ℕ) → IsRunHeld fed progress.old
        → IsRunHeld (fed + length piece.now) progress.new }
{
    match progress {
        RunProgress::Reads(reading) => match read_piece(alloc, reading, piece) {
            Ok(()) => Ok(()),
            Err(FormatEnd::Fault(fault)) => {
                *progress = RunProgress::Faulty(fault);
                Ok(())
            }
            Err(FormatEnd::Memory) => {
                *progress = RunProgress::Failed;
                Err(Memory)
            }
        },
        RunProgress::Faulty(_) => Ok(()),
        RunProgress::Failed => Err(Memory),
    }
}

/// What a run is read as that ends here.
fn end_run(alloc: Global, reading: RunReading) -> Result<PackedRun, FormatEnd>
    requires within { IsWithin reading }
    requires long { reading.ended.number ≤ 268435456 }
    requires read { (text : List ℕ) × IsRunRead text reading }
    ensures lines { IfOk result (λ run. (text : List ℕ) → IsRunRead text reading
        → IsRun text (kept_lines run)) }
    ensures ascending { IfOk result
        (λ run. IsStrictlyIncreasing (map (λ line. line.line) (kept_lines run))) }
    ensures short { IfOk result (λ run. (topic : List ℕ)
        → line_count_on topic (kept_lines run) ≤ 1000) }
    ensures fault { IfFault result (λ fault. (text : List ℕ) → IsRunRead text reading
        → IsRunFault text fault) }
{
    let RunReading {
        mut ended,
        mut line,
        mut held,
    } = reading;
    end_field(&mut line, &mut held, &[])?;
    end_line(alloc, &mut ended, &line)?;
    if ended.run.lines.is_empty() {
        return Err(FormatEnd::at(0, Kind::Empty));
    }
    Ok(ended.run)
}

/// What a run is read as that got so far and ends here.
fn end_progress(alloc: Global, progress: RunProgress) -> Result<PackedRun, FormatEnd>
    requires { (fed : ℕ) × IsSound fed progress }
    ensures lines { IfOk result (λ run. (text : List ℕ) → IsRunAt text progress
        → IsRun text (kept_lines run)) }
    ensures ascending { IfOk result
        (λ run. IsStrictlyIncreasing (map (λ line. line.line) (kept_lines run))) }
    ensures short { IfOk result (λ run. (topic : List ℕ)
        → line_count_on topic (kept_lines run) ≤ 1000) }
    ensures fault { IfFault result (λ fault. (text : List ℕ) → IsRunAt text progress
        → IsRunFault text fault) }
    ensures failed { progress ≡ RunProgress.Failed → result ≡ Err FormatEnd.Memory }
{
    match progress {
        RunProgress::Reads(reading) => end_run(alloc, reading),
        RunProgress::Faulty(fault) => Err(FormatEnd::Fault(fault)),
        RunProgress::Failed => Err(FormatEnd::Memory),
    }
}

impl RunReader {
    /// A reader to which no bytes were fed.
    pub fn new(alloc: Global) -> RunReader
        ensures after { IsAfter [] result }
        ensures fed { result.fed ≡ 0 }
    {
        RunReader {
            alloc,
            progress: RunProgress::Reads(RunReading {
                ended: Ended {
                    number: 0,
                    run: PackedRun::new(alloc),
                    counts: TopicCounts::new(alloc),
                },
                line: KeptLine::new(alloc),
                held: Vec::new(alloc),
            }),
            fed: 0,
        }
    }

    /// Reads on. After `Memory` each later call answers `Memory`.
    pub fn feed(&mut self, piece: &[u8]) -> Result<(), Memory>
        requires { self.old.fed + length piece.now ≤ 268435456 }
        ensures ok { OnOk result ((text : List ℕ) → IsAfter text self.old
            → IsAfter (text ++ piece.now) self.new) }
        ensures err { OnErr result (HasRunFailed self.new) }
        ensures stays { HasRunFailed self.old → IsErr result }
        ensures fed { self.new.fed ≡ self.old.fed + length piece.now }
        ensures held { held_by self.new ≤ 401 }
    {
        self.fed += piece.len();
        read_on(self.alloc, &mut self.progress, piece)
    }

    /// The lines of the run, or its first fault.
    pub fn finish(self) -> Result<Vec<RunLine>, FormatEnd>
        ensures lines { IfOk result (λ lines. (text : List ℕ) → IsAfter text self
            → IsRun text lines.items) }
        ensures ascending { IfOk result
            (λ lines. IsStrictlyIncreasing (map (λ line. line.line) lines.items)) }
        ensures short { IfOk result (λ lines. (topic : List ℕ)
            → line_count_on topic lines.items ≤ 1000) }
        ensures fault { IfFault result (λ fault. (text : List ℕ) → IsAfter text self
            → IsRunFault text fault) }
        ensures failed { HasRunFailed self → result ≡ Err FormatEnd.Memory }
    {
        let RunReader {
            alloc,
            progress,
            ..
        } = self;
        let run = end_progress(alloc, progress)?;
        Ok(unpacked(alloc, run.bytes.as_slice(), run.lines.as_slice())?)
    }

    /// The ranked lists of the run, as `rank_run` makes them of its lines, or its first fault. The
    /// lines are let go of as their lists are made.
    pub fn finish_lists(self) -> Result<Vec<TopicList>, FormatEnd>
        ensures lists { IfOk result (λ lists. (text : List ℕ) → IsAfter text self
            → IsRankedRun text lists.items) }
        ensures fault { IfFault result (λ fault. (text : List ℕ) → IsAfter text self
            → IsRankedRunFault text fault) }
        ensures failed { HasRunFailed self → result ≡ Err FormatEnd.Memory }
    {
        let RunReader {
            alloc,
            progress,
            ..
        } = self;
        let run = end_progress(alloc, progress)?;
        rank_packed(alloc, run)
    }
}
