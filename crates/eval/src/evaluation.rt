//! What the bytes of a run and of qrels come to: scores, or the file that is refused.
ghost use Rattle.std.specs.Prelude.{◌≡◌, ◌≤◌, ◌++◌, length, IfOk, OnOk};
ghost use Rattle.trec_formats.specs.Faults.{IfFault};
ghost use Rattle.trec_formats.specs.RunFormat.Lists.{IsRankedRun, IsRankedRunFault};
ghost use Rattle.eval.specs.Evaluations.{scores_text, fault_detail as detail_of, input_line as line_of_input};
ghost use Rattle.eval.specs.Findings.{FindsScores, IsRefusal, AreExclusive};
ghost use Rattle.eval.specs.Tables.{AreRankedLists};

use crate::cells::cells_of;
use decimal_rank::Memory;
use itoa::Buffer as Digits;
use measures::{mean, write_summary};
use std::alloc::Global;
use trec_formats::{
    FormatEnd, FormatFault, Kind, QrelTable, TopicList, cause_name, one_qrels_reading,
    one_rankable_reading, read_lists, read_qrel_table,
};

/// What two files come to.
#[derive(Debug, Drop)]
pub enum Finding {
    /// The scores.
    Report(Vec<u8>),
    /// A file is refused; the line names it and its first fault.
    Input(Vec<u8>),
}

/// Scores a run against qrels, by the bytes of their files, or names the file that is refused: the
/// run is looked at first. The names of the files stand in what is printed.
pub fn evaluate(
    alloc: Global,
    run: &[u8],
    qrels: &[u8],
    run_bytes: &[u8],
    qrels_bytes: &[u8],
) -> Result<Finding, Memory>
    requires run { length run_bytes.now ≤ 268435456 }
    requires qrels { length qrels_bytes.now ≤ 268435456 }
    ensures { IfOk result (FindsScores run.now qrels.now run_bytes.now qrels_bytes.now) }
{
    let lists = match lists_of(alloc, run_bytes) {
        Ok(lists) => lists,
        Err(FormatEnd::Fault(fault)) => return refusal(alloc, run, fault),
        Err(FormatEnd::Memory) => return Err(Memory),
    };
    let judged = match read_qrel_table(alloc, qrels_bytes) {
        Ok(judged) => judged,
        Err(FormatEnd::Fault(fault)) => return refusal(alloc, qrels, fault),
        Err(FormatEnd::Memory) => return Err(Memory),
    };
    let text = report(alloc, run, &lists, &judged)?;
    Ok(Finding::Report(text))
}

/// No two files are both scored and refused.
pub fn never_both()
    ensures { AreExclusive }
{
    // a file is read or has a fault, and never both
    one_rankable_reading();
    one_qrels_reading();
}

/// The ranked lists of a run's text.
fn lists_of(alloc: Global, bytes: &[u8]) -> Result<Vec<TopicList>, FormatEnd>
    requires { length bytes.now ≤ 268435456 }
    ensures lists { IfOk result (λ lists. IsRankedRun bytes.now lists.items) }
    ensures ranked { IfOk result (λ lists. AreRankedLists lists.items) }
    ensures fault { IfFault result (IsRankedRunFault bytes.now) }
{
    read_lists(alloc, bytes)
}

/// The scores of ranked lists against qrels, under the run's name.
fn report(
    alloc: Global,
    run: &[u8],
    lists: &[TopicList],
    qrels: &QrelTable<'_>,
) -> Result<Vec<u8>, Memory>
    requires lists { AreRankedLists lists.now }
    requires few { length qrels.now ≤ 268435456 }
    ensures { IfOk result (λ text. text.items ≡ scores_text run.now lists.now qrels.now) }
{
    let cells = cells_of(alloc, lists, qrels)?;
    let mut text = Vec::new(alloc);
    write_summary(run, &mean(&cells), &mut text)?;
    Ok(text)
}

/// The finding that a file is refused.
fn refusal(alloc: Global, file: &[u8], fault: FormatFault) -> Result<Finding, Memory>
    ensures { IfOk result (IsRefusal file.now fault) }
{
    Ok(Finding::Input(input_line(alloc, file, fault)?))
}

/// The line that names a refused file, and its first fault.
fn input_line(alloc: Global, file: &[u8], fault: FormatFault) -> Result<Vec<u8>, Memory>
    ensures { IfOk result (λ line. line.items ≡ line_of_input file.now fault) }
{
    let mut line = Vec::new(alloc);
    line.extend_from_slice(b"input: ")?;
    line.extend_from_slice(file)?;
    line.extend_from_slice(b" line ")?;
    line.extend_from_slice(Digits::new().format(fault.line).as_bytes())?;
    line.extend_from_slice(b" ")?;
    line.extend_from_slice(fault.kind.name())?;
    write_detail(&mut line, fault.kind)?;
    line.extend_from_slice(b"\n")?;
    Ok(line)
}

/// Appends what follows the name of a fault's kind.
fn write_detail(line: &mut Vec<u8>, kind: Kind) -> Result<(), Memory>
    ensures { OnOk result (line.new.items ≡ line.old.items ++ detail_of kind) }
{
    match kind {
        Kind::Score(cause) => {
            line.extend_from_slice(b" ")?;
            line.extend_from_slice(cause_name(cause))?;
        }
        Kind::Twice { first } => {
            line.extend_from_slice(b" first ")?;
            line.extend_from_slice(Digits::new().format(first).as_bytes())?;
        }
        Kind::Fields
        | Kind::Topic
        | Kind::Docno
        | Kind::Grade
        | Kind::Empty
        | Kind::TooLong
        | Kind::Tag => {}
    }
    Ok(())
}
