//! `eval RUN QRELS`: scores the run in one file against the qrels in another.
//!
//! # The way of `campaign eval RUN QRELS`
//!
//! `main` makes a `FileShelf` and an `OutputSink` and calls `campaign_cli::campaign`. That reads
//! the words (`words.rt`, over `command_words::read_command`) and both files through the shelf
//! (`evaluations.rt`, `readings.rt`), and `eval::evaluate` scores them: `trec_formats::read_lists`
//! cuts the run into lines, groups them by topic and ranks each topic's documents (`by_rank` in
//! `trec_formats/src/runs/lists.rt`), `read_qrel_table` reads the judgements into a table that
//! finds them by topic and docno; `eval/src/judgements.rt` counts how the documents of each topic
//! are judged, `eval/src/cells.rt` takes one cell for each by `measures::scratch`, `measures::mean`
//! sums them up, and `measures::write_summary` makes the text. The text is written whole by
//! `write_all` (`printing.rt`).
ghost use Rattle.campaign_cli.specs.Causes.{ending_of};
ghost use Rattle.campaign_cli.specs.Ends.EvalEnds.{EvalEnds};

use crate::endings::{Cause, Outcome};
use crate::readings::read;
use crate::surroundings::shelves::Shelf;
use decimal_rank::Memory;
use eval::{Finding, evaluate};
use std::alloc::Global;

/// Tells the scores of the run in one file against the qrels in another, by the files' names. Both
/// files are read before the run is checked, and then the qrels.
pub(crate) fn score_files<F: Shelf>(
    alloc: Global,
    run: &[u8],
    qrels: &[u8],
    shelf: &mut F,
) -> Outcome
    ensures { EvalEnds run.now qrels.now (F.seen shelf.old) (F.seen shelf.new) (ending_of result) }
{
    let run_bytes = match read(alloc, shelf, run) {
        Ok(bytes) => bytes,
        Err(cause) => return Outcome::Silent(cause),
    };
    let qrels_bytes = match read(alloc, shelf, qrels) {
        Ok(bytes) => bytes,
        Err(cause) => return Outcome::Silent(cause),
    };
    match evaluate(alloc, run, qrels, &run_bytes, &qrels_bytes) {
        Ok(Finding::Report(text)) => Outcome::Text(Cause::Done, text),
        Ok(Finding::Input(line)) => Outcome::Text(Cause::Input, line),
        Err(Memory) => Outcome::Silent(Cause::Memory),
    }
}
