//! The lines of a run's text: topic, docno and score of each retrieved document, or the first
//! fault.
ghost use Rattle.std.specs.Prelude.{◌≡◌, ◌≤◌, ℕ, List, length, map, IfOk};
ghost use Rattle.std.specs.List.Sorted.{IsStrictlyIncreasing};
ghost use Rattle.trec_formats.specs.Faults.{IfFault};
ghost use Rattle.trec_formats.specs.RunFormat.Lists.{IsRankedRun, IsRankedRunFault};
ghost use Rattle.trec_formats.specs.RunFormat.Runs.{line_count_on, IsRun, IsRunFault};

mod line_views;
pub(crate) mod lists;
mod packed_runs;
mod repeats;
mod run_fields;
pub(crate) mod run_reader;
mod run_views;
mod topic_counts;

use crate::faults::FormatEnd;
use crate::runs::lists::TopicList;
use crate::runs::run_reader::RunReader;
use decimal_rank::{Decimal, Text};
use std::alloc::Global;

/// One retrieved document of a run's text.
#[derive(Debug, Drop)]
pub struct RunLine {
    /// Its line in the text, from 1.
    pub line: u32,
    pub topic: Text,
    pub doc: Text,
    pub score: Decimal,
}

/// The lines of a run's text, or its first fault.
pub fn read_run(alloc: Global, bytes: &[u8]) -> Result<Vec<RunLine>, FormatEnd>
    requires { length bytes.now ≤ 268435456 }
    ensures lines { IfOk result (λ lines. IsRun bytes.now lines.items) }
    ensures ascending { IfOk result
        (λ lines. IsStrictlyIncreasing (map (λ line. line.line) lines.items)) }
    ensures short { IfOk result (λ lines. (topic : List ℕ)
        → line_count_on topic lines.items ≤ 1000) }
    ensures fault { IfFault result (IsRunFault bytes.now) }
{
    let mut reader = RunReader::new(alloc);
    reader.feed(bytes)?;
    reader.finish()
}

/// The ranked lists of a run's text, or its first fault.
pub fn read_lists(alloc: Global, bytes: &[u8]) -> Result<Vec<TopicList>, FormatEnd>
    requires { length bytes.now ≤ 268435456 }
    ensures lists { IfOk result (λ lists. IsRankedRun bytes.now lists.items) }
    ensures fault { IfFault result (IsRankedRunFault bytes.now) }
{
    let mut reader = RunReader::new(alloc);
    reader.feed(bytes)?;
    reader.finish_lists()
}
