//! Texts that are read at once, where they aren't too long for a test.
ghost use Rattle.std.specs.Prelude.{◌≤◌, IfOk, length};

use std::alloc::Global;
use trec_formats::{
    FormatEnd, QrelLine, QrelTable, RunLine, Topic, TopicList, read_lists, read_qrel_table,
    read_qrels, read_run, read_topics,
};

/// The text, where it has a million bytes at most.
pub fn short(text: &[u8]) -> Result<&[u8], FormatEnd>
    ensures { IfOk result (λ short. length short.now ≤ 1000000) }
{
    if text.len() > 1_000_000 {
        return Err(FormatEnd::Memory);
    }
    Ok(text)
}

pub fn run_of(alloc: Global, text: &str) -> Result<Vec<RunLine>, FormatEnd> {
    read_run(alloc, short(text.as_bytes())?)
}

pub fn qrels_of(alloc: Global, text: &str) -> Result<Vec<QrelLine>, FormatEnd> {
    read_qrels(alloc, short(text.as_bytes())?)
}

pub fn table_of(alloc: Global, text: &str) -> Result<QrelTable<'_>, FormatEnd> {
    read_qrel_table(alloc, short(text.as_bytes())?)
}

pub fn topics_of(alloc: Global, text: &[u8]) -> Result<Vec<Topic>, FormatEnd> {
    read_topics(alloc, short(text)?)
}

pub fn lists_read(alloc: Global, text: &str) -> Result<Vec<TopicList>, FormatEnd> {
    read_lists(alloc, short(text.as_bytes())?)
}
