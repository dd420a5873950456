//! The topics of a text of blocks from `<top>` to `</top>`, or its first fault.
ghost use Rattle.std.specs.Prelude.{◌≡◌, ◌≤◌, ℕ, List, [], length, map, Ok, Err, IfOk, MatchOption, MatchResult, true};
ghost use Rattle.std.specs.List.{list_all};
ghost use Rattle.trec_formats.specs.Faults.{IfFault, OfFault};
ghost use Rattle.trec_formats.specs.TopicsFormat.TopicLines.{Closes};
ghost use Rattle.trec_formats.specs.TopicsFormat.TopicLineViews.{kind_seen};
ghost use Rattle.trec_formats.specs.TopicsFormat.SoundTopics.{AreSoundTopics, is_sound_topic};
ghost use Rattle.trec_formats.specs.TopicsFormat.TopicBlocks.{finished_as, progress_behind, TellsBy};
ghost use Rattle.trec_formats.specs.TopicsFormat.Topics.{NumberedTopic, IsEachBlockRead, IsTopics, IsTopicsFault};

mod topic_blocks;
mod topic_fields;
pub(crate) mod topic_laws;
mod topic_lines;

use crate::documents::{DocumentLine, table_of};
use crate::faults::{FormatEnd, Kind};
use crate::lines::cut_line;
use crate::topics::topic_blocks::Block;
use crate::topics::topic_lines::{LineKind, mark_of, strip};
use decimal_rank::{Memory, Text};
use std::alloc::Global;

/// A topic of a campaign: its name, and what is sought in three fields.
#[derive(Debug, Drop, PartialEq)]
pub struct Topic {
    pub id: Text,
    pub title: Text,
    pub desc: Text,
    pub narr: Text,
}

/// A topic with the line of its number. It is told by its id, and names no document.
impl DocumentLine for (u32, Topic) {
    ghost topic_of = { λ topic. topic.1.id };

    ghost doc_of = { λ _. [] };

    ghost number_of = { λ topic. topic.0 };

    fn topic(&self) -> &[u8] {
        self.1.id.bytes()
    }

    fn doc(&self) -> &[u8] {
        &[]
    }

    fn number(&self) -> u32 {
        self.0
    }
}

/// Reads a line where no block is open.
fn read_outside(number: u32, mark: LineKind) -> Result<Option<Block>, FormatEnd>
    ensures { (topics : List NumberedTopic) → TellsBy (λ next. (topics, next)) result number
        (progress_behind topics None (number, kind_seen mark.entry)) }
{
    match mark {
        LineKind::Opens => Ok(Some(Block::new())),
        LineKind::Closes
        | LineKind::Numbers(_)
        | LineKind::Begins(_, _)
        | LineKind::Skips
        | LineKind::Says(_) => Err(FormatEnd::at(number, Kind::Tag)),
    }
}

/// Reads the end of a block.
fn read_end(
    alloc: Global,
    topics: &mut Vec<(u32, Topic)>,
    block: Block,
    number: u32,
) -> Result<(), FormatEnd>
    ensures { TellsBy (λ _. (topics.new.items, None)) result number
        (progress_behind topics.old.items (Some block) (number, Closes)) }
{
    let Some(topic) = block.into_topic(alloc) else {
        return Err(FormatEnd::at(number, Kind::Tag));
    };
    topics.push(topic)?;
    Ok(())
}

/// Reads a line before which this block is open. A block that ends joins the topics. The block that
/// is open then.
fn read_mark(
    alloc: Global,
    topics: &mut Vec<(u32, Topic)>,
    open_block: Option<Block>,
    number: u32,
    mark: LineKind,
) -> Result<Option<Block>, FormatEnd>
    ensures { TellsBy (λ next. (topics.new.items, next)) result number
        (progress_behind topics.old.items open_block (number, kind_seen mark.entry)) }
{
    let Some(mut block) = open_block else {
        return read_outside(number, mark);
    };
    if let LineKind::Closes = mark {
        read_end(alloc, topics, block, number)?;
        return Ok(None);
    }
    block.read_line(alloc, number, mark)?;
    Ok(Some(block))
}

/// The topics of a text of so many lines, behind which this block is open.
fn finished(
    topics: Vec<(u32, Topic)>,
    open_block: Option<Block>,
    lines: u32,
) -> Result<Vec<(u32, Topic)>, FormatEnd>
    requires { lines ≤ 268435456 }
    ensures { MatchResult result
        (λ found. finished_as lines topics.items open_block ≡ Ok found.items)
        (λ end. OfFault end (λ fault. finished_as lines topics.items open_block ≡ Err fault)) }
{
    if open_block.is_some() {
        return Err(FormatEnd::at(lines + 1, Kind::Tag));
    }
    if topics.is_empty() {
        return Err(FormatEnd::at(0, Kind::Empty));
    }
    Ok(topics)
}

/// The topics of a text with the lines of their numbers. Some may have one id.
fn read_blocks(alloc: Global, bytes: &[u8]) -> Result<Vec<(u32, Topic)>, FormatEnd>
    requires { length bytes.now ≤ 268435456 }
    ensures topics { IfOk result (λ topics. IsEachBlockRead bytes.now (Ok topics.items)) }
    ensures within { IfOk result (λ topics. (list_all (λ topic. is_sound_topic topic.1) topics.items
        ≡ true) × (length topics.items ≤ length bytes.now)) }
    ensures fault { IfFault result (λ fault. IsEachBlockRead bytes.now (Err fault)) }
{
    let mut topics = Vec::new(alloc);
    let mut open_block = None;
    let mut number = 0;
    let mut rest = bytes;
    while !rest.is_empty() {
        let (line, after) = cut_line(rest);
        number += 1;
        rest = after;
        let line = strip(line);
        if !line.is_empty() {
            open_block = read_mark(alloc, &mut topics, open_block, number, mark_of(line))?;
        }
    }
    finished(topics, open_block, number)
}

/// The topics without the lines of their numbers.
fn without_lines(alloc: Global, found: Vec<(u32, Topic)>) -> Result<Vec<Topic>, Memory>
    ensures { IfOk result (λ topics. topics.items ≡ map (λ topic. topic.1) found.items) }
{
    Ok(found.into_iter().map(|(_, topic)| topic).collect(alloc)?)
}

/// The topics of a text, or its first fault.
pub fn read_topics(alloc: Global, bytes: &[u8]) -> Result<Vec<Topic>, FormatEnd>
    requires { length bytes.now ≤ 268435456 }
    ensures topics { IfOk result (λ topics. IsTopics bytes.now topics.items) }
    ensures sound { IfOk result (λ topics. AreSoundTopics topics.items) }
    ensures few { IfOk result (λ topics. length topics.items ≤ length bytes.now) }
    ensures fault { IfFault result (IsTopicsFault bytes.now) }
{
    let found = read_blocks(alloc, bytes)?;
    table_of(alloc, found.as_slice())?;
    Ok(without_lines(alloc, found)?)
}
