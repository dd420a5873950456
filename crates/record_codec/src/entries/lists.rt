//! The lists of an entry: a count of four bytes and the items.
ghost use Rattle.std.specs.Prelude.{◌≡◌, ℕ, List};
ghost use Rattle.record_codec.specs.Outcomes.{GivesRead, GivesReadBy};
ghost use Rattle.record_codec.specs.Readings.{Read, docno_read, docs_read, doubles_read, items_read, level_read, levels_read, list_read, lists_read, name_read, topic_read, topics_read};

use crate::cursor::Cursor;
use crate::entries::fields::{docno_bytes, name, printable};
use crate::entries::text_orders::{
    are_ascending, are_distinct, ids, lent, lent_docnos, leveled, topics,
};
use crate::faults::CodecFault;
use decimal_rank::{Rows, Text};
use rulebook::{MAX_DESC, MAX_DOCS, MAX_NARR, MAX_TITLE, MAX_TOPICS, TopicLevel};
use std::alloc::Global;
use trec_formats::{Docnos, Topic, TopicList};

/// What lists are made of.
pub(crate) trait Item {
    type Value: Drop;

    // what bytes give
    ghost at: { List ℕ → Read Self.Value };

    fn read(alloc: Global, left: &mut Cursor) -> Result<Self::Value, CodecFault>
        ensures { GivesRead result left.new.bytes.now (at left.old.bytes.now) };
}

struct Name;

impl Item for Name {
    type Value = Text;

    ghost at = { name_read };

    fn read(alloc: Global, left: &mut Cursor) -> Result<Text, CodecFault> {
        name(alloc, left)
    }
}

impl Item for Topic {
    type Value = Topic;

    ghost at = { topic_read };

    #[tactic(auto, unfolding(crate::specs::Readings::topic_read))]
    fn read(alloc: Global, left: &mut Cursor) -> Result<Topic, CodecFault> {
        let id = name(alloc, left)?;
        let title = printable(alloc, left, MAX_TITLE)?;
        let desc = printable(alloc, left, MAX_DESC)?;
        let narr = printable(alloc, left, MAX_NARR)?;
        Ok(Topic {
            id,
            title,
            desc,
            narr,
        })
    }
}

impl Item for TopicList {
    type Value = TopicList;

    ghost at = { list_read };

    #[tactic(auto, unfolding(crate::specs::Readings::list_read))]
    fn read(alloc: Global, left: &mut Cursor) -> Result<TopicList, CodecFault> {
        let topic = name(alloc, left)?;
        let line = left.number32()?;
        let docs = docs(alloc, left)?;
        Ok(TopicList { topic, line, docs })
    }
}

/// So many items, one behind the other.
pub(crate) fn items_of<I: Item>(
    alloc: Global,
    left: &mut Cursor,
    count: u32,
) -> Result<Vec<I::Value>, CodecFault>
    ensures { GivesReadBy (λ items. items.items) result left.new.bytes.now
        (items_read I.at count left.old.bytes.now) }
{
    // the count is only told: room for so many at most
    let mut items = Vec::with_capacity(alloc, count.min(MAX_DOCS) as usize)?;
    for _ in 0..count {
        let item = I::read(alloc, left)?;
        items.push(item)?;
    }
    Ok(items)
}

/// The topics that need two labels, in ascending order.
#[tactic(auto, unfolding(crate::specs::Readings::doubles_read, crate::specs::Readings::counted_read))]
pub(crate) fn doubles(alloc: Global, left: &mut Cursor) -> Result<Rows<Text>, CodecFault>
    ensures { GivesRead result left.new.bytes.now (doubles_read left.old.bytes.now) }
{
    let count = left.number32()?;
    if count > MAX_TOPICS {
        return Err(CodecFault::NoEntry);
    }
    let names = items_of::<Name>(alloc, left, count)?;
    if !are_ascending(lent(alloc, names.as_slice())?.as_slice()) {
        return Err(CodecFault::NoEntry);
    }
    Ok(Rows::new(names))
}

impl Item for TopicLevel {
    type Value = TopicLevel;

    ghost at = { level_read };

    #[tactic(auto, unfolding(crate::specs::Readings::level_read))]
    fn read(alloc: Global, left: &mut Cursor) -> Result<TopicLevel, CodecFault> {
        let topic = name(alloc, left)?;
        let level = left.byte()?;
        Ok(TopicLevel { topic, level })
    }
}

/// The levels of topics, by ascending topic.
#[tactic(auto, unfolding(crate::specs::Readings::levels_read, crate::specs::Readings::counted_read))]
pub(crate) fn topic_levels(alloc: Global, left: &mut Cursor) -> Result<Rows<TopicLevel>, CodecFault>
    ensures { GivesRead result left.new.bytes.now (levels_read left.old.bytes.now) }
{
    let count = left.number32()?;
    if count < 1 || count > MAX_TOPICS {
        return Err(CodecFault::NoEntry);
    }
    let levels = items_of::<TopicLevel>(alloc, left, count)?;
    if !are_ascending(leveled(alloc, levels.as_slice())?.as_slice()) {
        return Err(CodecFault::NoEntry);
    }
    Ok(Rows::new(levels))
}

/// So many docnos, one behind the other.
fn docnos_of(alloc: Global, left: &mut Cursor, count: u32) -> Result<Docnos, CodecFault>
    ensures { GivesRead result left.new.bytes.now (items_read docno_read count left.old.bytes.now) }
{
    // the count is only told: room for so many at most
    let mut docs = Docnos::with_capacity(alloc, count.min(MAX_DOCS) as usize)?;
    for _ in 0..count {
        let docno = docno_bytes(left)?;
        docs.push(docno)?;
    }
    docs.shrink_to_fit();
    Ok(docs)
}

/// The documents of a list, which differ.
#[tactic(auto, unfolding(crate::specs::Readings::docs_read, crate::specs::Readings::counted_read))]
fn docs(alloc: Global, left: &mut Cursor) -> Result<Docnos, CodecFault>
    ensures { GivesRead result left.new.bytes.now (docs_read left.old.bytes.now) }
{
    let count = left.number32()?;
    if count < 1 || count > MAX_DOCS {
        return Err(CodecFault::NoEntry);
    }
    let docs = docnos_of(alloc, left, count)?;
    if !are_distinct(alloc, lent_docnos(alloc, &docs)?.as_slice())? {
        return Err(CodecFault::NoEntry);
    }
    Ok(docs)
}

/// The topics of a campaign, whose ids differ.
#[tactic(auto, unfolding(crate::specs::Readings::topics_read, crate::specs::Readings::counted_read))]
pub(crate) fn campaign_topics(alloc: Global, left: &mut Cursor) -> Result<Rows<Topic>, CodecFault>
    ensures { GivesRead result left.new.bytes.now (topics_read left.old.bytes.now) }
{
    let count = left.number32()?;
    let topics = items_of::<Topic>(alloc, left, count)?;
    if !are_distinct(alloc, ids(alloc, topics.as_slice())?.as_slice())? {
        return Err(CodecFault::NoEntry);
    }
    Ok(Rows::new(topics))
}

/// The lists of a run, by ascending topic.
#[tactic(auto, unfolding(crate::specs::Readings::lists_read, crate::specs::Readings::counted_read))]
pub(crate) fn run_lists(alloc: Global, left: &mut Cursor) -> Result<Rows<TopicList>, CodecFault>
    ensures { GivesRead result left.new.bytes.now (lists_read left.old.bytes.now) }
{
    let count = left.number32()?;
    if count < 1 {
        return Err(CodecFault::NoEntry);
    }
    let lists = items_of::<TopicList>(alloc, left, count)?;
    if !are_ascending(topics(alloc, lists.as_slice())?.as_slice()) {
        return Err(CodecFault::NoEntry);
    }
    Ok(Rows::new(lists))
}
