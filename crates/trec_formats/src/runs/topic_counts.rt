//! How many lines of a run each topic has.
ghost use Rattle.std.specs.Prelude.{◌≡◌, ◌≢◌, ◌≤◌, ◌<◌, ◌+◌, ◌^◌, ℕ, List, Some, length, IfOk, OnOk, MatchBool, if◌then◌else◌, bytes_eq};
ghost use Rattle.decimal_rank.specs.Names.{number_of};
ghost use Rattle.trec_formats.specs.RunFormat.Counts.{count_in, count_at, IsOneMore, AreTopicCounts};

use crate::topic_numbers::topic_number;
use decimal_rank::{Memory, Names, Text};
use std::alloc::Global;

/// The most lines of a topic.
const TOPIC_LINES: u32 = 1000;

/// The topics of a run's lines, and how many lines each has.
#[derive(Drop)]
pub(crate) struct TopicCounts {
    pub(crate) topics: Names,
    pub(crate) counts: Vec<u32>,
}

impl TopicCounts {
    pub(crate) fn new(alloc: Global) -> TopicCounts
        ensures none { (topic : List ℕ) → count_at result topic ≡ 0 }
        ensures tally { AreTopicCounts result }
        ensures few { length result.topics ≡ 0 }
    {
        TopicCounts {
            topics: Names::new(alloc),
            counts: Vec::new(alloc),
        }
    }
}

/// The place of a topic among the counts, where it has no line so far with the count 0.
fn place_of(
    alloc: Global,
    topics: &mut Names,
    counts: &mut Vec<u32>,
    topic: &[u8],
) -> Result<usize, Memory>
    requires sized { length counts.old.items ≡ length topics.old }
    requires few { length topics.old + 1 < 2 ^ 32 }
    ensures place { IfOk result (λ place. number_of topics.new topic.now ≡ Some place) }
    ensures sized { OnOk result (length counts.new.items ≡ length topics.new) }
    ensures few { OnOk result (length topics.new ≤ length topics.old + 1) }
    ensures same { OnOk result ((other : List ℕ)
        → count_in topics.new counts.new.items other ≡ count_in topics.old counts.old.items other) }
{
    if let Some(number) = topic_number(topics, topic) {
        return Ok(number.0 as usize);
    }
    let number = topics.add(Text::from_slice(alloc, topic)?)?;
    counts.push(0)?;
    Ok(number.0 as usize)
}

/// Counts one more line at a place, where there are fewer than the most. Whether there were.
fn count_more(counts: &mut Vec<u32>, place: usize) -> bool
    requires { place < length counts.old.items }
    ensures { IsOneMore counts.old.items place result counts.new.items }
{
    let count = counts[place];
    if count >= TOPIC_LINES {
        return false;
    }
    counts[place] = count + 1;
    true
}

/// Counts one more line of a topic, where it has fewer than the most. Whether it had.
pub(crate) fn count_line(
    alloc: Global,
    counts: &mut TopicCounts,
    topic: &[u8],
) -> Result<bool, Memory>
    requires tally { AreTopicCounts counts.old }
    requires few { length counts.old.topics + 1 < 2 ^ 32 }
    ensures counted { IfOk result
        (λ counted. MatchBool counted ((count_at counts.old topic.now ≢ TOPIC_LINES)
        × ((other : List ℕ) → count_at counts.new other ≡ count_at counts.old other + (if bytes_eq
        topic.now other then 1 else 0))) (count_at counts.old topic.now ≡ TOPIC_LINES)) }
    ensures tally { OnOk result (AreTopicCounts counts.new) }
    ensures few { OnOk result (length counts.new.topics ≤ length counts.old.topics + 1) }
{
    let place = place_of(alloc, &mut counts.topics, &mut counts.counts, topic)?;
    Ok(count_more(&mut counts.counts, place))
}
