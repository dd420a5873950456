//! The ranked list of a run on each topic, by ascending topic: docnos by falling score, and then by
//! falling docno.
ghost use Rattle.std.specs.Prelude.{◌≡◌, ◌≤◌, ◌<◌, ℕ, List, length, drop, map, IfOk, OnOk, position, not, bytes_eq};
ghost use Rattle.std.specs.Cmp.Lexicographic.{slice_cmp};
ghost use Rattle.std.specs.List.Sorted.{IsStrictlyIncreasing};
ghost use Rattle.std.specs.Ordering.{nat_cmp};
ghost use Rattle.decimal_rank.specs.Rankings.Ranks.{standing_cmp};
ghost use Rattle.trec_formats.specs.Faults.{IsDistinct, IfFault};
ghost use Rattle.trec_formats.specs.RunFormat.Groups.{AreByRank, AreByTopic, IsAscending, IsFirstGroup, DocsDiffer, IsGroupList};
ghost use Rattle.trec_formats.specs.RunFormat.Lists.{same_run_document, standing, AreLists, AreRanked, IsListsFault};
ghost use Rattle.trec_formats.specs.RunFormat.PackedRuns.{text_in, line_in, lines_in, kept_lines, lines_behind};
ghost use Rattle.trec_formats.specs.RunFormat.Runs.{line_count_on};

use crate::documents::docnos::Docnos;
use crate::faults::FormatEnd;
use crate::runs::RunLine;
use crate::runs::packed_runs::{PackedLine, PackedRun, Span, is_one_span, packed, text_of};
use crate::runs::repeats::check_distinct;
use decimal_rank::{Memory, Text, decimals_have_an_order};
use std::alloc::Global;
use std::cmp::Ordering;

/// The ranked list of a run on one topic.
#[derive(Debug, Drop, PartialEq)]
pub struct TopicList {
    pub topic: Text,
    /// The topic's first line in the run's text, from 1.
    pub line: u32,
    /// The docnos by rank.
    pub docs: Docnos,
}

/// The order of two lines by topic.
fn compare_topics(bytes: &[u8], a: &PackedLine, b: &PackedLine) -> Ordering
    ensures { result
        ≡ slice_cmp nat_cmp (text_in bytes.now a.now.topic) (text_in bytes.now b.now.topic) }
{
    // mostly lines share the bytes of their topic
    if is_one_span(a.topic, b.topic) {
        return Ordering::Equal;
    }
    text_of(bytes, a.topic).cmp(text_of(bytes, b.topic))
}

/// Puts lines by ascending topic, those of each topic in their order.
fn sort_by_topic(bytes: &[u8], lines: &mut Vec<PackedLine>) -> Result<(), Memory>
    ensures { OnOk result
        (AreByTopic (lines_in bytes.now lines.old.items) (lines_in bytes.now lines.new.items)) }
{
    lines.sort_by(|a, b| compare_topics(bytes, a, b))?;
    Ok(())
}

/// Whether two spans have one text.
fn is_same_text(bytes: &[u8], a: Span, b: Span) -> bool
    ensures { result ≡ bytes_eq (text_in bytes.now a) (text_in bytes.now b) }
{
    if is_one_span(a, b) {
        return true;
    }
    text_of(bytes, a) == text_of(bytes, b)
}

/// The place of the first line that has another topic.
fn first_other(bytes: &[u8], lines: &[PackedLine], topic: Span) -> Option<usize>
    ensures { result ≡ position (λ line. not
        (bytes_eq (text_in bytes.now line.topic) (text_in bytes.now topic))) lines.now }
{
    lines
        .iter()
        .position(|line| !is_same_text(bytes, line.topic, topic))
}

/// The lines in front that have the topic of the first.
fn first_group<'a>(bytes: &[u8], lines: &'a [PackedLine]) -> &'a [PackedLine]
    requires { 0 < length lines.now }
    ensures { IsFirstGroup (lines_in bytes.now lines.now) (lines_in bytes.now result.now) }
{
    let end = first_other(bytes, lines, lines[0].topic).unwrap_or(lines.len());
    &lines[..end]
}

/// The lines from a place on that have the topic of the first of these.
fn group_at<'a>(bytes: &[u8], lines: &'a [PackedLine], start: usize) -> &'a [PackedLine]
    requires { start < length lines.now }
    ensures { IsFirstGroup (lines_in bytes.now (drop start lines.now))
        (lines_in bytes.now result.now) }
{
    first_group(bytes, &lines[start..])
}

/// The order of two lines of a topic by score, and at equal scores by docno.
fn compare(bytes: &[u8], a: &PackedLine, b: &PackedLine) -> Ordering
    ensures { result
        ≡ standing_cmp (standing (line_in bytes.now a.now)) (standing (line_in bytes.now b.now)) }
{
    match a.score.compare(&b.score) {
        Ordering::Equal => text_of(bytes, a.doc).cmp(text_of(bytes, b.doc)),
        unequal => unequal,
    }
}

/// References to the lines.
fn lent(alloc: Global, lines: &[PackedLine]) -> Result<Vec<&PackedLine>, Memory>
    ensures { IfOk result (λ order. map (λ line. line.now) order.items ≡ lines.now) }
{
    Ok(lines.iter().collect(alloc)?)
}

/// The lines of a topic by rank.
fn by_rank<'a>(
    alloc: Global,
    bytes: &[u8],
    lines: &'a [PackedLine],
) -> Result<Vec<&'a PackedLine>, Memory>
    ensures { IfOk result
        (λ order. AreByRank (lines_in bytes.now lines.now) (lines_behind bytes.now order.items)) }
{
    decimals_have_an_order();
    let mut order = lent(alloc, lines)?;
    order.sort_unstable_by(|a, b| compare(bytes, b, a));
    Ok(order)
}

/// The docnos of lines, in their order.
fn docnos_of(alloc: Global, bytes: &[u8], order: &[&PackedLine]) -> Result<Docnos, Memory>
    ensures { IfOk result
        (λ docs. docs ≡ map (λ line. line.doc) (lines_behind bytes.now order.now)) }
{
    let mut docs = Docnos::with_capacity(alloc, order.len())?;
    for line in order {
        docs.push(text_of(bytes, line.doc))?;
    }
    docs.shrink_to_fit();
    Ok(docs)
}

/// The docnos of a topic's lines, by rank.
fn ranked(alloc: Global, bytes: &[u8], lines: &[PackedLine]) -> Result<Docnos, Memory>
    requires { DocsDiffer (lines_in bytes.now lines.now) }
    ensures { IfOk result (AreRanked (lines_in bytes.now lines.now)) }
{
    decimals_have_an_order();
    let order = by_rank(alloc, bytes, lines)?;
    docnos_of(alloc, bytes, order.as_slice())
}

/// The list of a topic's lines.
fn group_list(alloc: Global, bytes: &[u8], lines: &[PackedLine]) -> Result<TopicList, Memory>
    requires some { 0 < length lines.now }
    requires differ { DocsDiffer (lines_in bytes.now lines.now) }
    ensures { IfOk result (IsGroupList (lines_in bytes.now lines.now)) }
{
    let docs = ranked(alloc, bytes, lines)?;
    Ok(TopicList {
        topic: Text::from_slice(alloc, text_of(bytes, lines[0].topic))?,
        line: lines[0].line,
        docs,
    })
}

/// Lets go of so many lines in front, where they are more than half of all, so that lines and lists
/// aren't held twice. Gives how many stand in front then.
fn drop_done(lines: &mut Vec<PackedLine>, done: usize) -> usize
    requires { done ≤ length lines.old.items }
    ensures left { drop result lines.new.items ≡ drop done lines.old.items }
    ensures within { result ≤ length lines.new.items }
{
    if lines.len() - done < done {
        drop(lines.drain(..done));
        lines.shrink_to_fit();
        0
    } else {
        done
    }
}

/// The lists of lines that stand by ascending topic.
fn lists_of(alloc: Global, bytes: &[u8], lines: Vec<PackedLine>) -> Result<Vec<TopicList>, Memory>
    requires ascending { IsAscending (lines_in bytes.now lines.items) }
    requires distinct { IsDistinct same_run_document (lines_in bytes.now lines.items) }
    ensures { IfOk result (λ lists. AreLists (lines_in bytes.now lines.items) lists.items) }
{
    let mut rest = lines;
    let mut lists = Vec::new(alloc);
    let mut start = 0;
    while start < rest.len() {
        let group = group_at(bytes, rest.as_slice(), start);
        let next = start + group.len();
        lists.push(group_list(alloc, bytes, group)?)?;
        start = drop_done(&mut rest, next);
    }
    Ok(lists)
}

/// The ranked lists of a run, by ascending topic. A document that stands twice on a topic is a
/// fault, of which the first is told.
pub(crate) fn rank_packed(alloc: Global, run: PackedRun) -> Result<Vec<TopicList>, FormatEnd>
    ensures lists { IfOk result (λ lists. AreLists (kept_lines run) lists.items) }
    ensures fault { IfFault result (IsListsFault (kept_lines run)) }
{
    let PackedRun { bytes, mut lines } = run;
    check_distinct(alloc, bytes.as_slice(), lines.as_slice())?;
    sort_by_topic(bytes.as_slice(), &mut lines)?;
    Ok(lists_of(alloc, bytes.as_slice(), lines)?)
}

/// The ranked lists of a run, by ascending topic. A document that stands twice on a topic is a
/// fault, of which the first is told.
pub fn rank_run(alloc: Global, lines: &[RunLine]) -> Result<Vec<TopicList>, FormatEnd>
    requires short { (topic : List ℕ) → line_count_on topic lines.now ≤ 1000 }
    requires ascending { IsStrictlyIncreasing (map (λ line. line.line) lines.now) }
    ensures lists { IfOk result (λ lists. AreLists lines.now lists.items) }
    ensures fault { IfFault result (IsListsFault lines.now) }
{
    let run = packed(alloc, lines)?;
    rank_packed(alloc, run)
}
