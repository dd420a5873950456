//! Pages that are printed topic by topic.
ghost use Rattle.std.specs.Prelude.{◌≡◌, ◌<◌, ◌≤◌, ◌++◌, [], ℕ, List, IfOk, OnOk, codes, decimal, get_or, length, map};
ghost use Rattle.assessment.specs.TopicFacts.{facts_of};
ghost use Rattle.rulebook.specs.Campaign.{History};
ghost use Rattle.rulebook.specs.declared.reply.Reply.TheVariants as reply;
ghost use Rattle.rulebook.specs.Reports.Pages.{counts_line, disagreement_line, disagreement_lines, live_count, progress_line};
ghost use Rattle.campaign_core.specs.CampaignStates.{KnowsAll};
ghost use Rattle.campaign_core.specs.Numbering.Numbers.{names_of};
ghost use Rattle.campaign_core.specs.Views.PrintedPages.{IsTopicOf, page_text, part_of};
ghost use Rattle.campaign_core.specs.Assessments.Topics.{topic_ids};

pub(crate) mod pools;
pub(crate) mod score_pages;
mod texts;

use crate::campaign::topics::numbers_by_id;
use crate::pages::texts::{docnos_of, in_order};
use assessment::AssessedTopic;
use decimal_rank::{Memory, Names, Text};
use itoa::Buffer;
use lease_desk::Desk;
use qrels_view::DocnoOrder;
use rulebook::{Reply, graded_are_on_trail, labelled_are_listed};
use std::alloc::Global;

/// What a page shows of each topic.
#[derive(Clone, Copy)]
pub(crate) enum Page {
    /// The effective grades.
    Qrels,
    /// The documents whose labels differ.
    Disagreements,
    /// How far the judging is.
    Progress,
}

/// What pages are printed from: the topics with their documents, and the leases at a moment.
#[derive(Drop)]
pub(crate) struct PageSource<'a> {
    pub(crate) topics: &'a [AssessedTopic],
    pub(crate) docnos: &'a Names,
    pub(crate) desk: &'a Desk,
    pub(crate) moment: u64,
}

/// A page: the topics stand by id. The orders, by the numbers of the topics, are those in which the
/// last pages left the documents with a grade.
pub(crate) fn page_reply(
    alloc: Global,
    page: Page,
    source: &PageSource,
    orders: &mut Vec<DocnoOrder>,
) -> Result<Reply, Memory>
    requires knows { let from = source.now in
        (H : History) × KnowsAll H (map facts_of from.topics.now) from.desk.now.leases
        × (from.docnos.now ≡ names_of H) }
    ensures { let from = source.now in
        (H : History) → KnowsAll H (map facts_of from.topics.now) from.desk.now.leases
        → from.docnos.now ≡ names_of H
        → IfOk result (λ told. told ≡ reply.Page (page_text page H from.moment)) }
{
    let mut out = Vec::new(alloc);
    for number in &numbers_by_id(alloc, source.topics)? {
        write_topic(page, source, *number, orders, &mut out)?;
    }
    Ok(Reply::Page {
        text: Text::new(out),
    })
}

/// Appends what a page shows of the topic of this number.
fn write_topic(
    page: Page,
    source: &PageSource,
    number: usize,
    orders: &mut Vec<DocnoOrder>,
    out: &mut Vec<u8>,
) -> Result<(), Memory>
    requires knows { let from = source.now in
        (H : History) × KnowsAll H (map facts_of from.topics.now) from.desk.now.leases
        × (from.docnos.now ≡ names_of H) }
    requires within { number < length source.now.topics.now }
    ensures { let from = source.now in
        (H : History) → KnowsAll H (map facts_of from.topics.now) from.desk.now.leases
        → from.docnos.now ≡ names_of H
        → OnOk result (out.new.items
        ≡ out.old.items ++ part_of page H from.moment (get_or (topic_ids H) number [])) }
{
    let topics = source.topics;
    let live = source.desk.live_on_topic(number as u16, source.moment);
    reach(orders, topics.len())?;
    write_part(
        page,
        &topics[number],
        source.docnos,
        live,
        &mut orders[number],
        out,
    )
}

/// Has an order for each of so many topics.
fn reach(orders: &mut Vec<DocnoOrder>, topics: usize) -> Result<(), Memory>
    ensures { OnOk result (topics ≤ length orders.new.items) }
{
    let alloc = *orders.allocator();
    for _ in orders.len()..topics {
        orders.push(DocnoOrder::new(alloc))?;
    }
    Ok(())
}

/// Appends what a page shows of a topic, on which so many leases are live.
fn write_part(
    page: Page,
    topic: &AssessedTopic,
    docnos: &Names,
    live: u32,
    order: &mut DocnoOrder,
    out: &mut Vec<u8>,
) -> Result<(), Memory>
    requires knows { (H : History) × IsTopicOf H docnos.now topic.now.facts }
    ensures { (H : History) (now : ℕ) → IsTopicOf H docnos.now topic.now.facts
        → live ≡ live_count H now topic.now.facts.id
        → OnOk result (out.new.items ≡ out.old.items ++ part_of page H now topic.now.facts.id) }
{
    // the documents with a grade are those of the trail that have one
    graded_are_on_trail();
    match page {
        Page::Qrels => topic.grades().write_by(topic.id(), docnos, order, out),
        Page::Disagreements => write_disagreements(topic, docnos, out),
        Page::Progress => write_progress(topic, live, out),
    }
}

/// Appends the lines of a topic's documents whose labels differ.
fn write_disagreements(
    topic: &AssessedTopic,
    docnos: &Names,
    out: &mut Vec<u8>,
) -> Result<(), Memory>
    ensures { (H : History) → IsTopicOf H docnos.now topic.now.facts
        → OnOk result (out.new.items ≡ out.old.items ++ disagreement_lines H topic.now.facts.id) }
{
    let need = topic.need();
    // one label doesn't differ
    if need != 2 {
        return Ok(());
    }
    let alloc = *out.allocator();
    let docs = topic.marks().disagreements(alloc, need)?;
    // the documents whose labels differ are among those with a label
    labelled_are_listed();
    for docno in &in_order(docnos_of(alloc, docnos, &docs)?) {
        write_disagreement(topic.id(), docno, out)?;
    }
    Ok(())
}

fn write_disagreement(topic: &[u8], docno: &[u8], out: &mut Vec<u8>) -> Result<(), Memory>
    ensures { OnOk result (out.new.items ≡ out.old.items ++ disagreement_line topic.now docno.now) }
{
    out.extend_from_slice(topic)?;
    out.extend_from_slice(b" ")?;
    out.extend_from_slice(docno)?;
    out.extend_from_slice(b"\n")?;
    Ok(())
}

/// Appends the line of a topic, on which so many leases are live.
fn write_progress(topic: &AssessedTopic, live: u32, out: &mut Vec<u8>) -> Result<(), Memory>
    ensures { (H : History) (names : List (List ℕ)) (now : ℕ)
        → IsTopicOf H names topic.now.facts → live ≡ live_count H now topic.now.facts.id
        → OnOk result (out.new.items ≡ out.old.items ++ progress_line H now topic.now.facts.id) }
{
    // the documents with a grade are those of the trail that have one
    graded_are_on_trail();
    let documents = topic.pool().len() as u64;
    let grades = topic.grades();
    let relevant = grades.relevant();
    let non_relevant = grades.non_relevant();
    write_counts(topic.id(), documents, relevant, non_relevant, live, out)
}

fn write_counts(
    topic: &[u8],
    documents: u64,
    relevant: u32,
    non_relevant: u32,
    live: u32,
    out: &mut Vec<u8>,
) -> Result<(), Memory>
    ensures { OnOk result (out.new.items
        ≡ out.old.items ++ counts_line topic.now documents relevant non_relevant live) }
{
    out.extend_from_slice(topic)?;
    write_count(documents, out)?;
    write_count(u64::from(relevant), out)?;
    write_count(u64::from(non_relevant), out)?;
    write_count(u64::from(live), out)?;
    out.extend_from_slice(b"\n")?;
    Ok(())
}

/// Appends a space and a number.
fn write_count(count: u64, out: &mut Vec<u8>) -> Result<(), Memory>
    ensures { OnOk result (out.new.items ≡ out.old.items ++ codes " " ++ decimal count) }
{
    let mut digits = Buffer::new();
    out.extend_from_slice(b" ")?;
    out.extend_from_slice(digits.format(count).as_bytes())?;
    Ok(())
}
