//! The pages of the scores of runs.
ghost use Rattle.std.specs.Prelude.{◌≡◌, ◌<◌, ◌++◌, [], ℕ, List, IfOk, OnOk, get_or, length, map, true};
ghost use Rattle.assessment.specs.Changes.{facts};
ghost use Rattle.assessment.specs.TopicFacts.{facts_of};
ghost use Rattle.rulebook.specs.declared.reply.Reply.TheVariants as reply;
ghost use Rattle.rulebook.specs.Answers.{reply_of, scores_outcome};
ghost use Rattle.rulebook.specs.Campaign.{History, Run};
ghost use Rattle.rulebook.specs.Reports.Scores.{cell_lines, is_counted as counts, scores_page, summary_lines, table_page};
ghost use Rattle.campaign_core.specs.CampaignStates.{IsKnown, KnowsRun};
ghost use Rattle.campaign_core.specs.Views.PrintedPages.{IsTopicOf};
ghost use Rattle.campaign_core.specs.Assessments.Topics.{topic_ids};

use crate::campaign::Campaign;
use crate::campaign::submissions::{name_of, run_asked};
use crate::campaign::topics::numbers_by_id;
use assessment::AssessedTopic;
use decimal_rank::{Memory, Text};
use depth_pool::RunId;
use measures::{write_cell, write_summary};
use rulebook::{Caller, Reply, graded_are_on_trail, graded_are_there};
use score_index::Board;
use std::alloc::Global;

/// The scores of the run of this name, as a caller is told them.
pub(crate) fn scores_reply(
    alloc: Global,
    campaign: &Campaign,
    who: &Caller,
    name: &Text,
) -> Result<Reply, Memory>
    requires known { IsKnown campaign.now }
    requires on_board { (facts campaign.now.assessment).on_board ≡ true }
    ensures { IfOk result
        (λ reply. reply ≡ reply_of (scores_outcome campaign.now.history.items who.now name.now)) }
{
    let number = match run_asked(&campaign.history, &campaign.submissions, who, name) {
        Ok(number) => number,
        Err(refusal) => return Ok(Reply::Refused(refusal)),
    };
    let run = RunId(number as u16);
    let topics = campaign.assessment.topics();
    let items = topics.items();
    let board = topics.board();
    let mut out = Vec::new(alloc);
    write_scores(alloc, items, board, run, name.bytes(), &mut out)?;
    Ok(Reply::Page {
        text: Text::new(out),
    })
}

/// The summaries of the live runs, by submission.
pub(crate) fn table_reply(alloc: Global, campaign: &Campaign) -> Result<Reply, Memory>
    requires known { IsKnown campaign.now }
    requires on_board { (facts campaign.now.assessment).on_board ≡ true }
    ensures { IfOk result (λ told. told ≡ reply.Page (table_page campaign.now.history.items)) }
{
    let topics = campaign.assessment.topics();
    let items = topics.items();
    let board = topics.board();
    let mut out = Vec::new(alloc);
    for (number, submission) in campaign.submissions.iter().enumerate() {
        let is_withdrawn = submission.is_withdrawn;
        if is_withdrawn {
            continue;
        }
        let name = name_of(&campaign.history[submission.place as usize]);
        let run = RunId(number as u16);
        write_run_summary(items, board, run, name, &mut out)?;
    }
    Ok(Reply::Page {
        text: Text::new(out),
    })
}

/// Appends the cells of a run by topic id, and its summary.
fn write_scores(
    alloc: Global,
    topics: &[AssessedTopic],
    board: &Board,
    run: RunId,
    name: &[u8],
    out: &mut Vec<u8>,
) -> Result<(), Memory>
    requires knows { (H : History) × (r : Run)
        × KnowsRun H (map facts_of topics.now) board.now run r }
    ensures { (H : History) (r : Run) → KnowsRun H (map facts_of topics.now) board.now run r
        → name.now ≡ r.name → OnOk result (out.new.items ≡ out.old.items ++ scores_page H r) }
{
    for number in &numbers_by_id(alloc, topics)? {
        write_topic_cell(topics, board, run, name, *number, out)?;
    }
    write_run_summary(topics, board, run, name, out)
}

/// Appends the cell of a run on the topic of this number, where the topic counts.
fn write_topic_cell(
    topics: &[AssessedTopic],
    board: &Board,
    run: RunId,
    name: &[u8],
    number: usize,
    out: &mut Vec<u8>,
) -> Result<(), Memory>
    requires knows { (H : History) × (r : Run)
        × KnowsRun H (map facts_of topics.now) board.now run r }
    requires within { number < length topics.now }
    ensures { (H : History) (r : Run) → KnowsRun H (map facts_of topics.now) board.now run r
        → name.now ≡ r.name → OnOk result
        (out.new.items ≡ out.old.items ++ cell_lines H r (get_or (topic_ids H) number [])) }
{
    // a document with a grade is on the trail
    graded_are_on_trail();
    graded_are_there();
    let topic = &topics[number];
    if !is_counted(topic) {
        return Ok(());
    }
    write_cell(name, topic.id(), board.cell(run, number as u16), out)?;
    Ok(())
}

/// Whether some document of a topic has an effective grade.
fn is_counted(topic: &AssessedTopic) -> bool
    ensures { (H : History) (names : List (List ℕ)) → IsTopicOf H names topic.now.facts
        → result ≡ counts H topic.now.facts.id }
{
    // the documents with a grade are those of the trail that have one
    graded_are_on_trail();
    let grades = topic.grades();
    let relevant = u64::from(grades.relevant());
    relevant + u64::from(grades.non_relevant()) > 0
}

/// Appends the summary of a run.
fn write_run_summary(
    topics: &[AssessedTopic],
    board: &Board,
    run: RunId,
    name: &[u8],
    out: &mut Vec<u8>,
) -> Result<(), Memory>
    ensures { (H : History) (r : Run) → KnowsRun H (map facts_of topics.now) board.now run r
        → name.now ≡ r.name → OnOk result (out.new.items ≡ out.old.items ++ summary_lines H r) }
{
    // a document with a grade is on the trail
    graded_are_on_trail();
    graded_are_there();
    write_summary(name, &board.summary(run), out)?;
    Ok(())
}
