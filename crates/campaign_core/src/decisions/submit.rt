//! Submit: a group hands in a run.
ghost use Rattle.std.specs.Prelude.{◌≡◌, IfOk};
ghost use Rattle.rulebook.specs.declared.ask.Command.TheVariants as command;
ghost use Rattle.campaign_core.specs.Commands.Decisions.{IsAskedWith, IsDecision, KeepsLimits};
ghost use Rattle.campaign_core.specs.Growth.{BeginsWith};

use super::{Decision, is_in, wrong_phase};
use crate::campaign::Campaign;
use crate::campaign::docnos::add_docnos;
use crate::campaign::submissions::{line_count, run_number};
use crate::campaign::topics::rankings_of;
use assessment::Change;
use decimal_rank::{Memory, Names, Text};
use depth_pool::RunId;
use rulebook::{EntryCore, MAX_DOCNOS, MAX_LINES, MAX_RUNS, Phase, Quantity, Refusal, Reply};
use std::alloc::Global;
use trec_formats::TopicList;

/// The docnos of the run are added to those of the history.
pub(crate) fn submit_decision(
    alloc: Global,
    campaign: &Campaign,
    docnos: &mut Names,
    core: &EntryCore,
    run: &Text,
    lists: &[TopicList],
) -> Result<Decision, Memory>
    requires { IsAskedWith campaign.now docnos.old core.now (command.Submit run.now lists.now) }
    ensures decision { IfOk result (IsDecision campaign.now docnos.new core.now) }
    ensures limits { IfOk result
        (KeepsLimits campaign.now.history.items docnos.new core.now.command) }
    ensures grown { BeginsWith docnos.old docnos.new }
{
    if is_in(campaign, Phase::Published) {
        return Ok(wrong_phase(campaign));
    }
    if run_number(&campaign.history, &campaign.submissions, run.bytes()).is_some() {
        return Ok(Decision::Refused(Refusal::TagTaken));
    }
    if let Some(line) = campaign.unknown_line(lists) {
        return Ok(Decision::Refused(Refusal::LineTopic { line }));
    }
    if campaign.submissions.len() >= MAX_RUNS as usize {
        return Ok(limit(Quantity::Runs));
    }
    let lines = line_count(lists);
    if campaign.lines + lines > u64::from(MAX_LINES) {
        return Ok(limit(Quantity::Lines));
    }
    let numbers = add_docnos(alloc, docnos, lists)?;
    if docnos.len() > MAX_DOCNOS {
        return Ok(limit(Quantity::Docnos));
    }
    let name = run.copy()?;
    let number = RunId(campaign.submissions.len() as u16);
    let rankings = rankings_of(alloc, campaign.topics(), lists, &numbers)?;
    let reply = Reply::Submitted {
        run: name,
        topics: lists.len() as u32,
        lines: lines as u32,
    };
    Ok(Decision::Accepted(reply, Change::Run(number, rankings)))
}

fn limit(which: Quantity) -> Decision
    ensures { result ≡ Decision.Refused (Refusal.Limit which) }
{
    Decision::Refused(Refusal::Limit { which })
}
