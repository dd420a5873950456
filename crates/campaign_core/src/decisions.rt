//! What a command comes to, decided once, by reading alone: the first refusal that holds, or the
//! reply with the change that carries the entry out. A file a command.
//!
//! # A lease, and its grade
//!
//! Of a lease `decisions/lease.rt` refuses by the phase, the topic's number, `Desk::live_of`
//! against the hold, and `selection::named`. The reply is the next number, the docno, the moment
//! plus the term, and the title; the change is `Change::Lease`, for which the desk has room, and
//! the commit `Desk::grant`.
//!
//! Of a grade `decisions/grade.rt` refuses by the phase, `Desk::find`, whose lease it is, its end,
//! its moment, and the greatest grade. The reply is the topic, the docno and the grade; the change
//! is `Change::Grade`, for which the topic's labels, grades and queue have room, and the commit
//! `Topics::mark` and `Desk::end`.
ghost use Rattle.std.specs.Prelude.{◌≡◌, IfOk};
ghost use Rattle.rulebook.specs.Requests.Refusals.{is_phase};
ghost use Rattle.campaign_core.specs.Commands.Decisions.{IsAskedWith, IsDecision, IsNumberFor, KeepsLimits};
ghost use Rattle.campaign_core.specs.Growth.{BeginsWith};

mod amend;
mod documents;
mod grade;
mod lease;
mod leases;
mod phases;
mod release;
mod rule;
mod submit;
mod topics;
mod withdraw;

use crate::campaign::Campaign;
use amend::amend_decision;
use assessment::Change;
use decimal_rank::{Memory, Names};
use grade::grade_decision;
use lease::lease_decision;
use phases::{open_decision, publish_decision};
use release::release_decision;
use rule::rule_decision;
use rulebook::{Command, EntryCore, Phase, Refusal, Reply};
use std::alloc::Global;
use submit::submit_decision;
use topics::topics_decision;
use withdraw::withdraw_decision;

/// What a command comes to.
#[derive(Drop)]
pub(crate) enum Decision {
    /// The first refusal that holds.
    Refused(Refusal),
    /// The reply, and what the entry changes of what is known by numbers.
    Accepted(Reply, Change),
}

/// What a command comes to, by the number of the topic on which a lease is asked for. The docnos of
/// a run that is accepted are added to those of the history; others may be added where it is
/// refused.
pub(crate) fn decide(
    alloc: Global,
    campaign: &Campaign,
    docnos: &mut Names,
    core: &EntryCore,
    topic: Option<usize>,
) -> Result<Decision, Memory>
    requires asked { IsAskedWith campaign.now docnos.old core.now core.now.command }
    requires topic { IsNumberFor campaign.now core.now.command topic }
    ensures decision { IfOk result (IsDecision campaign.now docnos.new core.now) }
    ensures limits { IfOk result
        (KeepsLimits campaign.now.history.items docnos.new core.now.command) }
    ensures grown { BeginsWith docnos.old docnos.new }
{
    match &core.command {
        Command::Found { .. } => Ok(wrong_phase(campaign)),
        Command::Topics { topics } => topics_decision(alloc, campaign, core, topics.items()),
        Command::Submit { run, lists } => {
            submit_decision(alloc, campaign, docnos, core, run, lists.items())
        }
        Command::Open => Ok(open_decision(campaign, core)),
        Command::Lease { topic: id } => lease_decision(alloc, campaign, docnos, core, id, topic),
        Command::Grade { lease, grade } => {
            grade_decision(alloc, campaign, docnos, core, *lease, *grade)
        }
        Command::Release { lease } => Ok(release_decision(campaign, core, *lease)),
        Command::Amend { topic, doc, grade } => {
            amend_decision(campaign, docnos, core, topic, doc, *grade)
        }
        Command::Rule { topic, doc, grade } => {
            Ok(rule_decision(campaign, docnos, core, topic, doc, *grade))
        }
        Command::Withdraw { run } => Ok(withdraw_decision(campaign, core, run)),
        Command::Publish => Ok(publish_decision(campaign, core)),
    }
}

/// The refusal of a command that may not come in the phase.
fn wrong_phase(campaign: &Campaign) -> Decision
    ensures { result ≡ Decision.Refused (Refusal.WrongPhase campaign.now.phase) }
{
    Decision::Refused(Refusal::WrongPhase {
        phase: campaign.phase,
    })
}

/// Whether a campaign is in this phase.
pub(crate) fn is_in(campaign: &Campaign, wanted: Phase) -> bool
    ensures { result ≡ is_phase wanted campaign.now.phase }
{
    match wanted {
        Phase::Collecting => matches!(campaign.phase, Phase::Collecting),
        Phase::Judging => matches!(campaign.phase, Phase::Judging),
        Phase::Published => matches!(campaign.phase, Phase::Published),
    }
}
