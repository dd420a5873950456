//! Lease: an assessor asks for a document of a topic.
ghost use Rattle.std.specs.Prelude.{IfOk};
ghost use Rattle.rulebook.specs.declared.ask.Command.TheVariants as command;
ghost use Rattle.campaign_core.specs.Commands.Decisions.{IsAskedWith, IsDecision, IsNumberFor};

use super::leases::docno;
use super::{Decision, is_in, wrong_phase};
use crate::campaign::Campaign;
use crate::selection::named;
use assessment::{Change, Grant};
use decimal_rank::{Memory, Names, Text};
use mtf_queue::first_that_passes;
use rulebook::{EntryCore, Phase, Refusal, Reply};
use std::alloc::Global;

/// `number` is the topic's, from 0, if it is a topic.
pub(crate) fn lease_decision(
    alloc: Global,
    campaign: &Campaign,
    docnos: &Names,
    core: &EntryCore,
    topic: &Text,
    number: Option<usize>,
) -> Result<Decision, Memory>
    requires asked { IsAskedWith campaign.now docnos.now core.now (command.Lease topic.now) }
    requires number { IsNumberFor campaign.now (command.Lease topic.now) number }
    ensures { IfOk result (IsDecision campaign.now docnos.now core.now) }
{
    if !is_in(campaign, Phase::Judging) {
        return Ok(wrong_phase(campaign));
    }
    let topics = campaign.topics();
    let Some(number) = number else {
        return Ok(Decision::Refused(Refusal::UnknownTopic));
    };
    let desk = campaign.assessment.desk();
    let assessor = core.caller.name.bytes();
    let live = desk.live_of(assessor, core.moment);
    let rules = campaign.rules();
    if live >= u32::from(rules.hold) {
        return Ok(Decision::Refused(Refusal::TooMany { live }));
    }
    // the first run of the order that holds an open document is the first by the judging rule
    first_that_passes();
    let Some(doc) = named(&topics[number], number as u16, desk, assessor, core.moment) else {
        return Ok(Decision::Refused(Refusal::NothingLeft));
    };
    let until = core.moment + rules.term;
    let holder = core.caller.name.copy()?;
    let reply = Reply::Leased {
        lease: desk.len() + 1,
        topic: topic.copy()?,
        doc: docno(alloc, docnos, doc)?,
        until,
        title: Text::from_slice(alloc, campaign.title(number))?,
    };
    let grant = Grant {
        topic: number as u16,
        doc,
        assessor: holder,
        until,
    };
    Ok(Decision::Accepted(reply, Change::Lease(grant)))
}
