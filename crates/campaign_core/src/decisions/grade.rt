//! Grade: an assessor grades a leased document.
ghost use Rattle.std.specs.Prelude.{IfOk};
ghost use Rattle.rulebook.specs.declared.ask.Command.TheVariants as command;
ghost use Rattle.campaign_core.specs.Commands.Decisions.{IsAskedWith, IsDecision};

use super::leases::{docno, lease_refusal};
use super::{Decision, is_in, wrong_phase};
use crate::campaign::Campaign;
use assessment::{Change, Label};
use decimal_rank::{Memory, Names, Text};
use rulebook::{EntryCore, Phase, Refusal, Reply};
use std::alloc::Global;

pub(crate) fn grade_decision(
    alloc: Global,
    campaign: &Campaign,
    docnos: &Names,
    core: &EntryCore,
    number: u32,
    grade: u8,
) -> Result<Decision, Memory>
    requires { IsAskedWith campaign.now docnos.now core.now (command.Grade number grade) }
    ensures { IfOk result (IsDecision campaign.now docnos.now core.now) }
{
    if !is_in(campaign, Phase::Judging) {
        return Ok(wrong_phase(campaign));
    }
    let Some(lease) = campaign.assessment.desk().find(number) else {
        return Ok(Decision::Refused(Refusal::UnknownLease));
    };
    if let Some(refusal) = lease_refusal(lease, &core.caller, core.moment) {
        return Ok(Decision::Refused(refusal));
    }
    if grade > campaign.rules().top_grade {
        return Ok(Decision::Refused(Refusal::GradeRange));
    }
    let topics = campaign.topics();
    let assessor = core.caller.name.copy()?;
    let reply = Reply::Graded {
        topic: Text::from_slice(alloc, topics[lease.topic as usize].id())?,
        doc: docno(alloc, docnos, lease.doc)?,
        grade,
    };
    let label = Label {
        topic: lease.topic,
        doc: lease.doc,
        assessor,
        grade,
    };
    Ok(Decision::Accepted(reply, Change::Grade(number, label)))
}
