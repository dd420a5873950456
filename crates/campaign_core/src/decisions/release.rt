//! Release: an assessor gives a leased document back without a grade.
ghost use Rattle.rulebook.specs.declared.ask.Command.TheVariants as command;
ghost use Rattle.campaign_core.specs.Commands.Decisions.{IsAskedFor, IsDecision};
ghost use Rattle.campaign_core.specs.Numbering.Numbers.{names_of};

use super::leases::lease_refusal;
use super::{Decision, is_in, wrong_phase};
use crate::campaign::Campaign;
use assessment::Change;
use rulebook::{EntryCore, Phase, Refusal, Reply};

pub(crate) fn release_decision(campaign: &Campaign, core: &EntryCore, number: u32) -> Decision
    requires { IsAskedFor campaign.now core.now (command.Release number) }
    ensures { IsDecision campaign.now (names_of campaign.now.history.items) core.now result }
{
    if !is_in(campaign, Phase::Judging) {
        return wrong_phase(campaign);
    }
    let Some(lease) = campaign.assessment.desk().find(number) else {
        return Decision::Refused(Refusal::UnknownLease);
    };
    if let Some(refusal) = lease_refusal(lease, &core.caller, core.moment) {
        return Decision::Refused(refusal);
    }
    Decision::Accepted(Reply::Done, Change::Release(number))
}
