//! Open and Publish: the organiser begins the judging, and ends it.
ghost use Rattle.rulebook.specs.declared.ask.Command.TheVariants as command;
ghost use Rattle.campaign_core.specs.Commands.Decisions.{IsAskedFor, IsDecision};
ghost use Rattle.campaign_core.specs.Numbering.Numbers.{names_of};

use super::{Decision, is_in, wrong_phase};
use crate::campaign::Campaign;
use assessment::Change;
use rulebook::{EntryCore, Phase, Reply};

pub(crate) fn open_decision(campaign: &Campaign, core: &EntryCore) -> Decision
    requires { IsAskedFor campaign.now core.now command.Open }
    ensures { IsDecision campaign.now (names_of campaign.now.history.items) core.now result }
{
    if is_in(campaign, Phase::Collecting) {
        Decision::Accepted(Reply::Done, Change::Nothing)
    } else {
        wrong_phase(campaign)
    }
}

pub(crate) fn publish_decision(campaign: &Campaign, core: &EntryCore) -> Decision
    requires { IsAskedFor campaign.now core.now command.Publish }
    ensures { IsDecision campaign.now (names_of campaign.now.history.items) core.now result }
{
    if is_in(campaign, Phase::Judging) {
        Decision::Accepted(Reply::Done, Change::Nothing)
    } else {
        wrong_phase(campaign)
    }
}
