//! Withdraw: a group, or the organiser, takes a run back.
ghost use Rattle.rulebook.specs.declared.ask.Command.TheVariants as command;
ghost use Rattle.campaign_core.specs.Commands.Decisions.{IsAskedFor, IsDecision};
ghost use Rattle.campaign_core.specs.Numbering.Numbers.{names_of};

use super::{Decision, is_in, wrong_phase};
use crate::campaign::Campaign;
use crate::campaign::submissions::run_asked;
use assessment::Change;
use decimal_rank::Text;
use depth_pool::RunId;
use rulebook::{EntryCore, Phase, Reply};

pub(crate) fn withdraw_decision(campaign: &Campaign, core: &EntryCore, run: &Text) -> Decision
    requires { IsAskedFor campaign.now core.now (command.Withdraw run.now) }
    ensures { IsDecision campaign.now (names_of campaign.now.history.items) core.now result }
{
    if is_in(campaign, Phase::Published) {
        return wrong_phase(campaign);
    }
    match run_asked(&campaign.history, &campaign.submissions, &core.caller, run) {
        Ok(number) => Decision::Accepted(Reply::Done, Change::Withdraw(RunId(number as u16))),
        Err(refusal) => Decision::Refused(refusal),
    }
}
