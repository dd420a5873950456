//! Topics: the organiser gives the campaign its topics.
ghost use Rattle.std.specs.Prelude.{IfOk};
ghost use Rattle.rulebook.specs.declared.ask.Command.TheVariants as command;
ghost use Rattle.campaign_core.specs.Commands.Decisions.{IsAskedFor, IsDecision};
ghost use Rattle.campaign_core.specs.Numbering.Numbers.{names_of};

use super::{Decision, is_in, wrong_phase};
use crate::campaign::Campaign;
use crate::campaign::topics::topic_rules;
use assessment::{Change, Topics};
use decimal_rank::Memory;
use rulebook::{EntryCore, MAX_TOPICS, Phase, Quantity, Refusal, Reply};
use std::alloc::Global;
use trec_formats::Topic;

pub(crate) fn topics_decision(
    alloc: Global,
    campaign: &Campaign,
    core: &EntryCore,
    topics: &[Topic],
) -> Result<Decision, Memory>
    requires { IsAskedFor campaign.now core.now (command.Topics topics.now) }
    ensures { IfOk result (IsDecision campaign.now (names_of campaign.now.history.items) core.now) }
{
    if !is_in(campaign, Phase::Collecting) {
        return Ok(wrong_phase(campaign));
    }
    if campaign.has_topics() {
        return Ok(Decision::Refused(Refusal::TopicsFixed));
    }
    if topics.len() > MAX_TOPICS as usize {
        return Ok(Decision::Refused(Refusal::Limit {
            which: Quantity::Topics,
        }));
    }
    let rules = campaign.rules();
    let made = topic_rules(alloc, topics, rules)?;
    let numbered = Topics::new(alloc, made)?;
    let reply = Reply::Topics {
        topics: topics.len() as u32,
    };
    Ok(Decision::Accepted(reply, Change::Topics(numbered)))
}
