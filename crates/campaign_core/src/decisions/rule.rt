//! Rule: the organiser settles the grade of a document.
ghost use Rattle.rulebook.specs.declared.ask.Command.TheVariants as command;
ghost use Rattle.campaign_core.specs.Commands.Decisions.{IsAskedWith, IsDecision};

use super::Decision;
use super::documents::graded_place;
use crate::campaign::Campaign;
use assessment::{Change, Ruling};
use decimal_rank::{Names, Text};
use rulebook::{EntryCore, Reply};

pub(crate) fn rule_decision(
    campaign: &Campaign,
    docnos: &Names,
    core: &EntryCore,
    topic: &Text,
    doc: &Text,
    grade: u8,
) -> Decision
    requires { IsAskedWith campaign.now docnos.now core.now (command.Rule topic.now doc.now grade) }
    ensures { IsDecision campaign.now docnos.now core.now result }
{
    match graded_place(campaign, docnos, None, topic, doc, grade) {
        Ok((topic, doc)) => {
            let ruling = Ruling { topic, doc, grade };
            Decision::Accepted(Reply::Done, Change::Rule(ruling))
        }
        Err(refusal) => Decision::Refused(refusal),
    }
}
