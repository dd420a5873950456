//! Amend: an assessor gives a document another grade.
ghost use Rattle.std.specs.Prelude.{IfOk};
ghost use Rattle.rulebook.specs.declared.ask.Command.TheVariants as command;
ghost use Rattle.campaign_core.specs.Commands.Decisions.{IsAskedWith, IsDecision};

use super::Decision;
use super::documents::graded_place;
use crate::campaign::Campaign;
use assessment::{Change, Label};
use decimal_rank::{Memory, Names, Text};
use rulebook::{EntryCore, Reply};

pub(crate) fn amend_decision(
    campaign: &Campaign,
    docnos: &Names,
    core: &EntryCore,
    topic: &Text,
    doc: &Text,
    grade: u8,
) -> Result<Decision, Memory>
    requires { IsAskedWith campaign.now docnos.now core.now
        (command.Amend topic.now doc.now grade) }
    ensures { IfOk result (IsDecision campaign.now docnos.now core.now) }
{
    match graded_place(campaign, docnos, Some(&core.caller.name), topic, doc, grade) {
        Ok((topic, doc)) => {
            let label = Label {
                topic,
                doc,
                assessor: core.caller.name.copy()?,
                grade,
            };
            Ok(Decision::Accepted(Reply::Done, Change::Amend(label)))
        }
        Err(refusal) => Ok(Decision::Refused(refusal)),
    }
}
