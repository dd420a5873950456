//! What the commands on a document with labels share: the place that a grade is given to.
ghost use Rattle.std.specs.Prelude.{◌≡◌, IfOk, IfSome, is_some, option_map};
ghost use Rattle.rulebook.specs.Campaign.{History};
ghost use Rattle.campaign_core.specs.Commands.Changes.{IsPlacedAt};
ghost use Rattle.campaign_core.specs.CampaignStates.{IsKnownWith};
ghost use Rattle.campaign_core.specs.Assessments.TopicLabelling.{IsLabelled, doc_outcome, is_labelled_for, ruling_on};
ghost use Rattle.campaign_core.specs.Numbering.Numbers.{IsNumberOf};
ghost use Rattle.campaign_core.specs.Assessments.Topics.{labelled_of, topic_ids};

use super::is_in;
use crate::campaign::Campaign;
use crate::campaign::topics::topic_number;
use assessment::AssessedTopic;
use decimal_rank::{DocId, Names, Text};
use rulebook::{Phase, Refusal};

/// The numbers of the topic and of the document that get a grade, or why they may not. The assessor
/// must have a label on the document; where none is named, some assessor must.
pub(crate) fn graded_place(
    campaign: &Campaign,
    docnos: &Names,
    assessor: Option<&Text>,
    topic: &Text,
    doc: &Text,
    grade: u8,
) -> Result<(u16, DocId), Refusal>
    requires { IsKnownWith docnos.now campaign.now }
    ensures ruling { let H = campaign.now.history.items in
        let labelled = is_labelled_for H topic.now doc.now
        (option_map (λ name. name.now) assessor.entry) in
        ruling_on result ≡ doc_outcome H topic.now labelled grade }
    ensures place { IfOk result (λ place. IsPlacedAt
        (topic_ids campaign.now.history.items) docnos.now topic.now doc.now place.0 place.1) }
{
    if !is_in(campaign, Phase::Judging) {
        return Err(Refusal::WrongPhase {
            phase: campaign.phase,
        });
    }
    let topics = campaign.topics();
    let Some(number) = topic_number(topics, topic.bytes()) else {
        return Err(Refusal::UnknownTopic);
    };
    let Some(place) = labelled(&topics[number], docnos, assessor, doc) else {
        return Err(Refusal::NotLabelled);
    };
    if grade > campaign.rules().top_grade {
        return Err(Refusal::GradeRange);
    }
    Ok((number as u16, place))
}

/// The number of the document of this docno, where the assessor has a label on it; where none is
/// named, where some assessor has.
fn labelled(
    topic: &AssessedTopic,
    docnos: &Names,
    assessor: Option<&Text>,
    doc: &Text,
) -> Option<DocId>
    ensures labelled { (H : History) → IsLabelled H docnos.now (labelled_of topic.now.facts)
        → is_some result ≡ is_labelled_for H topic.now.facts.id doc.now
        (option_map (λ name. name.now) assessor.entry) }
    ensures number { IfSome result (IsNumberOf docnos.now doc.now) }
{
    let number = docnos.find(doc.bytes())?;
    let marks = topic.marks();
    match assessor {
        Some(name) => {
            if marks.has_label(name.bytes(), number) {
                Some(number)
            } else {
                None
            }
        }
        None => {
            if marks.count(number) > 0 {
                Some(number)
            } else {
                None
            }
        }
    }
}
