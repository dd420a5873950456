//! The page of the pool of a topic.
ghost use Rattle.std.specs.Prelude.{◌≡◌, map, IfOk};
ghost use Rattle.decimal_rank.specs.Names.{docno_of};
ghost use Rattle.assessment.specs.TopicFacts.{facts_of};
ghost use Rattle.rulebook.specs.Answers.{pool_outcome, reply_of};
ghost use Rattle.rulebook.specs.Campaign.{History};
ghost use Rattle.campaign_core.specs.CampaignStates.{HasPools};

use crate::campaign::topics::topic_of;
use assessment::AssessedTopic;
use decimal_rank::{DocId, Memory, Names, Rows, Text};
use depth_pool::one_list_by_docno;
use rulebook::{Refusal, Reply};
use std::alloc::Global;

/// The pool of a topic.
pub(crate) fn pool_reply(
    alloc: Global,
    topics: &[AssessedTopic],
    docnos: &Names,
    topic: Text,
) -> Result<Reply, Memory>
    requires stands { (H : History) × HasPools H (map facts_of topics.now) docnos.now }
    ensures { (H : History) → HasPools H (map facts_of topics.now) docnos.now
        → IfOk result (λ reply. reply ≡ reply_of (pool_outcome H topic)) }
{
    let Some(kept) = topic_of(topics, topic.bytes()) else {
        return Ok(Reply::Refused(Refusal::UnknownTopic));
    };
    // a list by docno is known by its documents
    one_list_by_docno();
    let docs = kept.pool().docs(docnos)?;
    Ok(Reply::Pool {
        topic,
        docs: texts(alloc, docnos, &docs)?,
    })
}

/// The docnos of documents.
fn texts(alloc: Global, docnos: &Names, docs: &[DocId]) -> Result<Rows<Text>, Memory>
    ensures { IfOk result (λ texts. texts ≡ map (λ doc. docno_of docnos.now doc.0) docs.now) }
{
    let mut texts = Vec::with_capacity(alloc, docs.len())?;
    for doc in docs {
        texts.push(Text::from_slice(alloc, docnos.name_or_empty(*doc))?)?;
    }
    Ok(Rows::new(texts))
}
