//! Queries: whether they are refused, and the page that is told.
ghost use Rattle.std.specs.Prelude.{◌≡◌, ◌==◌, ◌&&◌, IfOk, true};
ghost use Rattle.rulebook.specs.declared.rules.Phase.TheVariants.{Published};
ghost use Rattle.rulebook.specs.Answers.{query_outcome as told_of, reply_of};
ghost use Rattle.rulebook.specs.Requests.Refusals.{is_phase};
ghost use Rattle.assessment.specs.Changes.{facts};
ghost use Rattle.campaign_core.specs.CampaignStates.{IsKnownWith};

use crate::campaign::Campaign;
use crate::decisions::is_in;
use crate::pages::pools::pool_reply;
use crate::pages::score_pages::{scores_reply, table_reply};
use crate::pages::{Page, PageSource, page_reply};
use decimal_rank::{Memory, Names};
use qrels_view::DocnoOrder;
use rulebook::{Caller, Phase, Query, Refusal, Reply};
use std::alloc::Global;

/// Who asks at a moment, and of which campaign with its docnos.
#[derive(Drop)]
pub(crate) struct Inquiry<'a> {
    pub(crate) campaign: &'a Campaign,
    pub(crate) docnos: &'a Names,
    pub(crate) who: &'a Caller,
    pub(crate) moment: u64,
}

/// What a query is told. The orders are those in which the last pages left the documents with a
/// grade.
pub(crate) fn query_reply(
    alloc: Global,
    inquiry: &Inquiry,
    query: Query,
    orders: &mut Vec<DocnoOrder>,
) -> Result<Reply, Memory>
    requires known { IsKnownWith inquiry.now.docnos.now inquiry.now.campaign.now }
    requires on_board { (facts inquiry.now.campaign.now.assessment).on_board ≡ true }
    ensures { let asked = inquiry.now in
        IfOk result (λ reply. reply
        ≡ reply_of (told_of asked.campaign.now.history.items asked.who.now asked.moment query)) }
{
    let campaign = inquiry.campaign;
    let docnos = inquiry.docnos;
    let topics = campaign.topics();
    let desk = campaign.assessment.desk();
    let source = PageSource {
        topics,
        docnos,
        desk,
        moment: inquiry.moment,
    };
    match query {
        Query::Pool { topic } => pool_reply(alloc, topics, docnos, topic),
        Query::Scores { run } => scores_reply(alloc, campaign, inquiry.who, &run),
        Query::Table => table_reply(alloc, campaign),
        Query::Qrels => page_reply(alloc, Page::Qrels, &source, orders),
        Query::Disagreements => page_reply(alloc, Page::Disagreements, &source, orders),
        Query::Progress => page_reply(alloc, Page::Progress, &source, orders),
        Query::ReleaseQrels { release } => {
            if !is_released(campaign, release) {
                return Ok(Reply::Refused(Refusal::UnknownRelease));
            }
            page_reply(alloc, Page::Qrels, &source, orders)
        }
        Query::ReleaseScores { release } => {
            if !is_released(campaign, release) {
                return Ok(Reply::Refused(Refusal::UnknownRelease));
            }
            table_reply(alloc, campaign)
        }
    }
}

/// Whether there is a release of this number.
fn is_released(campaign: &Campaign, release: u32) -> bool
    ensures { result ≡ (is_phase Published campaign.now.phase && release == 1) }
{
    is_in(campaign, Phase::Published) && release == 1
}
