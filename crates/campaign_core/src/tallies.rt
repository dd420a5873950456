//! How the judgements and the runs of a campaign stand, from the counts that are kept.
ghost use Rattle.std.specs.Prelude.{◌≡◌, ◌≤◌, ◌^◌, ◌||◌, ℕ, List, Some, is_none, length, map, nat_lt, true};
ghost use Rattle.assessment.specs.Changes.{facts};
ghost use Rattle.assessment.specs.TopicFacts.{facts_of};
ghost use Rattle.lease_desk.specs.declared.leases.Lease.{Lease};
ghost use Rattle.rulebook.specs.Campaign.{History, Run};
ghost use Rattle.rulebook.specs.Judgements.Grades.{non_relevant_count, relevant_count};
ghost use Rattle.rulebook.specs.Requests.Limits.{max_topics};
ghost use Rattle.campaign_core.specs.CampaignStates.{IsKnown, KnowsAll, KnowsRun};
ghost use Rattle.campaign_core.specs.Views.PrintedPages.{IsTopicOf};
ghost use Rattle.campaign_core.specs.Views.Tallies.{IsBest, IsTally, judged_in, map_of, relevant_in_all};

use crate::campaign::Campaign;
use assessment::AssessedTopic;
use depth_pool::RunId;
use rulebook::{graded_are_on_trail, graded_are_there};
use score_index::Board;

/// How the judgements and the runs stand. `judged` is how many documents have an effective grade,
/// and `relevant` how many are relevant, over all topics. `best` is the live run with the greatest
/// mean average precision, the earliest submitted of several, and `map` is that mean in units of
/// 10^-15, or 0 where no run is live.
#[derive(Clone, Copy, Debug, PartialEq, Eq)]
pub struct Tally {
    pub judged: u64,
    pub relevant: u64,
    pub best: Option<RunId>,
    pub map: u64,
}

/// The counts are those that the topics keep, and each live run is looked at once.
pub(crate) fn tally_of(campaign: &Campaign) -> Tally
    requires known { IsKnown campaign.now }
    requires on_board { (facts campaign.now.assessment).on_board ≡ true }
    ensures { IsTally campaign.now.history.items result }
{
    let (relevant, judged) = judgements(campaign.topics());
    let (best, map) = best_of(campaign);
    Tally {
        judged,
        relevant,
        best,
        map,
    }
}

/// How many documents of all topics are relevant, and how many have an effective grade.
fn judgements(topics: &[AssessedTopic]) -> (u64, u64)
    requires { length topics.now ≤ max_topics }
    ensures { (H : History) (desk : List Lease) → KnowsAll H (map facts_of topics.now) desk
        → (result.0 ≡ relevant_in_all H) × (result.1 ≡ judged_in H) }
{
    let mut relevant = 0;
    let mut judged = 0;
    for topic in topics {
        let (more, lower) = counts_of(topic);
        relevant += u64::from(more);
        judged += u64::from(more) + u64::from(lower);
    }
    (relevant, judged)
}

/// How many documents of a topic are relevant, and how many have a lower effective grade.
fn counts_of(topic: &AssessedTopic) -> (u32, u32)
    ensures { (H : History) (names : List (List ℕ)) → IsTopicOf H names topic.now.facts
        → (result.0 ≡ relevant_count H topic.now.facts.id)
        × (result.1 ≡ non_relevant_count H topic.now.facts.id) }
{
    // the documents with a grade are those of the trail that have one
    graded_are_on_trail();
    let grades = topic.grades();
    (grades.relevant(), grades.non_relevant())
}

/// The live run with the greatest mean average precision, the earliest submitted of several, and
/// that mean.
fn best_of(campaign: &Campaign) -> (Option<RunId>, u64)
    requires known { IsKnown campaign.now }
    requires on_board { (facts campaign.now.assessment).on_board ≡ true }
    ensures { IsBest campaign.now.history.items result.0 result.1 }
{
    let topics = campaign.assessment.topics();
    let items = topics.items();
    let board = topics.board();
    let mut best = None;
    let mut greatest = 0;
    for (number, submission) in campaign.submissions.iter().enumerate() {
        let is_withdrawn = submission.is_withdrawn;
        if is_withdrawn {
            continue;
        }
        let run = RunId(number as u16);
        let value = map_of(items, board, run);
        let better = is_better(best, greatest, value);
        if better {
            best = Some(run);
            greatest = value;
        }
    }
    (best, greatest)
}

/// Whether a run with this value comes in place of the best one so far, which has the greatest.
fn is_better(best: Option<RunId>, greatest: u64, value: u64) -> bool
    ensures { result ≡ (is_none best || nat_lt greatest value) }
{
    best.is_none() || greatest < value
}

/// The mean average precision of a run.
fn map_of(topics: &[AssessedTopic], board: &Board, run: RunId) -> u64
    ensures map { (H : History) (r : Run) → KnowsRun H (map facts_of topics.now) board.now run r
        → result ≡ map_of H r }
    ensures fits { result ≤ 10 ^ 15 }
{
    // a document with a grade is on the trail
    graded_are_on_trail();
    graded_are_there();
    board.summary(run).map
}
