//! What a state lends of its topics and runs, by their numbers. It takes no memory.
ghost use Rattle.std.specs.Prelude.{◌≡◌, ◌<◌, ℕ, [], IsSome, IsTrue, List, MatchOption, Some, length, map};
ghost use Rattle.std.specs.Option.{IsSomeAnd, option_copied, option_map};
ghost use Rattle.rulebook.specs.Campaign.{level as level_of, need as need_of, numbered_runs, rules_of};
ghost use Rattle.rulebook.specs.Judgements.Grades.{labelled_documents, labels_on, trail};
ghost use Rattle.rulebook.specs.Words.{contains_text};
ghost use Rattle.campaign_core.specs.Views.Groups.{group_of};
ghost use Rattle.campaign_core.specs.CampaignStates.{IsKnown};
ghost use Rattle.campaign_core.specs.Views.LentTopics.{IsTopicAt, graded_on, topic_at};
ghost use Rattle.campaign_core.specs.Numbering.Numbers.{are_named, doc_in, docs_in, names_of};
ghost use Rattle.campaign_core.specs.Assessments.RunScores.{list_in, run_at};
ghost use Rattle.campaign_core.specs.Views.Tallies.{submitted_at};
ghost use Rattle.campaign_core.specs.Assessments.Topics.{pool_of, topic_ids};

use crate::campaign::Campaign;
use crate::state::State;
use assessment::AssessedTopic;
use decimal_rank::{DocId, Ranking};
use depth_pool::{Pool, RunId};
use labels::Labels;
use qrels_view::View;

impl State {
    /// The name of the group that submitted a run.
    pub fn group_of(&self, run: RunId) -> &[u8]
        requires { IsSome (submitted_at self.now.history run) }
        ensures { result.now ≡ group_of self.now.history run.0 }
    {
        let place = self.campaign.submissions[usize::from(run.0)].place;
        self.campaign.history[place as usize]
            .core
            .caller
            .name
            .bytes()
    }

    /// The live runs, by submission.
    pub fn live(&self) -> &[RunId]
        ensures { map (λ run. run.0) result.now
            ≡ map (λ run. run.0) (numbered_runs self.now.history) }
    {
        self.campaign.live.as_slice()
    }

    /// How many topics the campaign has: none before they are given.
    pub fn topics(&self) -> u16
        ensures { result ≡ length (topic_ids self.now.history) }
    {
        self.campaign.topics().len() as u16
    }

    /// The id of a topic, by its number from 0.
    pub fn topic_name(&self, topic: u16) -> &[u8]
        requires { topic < length (topic_ids self.now.history) }
        ensures { topic_at self.now.history topic ≡ Some result.now }
    {
        kept_topic(&self.campaign, topic).id()
    }

    /// How many labels a document of a topic needs.
    pub fn need(&self, topic: u16) -> u32
        requires { topic < length (topic_ids self.now.history) }
        ensures { option_map (need_of self.now.history) (topic_at self.now.history topic)
            ≡ Some result }
    {
        kept_topic(&self.campaign, topic).need()
    }

    /// The grade from which on a document of a topic is relevant.
    pub fn level(&self, topic: u16) -> u8
        requires { topic < length (topic_ids self.now.history) }
        ensures { option_map (level_of self.now.history) (topic_at self.now.history topic)
            ≡ Some result }
    {
        kept_topic(&self.campaign, topic).grades().level()
    }

    /// The ranked list of a run on a topic: None where the run isn't live, or has no list there.
    pub fn ranking(&self, run: RunId, topic: u16) -> Option<&Ranking>
        requires { topic < length (topic_ids self.now.history) }
        ensures { let H = self.now.history in
            option_copied result ≡ list_in (names_of H) (topic_ids H) (run_at H run) topic }
    {
        self.board().ranking(run, topic)
    }

    /// The live runs, with the documents that they hold on a topic.
    pub fn pool(&self, topic: u16) -> &Pool
        requires { topic < length (topic_ids self.now.history) }
        ensures runs { option_map (pool_of self.now.history) (topic_at self.now.history topic)
            ≡ Some result.now.runs }
        ensures depth { result.now.depth ≡ (rules_of self.now.history).depth }
    {
        kept_topic(&self.campaign, topic).pool()
    }

    /// The effective grades of a topic's documents, by the first ones.
    pub fn view(&self, topic: u16) -> &View
        requires { topic < length (topic_ids self.now.history) }
        ensures level { option_map (level_of self.now.history) (topic_at self.now.history topic)
            ≡ Some result.now.level }
        ensures graded { option_map (graded_on self.now.history) (topic_at self.now.history topic)
            ≡ Some result.now.graded }
        ensures named { let H = self.now.history in
            IsSomeAnd (topic_at H topic) (λ id. IsTrue (are_named (names_of H) (trail H id))) }
    {
        kept_topic(&self.campaign, topic).grades()
    }

    /// The documents of a topic that have a label, by their first ones.
    pub fn labelled(&self, topic: u16) -> &[DocId]
        requires { topic < length (topic_ids self.now.history) }
        ensures { let H = self.now.history in
            (id : List ℕ) → topic_at H topic ≡ Some id
            → result.now ≡ docs_in (names_of H) (labelled_documents H id) }
    {
        kept_topic(&self.campaign, topic).marks().docs()
    }

    /// The labels of a document on a topic: None exactly where nobody has a label there.
    pub fn labels(&self, topic: u16, doc: DocId) -> Option<&Labels>
        requires { topic < length (topic_ids self.now.history) }
        ensures { let H = self.now.history in
            (id d : List ℕ) → topic_at H topic ≡ Some id → IsTrue (contains_text (names_of H) d)
            → doc ≡ doc_in (names_of H) d → MatchOption result (labels_on H id d ≡ [])
            (λ labels. labels.now.given ≡ labels_on H id d) }
    {
        kept_topic(&self.campaign, topic).marks().labels(doc)
    }
}

/// The topic of a number.
fn kept_topic(campaign: &Campaign, topic: u16) -> &AssessedTopic
    requires known { IsKnown campaign.now }
    requires within { topic < length (topic_ids campaign.now.history.items) }
    ensures { IsTopicAt campaign.now.history.items topic result.now.facts }
{
    &campaign.topics()[topic as usize]
}
