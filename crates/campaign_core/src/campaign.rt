//! A campaign: its history, and what is known of it by numbers. An accepted entry has room made for
//! its change first, and joins the history with its change then.
ghost use Rattle.std.specs.Prelude.{◌≡◌, ◌+◌, ◌≤◌, ◌++◌, ◌∷◌, ◌↔◌, [], IfOk, IsTrue, List, None, OnErr, OnOk, Some, map, true, ℕ};
ghost use Rattle.std.specs.List.{list_any};
ghost use Rattle.std.specs.Str.{bytes_eq};
ghost use Rattle.assessment.specs.Changes.{Fits, facts};
ghost use Rattle.assessment.specs.TopicsFacts.{new_topics};
ghost use Rattle.depth_pool.specs.declared.runs.RunId.{RunId};
ghost use Rattle.rulebook.specs.declared.entry.Entry.{Entry};
ghost use Rattle.rulebook.specs.Answers.{moment_after, unknown_line};
ghost use Rattle.rulebook.specs.Campaign.{has_topics, opens, publishes, rules_of, title, topics as topics_of};
ghost use Rattle.rulebook.specs.Histories.Legal.{founding};
ghost use Rattle.rulebook.specs.Spelling.{are_rules};
ghost use Rattle.campaign_core.specs.Commands.Changes.{phase_after};
ghost use Rattle.campaign_core.specs.Commands.Costs.{commit_steps};
ghost use Rattle.campaign_core.specs.Commands.Decisions.{IsNumberFor};
ghost use Rattle.campaign_core.specs.CampaignStates.{AwaitsChange, IsKnown, IsReady, IsUnchanged};
ghost use Rattle.campaign_core.specs.Assessments.DeskLeases.{topic_in};
ghost use Rattle.campaign_core.specs.Numbering.Submissions.{IsWithdrawnBy};
ghost use Rattle.campaign_core.specs.Assessments.Topics.{topic_ids};

pub(crate) mod docnos;
pub(crate) mod submissions;
pub(crate) mod topics;

use crate::campaign::submissions::{Submission, line_count, lists_of, note_run};
use crate::campaign::topics::topic_number;
use assessment::{AssessedTopic, Assessment, Change};
use decimal_rank::{Memory, Steps};
use depth_pool::{RunId, greatest_run_goes_last};
use labels::{marks_follow_labels, marks_follow_rulings};
use rulebook::{
    Command, Entry, EntryCore, Phase, Reply, Rules, ends_are_there, founding_core, labels_join,
    leases_are_entries, quiet_entries_keep_grades, rulings_join,
};
use std::alloc::Global;
use std::sync::ledger::Ledger;
use trec_formats::{Topic as GivenTopic, TopicList};

/// The accepted entries, and what is known of them.
#[derive(Drop)]
pub(crate) struct Campaign {
    pub(crate) history: Vec<Entry>,
    pub(crate) phase: Phase,
    /// The topics, the runs' lists and the leases, and the change of the entry that is prepared.
    pub(crate) assessment: Assessment,
    /// The entries that submit runs, by submission.
    pub(crate) submissions: Vec<Submission>,
    /// The live runs, by submission.
    pub(crate) live: Vec<RunId>,
    /// How many lines the runs have that were ever submitted.
    pub(crate) lines: u64,
}

impl Campaign {
    /// A campaign of these rules, with its founding entry alone and an assessment before any topic.
    pub(crate) fn found(
        alloc: Global,
        rules: Rules,
        assessment: Assessment,
    ) -> Result<Campaign, Memory>
        requires rules { IsTrue (are_rules rules) }
        requires no_topics { (facts assessment).topics ≡ new_topics [] }
        requires no_leases { (facts assessment).leases ≡ [] }
        ensures history { IfOk result (λ campaign. campaign.history.items ≡ founding rules ∷ []) }
        ensures known { IfOk result IsKnown }
        ensures assessment { IfOk result (λ campaign. campaign.assessment ≡ assessment) }
    {
        let core = founding_core(alloc, rules)?;
        let mut history = Vec::new(alloc);
        history.push(Entry {
            core,
            reply: Reply::Done,
        })?;
        Ok(Campaign {
            history,
            phase: Phase::Collecting,
            assessment,
            submissions: Vec::new(alloc),
            live: Vec::new(alloc),
            lines: 0,
        })
    }

    /// Puts the runs' lists on the board that wait for the end of a replay.
    pub(crate) fn with_lists(self, alloc: Global) -> Result<Campaign, Memory>
        requires known { IsKnown self }
        requires idle { self.assessment.pending ≡ None }
        ensures history { IfOk result (λ campaign. campaign.history.items ≡ self.history.items) }
        ensures known { IfOk result IsKnown }
        ensures on_board { IfOk result (λ campaign. (facts campaign.assessment).on_board ≡ true) }
        ensures idle { IfOk result (λ campaign. campaign.assessment.pending ≡ None) }
    {
        let Campaign {
            history,
            phase,
            assessment,
            submissions,
            live,
            lines,
        } = self;
        Ok(Campaign {
            history,
            phase,
            assessment: assessment.with_lists(alloc)?,
            submissions,
            live,
            lines,
        })
    }

    /// The rules, which the first entry has.
    pub(crate) fn rules(&self) -> &Rules
        requires { IsKnown self.now }
        ensures { result.now ≡ rules_of self.now.history.items }
    {
        let Command::Found { rules } = &self.history[0].core.command else {
            unreachable!()
        };
        rules
    }

    /// Whether the campaign has its topics.
    pub(crate) fn has_topics(&self) -> bool
        ensures { result ≡ has_topics self.now.history.items }
    {
        self.history.iter().any(|entry| matches!(entry.core.command, Command::Topics { .. }))
    }

    /// The title of a topic of the campaign, by its number from 0: empty where there is none.
    pub(crate) fn title(&self, number: usize) -> &[u8]
        ensures { (id : List ℕ) → number ≡ topic_in (topic_ids self.now.history.items) id
            → result.now ≡ title self.now.history.items id }
    {
        match given_topics(&self.history).get(number) {
            Some(topic) => topic.title.bytes(),
            None => &[],
        }
    }

    /// The least line of a list whose topic isn't a topic of the campaign.
    pub(crate) fn unknown_line(&self, lists: &[TopicList]) -> Option<u32>
        ensures { result ≡ unknown_line self.now.history.items lists.now }
    {
        let topics = given_topics(&self.history);
        lists
            .iter()
            .filter(|list| !has_topic(topics, list.topic.bytes()))
            .map(|list| list.line)
            .min()
    }

    /// The greater of the moment that was handed in and that of the last entry.
    pub(crate) fn moment_after(&self, moment: u64) -> u64
        ensures { result ≡ moment_after self.now.history.items moment }
    {
        match self.history.last() {
            Some(entry) => moment.max(entry.core.moment),
            None => moment,
        }
    }

    /// The topics by number, from 0.
    pub(crate) fn topics(&self) -> &[AssessedTopic]
        ensures { result.now ≡ self.now.assessment.topics.topics }
    {
        self.assessment.topics().items()
    }

    /// Where a lease is asked for: leads on, past documents that the assessor isn't given any more,
    /// where the next one is looked for, and gives the number of its topic, from 0. Nothing that is
    /// known changes.
    pub(crate) fn lead_fronts(&mut self, core: &EntryCore) -> Result<Option<usize>, Memory>
        ensures unchanged { self.new ≡ self.old }
        ensures number { IfOk result (IsNumberFor self.old core.now.command) }
    {
        let Command::Lease { topic } = &core.command else {
            return Ok(None);
        };
        let Some(number) = topic_number(self.topics(), topic.bytes()) else {
            return Ok(None);
        };
        self.assessment
            .lead_fronts(number, core.caller.name.bytes())?;
        Ok(Some(number))
    }

    /// Makes room for a change, for the entry that it carries out, and for a run. The change is
    /// then pending.
    pub(crate) fn reserve(&mut self, change: Change) -> Result<(), Memory>
        requires fits { Fits change (facts self.old.assessment) }
        requires idle { self.old.assessment.pending ≡ None }
        ensures unchanged { IsUnchanged self.old self.new }
        ensures room { OnOk result (AwaitsChange self.new change) }
        ensures err { OnErr result (self.new.assessment.pending ≡ None) }
    {
        self.history.reserve(1)?;
        self.submissions.reserve(1)?;
        self.live.reserve(1)?;
        self.assessment.reserve(change)
    }

    /// Adds an entry for which there is room, and makes its change. A step is a node of a tree, an
    /// entry of a ranked list that is read, or a look into a pool.
    pub(crate) fn commit<L: Ledger>(&mut self, entry: Entry, steps: &mut Steps<L>)
        requires known { IsKnown self.old }
        requires ready { IsReady self.old entry }
        ensures history { self.new.history.items ≡ self.old.history.items ++ entry ∷ [] }
        ensures known { IsKnown self.new }
        ensures idle { self.new.assessment.pending ≡ None }
        ensures on_board { (facts self.new.assessment).on_board
            ≡ (facts self.old.assessment).on_board }
        ensures cost { steps.new
            ≤ steps.old + commit_steps self.old.history.items entry.core.command }
    {
        let withdrawn = self.withdrawn();
        self.phase = phase_after(&entry.core.command, self.phase);
        self.lines += line_count(lists_of(&entry.core.command));
        note_run(
            &self.history,
            &mut self.submissions,
            &mut self.live,
            &entry,
            withdrawn,
        );
        self.history.push_reserved(entry);
        // a run of the greatest number stands last in a pool, an entry changes the grades of one
        // document at most, and a lease has its place's number, and an end where an entry ended it
        greatest_run_goes_last();
        quiet_entries_keep_grades();
        labels_join();
        marks_follow_labels();
        rulings_join();
        marks_follow_rulings();
        leases_are_entries();
        ends_are_there();
        self.assessment.commit(steps);
    }

    /// The run that is withdrawn by the entry whose change is pending.
    fn withdrawn(&self) -> Option<RunId>
        ensures { (e : Entry) → IsReady self.now e → IsWithdrawnBy self.now.history.items e result }
    {
        match self.assessment.pending() {
            Some(change) => withdrawn_by(change),
            None => None,
        }
    }
}

/// The run that a change withdraws.
fn withdrawn_by(change: &Change) -> Option<RunId>
    ensures { (run : RunId) → (result ≡ Some run) ↔ (change.now ≡ Change.Withdraw run) }
{
    let Change::Withdraw(run) = change else {
        return None;
    };
    Some(*run)
}

/// The campaign's topics as they were given: none before it has them.
fn given_topics(history: &[Entry]) -> &[GivenTopic]
    ensures { result.now ≡ topics_of history.now }
{
    for entry in history {
        if let Command::Topics { topics } = &entry.core.command {
            return topics.items();
        }
    }
    &[]
}

/// Whether a topic of this id is among the topics.
fn has_topic(topics: &[GivenTopic], id: &[u8]) -> bool
    ensures { result ≡ list_any (λ t. bytes_eq t.id id.now) topics.now }
{
    topics.iter().any(|topic| topic.id.bytes() == id)
}

/// The phase after a command.
fn phase_after(command: &Command, phase: Phase) -> Phase
    ensures { result ≡ phase_after command.now phase }
{
    if publishes(command) {
        return Phase::Published;
    }
    if opens(command) {
        return Phase::Judging;
    }
    phase
}

fn publishes(command: &Command) -> bool
    ensures { result ≡ publishes command.now }
{
    matches!(command, Command::Publish)
}

fn opens(command: &Command) -> bool
    ensures { result ≡ opens command.now }
{
    matches!(command, Command::Open)
}
