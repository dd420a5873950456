//! What a caller asks of a campaign: a command, which adds an entry where it is accepted, or a
//! query, which adds none.
ghost use Rattle.std.specs.Prelude.{◌≡◌, MatchOption};
ghost use Rattle.rulebook.specs.declared.ask.Command.TheVariants.{Found};
ghost use Rattle.rulebook.specs.declared.rules.Rules.{Rules as CampaignRules};
ghost use Rattle.rulebook.specs.Campaign.{may_give};
ghost use Rattle.rulebook.specs.Requests.SameCommands.{same_command};

use crate::rules::{Caller, Role, Rules};
use decimal_rank::{Rows, Text};
use trec_formats::{Topic, TopicList};

/// A request that adds an entry where it is accepted. Two commands are the same where all their
/// fields are.
#[derive(Debug, PartialEq)]
pub enum Command {
    /// The founding of the campaign, which no request gives.
    Found { rules: Rules },
    /// The campaign's topics.
    Topics { topics: Rows<Topic> },
    /// A run: its name and its ranked lists, by topic id.
    Submit { run: Text, lists: Rows<TopicList> },
    /// The end of collecting.
    Open,
    /// The wish for a document of a topic to grade.
    Lease { topic: Text },
    /// The grade of a leased document.
    Grade { lease: u32, grade: u8 },
    /// The end of a lease without a grade.
    Release { lease: u32 },
    /// Another grade than the one that this caller gave before.
    Amend { topic: Text, doc: Text, grade: u8 },
    /// An organiser's grade, which goes before all labels.
    Rule { topic: Text, doc: Text, grade: u8 },
    /// The end of a run's part in the campaign.
    Withdraw { run: Text },
    /// The end of judging.
    Publish,
}

impl Command {
    /// Whether all fields are the same.
    pub fn is_same(&self, other: &Command) -> bool
        ensures { result ≡ same_command self.now other.now }
    {
        self == other
    }

    /// Whether a role may give it.
    pub fn is_givable(&self, role: Role) -> bool
        ensures { result ≡ may_give role self.now }
    {
        match self {
            Command::Topics { .. } | Command::Open | Command::Rule { .. } | Command::Publish => {
                role == Role::Organiser
            }
            Command::Submit { .. } => role == Role::Group,
            Command::Lease { .. }
            | Command::Grade { .. }
            | Command::Release { .. }
            | Command::Amend { .. } => role == Role::Assessor,
            Command::Withdraw { .. } => matches!(role, Role::Group | Role::Organiser),
            Command::Found { .. } => false,
        }
    }

    /// The rules, where it founds a campaign.
    pub(crate) fn founding_rules(self) -> Option<Rules>
        ensures { MatchOption result ((rules : CampaignRules) → self ≡ Found rules → ⊥)
            (λ rules. self ≡ Found rules) }
    {
        let Command::Found { rules } = self else {
            return None;
        };
        Some(rules)
    }
}

// a call of its own, so that no caller's proof takes a command apart
impl Drop for Command {
    fn drop(self) {
        match self {
            Command::Found { rules: _ }
            | Command::Topics { topics: _ }
            | Command::Submit { run: _, lists: _ }
            | Command::Open
            | Command::Lease { topic: _ }
            | Command::Grade { lease: _, grade: _ }
            | Command::Release { lease: _ }
            | Command::Amend {
                topic: _,
                doc: _,
                grade: _,
            }
            | Command::Rule {
                topic: _,
                doc: _,
                grade: _,
            }
            | Command::Withdraw { run: _ }
            | Command::Publish => {}
        }
    }
}

/// A request that adds nothing.
#[derive(Debug, Drop)]
pub enum Query {
    /// The pool of a topic.
    Pool { topic: Text },
    /// All effective grades.
    Qrels,
    /// The measures of a run.
    Scores { run: Text },
    /// The summaries of the live runs.
    Table,
    /// The documents whose two labels differ.
    Disagreements,
    /// The counts of each topic.
    Progress,
    /// The effective grades of a release.
    ReleaseQrels { release: u32 },
    /// The summaries of a release.
    ReleaseScores { release: u32 },
}

/// What a caller asks.
#[derive(Debug, Drop)]
pub enum Ask {
    Act(Command),
    See(Query),
}

/// A request as it reaches a campaign: who asks what, under which number, and its moment in
/// seconds.
#[derive(Debug, Drop)]
pub struct Addressed {
    pub who: Caller,
    pub number: Option<u64>,
    pub ask: Ask,
    pub moment: u64,
}
