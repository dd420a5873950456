//! What a command changes of an assessment, by numbers.
ghost use Rattle.std.specs.Prelude.{◌≡◌};
ghost use Rattle.assessment.specs.TopicFacts.{judgement_doc};
ghost use Rattle.assessment.specs.TopicsFacts.{judgement_topic};

use crate::topics::Topics;
use decimal_rank::{DocId, Ranking, Text};
use depth_pool::RunId;

/// The grade that an assessor gives a document of a topic. Topics are numbered from 0.
#[derive(Drop)]
pub struct Label {
    pub topic: u16,
    pub doc: DocId,
    pub assessor: Text,
    pub grade: u8,
}

/// The grade of a ruling on a document of a topic.
#[derive(Drop)]
pub struct Ruling {
    pub topic: u16,
    pub doc: DocId,
    pub grade: u8,
}

/// The next lease: a document of a topic for an assessor, live at each moment before `until`.
#[derive(Drop)]
pub struct Grant {
    pub topic: u16,
    pub doc: DocId,
    pub assessor: Text,
    pub until: u64,
}

/// One change of an assessment.
#[derive(Drop)]
pub enum Change {
    /// Nothing that is known by numbers.
    Nothing,
    /// The campaign has these topics.
    Topics(Topics),
    /// A run enters, with its list on each topic by number.
    Run(RunId, Vec<Ranking>),
    /// A run is withdrawn.
    Withdraw(RunId),
    /// A document is leased.
    Lease(Grant),
    /// The document of the lease of this number is graded.
    Grade(u32, Label),
    /// The lease of this number is released.
    Release(u32),
    /// An assessor gives a document another grade.
    Amend(Label),
    /// A document gets the grade of a ruling.
    Rule(Ruling),
}

/// What a document of a topic gets: a label, or a ruling.
#[derive(Drop)]
pub(crate) enum Judgement {
    Label(Label),
    Ruling(Ruling),
}

impl Judgement {
    /// The topic and the document.
    pub(crate) fn place(&self) -> (u16, DocId)
        ensures { result ≡ (judgement_topic self.now, judgement_doc self.now) }
    {
        match self {
            Judgement::Label(label) => (label.topic, label.doc),
            Judgement::Ruling(ruling) => (ruling.topic, ruling.doc),
        }
    }
}
