//! The roles of callers, the phases of a campaign, and its settings, which the first entry holds.
ghost use Rattle.std.specs.Prelude.{◌≡◌, IfOk};

use decimal_rank::{Memory, Rows, Text};

/// What a caller may ask.
#[derive(Clone, Copy, Debug, PartialEq, Eq)]
pub enum Role {
    Organiser,
    Group,
    Assessor,
}

/// Who sent a request. Callers are told apart by their names.
#[derive(Debug, Drop)]
pub struct Caller {
    pub name: Text,
    pub role: Role,
}

impl Caller {
    /// A copy of the name and the role.
    pub fn copy(&self) -> Result<Caller, Memory>
        ensures { IfOk result (λ copy. copy ≡ self.now) }
    {
        Ok(Caller {
            name: self.name.copy()?,
            role: self.role,
        })
    }
}

/// How far a campaign has come.
#[derive(Clone, Copy, Debug, PartialEq, Eq)]
pub enum Phase {
    Collecting,
    Judging,
    Published,
}

/// A topic that has a level of its own.
#[derive(Debug, Drop, PartialEq)]
pub struct TopicLevel {
    pub topic: Text,
    /// The least grade of a relevant document; 1 to `top_grade`.
    pub level: u8,
}

/// The settings of a campaign, which its first entry holds.
#[derive(Debug, Drop, PartialEq)]
pub struct Rules {
    /// The documents of a run's ranks 1 to `depth` are in the pool; 1 to 1000.
    pub depth: u16,
    /// How long a lease lasts, in seconds; 1 to 2^40.
    pub term: u64,
    /// How many live leases an assessor has at most; 1 to 50.
    pub hold: u8,
    /// The least grade of a relevant document of a topic without a level of its own; 1 to
    /// `top_grade`.
    pub level: u8,
    /// The greatest grade; 1 to 255.
    pub top_grade: u8,
    /// The ids of the topics whose documents need two labels, strictly ascending; at most 250.
    pub doubles: Rows<Text>,
    /// The topics with a level of their own, strictly ascending by id; at most 250.
    pub levels: Rows<TopicLevel>,
}
