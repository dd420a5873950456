//! What a request is answered by the rules: that it is done, what came of it, or the cause for
//! which it is refused.
ghost use Rattle.std.specs.Prelude.{◌≡◌, IfOk};

use crate::rules::Phase;
use decimal_rank::{Memory, Rows, Text};
use std::alloc::Global;

/// What there is a limit on.
#[derive(Clone, Copy, Debug, PartialEq, Eq)]
pub enum Quantity {
    Topics,
    Runs,
    Lines,
    Docnos,
    Entries,
}

/// Why a request is refused.
#[derive(Clone, Copy, Debug, PartialEq, Eq)]
pub enum Refusal {
    UnknownTopic,
    UnknownRun,
    UnknownLease,
    NotYours,
    /// The phase is the present one.
    WrongPhase { phase: Phase },
    /// A run of this name was submitted before.
    TagTaken,
    /// The campaign has its topics.
    TopicsFixed,
    /// No document of the topic is open to the assessor.
    NothingLeft,
    /// How many live leases the assessor has.
    TooMany { live: u32 },
    /// The lease's end, in seconds.
    Expired { until: u64 },
    /// The lease was graded or released.
    Ended,
    GradeRange,
    NotLabelled,
    Withdrawn,
    /// The place, counted from 1, of the entry that has the number.
    Reused { entry: u32 },
    Limit { which: Quantity },
    UnknownRelease,
    /// The least first line of a list whose topic isn't a topic of the campaign.
    LineTopic { line: u32 },
}

/// What a request is answered.
#[derive(Debug)]
pub enum Reply {
    Done,
    /// How many topics the campaign has now.
    Topics {
        topics: u32,
    },
    /// How many lists and how many lines the run has.
    Submitted {
        run: Text,
        topics: u32,
        lines: u32,
    },
    /// The lease's number, counted from 1, its document and its end, in seconds.
    Leased {
        lease: u32,
        topic: Text,
        doc: Text,
        until: u64,
        title: Text,
    },
    Graded {
        topic: Text,
        doc: Text,
        grade: u8,
    },
    /// The docnos of a pool, in byte order.
    Pool {
        topic: Text,
        docs: Rows<Text>,
    },
    /// A printed text.
    Page {
        text: Text,
    },
    Refused(Refusal),
}

impl Reply {
    /// A copy of all that is told.
    pub fn copy(&self, alloc: Global) -> Result<Reply, Memory>
        ensures { IfOk result (λ copy. copy ≡ self.now) }
    {
        Ok(match self {
            Reply::Done => Reply::Done,
            Reply::Topics { topics } => Reply::Topics { topics: *topics },
            Reply::Submitted { run, topics, lines } => Reply::Submitted {
                run: run.copy()?,
                topics: *topics,
                lines: *lines,
            },
            Reply::Leased {
                lease,
                topic,
                doc,
                until,
                title,
            } => Reply::Leased {
                lease: *lease,
                topic: topic.copy()?,
                doc: doc.copy()?,
                until: *until,
                title: title.copy()?,
            },
            Reply::Graded { topic, doc, grade } => Reply::Graded {
                topic: topic.copy()?,
                doc: doc.copy()?,
                grade: *grade,
            },
            Reply::Pool { topic, docs } => Reply::Pool {
                topic: topic.copy()?,
                docs: copy_of_texts(alloc, docs.items())?,
            },
            Reply::Page { text } => Reply::Page { text: text.copy()? },
            Reply::Refused(refusal) => Reply::Refused(*refusal),
        })
    }
}

// a call of its own, so that no caller's proof takes a reply apart
impl Drop for Reply {
    fn drop(self) {
        match self {
            Reply::Done
            | Reply::Topics { topics: _ }
            | Reply::Submitted {
                run: _,
                topics: _,
                lines: _,
            }
            | Reply::Leased {
                lease: _,
                topic: _,
                doc: _,
                until: _,
                title: _,
            }
            | Reply::Graded {
                topic: _,
                doc: _,
                grade: _,
            }
            | Reply::Pool { topic: _, docs: _ }
            | Reply::Page { text: _ }
            | Reply::Refused(_) => {}
        }
    }
}

fn copy_of_texts(alloc: Global, texts: &[Text]) -> Result<Rows<Text>, Memory>
    ensures { IfOk result (λ copy. copy ≡ texts.now) }
{
    let mut copies = Vec::with_capacity(alloc, texts.len())?;
    for text in texts {
        copies.push(text.copy()?)?;
    }
    Ok(Rows::new(copies))
}
