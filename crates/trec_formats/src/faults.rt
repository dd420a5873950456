//! The faults of the formats, each with its line, and the names by which they are printed.
ghost use Rattle.std.specs.Prelude.{◌≡◌};
ghost use Rattle.trec_formats.specs.FaultNames.{cause_name, kind_name};

use decimal_rank::{DecimalFault, Memory};
use std::alloc::{AllocError, AllocFailed};

/// What is wrong with a line. On one line the first of these that holds is told.
#[derive(Clone, Copy, Debug, PartialEq, Eq)]
pub enum Kind {
    /// It has another number of fields.
    Fields,
    /// Its topic is no name.
    Topic,
    Docno,
    /// Its score is no decimal, for this cause.
    Score(DecimalFault),
    Grade,
    /// The text has no line that isn't white space alone.
    Empty,
    /// Its topic has 1,000 lines already, or a topic's text is too long.
    TooLong,
    /// It doesn't stand where it may among the tags of a topic.
    Tag,
    /// It says the same as an earlier line, of this number.
    Twice { first: u32 },
}

impl Kind {
    /// Its name where it is printed.
    pub fn name(self) -> &'static [u8]
        ensures { result.now ≡ kind_name self }
    {
        match self {
            Kind::Fields => b"fields",
            Kind::Topic => b"topic",
            Kind::Docno => b"docno",
            Kind::Score(_) => b"score",
            Kind::Grade => b"grade",
            Kind::Empty => b"empty",
            Kind::TooLong => b"too-long",
            Kind::Tag => b"tag",
            Kind::Twice { .. } => b"twice",
        }
    }
}

/// The name of a score's fault where it is printed.
pub fn cause_name(cause: DecimalFault) -> &'static [u8]
    ensures { result.now ≡ cause_name cause }
{
    match cause {
        DecimalFault::Shape => b"shape",
        DecimalFault::Digits => b"digits",
        DecimalFault::Exponent => b"exponent",
    }
}

/// The first fault of a text.
#[derive(Clone, Copy, Debug, PartialEq, Eq)]
pub struct FormatFault {
    /// From 1; 0 where no line is at fault.
    pub line: u32,
    pub kind: Kind,
}

/// Why a text or a list of lines isn't taken.
#[derive(Clone, Copy, Debug, PartialEq, Eq)]
pub enum FormatEnd {
    /// It isn't of the format.
    Fault(FormatFault),
    /// There was no memory for what has to be kept.
    Memory,
}

impl FormatEnd {
    /// The end of a reading at a faulty line.
    pub(crate) fn at(line: u32, kind: Kind) -> FormatEnd
        ensures { result ≡ FormatEnd.Fault (record { line = line; kind = kind }) }
    {
        FormatEnd::Fault(FormatFault { line, kind })
    }
}

impl From<Memory> for FormatEnd {
    ghost use Rattle.trec_formats.specs.declared.faults.FormatEnd.TheVariants.{Memory as NoMemory};
    ghost use Rattle.std.specs.Prelude.{◌≡◌};
    ghost use Rattle.trec_formats.specs.FaultNames.{cause_name, kind_name};

    ghost from_gives = { λ _ e. e ≡ NoMemory };

    fn from(_memory: Memory) -> FormatEnd {
        FormatEnd::Memory
    }
}

impl From<AllocError> for FormatEnd {
    ghost use Rattle.trec_formats.specs.declared.faults.FormatEnd.TheVariants.{Memory};
    ghost use Rattle.std.specs.Prelude.{◌≡◌};
    ghost use Rattle.trec_formats.specs.FaultNames.{cause_name, kind_name};

    ghost from_gives = { λ _ e. e ≡ Memory };

    fn from(_error: AllocError) -> FormatEnd {
        FormatEnd::Memory
    }
}

impl<T: Drop> From<AllocFailed<T>> for FormatEnd {
    ghost use Rattle.trec_formats.specs.declared.faults.FormatEnd.TheVariants.{Memory};
    ghost use Rattle.std.specs.Prelude.{◌≡◌};
    ghost use Rattle.trec_formats.specs.FaultNames.{cause_name, kind_name};

    ghost from_gives = { λ _ e. e ≡ Memory };

    fn from(_error: AllocFailed<T>) -> FormatEnd {
        FormatEnd::Memory
    }
}
