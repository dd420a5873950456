//! The relevance of a document by its grade: relevant, judged lower, or unjudged.
ghost use Rattle.std.specs.Prelude.{◌≡◌};
ghost use Rattle.decimal_rank.specs.Relevance.{is_non_relevant as lower_grade, is_relevant as relevant_grade};
ghost use Rattle.score_index.specs.KeptSums.{is_lower_standing, is_relevant_standing};

use decimal_rank::{is_non_relevant, is_relevant};

/// What the grade of a document makes of it.
#[derive(Clone, Copy, Debug, PartialEq, Eq)]
pub(crate) enum Relevance {
    Relevant,
    Lower,
    Unjudged,
}

pub(crate) fn mark_of(level: u8, grade: Option<u8>) -> Relevance
    ensures relevant { is_relevant_standing result ≡ relevant_grade level grade }
    ensures lower { is_lower_standing result ≡ lower_grade level grade }
{
    if is_relevant(level, grade) {
        return Relevance::Relevant;
    }
    if is_non_relevant(level, grade) {
        return Relevance::Lower;
    }
    Relevance::Unjudged
}
