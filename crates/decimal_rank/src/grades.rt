//! Whether a document is relevant by its grade. A document that isn't judged has no grade.
ghost use Rattle.std.specs.Prelude.{◌≡◌};
ghost use Rattle.decimal_rank.specs.Relevance.{is_non_relevant, is_relevant};

/// Whether a document is judged, with at least the level.
pub fn is_relevant(level: u8, grade: Option<u8>) -> bool
    ensures { result ≡ is_relevant level grade }
{
    match grade {
        Some(grade) => level <= grade,
        None => false,
    }
}

/// Whether a document is judged, with less than the level.
pub fn is_non_relevant(level: u8, grade: Option<u8>) -> bool
    ensures { result ≡ is_non_relevant level grade }
{
    match grade {
        Some(grade) => grade < level,
        None => false,
    }
}
