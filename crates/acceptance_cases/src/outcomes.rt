//! What a line of a case comes to.

/// What a line comes to.
pub(crate) enum Outcome {
    /// What it has to.
    Right,
    /// Something else, which this tells.
    Other(String),
}

impl Drop for Outcome {
    fn drop(self) {
        match self {
            Outcome::Right => {}
            Outcome::Other(_) => {}
        }
    }
}

impl Outcome {
    /// What a line comes to that tells this, by what is wanted.
    pub(crate) fn of(told: String, wanted: &str) -> Outcome {
        if told.as_str() == wanted {
            Outcome::Right
        } else {
            Outcome::Other(told)
        }
    }
}
