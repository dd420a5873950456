//! What is wrong with settings, as a sentence.
use campaign_settings::MOST_CALLERS;
use rulebook::MAX_TOPICS;
use std::fmt;

/// A fault of settings. Numbers of callers count from 1.
#[derive(Clone, Copy)]
pub enum Fault<'a> {
    NoText,
    /// `toml` refuses the text for this cause.
    NoToml(&'a str),
    UnknownKey(&'a str),
    Absent {
        key: &'a str,
        low: i64,
        high: i64,
    },
    Number {
        key: &'a str,
        low: i64,
        high: i64,
    },
    Doubles,
    Levels,
    Callers,
    Name {
        caller: usize,
    },
    Role {
        caller: usize,
    },
    Key {
        caller: usize,
    },
    UnknownOfCaller {
        caller: usize,
        key: &'a str,
    },
    Repeat {
        caller: usize,
        key: &'a str,
        first: usize,
    },
    /// None of the others.
    Unnamed,
}

impl<'a> fmt::Display for Fault<'a> {
    fn fmt<W: fmt::Write>(&self, f: &mut fmt::Formatter<W>) -> fmt::Result {
        match *self {
            Fault::NoText => f.write_str("it isn't UTF-8"),
            Fault::NoToml(cause) => write!(f, "it isn't TOML: {cause}"),
            Fault::UnknownKey(key) => write!(f, "settings have no key `{key}`"),
            Fault::Absent { key, low, high } => {
                write!(f, "{key} is missing, which is {low} to {high}")
            }
            Fault::Number { key, low, high } => write!(f, "{key} is {low} to {high}"),
            Fault::Doubles => write!(
                f,
                "doubles is an array of at most {MAX_TOPICS} topic ids in quotes, in ascending byte order",
            ),
            Fault::Levels => write!(
                f,
                "levels is an array of at most {MAX_TOPICS} tables {{ topic, level }}, the topics in ascending byte order, each level 1 to top_grade",
            ),
            Fault::Callers => {
                write!(
                    f,
                    "each of at most {MOST_CALLERS} callers is a table [[caller]]"
                )
            }
            Fault::Name { caller } => write!(
                f,
                "caller {caller}: name is 1 to 32 letters, digits, points, underscores and dashes",
            ),
            Fault::Role { caller } => {
                write!(f, "caller {caller}: role is organiser, group or assessor")
            }
            Fault::Key { caller } => {
                write!(f, "caller {caller}: key is 16 to 64 letters and digits")
            }
            Fault::UnknownOfCaller { caller, key } => {
                write!(f, "caller {caller}: callers have no key `{key}`")
            }
            Fault::Repeat { caller, key, first } => {
                write!(f, "caller {caller} has the {key} of caller {first}")
            }
            Fault::Unnamed => f.write_str("compare it with the sample examples/campaign.toml"),
        }
    }
}
