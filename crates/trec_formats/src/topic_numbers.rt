//! The numbers of topics among their names, in the order of lines.
ghost use Rattle.std.specs.Prelude.{◌≡◌, Some, IfSome};
ghost use Rattle.std.specs.Option.{option_map};
ghost use Rattle.decimal_rank.specs.Names.{number_of};

use decimal_rank::{DocId, Names};

/// The number of a topic, where it's there. Mostly it's the newest, since the lines of a topic
/// stand together.
pub fn topic_number(topics: &Names, topic: &[u8]) -> Option<DocId>
    ensures { option_map (λ number. number.0) result ≡ number_of topics.now topic.now }
{
    let count = topics.len();
    if count > 0 && topics.name(DocId(count - 1)) == topic {
        return Some(DocId(count - 1));
    }
    number_among(topics, topic)
}

/// apart, since it's rarely called
#[inline(never)]
fn number_among(topics: &Names, topic: &[u8]) -> Option<DocId>
    ensures { option_map (λ number. number.0) result ≡ number_of topics.now topic.now }
{
    topics.find(topic)
}
