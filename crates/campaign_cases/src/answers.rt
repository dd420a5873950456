//! What a campaign tells, as words.
use decimal_rank::Text;
use rulebook::Reply;
use std::alloc::Global;

/// What a reply says, of whose entry this is the moment. The topic 1 and the title of the topics
/// aren't said.
pub(crate) fn words_of(alloc: Global, reply: &Reply, moment: u64) -> Option<String> {
    match reply {
        Reply::Done => format!(in alloc; "done {moment}").ok(),
        Reply::Topics { topics } => format!(in alloc; "topics {topics}").ok(),
        Reply::Submitted { run, topics, lines } => submitted(alloc, word(run)?, *topics, *lines),
        Reply::Leased {
            lease,
            topic,
            doc,
            until,
            title,
        } => {
            if word(title)? != "pooling" {
                return None;
            }
            let doc = placed(alloc, topic, doc)?;
            leased(alloc, *lease, doc.as_str(), *until)
        }
        Reply::Graded { topic, doc, grade } => {
            let doc = placed(alloc, topic, doc)?;
            graded(alloc, doc.as_str(), *grade)
        }
        Reply::Pool { docs, .. } => pool_words(alloc, docs.items()),
        Reply::Page { text } => page(alloc, word(text)?),
        Reply::Refused(refusal) => format!(in alloc; "refused {refusal:?}").ok(),
    }
}

fn submitted(alloc: Global, run: &str, topics: u32, lines: u32) -> Option<String> {
    format!(in alloc; "submitted {run} {topics} {lines}").ok()
}

fn leased(alloc: Global, lease: u32, doc: &str, until: u64) -> Option<String> {
    format!(in alloc; "leased {lease} {doc} {until}").ok()
}

fn graded(alloc: Global, doc: &str, grade: u8) -> Option<String> {
    format!(in alloc; "graded {doc} {grade}").ok()
}

fn word(text: &Text) -> Option<&str> {
    str::from_utf8(text.bytes()).ok()
}

/// A document of the topic 1, and another one behind its topic.
fn placed(alloc: Global, topic: &Text, doc: &Text) -> Option<String> {
    let topic = word(topic)?;
    let doc = word(doc)?;
    if topic == "1" {
        return String::from_str(alloc, doc).ok();
    }
    format!(in alloc; "{topic}/{doc}").ok()
}

fn pool_words(alloc: Global, docs: &[Text]) -> Option<String> {
    let mut words = String::from_str(alloc, "pool").ok()?;
    for doc in docs {
        words.push_str(" ").ok()?;
        words.push_str(word(doc)?).ok()?;
    }
    Some(words)
}

/// A page, whose lines end with a mark of their own.
fn page(alloc: Global, text: &str) -> Option<String> {
    let start = if text.is_empty() { "page" } else { "page " };
    let mut words = String::from_str(alloc, start).ok()?;
    for letter in text.chars() {
        words.push(if letter == '\n' { '|' } else { letter }).ok()?;
    }
    Some(words)
}
