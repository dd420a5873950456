//! Texts that differ, and texts in order.
ghost use Rattle.std.specs.Prelude.{◌≡◌, IfOk, map};
ghost use Rattle.std.specs.Cmp.Lexicographic.{slice_cmp};
ghost use Rattle.std.specs.Ordering.{is_lt, nat_cmp};
ghost use Rattle.rulebook.specs.Spelling.{differ, is_ascending};

use decimal_rank::{Memory, Secret, Text};
use rulebook::TopicLevel;
use std::alloc::Global;
use std::collections::HashMap;
use std::hash::{Hash, Hasher};
use trec_formats::{Docnos, Topic, TopicList};

/// A text as a key of a table. It hashes by one write of its bytes, where a slice writes each byte
/// apart.
#[derive(Clone, Copy, PartialEq, Eq)]
struct TextKey<'a>(&'a [u8]);

impl Hash for TextKey<'_> {
    ghost use Rattle.std.specs.Prelude.{◌∷◌, []};
    ghost use Rattle.std.specs.Cmp.Rules.{hashing};
    ghost use Rattle.std.proofs.Common.{rules};

    ghost hash_input = { λ key. key.0.now ∷ [] };

    ghost respects_eq = { Prim.search (hashing, rules) };

    fn hash<H: Hasher>(&self, state: &mut H) {
        state.write(self.0);
    }
}

/// Whether no text stands twice. A table of the texts makes this linear in them.
pub(crate) fn are_distinct(alloc: Global, texts: &[&[u8]]) -> Result<bool, Memory>
    ensures { IfOk result (λ distinct. distinct ≡ differ (map (λ text. text.now) texts.now)) }
{
    let mut seen = HashMap::with_capacity_and_hasher(alloc, texts.len(), Secret::drawn())?;
    for text in texts {
        if let Some(()) = seen.insert(TextKey(text), ())? {
            return Ok(false);
        }
    }
    Ok(true)
}

fn is_before(first: &[u8], second: &[u8]) -> bool
    ensures { result ≡ is_lt (slice_cmp nat_cmp first.now second.now) }
{
    first.cmp(second).is_lt()
}

/// Whether each text is before the next in byte order.
#[tactic(auto, using(crate::proofs::AscendingTexts::ascending_at, crate::proofs::AscendingTexts::ascending_end))]
pub(crate) fn are_ascending(texts: &[&[u8]]) -> bool
    ensures { result ≡ is_ascending (map (λ text. text.now) texts.now) }
{
    for place in 1..texts.len() {
        if !is_before(texts[place - 1], texts[place]) {
            return false;
        }
    }
    true
}

/// The texts, lent.
pub(crate) fn lent(alloc: Global, texts: &[Text]) -> Result<Vec<&[u8]>, Memory>
    ensures { IfOk result (λ lent. map (λ text. text.now) lent.items ≡ texts.entry.now) }
{
    let mut lent = Vec::with_capacity(alloc, texts.len())?;
    for text in texts {
        lent.push(text.bytes())?;
    }
    Ok(lent)
}

/// The docnos of a list, lent.
pub(crate) fn lent_docnos(alloc: Global, docs: &Docnos) -> Result<Vec<&[u8]>, Memory>
    ensures { IfOk result (λ lent. map (λ text. text.now) lent.items ≡ docs.entry.now) }
{
    let count = docs.len();
    let mut lent = Vec::with_capacity(alloc, count)?;
    for place in 0..count {
        lent.push(docs.at(place))?;
    }
    Ok(lent)
}

/// The ids of topics, lent.
pub(crate) fn ids(alloc: Global, topics: &[Topic]) -> Result<Vec<&[u8]>, Memory>
    ensures { IfOk result
        (λ lent. map (λ text. text.now) lent.items ≡ map (λ topic. topic.id) topics.entry.now) }
{
    let mut lent = Vec::with_capacity(alloc, topics.len())?;
    for topic in topics {
        lent.push(topic.id.bytes())?;
    }
    Ok(lent)
}

/// The topics with levels, lent.
pub(crate) fn leveled(alloc: Global, levels: &[TopicLevel]) -> Result<Vec<&[u8]>, Memory>
    ensures { IfOk result
        (λ lent. map (λ text. text.now) lent.items ≡ map (λ own. own.topic) levels.entry.now) }
{
    let mut lent = Vec::with_capacity(alloc, levels.len())?;
    for own in levels {
        lent.push(own.topic.bytes())?;
    }
    Ok(lent)
}

/// The topics of lists, lent.
pub(crate) fn topics(alloc: Global, lists: &[TopicList]) -> Result<Vec<&[u8]>, Memory>
    ensures { IfOk result
        (λ lent. map (λ text. text.now) lent.items ≡ map (λ list. list.topic) lists.entry.now) }
{
    let mut lent = Vec::with_capacity(alloc, lists.len())?;
    for list in lists {
        lent.push(list.topic.bytes())?;
    }
    Ok(lent)
}
