//! The docnos of a campaign by number: those of a run join the others, and each of its documents is
//! numbered by that.
ghost use Rattle.std.specs.Prelude.{◌≡◌, ◌+◌, ◌<◌, ◌^◌, [], List, ℕ, length, IfOk, OnOk};
ghost use Rattle.rulebook.specs.Campaign.{docs_on, line_count, docnos as docnos_of};
ghost use Rattle.campaign_core.specs.Growth.{GrowsWithin};
ghost use Rattle.campaign_core.specs.Numbering.Numbers.{AreAdded, docs_in};

use decimal_rank::{DocId, Memory, Names, Text};
use std::alloc::Global;
use trec_formats::{Docnos, TopicList};

/// Adds the docnos of a run's lines, and gives the numbers of its documents, one list after
/// another. After want of memory some docnos may be added.
pub(crate) fn add_docnos(
    alloc: Global,
    docnos: &mut Names,
    lists: &[TopicList],
) -> Result<Vec<DocId>, Memory>
    requires { length docnos.old + line_count lists.now + 1 < 2 ^ 32 }
    ensures added { IfOk result
        (λ numbers. AreAdded (docnos_of lists.now) docnos.old docnos.new [] numbers.items) }
    ensures grown { GrowsWithin (line_count lists.now) docnos.old docnos.new }
{
    let mut numbers = Vec::new(alloc);
    for list in lists {
        add_all(alloc, docnos, &list.docs, &mut numbers)?;
    }
    Ok(numbers)
}

/// Adds docnos, and their numbers to those before them.
fn add_all(
    alloc: Global,
    docnos: &mut Names,
    docs: &Docnos,
    numbers: &mut Vec<DocId>,
) -> Result<(), Memory>
    requires { length docnos.old + length docs.now + 1 < 2 ^ 32 }
    ensures added { OnOk result
        (AreAdded docs.now docnos.old docnos.new numbers.old.items numbers.new.items) }
    ensures grown { GrowsWithin (length docs.now) docnos.old docnos.new }
{
    let count = docs.len();
    numbers.reserve(count)?;
    for place in 0..count {
        let docno = Text::from_slice(alloc, docs.at(place))?;
        numbers.push(docnos.add(docno)?)?;
    }
    Ok(())
}

/// The numbers of a run's documents on a topic, among those of all its lists one after another:
/// none where the run has no such list.
pub(crate) fn numbers_on<'a>(lists: &[TopicList], numbers: &'a [DocId], topic: &[u8]) -> &'a [DocId]
    requires { length numbers.now ≡ line_count lists.now }
    ensures { (names : List (List ℕ)) → numbers.now ≡ docs_in names (docnos_of lists.now)
        → result.now ≡ docs_in names (docs_on lists.now topic.now) }
{
    let mut start = 0;
    for list in lists {
        let end = start + list.docs.len();
        if list.topic.bytes() == topic {
            return &numbers[start..end];
        }
        start = end;
    }
    &[]
}
