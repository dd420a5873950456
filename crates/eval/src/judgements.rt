//! The topics of qrels, and how the documents of each are judged.
ghost use Rattle.std.specs.Prelude.{◌≡◌, ◌+◌, ◌<◌, ◌≤◌, ◌++◌, ◌^◌, [], ◌∷◌, Some, length, map, set, IfOk, OnOk, bytes_eq, if◌then◌else◌};
ghost use Rattle.std.specs.List.{IsDistinct, list_any};
ghost use Rattle.decimal_rank.specs.Names.{number_of, with_name};
ghost use Rattle.eval.specs.Evaluations.{topics_of};
ghost use Rattle.eval.specs.Tables.{no_tally, tally_more, tally_on};
ghost use Rattle.trec_formats.specs.RunFormat.LineViews.{qrel_shown};

use decimal_rank::{Memory, Names, Text};
use std::alloc::Global;
use trec_formats::{QrelView, topic_number};

/// The least grade of a relevant document.
pub(crate) const LEVEL: u8 = 1;

/// How many documents of a topic are judged relevant, and how many are judged and not relevant.
#[derive(Clone, Copy, Debug, PartialEq, Eq)]
pub struct Tally {
    pub relevant: u32,
    pub others: u32,
}

/// The topics of qrels, each at its first line, and how the documents of each are judged.
#[derive(Drop)]
pub(crate) struct Judgements {
    pub(crate) topics: Names,
    // by topic
    pub(crate) tallies: Vec<Tally>,
}

/// The topics of qrels, and how the documents of each are judged.
pub(crate) fn judgements_of(alloc: Global, qrels: &[QrelView<'_>]) -> Result<Judgements, Memory>
    requires { length qrels.now ≤ 268435456 }
    ensures topics { IfOk result
        (λ judgements. judgements.topics ≡ topics_of (map qrel_shown qrels.now)) }
    ensures tallies { IfOk result (λ judgements. judgements.tallies.items
        ≡ map (tally_on (map qrel_shown qrels.now)) (topics_of (map qrel_shown qrels.now))) }
{
    let mut topics = Names::new(alloc);
    let mut tallies = Vec::new(alloc);
    for line in qrels {
        let place = place_of(alloc, &mut topics, &mut tallies, line.topic)?;
        count(&mut tallies[place], line.grade);
    }
    Ok(Judgements { topics, tallies })
}

/// The place of a topic, which joins the others with nothing judged where it's new.
fn place_of(
    alloc: Global,
    topics: &mut Names,
    tallies: &mut Vec<Tally>,
    topic: &[u8],
) -> Result<usize, Memory>
    requires { length topics.old + 1 < 2 ^ 32 }
    ensures topics { OnOk result (topics.new ≡ with_name topics.old topic.now) }
    ensures place { IfOk result (λ place. number_of topics.new topic.now ≡ Some place) }
    ensures distinct { OnOk result (IsDistinct bytes_eq topics.new) }
    ensures tallies { OnOk result (tallies.new.items
        ≡ (if list_any (bytes_eq topic.now) topics.old then tallies.old.items else tallies.old.items
        ++ no_tally ∷ [])) }
{
    if let Some(number) = topic_number(topics, topic) {
        // names tell with their length that no name stands twice
        let _names = topics.len();
        return Ok(number.0 as usize);
    }
    let number = topics.add(Text::from_slice(alloc, topic)?)?;
    // as above
    let _names = topics.len();
    tallies.push(Tally {
        relevant: 0,
        others: 0,
    })?;
    Ok(number.0 as usize)
}

/// Counts one more judged document.
fn count(tally: &mut Tally, grade: u8)
    requires relevant { tally.old.relevant + 1 < 2 ^ 32 }
    requires others { tally.old.others + 1 < 2 ^ 32 }
    ensures { tally.new ≡ tally_more tally.old grade }
{
    if LEVEL <= grade {
        tally.relevant += 1;
    } else {
        tally.others += 1;
    }
}
