//! The cells of a run, one for each topic of the qrels.
ghost use Rattle.std.specs.Prelude.{◌≡◌, ◌≢◌, ◌≤◌, [], length, map, All, AllPairs, IfOk};
ghost use Rattle.measures.specs.Cells.{IsSound};
ghost use Rattle.eval.specs.Evaluations.{run_docs_on as listed_on, evaluated_cell, topics_of};
ghost use Rattle.eval.specs.Tables.{AreRankedLists, cell_in, tally_on};

use crate::judgements::{Judgements, LEVEL, Tally, judgements_of};
use decimal_rank::{DocId, Memory};
use measures::{Cell, scratch};
use std::alloc::Global;
use trec_formats::{Docnos, QrelTable, TopicList};

/// The cells of a run on the topics of the qrels.
pub(crate) fn cells_of(
    alloc: Global,
    lists: &[TopicList],
    qrels: &QrelTable<'_>,
) -> Result<Vec<Cell>, Memory>
    requires lists { AreRankedLists lists.now }
    requires few { length qrels.now ≤ 268435456 }
    ensures cells { IfOk result
        (λ cells. cells.items ≡ map (evaluated_cell lists.now qrels.now) (topics_of qrels.now)) }
    ensures sound { IfOk result (λ cells. All IsSound cells.items) }
{
    let judgements = judgements_of(alloc, qrels.lines())?;
    cells_on(alloc, lists, qrels, &judgements)
}

/// The cells of a run on the topics that are judged.
fn cells_on(
    alloc: Global,
    lists: &[TopicList],
    qrels: &QrelTable<'_>,
    judgements: &Judgements,
) -> Result<Vec<Cell>, Memory>
    requires lists { AreRankedLists lists.now }
    requires few { length qrels.now ≤ 268435456 }
    requires tallies { judgements.now.tallies.items
        ≡ map (tally_on qrels.now) judgements.now.topics }
    ensures cells { IfOk result
        (λ cells. cells.items ≡ map (evaluated_cell lists.now qrels.now) judgements.now.topics) }
    ensures sound { IfOk result (λ cells. All IsSound cells.items) }
{
    let none = Docnos::new(alloc);
    let count = judgements.topics.len();
    let mut cells = Vec::with_capacity(alloc, count as usize)?;
    for number in 0..count {
        let topic = judgements.topics.name(DocId(number));
        let tally = judgements.tallies[number as usize];
        let docs = docs_on(lists, topic, &none);
        cells.push(topic_cell(alloc, docs, qrels, topic, tally)?)?;
    }
    Ok(cells)
}

/// The cell of a topic, by its documents and its judgements.
fn topic_cell(
    alloc: Global,
    docs: &Docnos,
    qrels: &QrelTable<'_>,
    topic: &[u8],
    tally: Tally,
) -> Result<Cell, Memory>
    requires differ { AllPairs (λ a b. a ≢ b) docs.now }
    requires short { length docs.now ≤ 1000 }
    requires few { length qrels.now ≤ 268435456 }
    requires tally { tally ≡ tally_on qrels.now topic.now }
    ensures cell { IfOk result (λ cell. cell ≡ cell_in docs.now qrels.now topic.now) }
    ensures sound { IfOk result IsSound }
{
    let graded = qrels.grades(alloc, topic, docs)?;
    Ok(scratch(&graded, tally.relevant, tally.others, LEVEL))
}

/// The documents that a run lists on a topic, by rank; none where the run lacks the topic.
fn docs_on<'a>(lists: &'a [TopicList], topic: &[u8], none: &'a Docnos) -> &'a Docnos
    requires lists { AreRankedLists lists.now }
    requires none { none.now ≡ [] }
    ensures { result.now ≡ listed_on lists.now topic.now }
{
    match lists.binary_search_by(|list| list.topic.bytes().cmp(topic)) {
        Ok(place) => &lists[place].docs,
        Err(_) => none,
    }
}
