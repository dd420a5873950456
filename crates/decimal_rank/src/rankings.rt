//! The rank of each document of a ranked list, and lists in the order of their ranks that tell the
//! document at a rank in one step and the rank of a document in a few.
ghost use Rattle.std.specs.Prelude.{◌≡◌, ℕ, ◌+◌, ◌-◌, ◌<◌, ◌≤◌, List, length, map, take, All, Some, Err, IfOk, OnOk, MatchOption, slice_get, ◌≢◌, Any, IfSome, IfNone};
ghost use Rattle.std.specs.List.Sorted.{IsNonDecreasingBy};
ghost use Rattle.decimal_rank.specs.Rankings.Places.{AreDistinct, IsFirstRepeat, place_in, levels};
ghost use Rattle.decimal_rank.specs.Rankings.Entries.{AreEntries, entries_in};
ghost use Rattle.decimal_rank.specs.Rankings.Ranks.{IsRanking, standing_cmp, standing_of};
ghost use Rattle.decimal_rank.specs.Names.{docno_of};

mod counted_lists;
pub(crate) mod weights;

use crate::decimals::Decimal;
use crate::naming::{DocId, Names};
use crate::rankings::counted_lists::CountedList;
use crate::steps::Steps;
use crate::storage::Memory;
use crate::tables::secrets::Secret;
use std::alloc::{AllocError, AllocFailed, Global};
use std::cmp::Ordering;
use std::collections::HashMap;
use std::marker::Model;
use std::sync::ledger::Ledger;

/// A document and its score on one line of a run.
#[derive(Debug, Drop)]
pub struct Scored {
    pub doc: DocId,
    pub score: Decimal,
}

/// Why lines have no ranking.
#[derive(Clone, Copy, Debug, PartialEq, Eq)]
pub enum RankFault {
    /// The second line has the document of the first, counted from 1.
    Twice { first: u32, second: u32 },
    Memory,
}

impl From<Memory> for RankFault {
    ghost use Rattle.decimal_rank.specs.declared.rankings.RankFault.TheVariants.{Memory as NoMemory};

    ghost from_gives = { λ _ fault. fault ≡ NoMemory };

    fn from(_error: Memory) -> RankFault {
        RankFault::Memory
    }
}

/// The documents of a run on one topic, by rank. Contracts see the list of the documents.
#[derive(Drop)]
pub struct Ranking {
    docs: CountedList<DocId>,
    // by document
    entries: CountedList<Entry>,
}

/// A document and its place, from 1.
#[derive(Clone, Copy, Debug)]
struct Entry {
    doc: u32,
    place: u32,
}

/// Ranks the documents of a run on one topic: greatest score first, and at equal scores the docno
/// that is greatest in byte order.
pub fn rank(alloc: Global, lines: &[Scored], names: &Names) -> Result<Ranking, RankFault>
    requires docs { All (λ line. line.doc.0 < length names.now) lines.now }
    requires few { length lines.now ≤ 1000 }
    ensures ranked { IfOk result (IsRanking names.now lines.now) }
    ensures distinct { OnOk result (AreDistinct (map (λ line. line.doc) lines.now)) }
    ensures twice { (first second : ℕ) → result ≡ Err (RankFault.Twice first second)
        → IsFirstRepeat (map (λ line. line.doc) lines.now) first second }
{
    if let Some((first, second)) = first_repeat(alloc, lines)? {
        return Err(RankFault::Twice { first, second });
    }
    let docs = by_rank(alloc, lines, names)?;
    Ok(Ranking::listed(docs)?)
}

/// The least line whose document stands on an earlier one, after that one, counted from 1.
fn first_repeat(alloc: Global, lines: &[Scored]) -> Result<Option<(u32, u32)>, Memory>
    requires { length lines.now ≤ 1000 }
    ensures { IfOk result
        (λ found. MatchOption found (AreDistinct (map (λ line. line.doc) lines.now)) (λ p.
        IsFirstRepeat (map (λ line. line.doc) lines.now) p.0 p.1)) }
{
    let mut line_of = HashMap::with_capacity_and_hasher(alloc, lines.len(), Secret::drawn())?;
    for (i, line) in lines.iter().enumerate() {
        let second = i as u32 + 1;
        if let Some(first) = line_of.insert(line.doc.0, second)? {
            return Ok(Some((first, second)));
        }
    }
    Ok(None)
}

/// The documents of lines, each once, by rank.
fn by_rank(alloc: Global, lines: &[Scored], names: &Names) -> Result<Vec<DocId>, Memory>
    requires docs { All (λ line. line.doc.0 < length names.now) lines.now }
    requires distinct { AreDistinct (map (λ line. line.doc) lines.now) }
    ensures { IfOk result (λ docs. IsRanking names.now lines.now docs.items) }
{
    // names tell with their length that no name stands twice
    let _ = names.len();
    let mut order = lent(alloc, lines)?;
    order.sort_unstable_by(|a, b| standing(names, b, a));
    docs_of(alloc, &order)
}

fn lent(alloc: Global, lines: &[Scored]) -> Result<Vec<&Scored>, Memory>
    ensures { IfOk result (λ order. map (λ line. line.now) order.items ≡ lines.now) }
{
    Ok(lines.iter().collect(alloc)?)
}

fn docs_of(alloc: Global, order: &[&Scored]) -> Result<Vec<DocId>, Memory>
    ensures { IfOk result (λ docs. docs.items ≡ map (λ line. line.now.doc) order.now) }
{
    Ok(order.iter().map(|line| line.doc).collect(alloc)?)
}

/// The order of two lines by score, and at equal scores by docno.
#[tactic(auto, unfolding(crate::specs::Rankings::Ranks::standing_cmp))]
fn standing(names: &Names, a: &Scored, b: &Scored) -> Ordering
    ensures { result ≡ standing_cmp (standing_of names.now a.now) (standing_of names.now b.now) }
{
    match a.score.compare(&b.score) {
        Ordering::Equal => names.name_or_empty(a.doc).cmp(names.name_or_empty(b.doc)),
        unequal => unequal,
    }
}

impl Model for Ranking {
    ghost use Rattle.std.specs.Prelude.{◌≤◌, List, length};
    ghost use Rattle.decimal_rank.specs.declared.naming.DocId.{DocId};
    ghost use Rattle.decimal_rank.specs.Rankings.Places.{AreDistinct};
    ghost use Rattle.decimal_rank.specs.Rankings.Entries.{AreEntries};

    ghost Value = { List DocId };

    ghost view = { λ ranking. ranking.docs };

    ghost invariant = { λ ranking. (length ranking.docs ≤ 1000) × AreDistinct ranking.docs
        × AreEntries ranking.docs ranking.entries };
}

impl Ranking {
    /// Lists the documents in this very order.
    pub fn listed(docs: Vec<DocId>) -> Result<Ranking, Memory>
        requires few { length docs.items ≤ 1000 }
        requires distinct { AreDistinct docs.items }
        ensures { IfOk result (λ ranking. ranking ≡ docs.items) }
    {
        let entries = entries_of(*docs.allocator(), &docs)?;
        Ok(Ranking {
            docs: CountedList::new(docs),
            entries: CountedList::new(entries),
        })
    }

    /// How many documents there are, at most 1,000.
    pub fn len(&self) -> u32
        ensures len { result ≡ length self.now }
        ensures few { length self.now ≤ 1000 }
        ensures distinct { AreDistinct self.now }
    {
        self.docs.len() as u32
    }

    /// The document at a place, from 1, in one step.
    pub fn doc_at<L: Ledger>(&self, place: u32, steps: &mut Steps<L>) -> DocId
        requires from_one { 1 ≤ place }
        requires within { place ≤ length self.now }
        ensures doc { slice_get self.now (place - 1) ≡ Some result }
        ensures cost { steps.new ≡ steps.old + 1 }
    {
        self.docs.at(place as usize - 1, steps)
    }

    /// The place of a document, from 1, in at most one step for each binary digit of the length and
    /// one more. A step is an entry read.
    pub fn place_of<L: Ledger>(&self, doc: DocId, steps: &mut Steps<L>) -> Option<u32>
        ensures place { result ≡ place_in self.now doc }
        ensures cost { steps.new ≤ steps.old + levels (length self.now) + 1 }
    {
        place_among(&self.entries, doc.0, steps)
    }
}

/// The documents with their places, by document.
fn entries_of(alloc: Global, docs: &[DocId]) -> Result<Vec<Entry>, Memory>
    requires { length docs.now ≤ 1000 }
    ensures { IfOk result (λ entries. AreEntries docs.now entries.items) }
{
    let mut entries = placed(alloc, docs)?;
    entries.sort_unstable_by_key(|entry| entry.doc);
    Ok(entries)
}

fn placed(alloc: Global, docs: &[DocId]) -> Result<Vec<Entry>, Memory>
    requires { length docs.now ≤ 1000 }
    ensures { IfOk result (λ entries. entries.items ≡ entries_in docs.now) }
{
    let mut entries = Vec::with_capacity(alloc, docs.len())?;
    for (i, doc) in docs.iter().enumerate() {
        entries.push(Entry {
            doc: doc.0,
            place: i as u32 + 1,
        })?;
    }
    Ok(entries)
}

/// The place that stands beside a document in entries by document.
fn place_among<L: Ledger>(
    entries: &CountedList<Entry>,
    doc: u32,
    steps: &mut Steps<L>,
) -> Option<u32>
    requires { IsNonDecreasingBy (λ entry. entry.doc) entries.now }
    ensures found { IfSome result
        (λ place. Any (λ entry. (entry.doc ≡ doc) × (entry.place ≡ place)) entries.now) }
    ensures none { IfNone result (All (λ entry. entry.doc ≢ doc) entries.now) }
    ensures cost { steps.new ≤ steps.old + levels (length entries.now) + 1 }
{
    let mut low = 0;
    let mut high = entries.len();
    while low < high {
        let middle = low + (high - low) / 2;
        let entry = entries.at(middle, steps);
        match entry.doc.cmp(&doc) {
            Ordering::Less => low = middle + 1,
            Ordering::Equal => return Some(entry.place),
            Ordering::Greater => high = middle,
        }
    }
    None
}
