//! Which documents a list may have, so that one look passes most lists that don't have a document.
ghost use Rattle.std.specs.Prelude.{◌≡◌, ◌+◌, ◌≤◌, true};
ghost use Rattle.decimal_rank.specs.declared.naming.DocId.{DocId as OneDoc};
ghost use Rattle.score_index.specs.Filters.{AdmitsAll, admits};

use decimal_rank::{DocId, Memory, Ranking, Steps};
use rank_trees::PlaceWords;
use std::alloc::Global;
use std::marker::Model;
use std::sync::ledger::Ledger;

/// Bits, of which a document has the one whose place is the remainder of its number by how many
/// there are. Of the documents that weren't admitted, those that share their bits with one that was
/// pass too.
#[derive(Drop)]
pub(crate) struct Filter {
    count: u32,
    bits: PlaceWords,
}

impl Model for Filter {
    ghost use Rattle.std.specs.Prelude.{◌<◌, ◌≤◌, length};
    ghost use Rattle.score_index.specs.Filters.{Bits};

    ghost Value = { Bits };

    ghost view = { λ filter. record { count = filter.count; on = filter.bits } };

    ghost invariant = { λ filter. (0 < filter.count) × (filter.count ≤ length filter.bits) };
}

impl Filter {
    /// A filter for so many documents, with 32 bits for each. It admits none.
    pub(crate) fn new(alloc: Global, docs: u32) -> Result<Filter, Memory>
        requires { docs ≤ 1000 }
    {
        let bits = PlaceWords::new(alloc, 32 * docs)?;
        Ok(Filter {
            count: 32 * docs + 1,
            bits,
        })
    }

    /// Admits a document from now on.
    pub(crate) fn admit<L: Ledger>(&mut self, doc: DocId, steps: &mut Steps<L>)
        ensures admitted { admits self.new doc ≡ true }
        ensures others { (other : OneDoc) → admits self.old other ≡ true
            → admits self.new other ≡ true }
    {
        self.bits.put(doc.0 % self.count, true, steps);
    }

    /// Whether a document passes, in one step: each that was admitted does.
    pub(crate) fn admits<L: Ledger>(&self, doc: DocId, steps: &mut Steps<L>) -> bool
        ensures admits { result ≡ admits self.now doc }
        ensures cost { steps.new ≡ steps.old + 1 }
    {
        self.bits.is_on(doc.0 % self.count, steps)
    }
}

/// Admits the documents of a ranking.
pub(crate) fn admit_all<L: Ledger>(filter: &mut Filter, ranking: &Ranking, steps: &mut Steps<L>)
    ensures { AdmitsAll filter.new ranking.now }
{
    for place in 0..ranking.len() {
        let doc = ranking.doc_at(place + 1, steps);
        filter.admit(doc, steps);
    }
}
