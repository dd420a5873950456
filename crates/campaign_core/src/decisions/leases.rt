//! What the commands about a lease share.
ghost use Rattle.std.specs.Prelude.{◌≡◌, IfOk};
ghost use Rattle.decimal_rank.specs.Names.{docno_of};
ghost use Rattle.campaign_core.specs.Assessments.DeskLeases.{first_refusal, refusals_of};

use decimal_rank::{DocId, Memory, Names, Text};
use lease_desk::Lease;
use rulebook::{Caller, Refusal};
use std::alloc::Global;

/// The first refusal of a request about a lease.
pub(crate) fn lease_refusal(lease: &Lease, who: &Caller, now: u64) -> Option<Refusal>
    ensures { result ≡ first_refusal (refusals_of lease.now who.now.name now) }
{
    if lease.assessor.bytes() != who.name.bytes() {
        return Some(Refusal::NotYours);
    }
    if lease.end.is_some() {
        return Some(Refusal::Ended);
    }
    if lease.until <= now {
        return Some(Refusal::Expired { until: lease.until });
    }
    None
}

/// The docno of a document.
pub(crate) fn docno(alloc: Global, docnos: &Names, doc: DocId) -> Result<Text, Memory>
    ensures { IfOk result (λ text. text ≡ docno_of docnos.now doc.0) }
{
    Text::from_slice(alloc, docnos.name_or_empty(doc))
}
