//! The laws of the rules and of the records on which a book rests.
ghost use Rattle.book.specs.Laws.{Laws};

use record_codec::{briefs_fit, bundles_fit, one_payload};
use rulebook::{
    added_are_accepted, entries_are_few, entries_are_spelled, founding_fits, legal_fit,
    moments_rise,
};

pub(crate) fn rule_laws()
    ensures { Laws }
{
    added_are_accepted();
    entries_are_few();
    founding_fits();
    legal_fit();
    moments_rise();
    entries_are_spelled();
    one_payload();
    bundles_fit();
    briefs_fit();
}
