//! The commit of an entry, whose steps nobody counts here.
ghost use Rattle.std.specs.Prelude.{◌≡◌, ◌<◌, [], ◌∷◌, ◌++◌, Some};
ghost use Rattle.rulebook.specs.Histories.Legal.{IsLegal};

use campaign_core::{Prepared, State};
use decimal_rank::Steps;
use rulebook::Reply;
use std::sync::ledger::{Blank, Ledger};

/// Adds the prepared entry to the accepted ones, and gives its reply.
pub(crate) fn commit<L: Ledger>(state: &mut State, prepared: Prepared, blank: Blank) -> Reply
    requires prepared { state.old.prepared ≡ Some prepared }
    requires name { blank.name ≡ L.name }
    requires parts { blank.parts ≡ L.parts }
    requires some { 0 < L.parts }
    ensures history { state.new.history ≡ state.old.history ++ prepared ∷ [] }
    ensures reply { result ≡ prepared.reply }
    ensures legal { IsLegal state.new.history }
{
    let mut steps: Steps<L> = Steps::new(blank);
    state.commit(prepared, &mut steps)
}
