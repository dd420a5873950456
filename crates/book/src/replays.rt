//! Records as the entries of a campaign: the first founds it, and each other is entered behind it.
ghost use Rattle.std.specs.Prelude.{◌≡◌, ◌∷◌, IfErr, IfOk, IsTrue, List, MatchResult};
ghost use Rattle.book.specs.declared.faults.BookFault.TheVariants as fault;
ghost use Rattle.std.specs.Str.{bytes_eq};
ghost use Rattle.journal.specs.KeptRecords.{payloads as payloads_of};
ghost use Rattle.rulebook.specs.declared.rules.Rules.{Rules as CampaignRules};
ghost use Rattle.rulebook.specs.Campaign.{History};
ghost use Rattle.rulebook.specs.Spelling.{are_rules};
ghost use Rattle.rulebook.specs.Words.{Text};
ghost use Rattle.book.specs.Laws.{Laws};
ghost use Rattle.book.specs.Opening.Replays.{EntersAll, HasBegun, Replays, Restores, Stops};

pub(crate) mod founding;
mod record_entries;

use crate::faults::BookFault;
use crate::replays::founding::{begin, founding_bytes};
use crate::replays::record_entries::{enter_all, enter_each};
use campaign_core::{Replay, State};
use decimal_rank::Memory;
use rulebook::Rules;
use std::alloc::Global;

fn are_equal(first: &[u8], second: &[u8]) -> bool
    ensures { result ≡ bytes_eq first.now second.now }
{
    first == second
}

/// The campaign that a first record founds, and whether its rules are the wanted ones: whether the
/// record is the spelling of their founding entry.
fn begun(alloc: Global, first: &[u8], rules: Rules) -> Result<(Replay, bool), BookFault>
    requires laws { Laws }
    requires rules { IsTrue (are_rules rules) }
    ensures { MatchResult result (HasBegun rules first.now)
        (λ why. (others : List Text) → Stops rules (first.now ∷ others) why) }
{
    let Ok(wanted) = founding_bytes(alloc, rules) else {
        return Err(BookFault::Memory);
    };
    match begin(alloc, first) {
        Ok(Some(replay)) => Ok((replay, are_equal(first, &wanted))),
        Ok(None) => Err(BookFault::Damaged { entry: 1 }),
        Err(Memory) => Err(BookFault::Memory),
    }
}

/// What a campaign comes to behind whose first entry those of other records were entered.
fn ended(
    replay: Replay,
    entered: Result<bool, Memory>,
    is_wanted: bool,
) -> Result<Replay, BookFault>
    requires laws { Laws }
    ensures { (rules : CampaignRules) (first : Text) (others : List Text) (begun : History)
        → IsTrue (are_rules rules) → HasBegun rules first (begun, is_wanted)
        → IfOk entered (λ all. EntersAll begun others all replay)
        → Replays rules (first ∷ others) result }
{
    let entries = replay.entries();
    match entered {
        Ok(true) => {
            if is_wanted {
                return Ok(replay);
            }
            Err(BookFault::RulesDiffer)
        }
        Ok(false) => {
            let entry = entries + 1;
            Err(BookFault::Damaged { entry })
        }
        Err(Memory) => Err(BookFault::Memory),
    }
}

fn finished(alloc: Global, replay: Replay) -> Result<State, BookFault>
    ensures history { IfOk result (λ state. state.history ≡ replay) }
    ensures memory { IfErr result (λ why. why ≡ fault.Memory) }
{
    match replay.finish(alloc) {
        Ok(state) => Ok(state),
        Err(Memory) => Err(BookFault::Memory),
    }
}

/// The campaign of these rules whose entries the records are. Each of the others is freed once it
/// is entered.
pub(crate) fn replay(
    alloc: Global,
    first: &[u8],
    others: Vec<Vec<u8>>,
    rules: Rules,
) -> Result<State, BookFault>
    requires laws { Laws }
    requires rules { IsTrue (are_rules rules) }
    ensures { Restores rules (first.now ∷ payloads_of others.items) result }
{
    match replayed_owned(alloc, first, others, rules) {
        Ok(replay) => finished(alloc, replay),
        Err(fault) => Err(fault),
    }
}

/// Its entries, entered again.
fn replayed_owned(
    alloc: Global,
    first: &[u8],
    others: Vec<Vec<u8>>,
    rules: Rules,
) -> Result<Replay, BookFault>
    requires laws { Laws }
    requires rules { IsTrue (are_rules rules) }
    ensures { Replays rules (first.now ∷ payloads_of others.items) result }
{
    match begun(alloc, first, rules) {
        Ok((replay, is_wanted)) => {
            let mut replay = replay;
            let entered = enter_each(alloc, &mut replay, others);
            ended(replay, entered, is_wanted)
        }
        Err(fault) => Err(fault),
    }
}

/// The same, where the records stay.
pub(crate) fn replayed(
    alloc: Global,
    first: &[u8],
    others: &[Vec<u8>],
    rules: Rules,
) -> Result<Replay, BookFault>
    requires laws { Laws }
    requires rules { IsTrue (are_rules rules) }
    ensures { Replays rules (first.now ∷ payloads_of others.now) result }
{
    match begun(alloc, first, rules) {
        Ok((replay, is_wanted)) => {
            let mut replay = replay;
            let entered = enter_all(alloc, &mut replay, others);
            ended(replay, entered, is_wanted)
        }
        Err(fault) => Err(fault),
    }
}
