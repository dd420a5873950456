//! The founding of a campaign: its first entry, made of the rules, and the rules found in it again.
ghost use Rattle.std.specs.Prelude.{◌≡◌, IfOk, MatchOption};
ghost use Rattle.rulebook.specs.declared.rules.Rules.{Rules as CampaignRules};
ghost use Rattle.rulebook.specs.Histories.Legal.{founding};

use crate::ask::Command;
use crate::entry::EntryCore;
use crate::rules::{Caller, Role, Rules};
use decimal_rank::{Memory, Text};
use std::alloc::Global;

/// The name of the caller of the first entry.
const FOUNDER: &[u8] = b"campaign";

/// What the first entry of a campaign of these rules keeps.
pub fn founding_core(alloc: Global, rules: Rules) -> Result<EntryCore, Memory>
    ensures { IfOk result (λ core. core ≡ (founding rules).core) }
{
    let name = Text::from_slice(alloc, FOUNDER)?;
    Ok(EntryCore {
        caller: Caller {
            name,
            role: Role::Organiser,
        },
        number: None,
        moment: 0,
        command: Command::Found { rules },
    })
}

/// The rules of the campaign that this entry founds. None is that it founds none.
pub fn rules_founded(core: EntryCore) -> Option<Rules>
    ensures { MatchOption result ((rules : CampaignRules) → core ≡ (founding rules).core → ⊥)
        (λ rules. core ≡ (founding rules).core) }
{
    let EntryCore {
        caller,
        number,
        moment,
        command,
    } = core;
    if caller.name.bytes() != FOUNDER
        || caller.role != Role::Organiser
        || number.is_some()
        || moment != 0
    {
        return None;
    }
    command.founding_rules()
}
