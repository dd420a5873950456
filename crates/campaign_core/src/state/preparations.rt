//! What a command comes to before its entry is committed: the kept reply where its number was used
//! before, else its first refusal, or its entry with the change that then waits.
ghost use Rattle.std.specs.Prelude.{◌≡◌, ℕ, IfOk, None, OnErr, Some};
ghost use Rattle.campaign_core.specs.Commands.Decisions.{IsNewRequest, IsNumberFor};
ghost use Rattle.campaign_core.specs.Growth.{BeginsWith};
ghost use Rattle.campaign_core.specs.CampaignStates.{IsPrepared, IsUnchanged};
ghost use Rattle.campaign_core.specs.Numbering.NumberedRequests.{AddsNumber, numbers_of, place_of_number, repeated_reply};

use crate::campaign::Campaign;
use crate::decisions::{Decision, decide};
use crate::state::request_numbers::RequestNumbers;
use crate::state::verdict::Prepared;
use decimal_rank::{Memory, Names};
use rulebook::{Caller, Command, Entry, EntryCore, Refusal, Reply};
use std::alloc::Global;

/// The reply to a command whose caller used its number before: the kept one where the command is
/// the same.
pub(crate) fn kept_reply(
    alloc: Global,
    history: &[Entry],
    numbers: &RequestNumbers,
    who: &Caller,
    number: Option<u64>,
    command: &Command,
) -> Result<Option<Reply>, Memory>
    requires { numbers.now ≡ numbers_of history.now }
    ensures { IfOk result
        (λ told. told ≡ repeated_reply history.now who.now.name number command.now) }
{
    let Some(number) = number else {
        return Ok(None);
    };
    let Some(place) = numbers.find(&who.name, number)? else {
        return Ok(None);
    };
    let entry = &history[place as usize - 1];
    if !command.is_same(&entry.core.command) {
        return Ok(Some(Reply::Refused(Refusal::Reused { entry: place })));
    }
    Ok(Some(entry.reply.copy(alloc)?))
}

/// The entry of a command, whose change then waits, with its docnos and its number added; or the
/// first refusal of the command.
pub(crate) fn prepared(
    campaign: &mut Campaign,
    docnos: &mut Names,
    numbers: &mut RequestNumbers,
    core: EntryCore,
) -> Result<Result<Prepared, Refusal>, Memory>
    requires new { IsNewRequest campaign.old docnos.old numbers.old core }
    requires idle { campaign.old.assessment.pending ≡ None }
    ensures unchanged { IsUnchanged campaign.old campaign.new }
    ensures docnos_grown { BeginsWith docnos.old docnos.new }
    ensures numbers_grown { BeginsWith numbers.old numbers.new }
    ensures prepared { IfOk result (IsPrepared campaign.new docnos.new numbers.new core) }
    ensures err { OnErr result (campaign.new.assessment.pending ≡ None) }
{
    // here, since the steps of a commit are bounded
    let topic = campaign.lead_fronts(&core)?;
    decided(campaign, docnos, numbers, core, topic)
}

/// The same, once the fronts are led on, by the number of the topic on which a lease is asked for.
fn decided(
    campaign: &mut Campaign,
    docnos: &mut Names,
    numbers: &mut RequestNumbers,
    core: EntryCore,
    topic: Option<usize>,
) -> Result<Result<Prepared, Refusal>, Memory>
    requires new { IsNewRequest campaign.old docnos.old numbers.old core }
    requires topic { IsNumberFor campaign.old core.command topic }
    requires idle { campaign.old.assessment.pending ≡ None }
    ensures unchanged { IsUnchanged campaign.old campaign.new }
    ensures docnos_grown { BeginsWith docnos.old docnos.new }
    ensures numbers_grown { BeginsWith numbers.old numbers.new }
    ensures prepared { IfOk result (IsPrepared campaign.new docnos.new numbers.new core) }
    ensures err { OnErr result (campaign.new.assessment.pending ≡ None) }
{
    let alloc = *campaign.history.allocator();
    match decide(alloc, campaign, docnos, &core, topic)? {
        Decision::Refused(refusal) => Ok(Err(refusal)),
        Decision::Accepted(reply, change) => {
            add_number(numbers, &core, campaign.history.len() as u32 + 1)?;
            let told = reply.copy(alloc)?;
            // last, so that nothing is pending where there was no memory
            campaign.reserve(change)?;
            Ok(Ok(Prepared {
                entry: Entry { core, reply: told },
                reply,
            }))
        }
    }
}

/// Adds the number of an entry at a place, from 1, if it has one.
fn add_number(numbers: &mut RequestNumbers, core: &EntryCore, place: u32) -> Result<(), Memory>
    requires { (number : ℕ) → core.now.number ≡ Some number
        → place_of_number core.now.caller.name number numbers.old ≡ None }
    ensures { AddsNumber place core.now numbers.old numbers.new result }
{
    match core.number {
        Some(number) => numbers.add(core.caller.name.copy()?, number, place),
        None => Ok(()),
    }
}
