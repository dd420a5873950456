//! A replay: the entries of a journal, entered again one after another. Each is decided as a
//! request would be. The board doesn't follow meanwhile, since no command looks at it: the runs'
//! lists come on it at the end.
ghost use Rattle.std.specs.Prelude.{◌≡◌, ◌<◌, ◌∷◌, ◌++◌, [], IfOk, IsTrue, None, is_some, length};
ghost use Rattle.rulebook.specs.declared.ask.Ask.TheVariants.{Act};
ghost use Rattle.rulebook.specs.Histories.Legal.{IsLegal, founding, is_well_addressed};
ghost use Rattle.rulebook.specs.Spelling.{are_rules};
ghost use Rattle.rulebook.specs.Requests.Numbers.{entry_of_number};
ghost use Rattle.campaign_core.specs.CampaignStates.{IsKnown, IsReady, IsReplayed};
ghost use Rattle.campaign_core.specs.Numbering.NumberedRequests.{numbers_of};
ghost use Rattle.campaign_core.specs.Commands.Replays.{EntersCore, IsNext, MayFollow};

use crate::campaign::Campaign;
use crate::state::State;
use crate::state::preparations::prepared;
use crate::state::request_numbers::RequestNumbers;
use assessment::Assessment;
use decimal_rank::{Memory, Names, Steps};
use rulebook::{Entry, EntryCore, MAX_ENTRIES, Rules};
use std::alloc::Global;
use std::marker::{Brand, Model};
use std::sync::ledger::{Blank, Ledger};

/// A campaign whose entries are entered again. Contracts see its history.
pub struct Replay {
    campaign: Campaign,
    /// The docnos of the history.
    docnos: Names,
    /// The numbers of the history.
    numbers: RequestNumbers,
}

impl Model for Replay {
    ghost use Rattle.rulebook.specs.Campaign.{History};

    ghost Value = { History };

    ghost use Rattle.campaign_core.specs.CampaignStates.{IsReplayed};

    ghost view = { λ replay. replay.campaign.history.items };

    ghost invariant = { λ replay. IsReplayed replay.campaign replay.docnos replay.numbers };
}

// a call of its own, so that no caller's proof takes a replay apart
impl Drop for Replay {
    fn drop(self) {
        let Replay {
            campaign: _,
            docnos: _,
            numbers: _,
        } = self;
    }
}

impl Replay {
    /// A campaign of these rules, with its founding entry alone.
    pub fn found(alloc: Global, rules: Rules) -> Result<Replay, Memory>
        requires { IsTrue (are_rules rules) }
        ensures { IfOk result (λ replay. replay ≡ founding rules ∷ []) }
    {
        let assessment = Assessment::replayed(alloc)?;
        let campaign = Campaign::found(alloc, rules, assessment)?;
        Ok(Replay {
            campaign,
            docnos: Names::new(alloc),
            numbers: RequestNumbers::new(alloc),
        })
    }

    /// How many entries the history has.
    pub fn entries(&self) -> u32
        ensures entries { result ≡ length self.now }
        ensures legal { IsLegal self.now }
    {
        self.campaign.history.len() as u32
    }

    /// Adds the entry of this core, where the rules add it. False is that they don't.
    pub fn enter(&mut self, core: EntryCore) -> Result<bool, Memory>
        requires { IsTrue
            (is_well_addressed core.caller core.number (Act core.command) core.moment) }
        ensures { IfOk result (λ entered. EntersCore self.old core entered self.new) }
    {
        let next = is_next(&self.campaign, &self.numbers, &core)?;
        if !next {
            return Ok(false);
        }
        enter_next(
            &mut self.campaign,
            &mut self.docnos,
            &mut self.numbers,
            core,
        )
    }

    /// The campaign, whose board has the lists of the live runs then.
    pub fn finish(self, alloc: Global) -> Result<State, Memory>
        ensures history { IfOk result (λ state. state.history ≡ self) }
        ensures prepared { IfOk result (λ state. state.prepared ≡ None) }
    {
        let Replay {
            campaign,
            docnos,
            numbers,
        } = self;
        let campaign = campaign.with_lists(alloc)?;
        Ok(State::replayed(alloc, campaign, docnos, numbers))
    }
}

/// Adds the entry of a core that may come next, where the rules add it.
fn enter_next(
    campaign: &mut Campaign,
    docnos: &mut Names,
    numbers: &mut RequestNumbers,
    core: EntryCore,
) -> Result<bool, Memory>
    requires replayed { IsReplayed campaign.old docnos.old numbers.old }
    requires addressed { IsTrue
        (is_well_addressed core.caller core.number (Act core.command) core.moment) }
    requires next { MayFollow campaign.old.history.items core }
    ensures replayed { IsReplayed campaign.new docnos.new numbers.new }
    ensures entered { IfOk result
        (λ entered. EntersCore campaign.old.history.items core entered campaign.new.history.items) }
{
    let docnos_kept = docnos.len();
    let numbers_kept = numbers.len();
    match prepared(campaign, docnos, numbers, core) {
        Ok(Ok(prepared)) => {
            commit::<Brand>(campaign, prepared.entry, Blank::new(1));
            Ok(true)
        }
        Ok(Err(_)) => {
            docnos.cut(docnos_kept);
            numbers.cut(numbers_kept);
            Ok(false)
        }
        Err(memory) => {
            docnos.cut(docnos_kept);
            numbers.cut(numbers_kept);
            Err(memory)
        }
    }
}

/// Whether an entry may come next.
fn is_next(campaign: &Campaign, numbers: &RequestNumbers, core: &EntryCore) -> Result<bool, Memory>
    requires known { IsKnown campaign.now }
    requires numbers { numbers.now ≡ numbers_of campaign.now.history.items }
    ensures { IfOk result (IsNext campaign.now.history.items core.now) }
{
    let used = is_used(&campaign.history, numbers, core)?;
    if used {
        return Ok(false);
    }
    if campaign.history.len() == MAX_ENTRIES as usize {
        return Ok(false);
    }
    Ok(campaign.moment_after(core.moment) == core.moment)
}

/// Whether a caller used its number before.
fn is_used(history: &[Entry], numbers: &RequestNumbers, core: &EntryCore) -> Result<bool, Memory>
    requires { numbers.now ≡ numbers_of history.now }
    ensures { IfOk result
        (λ is. is ≡ is_some (entry_of_number history.now core.now.caller.name core.now.number)) }
{
    let Some(number) = core.number else {
        return Ok(false);
    };
    let place = numbers.find(&core.caller.name, number)?;
    Ok(place.is_some())
}

/// Adds an entry that is ready. Nobody counts the steps here.
fn commit<L: Ledger>(campaign: &mut Campaign, entry: Entry, blank: Blank)
    requires known { IsKnown campaign.old }
    requires ready { IsReady campaign.old entry }
    requires name { blank.name ≡ L.name }
    requires parts { blank.parts ≡ L.parts }
    requires some { 0 < L.parts }
    ensures history { campaign.new.history.items ≡ campaign.old.history.items ++ entry ∷ [] }
    ensures known { IsKnown campaign.new }
    ensures idle { campaign.new.assessment.pending ≡ None }
{
    let mut steps: Steps<L> = Steps::new(blank);
    campaign.commit(entry, &mut steps);
}
