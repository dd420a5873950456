//! The state of a campaign. A request is answered first; the change of an accepted one is given
//! room then, and made when its entry joins the history.
ghost use Rattle.std.specs.Prelude.{◌≡◌, ◌+◌, ◌<◌, ◌≤◌, ◌∷◌, [], ◌++◌, length, IfOk, IsSome, OnErr, IsTrue, None, Some, true};
ghost use Rattle.std.specs.Option.{option_map};
ghost use Rattle.rulebook.specs.declared.ask.Ask.TheVariants.{Act};
ghost use Rattle.rulebook.specs.Spelling.{are_rules};
ghost use Rattle.rulebook.specs.Campaign.{phase as phase_of};
ghost use Rattle.rulebook.specs.Answers.{answer, moment_after, query_outcome as told_of, reply_of};
ghost use Rattle.rulebook.specs.Histories.Legal.{is_well_addressed, founding, IsLegal};
ghost use Rattle.campaign_core.specs.Commands.Costs.{commit_steps};
ghost use Rattle.assessment.specs.Changes.{facts};
ghost use Rattle.campaign_core.specs.CampaignStates.{IsKnown};
ghost use Rattle.campaign_core.specs.Numbering.Numbers.{names_of};
ghost use Rattle.campaign_core.specs.Numbering.NumberedRequests.{numbers_of, repeated_reply};
ghost use Rattle.campaign_core.specs.Views.Lendings.{IsBoardOf, IsQueueOf};
ghost use Rattle.campaign_core.specs.State.{IsAtRest, IsFirst, IsVerdict};
ghost use Rattle.campaign_core.specs.Views.Tallies.{IsTally, submitted_at};
ghost use Rattle.campaign_core.specs.Assessments.Topics.{topic_ids};

pub(crate) mod preparations;
pub(crate) mod request_numbers;
pub(crate) mod verdict;

use crate::campaign::Campaign;
use crate::campaign::submissions::name_of;
use crate::queries::{Inquiry, query_reply};
use crate::state::preparations::{kept_reply, prepared};
use crate::state::request_numbers::RequestNumbers;
use crate::state::verdict::{Prepared, Verdict};
use crate::tallies::{Tally, tally_of};
use assessment::Assessment;
use decimal_rank::{Memory, Names, Steps};
use depth_pool::RunId;
use mtf_queue::Queue;
use qrels_view::DocnoOrder;
use rulebook::{
    Ask, Caller, Command, Entry, EntryCore, MAX_ENTRIES, Phase, Quantity, Query, Refusal, Reply,
    Rules,
};
use score_index::Board;
use std::alloc::Global;
use std::marker::Model;
use std::snapshot::Snapshot;
use std::sync::ledger::Ledger;

/// A campaign, from its founding on. Contracts see its history and the entry that is prepared, if
/// one is.
pub struct State {
    pub(crate) campaign: Campaign,
    /// The docnos of the history, and then those of the last request that was prepared.
    docnos: Names,
    /// How many docnos the history has.
    docnos_kept: u32,
    /// The numbers of the history, and then that of the last command that was prepared.
    numbers: RequestNumbers,
    /// How many numbers the history has.
    numbers_kept: usize,
    prepared: Option<Snapshot<Entry>>,
    /// By the numbers of the topics, the orders in which the last pages left their documents with a
    /// grade.
    orders: Vec<DocnoOrder>,
}

impl Model for State {
    ghost use Rattle.std.specs.Option.{option_map};
    ghost use Rattle.campaign_core.specs.StateViews.{StateView};

    ghost Value = { StateView };

    ghost use Rattle.campaign_core.specs.CampaignStates.{IsKept};

    ghost view = { λ s. record {
      history = s.campaign.history.items;
      prepared = option_map (λ entry. entry.value) s.prepared;
    } };

    ghost invariant = { IsKept };
}

// a call of its own, so that no caller's proof takes a state apart
impl Drop for State {
    fn drop(self) {
        let State {
            campaign: _,
            docnos: _,
            docnos_kept: _,
            numbers: _,
            numbers_kept: _,
            prepared: _,
            orders: _,
        } = self;
    }
}

impl State {
    /// A campaign of these rules, with its founding entry alone.
    pub fn found(alloc: Global, rules: Rules) -> Result<State, Memory>
        requires { IsTrue (are_rules rules) }
        ensures history { IfOk result (λ state. state.history ≡ founding rules ∷ []) }
        ensures prepared { IfOk result (λ state. state.prepared ≡ None) }
    {
        let assessment = Assessment::new(alloc)?;
        let campaign = Campaign::found(alloc, rules, assessment)?;
        Ok(State {
            campaign,
            docnos: Names::new(alloc),
            docnos_kept: 0,
            numbers: RequestNumbers::new(alloc),
            numbers_kept: 0,
            prepared: None,
            orders: Vec::new(alloc),
        })
    }

    /// What a replay came to.
    pub(crate) fn replayed(
        alloc: Global,
        campaign: Campaign,
        docnos: Names,
        numbers: RequestNumbers,
    ) -> State
        requires known { IsKnown campaign }
        requires on_board { (facts campaign.assessment).on_board ≡ true }
        requires idle { campaign.assessment.pending ≡ None }
        requires docnos { docnos ≡ names_of campaign.history.items }
        requires numbers { numbers ≡ numbers_of campaign.history.items }
        ensures { result ≡ record { history = campaign.history.items; prepared = None } }
    {
        let docnos_kept = docnos.len();
        let numbers_kept = numbers.len();
        State {
            campaign,
            docnos,
            docnos_kept,
            numbers,
            numbers_kept,
            prepared: None,
            orders: Vec::new(alloc),
        }
    }

    /// How many entries the history has.
    pub fn entries(&self) -> u32
        ensures entries { result ≡ length self.now.history }
        ensures legal { IsLegal self.now.history }
    {
        self.campaign.history.len() as u32
    }

    /// The campaign's phase.
    pub fn phase(&self) -> Phase
        ensures { result ≡ phase_of self.now.history }
    {
        self.campaign.phase
    }

    /// How the judgements and the runs stand. It takes a few steps for each topic, and looks at
    /// each live run once.
    pub fn tally(&self) -> Tally
        ensures { IsTally self.now.history result }
    {
        tally_of(&self.campaign)
    }

    /// The name of a submitted run, by its number of submission from 0.
    pub fn run_name(&self, run: RunId) -> &[u8]
        requires { IsSome (submitted_at self.now.history run) }
        ensures { option_map (λ run. run.name) (submitted_at self.now.history run)
            ≡ Some result.now }
    {
        let place = self.campaign.submissions[usize::from(run.0)].place;
        name_of(&self.campaign.history[place as usize])
    }

    /// The board of the live runs' lists, which stands for the effective grades.
    pub fn board(&self) -> &Board
        ensures board { IsBoardOf self.now.history result.now }
        ensures as_many { length result.now.topics ≡ length (topic_ids self.now.history) }
    {
        self.campaign.assessment.topics().board()
    }

    /// The live runs of a topic, by its number from 0, in the judging order.
    pub fn queue(&self, topic: u16) -> &Queue
        requires { topic < length (topic_ids self.now.history) }
        ensures { IsQueueOf self.now.history topic result.now }
    {
        self.campaign.assessment.topics().items()[topic as usize].queue()
    }

    /// Works out what the rules answer. What was prepared before and not committed is dropped.
    pub fn prepare(
        &mut self,
        who: &Caller,
        number: Option<u64>,
        ask: Ask,
        moment: u64,
    ) -> Result<Verdict, Memory>
        requires addressed { IsTrue (is_well_addressed who.now number ask moment) }
        ensures history { self.new.history ≡ self.old.history }
        ensures verdict { let answer = answer self.old.history who.now number ask moment in
            IfOk result (λ verdict. IsVerdict answer verdict self.new.prepared) }
        ensures err { OnErr result (self.new.prepared ≡ None) }
    {
        match ask {
            Ask::Act(command) => match self.repeated(who, number, &command)? {
                Some(reply) => Ok(Verdict::Told(reply)),
                None => self.prepare_command(who, number, command, moment),
            },
            Ask::See(query) => Ok(Verdict::Told(self.tell(who, query, moment)?)),
        }
    }

    /// Adds the prepared entry, and gives its reply. A step is a node of a tree, an entry of a
    /// ranked list that is read, or a look into a pool.
    pub fn commit<L: Ledger>(&mut self, p: Prepared, steps: &mut Steps<L>) -> Reply
        requires { self.old.prepared ≡ Some p }
        ensures history { self.new.history ≡ self.old.history ++ p ∷ [] }
        ensures prepared { self.new.prepared ≡ None }
        ensures reply { result ≡ p.reply }
        ensures legal { IsLegal self.new.history }
        ensures cost { steps.new ≤ steps.old + commit_steps self.old.history p.core.command }
    {
        let reply = p.reply;
        self.docnos_kept = self.docnos.len();
        self.numbers_kept = self.numbers.len();
        self.campaign.commit(p.entry, steps);
        self.prepared = None;
        reply
    }

    /// Drops the prepared entry.
    pub fn cancel(&mut self, p: Prepared)
        requires { self.old.prepared ≡ Some p }
        ensures { IsAtRest self.old self.new }
    {
        drop(p);
        self.forget();
    }

    fn forget(&mut self)
        ensures { IsAtRest self.old self.new }
    {
        self.prepared = None;
        self.campaign.assessment.cancel();
    }

    /// What a query is told. What was prepared is dropped.
    fn tell(&mut self, who: &Caller, query: Query, moment: u64) -> Result<Reply, Memory>
        ensures rest { IsAtRest self.old self.new }
        ensures reply { let H = self.old.history in
            IfOk result
            (λ reply. reply ≡ reply_of (told_of H who.now (moment_after H moment) query)) }
    {
        self.forget();
        let alloc = *self.campaign.history.allocator();
        let moment = self.campaign.moment_after(moment);
        self.docnos.cut(self.docnos_kept);
        let inquiry = Inquiry {
            campaign: &self.campaign,
            docnos: &self.docnos,
            who,
            moment,
        };
        query_reply(alloc, &inquiry, query, &mut self.orders)
    }

    /// The reply to a command whose caller used its number before. What was prepared is dropped.
    fn repeated(
        &mut self,
        who: &Caller,
        number: Option<u64>,
        command: &Command,
    ) -> Result<Option<Reply>, Memory>
        ensures rest { IsAtRest self.old self.new }
        ensures reply { IfOk result
            (λ told. told ≡ repeated_reply self.old.history who.now.name number command.now) }
    {
        self.forget();
        let alloc = *self.campaign.history.allocator();
        self.numbers.cut(self.numbers_kept);
        kept_reply(
            alloc,
            &self.campaign.history,
            &self.numbers,
            who,
            number,
            command,
        )
    }

    /// What a command comes to whose caller didn't use its number before.
    fn prepare_command(
        &mut self,
        who: &Caller,
        number: Option<u64>,
        command: Command,
        moment: u64,
    ) -> Result<Verdict, Memory>
        requires { IsFirst self.old who.now number command moment }
        ensures history { self.new.history ≡ self.old.history }
        ensures verdict { let answer = answer self.old.history who.now number
            (Act command) moment in
            IfOk result (λ verdict. IsVerdict answer verdict self.new.prepared) }
        ensures err { OnErr result (self.new.prepared ≡ None) }
    {
        if self.campaign.history.len() == MAX_ENTRIES as usize {
            return Ok(Verdict::Told(Reply::Refused(Refusal::Limit {
                which: Quantity::Entries,
            })));
        }
        let core = EntryCore {
            caller: who.copy()?,
            number,
            moment: self.campaign.moment_after(moment),
            command,
        };
        self.docnos.cut(self.docnos_kept);
        self.numbers.cut(self.numbers_kept);
        match prepared(
            &mut self.campaign,
            &mut self.docnos,
            &mut self.numbers,
            core,
        )? {
            Ok(prepared) => {
                self.prepared = Some(Snapshot::of(&prepared.entry));
                Ok(Verdict::Ready(prepared))
            }
            Err(refusal) => Ok(Verdict::Told(Reply::Refused(refusal))),
        }
    }
}
