//! Runs whose lists wait, as those of a replay do: each is in the pools and the queues, and its
//! lists come on the board at the end, with the grades that their documents have then.
ghost use Rattle.std.specs.Prelude.{◌≡◌, ◌-◌, ◌≤◌, ◌++◌, ◌∷◌, [], OnOk, false, map, true};
ghost use Rattle.assessment.specs.WaitingRuns.{IsWaitingAs, is_run, lists_of, waiting_without};

use decimal_rank::{Memory, Ranking};
use depth_pool::RunId;
use std::alloc::Global;
use std::marker::Model;

/// A run, and its list on each topic by number.
#[derive(Drop)]
pub(crate) struct WaitingRun {
    pub(crate) run: RunId,
    pub(crate) lists: Vec<Ranking>,
}

/// The runs whose lists wait. Contracts see them, whether the lists of new runs are put on the
/// board at once, and for how many more runs there is room.
#[derive(Drop)]
pub(crate) struct Waiting {
    runs: Vec<WaitingRun>,
    is_on_board: bool,
}

impl Model for Waiting {
    ghost use Rattle.std.specs.Prelude.{◌≡◌, ◌-◌, [], map, true, vec_capacity, vec_len};
    ghost use Rattle.assessment.specs.WaitingRuns.{WaitingView, lists_of};

    ghost Value = { WaitingView };

    ghost view = { λ waiting. record {
      runs = map lists_of waiting.runs.items;
      on_board = waiting.is_on_board;
      spare = vec_capacity waiting.runs - vec_len waiting.runs;
    } };

    ghost invariant = { λ waiting. waiting.is_on_board ≡ true → waiting.runs.items ≡ [] };
}

impl Waiting {
    /// No run yet.
    pub(crate) fn new(alloc: Global, is_on_board: bool) -> Waiting
        ensures runs { result.runs ≡ [] }
        ensures on_board { result.on_board ≡ is_on_board }
    {
        Waiting {
            runs: Vec::new(alloc),
            is_on_board,
        }
    }

    /// Whether the lists of a run are put on the board as it enters.
    pub(crate) fn is_on_board(&self) -> bool
        ensures on_board { result ≡ self.now.on_board }
        ensures none { result ≡ true → (self.now.runs ≡ []) }
    {
        self.is_on_board
    }

    /// Makes room for one more run.
    pub(crate) fn reserve(&mut self) -> Result<(), Memory>
        ensures room { OnOk result (1 ≤ self.new.spare) }
        ensures same { IsWaitingAs self.old.runs self.old self.new }
    {
        self.runs.reserve(1)?;
        Ok(())
    }

    /// Adds a run, for which there is room.
    pub(crate) fn enter(&mut self, run: RunId, lists: Vec<Ranking>)
        requires off { self.old.on_board ≡ false }
        requires room { 1 ≤ self.old.spare }
        ensures { IsWaitingAs
            (self.old.runs ++ record { run = run; lists = lists.items } ∷ []) self.old self.new }
    {
        self.runs.push_reserved(WaitingRun { run, lists });
    }

    /// Takes a run out.
    pub(crate) fn leave(&mut self, run: RunId)
        ensures { IsWaitingAs (waiting_without run self.old.runs) self.old self.new }
    {
        self.runs.retain(|one| !is_of(one, run));
    }

    /// Takes all runs out.
    pub(crate) fn clear(&mut self)
        ensures { IsWaitingAs [] self.old self.new }
    {
        self.runs.clear();
    }

    /// The runs.
    pub(crate) fn into_runs(self) -> Vec<WaitingRun>
        ensures { map lists_of result.items ≡ self.runs }
    {
        let Waiting {
            runs,
            is_on_board: _,
        } = self;
        runs
    }
}

fn is_of(one: &WaitingRun, run: RunId) -> bool
    ensures { result ≡ is_run run (lists_of one.now) }
{
    one.run.0 == run.0
}
