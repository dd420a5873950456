//! Numbers that are read and changed beside a tick alone, so that the steps of a call count what it
//! visits.
ghost use Rattle.std.specs.Prelude.{◌≡◌, ◌+◌, ◌-◌, ◌<◌, ◌≤◌, ◌^◌, IfOk, length, replicate, slice_index, slice_set};

use decimal_rank::{Memory, Steps};
use std::alloc::Global;
use std::marker::Model;
use std::sync::ledger::Ledger;

/// Numbers that nothing reads but `read` and `change`. Contracts see the list of them.
#[derive(Drop)]
pub(crate) struct Nodes {
    items: Vec<u64>,
}

impl Model for Nodes {
    ghost use Rattle.std.specs.Prelude.{List, ℕ};

    ghost Value = { List ℕ };

    ghost view = { λ nodes. nodes.items.items };
}

impl Nodes {
    /// So many nodes, all 0.
    pub(crate) fn new(alloc: Global, len: usize) -> Result<Nodes, Memory>
        ensures { IfOk result (λ nodes. nodes ≡ replicate len 0) }
    {
        let items = vec![in alloc; 0; len]?;
        Ok(Nodes { items })
    }

    /// A node, in one step.
    pub(crate) fn read<L: Ledger>(&self, node: usize, steps: &mut Steps<L>) -> u64
        requires { node < length self.now }
        ensures node { result ≡ slice_index self.now node }
        ensures cost { steps.new ≡ steps.old + 1 }
    {
        steps.tick();
        self.items[node]
    }

    /// Takes one number away from a node and adds another, in one step.
    pub(crate) fn change<L: Ledger>(
        &mut self,
        node: usize,
        less: u64,
        more: u64,
        steps: &mut Steps<L>,
    )
        requires within { node < length self.old }
        requires least { less ≤ slice_index self.old node }
        requires most { slice_index self.old node - less + more < 2 ^ 64 }
        ensures nodes { self.new
            ≡ slice_set self.old node (slice_index self.old node - less + more) }
        ensures cost { steps.new ≡ steps.old + 1 }
    {
        self.items[node] = self.read(node, steps) - less + more;
    }
}
