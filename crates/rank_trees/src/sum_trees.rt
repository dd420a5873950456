//! A complete binary tree of sums: the root is node 1, under node k stand 2k and 2k + 1, and the
//! leaves begin at 2 to the power of the depth, which is at least their number.
ghost use Rattle.std.specs.Prelude.{◌≡◌, ℕ, ◌+◌, ◌-◌, ◌*◌, ◌<◌, ◌≤◌, ◌^◌, IfOk, List, MatchOption, drop, length, replicate, slice_index, slice_set, sum, take};
ghost use Rattle.decimal_rank.specs.Rankings.Places.{levels};
ghost use Rattle.rank_trees.specs.SumTrees.{AreNodeSums, IsReached, leaves_of, span};

use crate::nodes::Nodes;
use decimal_rank::{Memory, Steps};
use std::alloc::Global;
use std::marker::Model;
use std::sync::ledger::Ledger;

/// The sums of leaves. Contracts see the list of the leaves.
#[derive(Drop)]
pub(crate) struct SumTree {
    len: u32,
    depth: u32,
    nodes: Nodes,
}

impl Model for SumTree {
    ghost use Rattle.std.specs.Prelude.{List, ℕ};
    ghost use Rattle.rank_trees.specs.SumTrees.{IsSumTree, leaves_of};

    ghost Value = { List ℕ };

    ghost view = { λ tree. leaves_of tree.len tree.depth tree.nodes };

    ghost invariant = { λ tree. IsSumTree tree.len tree.depth tree.nodes };
}

impl SumTree {
    /// Leaves numbered from 0 to the last one, all 0.
    pub(crate) fn new(alloc: Global, last: u32) -> Result<SumTree, Memory>
        requires { last ≤ 63 }
        ensures { IfOk result (λ leaves. leaves ≡ replicate (last + 1) 0) }
    {
        let depth = depth_for(last);
        let nodes = Nodes::new(alloc, 2 * 2usize.pow(depth))?;
        Ok(SumTree {
            len: last + 1,
            depth,
            nodes,
        })
    }

    /// Takes one number away from a leaf and adds another.
    pub(crate) fn change<L: Ledger>(
        &mut self,
        index: u32,
        less: u64,
        more: u64,
        steps: &mut Steps<L>,
    )
        requires within { index < length self.old }
        requires least { less ≤ slice_index self.old index }
        requires small { slice_index self.old index - less + more ≤ 16 * 10 ^ 15 }
        ensures leaves { self.new
            ≡ slice_set self.old index (slice_index self.old index - less + more) }
        ensures cost { steps.new ≤ steps.old + levels (length self.old - 1) + 1 }
    {
        change_leaf(&mut self.nodes, self.depth, index, less, more, steps);
    }

    /// The sum of the leaves before one.
    pub(crate) fn sum_before<L: Ledger>(&self, index: u32, steps: &mut Steps<L>) -> u64
        requires { index < length self.now }
        ensures sum { result ≡ sum (take index self.now) }
        ensures cost { steps.new ≤ steps.old + levels (length self.now - 1) }
    {
        sum_before(&self.nodes, self.depth, index, steps)
    }

    /// The sum of the leaves from one on.
    pub(crate) fn sum_from<L: Ledger>(&self, index: u32, steps: &mut Steps<L>) -> u64
        requires { index < length self.now }
        ensures sum { result ≡ sum (drop index self.now) }
        ensures cost { steps.new ≤ steps.old + levels (length self.now - 1) + 1 }
    {
        self.nodes.read(1, steps) - sum_before(&self.nodes, self.depth, index, steps)
    }

    /// The leaf at which the sum of the leaves first exceeds a number, and what those before it
    /// leave of the number.
    pub(crate) fn find<L: Ledger>(&self, number: u64, steps: &mut Steps<L>) -> Option<(u32, u64)>
        ensures leaf { MatchOption result (sum self.now ≤ number)
            (λ found. IsReached self.now number found.0 found.1) }
        ensures cost { steps.new ≤ steps.old + levels (length self.now - 1) + 1 }
    {
        find_leaf(&self.nodes, self.depth, number, steps)
    }
}

/// The depth at which a level has more nodes than the last leaf's number.
fn depth_for(last: u32) -> u32
    requires { last ≤ 63 }
    ensures depth { result ≡ levels last }
    ensures low { result ≤ 6 }
{
    let mut rest = last;
    let mut depth = 0;
    while rest > 0 {
        rest /= 2;
        depth += 1;
    }
    depth
}

/// Takes one number away from a leaf and each node above it, and adds another.
fn change_leaf<L: Ledger>(
    nodes: &mut Nodes,
    depth: u32,
    index: u32,
    less: u64,
    more: u64,
    steps: &mut Steps<L>,
)
    requires sums { AreNodeSums depth nodes.old }
    requires within { index < 2 ^ depth }
    requires least { less ≤ slice_index nodes.old (2 ^ depth + index) }
    requires small { slice_index nodes.old (2 ^ depth + index) - less + more ≤ 16 * 10 ^ 15 }
    ensures sums { AreNodeSums depth nodes.new }
    ensures leaves { drop (2 ^ depth) nodes.new ≡ slice_set (drop (2 ^ depth) nodes.old) index
        (slice_index nodes.old (2 ^ depth + index) - less + more) }
    ensures cost { steps.new ≡ steps.old + depth + 1 }
{
    let mut node = 2usize.pow(depth) + index as usize;
    nodes.change(node, less, more, steps);
    for _level in 0..depth {
        node /= 2;
        nodes.change(node, less, more, steps);
    }
}

/// The sum of the leaves before an index, from the leaves up: where a path comes from the right,
/// what stands to its left is added.
fn sum_before<L: Ledger>(nodes: &Nodes, depth: u32, index: u32, steps: &mut Steps<L>) -> u64
    requires sums { AreNodeSums depth nodes.now }
    requires within { index < 2 ^ depth }
    ensures sum { result ≡ span nodes.now (2 ^ depth) index }
    ensures cost { steps.new ≤ steps.old + depth }
{
    let mut start = 2usize.pow(depth);
    let mut at = index as usize;
    let mut sum = 0;
    for _level in 0..depth {
        if at % 2 == 1 {
            sum += nodes.read(start + at - 1, steps);
        }
        start /= 2;
        at /= 2;
    }
    sum
}

/// The leaf at which the sum of the leaves first exceeds a number, from the root down, and what
/// those before it leave of the number.
fn find_leaf<L: Ledger>(
    nodes: &Nodes,
    depth: u32,
    number: u64,
    steps: &mut Steps<L>,
) -> Option<(u32, u64)>
    requires { AreNodeSums depth nodes.now }
    ensures leaf { MatchOption result (span nodes.now (2 ^ depth) (2 ^ depth) ≤ number)
        (λ found. (found.0 < 2 ^ depth) × (span nodes.now (2 ^ depth) found.0 + found.1 ≡ number)
        × (found.1 < slice_index nodes.now (2 ^ depth + found.0))) }
    ensures cost { steps.new ≤ steps.old + depth + 1 }
{
    let all = nodes.read(1, steps);
    if all <= number {
        return None;
    }
    let mut start = 1;
    let mut at = 0;
    let mut rest = number;
    for _level in 0..depth {
        start *= 2;
        at *= 2;
        let left = nodes.read(start + at, steps);
        if left <= rest {
            rest -= left;
            at += 1;
        }
    }
    Some((at as u32, rest))
}
