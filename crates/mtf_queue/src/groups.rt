//! Runs sorted by the rule, from the newest document of the trail back. Runs that no document told
//! apart so far are a group. Each document that is looked at cuts groups in two, until each run is
//! a group of its own or no document is left. Meanwhile the runs stand by number, as the holders of
//! a document do, so that a cut is one walk along both; at the end they are sorted by their groups.
ghost use Rattle.std.specs.Prelude.{◌≡◌, ◌≢◌, ◌*◌, ◌<◌, ◌≤◌, ◌^◌, ◌∷◌, [], All, AllPairs, IsPermutation, List, Some, ℕ, drop, false, length, map, reverse, sum, vec_len, vec_capacity};
ghost use Rattle.std.specs.Ordering.{nat_cmp};
ghost use Rattle.decimal_rank.specs.declared.naming.DocId.{DocId};
ghost use Rattle.depth_pool.specs.declared.runs.RunId.{RunId};
ghost use Rattle.depth_pool.specs.Holdings.{has_id, pool_holds};
ghost use Rattle.mtf_queue.specs.Groups.{AreFewGroups, AreGrouped, AreMembersByRun, AreSizes, AreSumsBefore, AreToldApart, KeepsFrom, StandAlike, first_group, half_of, member_run, numbered_by};
ghost use Rattle.mtf_queue.specs.Rule.{HoldingRule, IsBefore};
ghost use Rattle.mtf_queue.specs.declared.rule.Judged.{Judged};

use crate::rule::Judged;
use decimal_rank::Steps;
use depth_pool::{Pool, RunId};
use std::marker::Brand;
use std::sync::ledger::{Blank, Ledger};

/// A run, and the number of its group: of two groups the one with the lower number comes first.
#[derive(Clone, Copy, PartialEq, Eq, PartialOrd, Ord)]
pub(crate) struct Member {
    pub(crate) group: usize,
    pub(crate) run: RunId,
}

/// Puts the runs in the order of the rule. Each document of the trail is looked up at most once.
/// There is room for each run among the members, and for two groups of it among the sizes.
pub(crate) fn sort_by_rule(
    order: &mut Vec<RunId>,
    members: &mut Vec<Member>,
    sizes: &mut Vec<usize>,
    trail: &[Judged],
    pool: &Pool,
)
    requires room { vec_len order.old ≤ vec_capacity members.old }
    requires room_for_sizes { 2 * vec_len order.old ≤ vec_capacity sizes.old }
    ensures runs { IsPermutation order.old.items order.new.items }
    ensures pairwise { AllPairs (λ r s. r ≢ s) order.old.items
        → AllPairs (IsBefore (pool_holds pool.now.runs) trail.now) order.new.items }
    ensures len { vec_len order.new ≡ vec_len order.old }
    ensures room_stays { vec_capacity members.new ≡ vec_capacity members.old }
    ensures room_for_sizes_stays { vec_capacity sizes.old ≤ vec_capacity sizes.new }
{
    put_in_one_group(members, order.as_slice());
    cut_groups::<Brand>(members, sizes, trail, pool, Blank::new(1));
    take_runs(order, members.as_slice());
}

/// All runs in one group, by number.
fn put_in_one_group(members: &mut Vec<Member>, order: &[RunId])
    requires { length order.now ≤ vec_capacity members.old }
    ensures runs { IsPermutation (map first_group order.now) members.new.items }
    ensures by_run { AreMembersByRun members.new.items }
    ensures capacity { vec_capacity members.new ≡ vec_capacity members.old }
{
    fill(members, order);
    members.sort_unstable();
}

/// All runs in one group, in their order.
fn fill(members: &mut Vec<Member>, order: &[RunId])
    requires { length order.now ≤ vec_capacity members.old }
    ensures runs { members.new.items ≡ map first_group order.now }
    ensures capacity { vec_capacity members.new ≡ vec_capacity members.old }
{
    members.clear();
    for run in order {
        let member = Member {
            group: 0,
            run: *run,
        };
        members.push_reserved(member);
    }
}

/// The runs of the members, in their order.
fn take_runs(order: &mut Vec<RunId>, members: &[Member])
    requires { length members.now ≤ vec_len order.old }
    ensures { order.new.items ≡ map member_run members.now }
{
    order.clear();
    for member in members {
        order.push_reserved(member.run);
    }
}

/// Cuts the groups by the documents of the trail, the newest first, and sorts the runs by them.
fn cut_groups<L: Ledger>(
    members: &mut Vec<Member>,
    sizes: &mut Vec<usize>,
    trail: &[Judged],
    pool: &Pool,
    blank: Blank,
)
    requires name { blank.name ≡ L.name }
    requires parts { blank.parts ≡ L.parts }
    requires some { 0 < L.parts }
    requires room { 2 * vec_len members.old ≤ vec_capacity sizes.old }
    requires one_group { All (λ member. member.group ≡ 0) members.old.items }
    requires by_run { AreMembersByRun members.old.items }
    ensures runs { IsPermutation (map member_run members.old.items)
        (map member_run members.new.items) }
    ensures pairwise { AllPairs (λ p q. p.run ≢ q.run) members.new.items → AllPairs
        (λ p q. IsBefore (pool_holds pool.now.runs) trail.now p.run q.run) members.new.items }
    ensures capacity { vec_capacity members.new ≡ vec_capacity members.old }
    ensures room_stays { vec_capacity sizes.old ≤ vec_capacity sizes.new }
{
    let mut steps: Steps<L> = Steps::new(blank);
    let mut left = trail.len();
    let mut are_tied = true;
    while left > 0 && are_tied {
        left -= 1;
        are_tied = cut_by(members, sizes, trail[left], pool, &mut steps);
    }
    members.sort_unstable();
}

/// Cuts the groups by a judged document. Tells whether some runs may still be in one group.
fn cut_by<L: Ledger>(
    members: &mut Vec<Member>,
    sizes: &mut Vec<usize>,
    judged: Judged,
    pool: &Pool,
    steps: &mut Steps<L>,
) -> bool
    requires room { 2 * vec_len members.old ≤ vec_capacity sizes.old }
    requires by_run { AreMembersByRun members.old.items }
    requires few { AreFewGroups members.old.items }
    ensures runs { map member_run members.new.items ≡ map member_run members.old.items }
    ensures grouped { (docs : List Judged)
        → AreGrouped (pool_holds pool.now.runs) docs members.old.items
        → AreGrouped (pool_holds pool.now.runs) (judged ∷ docs) members.new.items }
    ensures few { AreFewGroups members.new.items }
    ensures told_apart { result ≡ false → AreToldApart members.new.items }
    ensures capacity { vec_capacity members.new ≡ vec_capacity members.old }
    ensures room_stays { vec_capacity sizes.old ≤ vec_capacity sizes.new }
{
    match judged.relevant {
        Some(relevant) => cut(members, sizes, pool.holders(judged.doc, steps), relevant),
        None => true,
    }
}

/// Cuts each group in two by a document, its first side and the others. Tells whether some runs are
/// still in one group.
fn cut(members: &mut Vec<Member>, sizes: &mut Vec<usize>, holders: &[RunId], relevant: bool) -> bool
    requires room { 2 * vec_len members.old ≤ vec_capacity sizes.old }
    requires ascending { AllPairs (λ a b. a.0 < b.0) holders.now }
    requires by_run { AreMembersByRun members.old.items }
    requires few { AreFewGroups members.old.items }
    ensures runs { map member_run members.new.items ≡ map member_run members.old.items }
    ensures grouped { (held : HoldingRule) (docs : List Judged) (doc : DocId)
        → ((run : RunId) → has_id run holders.now ≡ held run doc)
        → AreGrouped held docs members.old.items → AreGrouped held
        (record { doc = doc; relevant = Some relevant } ∷ docs) members.new.items }
    ensures few { AreFewGroups members.new.items }
    ensures told_apart { result ≡ false → AreToldApart members.new.items }
    ensures capacity { vec_capacity members.new ≡ vec_capacity members.old }
    ensures room_stays { vec_capacity sizes.old ≤ vec_capacity sizes.new }
{
    halve(members, holders, relevant);
    number(members, sizes)
}

/// Gives each run the number of its half: the lower one on the first side of a document with these
/// holders.
fn halve(members: &mut Vec<Member>, holders: &[RunId], relevant: bool)
    requires ascending { AllPairs (λ a b. a.0 < b.0) holders.now }
    requires by_run { AreMembersByRun members.old.items }
    requires few { AreFewGroups members.old.items }
    ensures halves { members.new.items ≡ map (half_of holders.now relevant) members.old.items }
    ensures capacity { vec_capacity members.new ≡ vec_capacity members.old }
{
    let mut next = 0;
    for member in members.iter_mut() {
        next = holder_from(holders, next, member.run);
        let is_second = is_at(holders, next, member.run) != relevant;
        member.group = 2 * member.group + usize::from(is_second);
    }
}

/// The index of the first holder, of those from an index on, whose number isn't lower than a run's.
fn holder_from(holders: &[RunId], from: usize, run: RunId) -> usize
    requires ascending { AllPairs (λ a b. a.0 < b.0) holders.now }
    ensures passed { KeepsFrom run (drop from holders.now) (drop result holders.now) }
    ensures ahead { All (λ holder. run.0 ≤ holder.0) (drop result holders.now) }
{
    for index in from..holders.len() {
        if run.0 <= holders[index].0 {
            return index;
        }
    }
    holders.len()
}

/// Whether a run is the holder at an index, from which on no holder has a lower number.
fn is_at(holders: &[RunId], index: usize, run: RunId) -> bool
    requires ascending { AllPairs (λ a b. a.0 < b.0) holders.now }
    requires ahead { All (λ holder. run.0 ≤ holder.0) (drop index holders.now) }
    ensures { result ≡ has_id run (drop index holders.now) }
{
    match holders.get(index) {
        Some(holder) => holder.0 == run.0,
        None => false,
    }
}

/// Numbers the groups anew, each by how many runs stand in lower ones. Tells whether some runs are
/// in one group.
fn number(members: &mut Vec<Member>, sizes: &mut Vec<usize>) -> bool
    requires room { 2 * vec_len members.old ≤ vec_capacity sizes.old }
    requires within { All (λ member. member.group
        < 2 * length members.old.items) members.old.items }
    ensures runs { map member_run members.new.items ≡ map member_run members.old.items }
    ensures alike { StandAlike members.old.items members.new.items }
    ensures few { AreFewGroups members.new.items }
    ensures told_apart { result ≡ false → AreToldApart members.new.items }
    ensures capacity { vec_capacity members.new ≡ vec_capacity members.old }
    ensures room_stays { vec_capacity sizes.old ≤ vec_capacity sizes.new }
{
    count(sizes, members.as_slice());
    let largest = add_up(sizes);
    put_numbers(members, sizes.as_slice());
    largest > 1
}

/// How many runs each group has, of twice as many groups as there are runs.
fn count(sizes: &mut Vec<usize>, members: &[Member])
    requires room { 2 * length members.now ≤ vec_capacity sizes.old }
    requires within { All (λ member. member.group < 2 * length members.now) members.now }
    ensures sizes { AreSizes sizes.new.items members.now }
    ensures len { vec_len sizes.new ≡ 2 * length members.now }
    ensures room_stays { vec_capacity sizes.old ≤ vec_capacity sizes.new }
{
    sizes.clear();
    sizes.resize(2 * members.len(), 0).unwrap();
    for member in members {
        sizes[member.group] += 1;
    }
}

/// Puts the sum of those before it in the place of each size. Gives the greatest size.
fn add_up(sizes: &mut Vec<usize>) -> usize
    requires { sum sizes.old.items < 2 ^ 63 }
    ensures sums { AreSumsBefore sizes.old.items sizes.new.items }
    ensures largest { All (λ size. size ≤ result) sizes.old.items }
    ensures len { vec_len sizes.new ≡ vec_len sizes.old }
    ensures capacity { vec_capacity sizes.new ≡ vec_capacity sizes.old }
{
    let mut before = 0;
    let mut largest = 0;
    for group in 0..sizes.len() {
        let size = sizes[group];
        sizes[group] = before;
        before += size;
        largest = size.max(largest);
    }
    largest
}

/// Gives each group the number that stands at the place of its old one.
fn put_numbers(members: &mut Vec<Member>, numbers: &[usize])
    requires { All (λ member. member.group < length numbers.now) members.old.items }
    ensures numbered { members.new.items ≡ map (numbered_by numbers.now) members.old.items }
    ensures capacity { vec_capacity members.new ≡ vec_capacity members.old }
{
    for member in members.iter_mut() {
        member.group = numbers[member.group];
    }
}
