//! The rule by which a queue's runs stand: the latest judged document that only one of two runs
//! holds decides.
ghost use Rattle.std.specs.Prelude.{◌≡◌, ◌<◌, ◌≤◌, AllPairs, Contains, insert, length, reverse};
ghost use Rattle.depth_pool.specs.Holdings.{pool_holds};
ghost use Rattle.mtf_queue.specs.Rule.{IsBefore, rule_cmp};

use decimal_rank::{DocId, Steps};
use depth_pool::{Pool, RunId};
use std::cmp::Ordering;
use std::marker::Brand;
use std::sync::ledger::{Blank, Ledger};

/// A document of the trail, and whether it is relevant. It is `None` while the document has no
/// grade.
#[derive(Clone, Copy, Debug, PartialEq, Eq)]
pub struct Judged {
    pub doc: DocId,
    pub relevant: Option<bool>,
}

/// The index at which a run goes into an order of other runs: behind those that come before it.
pub(crate) fn place_of(order: &[RunId], run: RunId, trail: &[Judged], pool: &Pool) -> usize
    requires is_new { ¬ Contains order.now run }
    requires in_order { AllPairs (IsBefore (pool_holds pool.now.runs) trail.now) order.now }
    ensures within { result ≤ length order.now }
    ensures in_order { AllPairs (IsBefore (pool_holds pool.now.runs) trail.now)
        (insert order.now result run) }
{
    order.partition_point(|other| compare(trail, pool, *other, run).is_lt())
}

/// Which of two runs is first by the rule.
fn compare(trail: &[Judged], pool: &Pool, first: RunId, second: RunId) -> Ordering
    ensures { result ≡ rule_cmp (pool_holds pool.now.runs) (reverse trail.now) first second }
{
    compare_counted::<Brand>(trail, pool, first, second, Blank::new(1))
}

fn compare_counted<L: Ledger>(
    trail: &[Judged],
    pool: &Pool,
    first: RunId,
    second: RunId,
    blank: Blank,
) -> Ordering
    requires name { blank.name ≡ L.name }
    requires parts { blank.parts ≡ L.parts }
    requires some { 0 < L.parts }
    ensures { result ≡ rule_cmp (pool_holds pool.now.runs) (reverse trail.now) first second }
{
    let mut steps: Steps<L> = Steps::new(blank);
    let mut left = trail.len();
    while left > 0 {
        left -= 1;
        let judged = trail[left];
        if let Some(relevant) = judged.relevant {
            let held = pool.holds(first, judged.doc, &mut steps);
            if held != pool.holds(second, judged.doc, &mut steps) {
                return if held == relevant {
                    Ordering::Less
                } else {
                    Ordering::Greater
                };
            }
        }
    }
    first.cmp(&second)
}
