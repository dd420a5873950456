//! Faults of the outside: the answer of a call that failed, and the failing calls of a memory form,
//! by which tests try each fault at its place.
ghost use Rattle.std.specs.Prelude.{◌≡◌};
ghost use Rattle.decimal_rank.specs.Outputs.FailurePlans.{count_more as one_more, fails_next, after_call};

use std::marker::Model;

/// A call on the outside failed, and the object's count of faults rose.
#[derive(Clone, Copy, Debug, PartialEq, Eq)]
pub struct Failed;

/// Which calls of a memory form are to fail, by their places from 1. Contracts see these places and
/// the number of calls so far.
#[derive(Debug, Drop)]
pub struct FailurePlan {
    fails: Vec<u64>,
    calls: u64,
}

impl Model for FailurePlan {
    ghost use Rattle.decimal_rank.specs.Outputs.FailurePlans.{PlanState};

    ghost Value = { PlanState };

    ghost view = { λ plan. record { fails = plan.fails.items; calls = plan.calls } };
}

impl FailurePlan {
    /// The calls at these places fail, counted from 0.
    pub fn new(fails: Vec<u64>) -> FailurePlan
        ensures { result ≡ record { fails = fails.items; calls = 0 } }
    {
        FailurePlan { fails, calls: 0 }
    }

    /// Counts one more call, and tells whether it is to fail.
    pub fn call(&mut self) -> bool
        ensures fails { result ≡ fails_next self.old }
        ensures after { self.new ≡ after_call self.old }
    {
        self.calls = count_more(self.calls);
        self.fails.contains(&self.calls)
    }
}

/// One more; a count stands still at its end.
pub fn count_more(count: u64) -> u64
    ensures { result ≡ one_more count }
{
    count.saturating_add(1)
}
