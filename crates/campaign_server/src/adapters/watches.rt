//! The machine's clock, as a link that tells no moments has it.
ghost use Rattle.std.specs.Prelude.{◌≡◌, ◌≤◌};
ghost use Rattle.decimal_rank.specs.Outputs.FailurePlans.{count_more as one_more};
ghost use Rattle.rulebook.specs.declared.limits.TheConstants.{MAX_MOMENT};

use decimal_rank::count_more;
use rulebook::MAX_MOMENT;
use std::rt::Clock;

/// The machine's clock in seconds, and how often it was asked.
#[derive(Drop)]
pub(crate) struct Watch {
    pub(crate) asked: u64,
    /// The moment that was given last, which stands where the clock fails.
    last: u64,
    ghost bounded: { last ≤ MAX_MOMENT },
}

impl Watch {
    pub(crate) fn new() -> Watch
        ensures { result.asked ≡ 0 }
    {
        Watch { asked: 0, last: 0 }
    }

    pub(crate) fn moment<R: Clock>(&mut self, runtime: &R) -> u64
        ensures bounded { result ≤ MAX_MOMENT }
        ensures asked { self.new.asked ≡ one_more self.old.asked }
    {
        self.asked = count_more(self.asked);
        if let Ok(time) = runtime.since_1970() {
            self.last = time.as_secs().min(MAX_MOMENT);
        }
        self.last
    }
}
