//! What is written to memory, whose writes fail as it is told.
ghost use Rattle.std.specs.Prelude.{◌≡◌, IsTrue, IsErr, IfOk, length};
ghost use Rattle.decimal_rank.specs.Outputs.FailurePlans.{fails_next};
ghost use Rattle.campaign_server.specs.MemoryForms.MemoryWritten.{after_write, nothing_written};

use decimal_rank::{Failed, FailurePlan, count_more};
use std::marker::Model;

/// The bytes that were written, and the writes that fail. A write takes its piece whole.
#[derive(Debug)]
pub struct MemoryWrites {
    written: Vec<u8>,
    plan: FailurePlan,
    faults: u64,
    wants: u64,
}

impl Model for MemoryWrites {
    ghost use Rattle.campaign_server.specs.MemoryForms.MemoryWritten.{Written};

    ghost Value = { Written };

    ghost view = { λ writes. record {
      written = writes.written.items;
      plan = writes.plan;
      faults = writes.faults;
      wants = writes.wants;
    } };
}

// a call of its own, so that no caller's proof takes writes apart
impl Drop for MemoryWrites {
    fn drop(self) {
        let MemoryWrites {
            written: _,
            plan: _,
            faults: _,
            wants: _,
        } = self;
    }
}

impl MemoryWrites {
    /// No bytes. The writes at the places in `fails`, from 1, fail.
    pub fn new(fails: Vec<u64>) -> MemoryWrites
        ensures { result ≡ nothing_written fails.items }
    {
        MemoryWrites {
            written: Vec::new(*fails.allocator()),
            plan: FailurePlan::new(fails),
            faults: 0,
            wants: 0,
        }
    }

    /// The bytes that were written, in order.
    pub fn written(&self) -> &[u8]
        ensures { result.now ≡ self.now.written }
    {
        self.written.as_slice()
    }

    /// How many writes failed for want of memory.
    pub fn wants(&self) -> u64
        ensures { result ≡ self.now.wants }
    {
        self.wants
    }

    /// A write that is to fail changes the counts alone; another one fails only for want of memory.
    pub fn write(&mut self, piece: &[u8]) -> Result<usize, Failed>
        ensures whole { IfOk result (λ count. count ≡ length piece.now) }
        ensures failed { IsTrue (fails_next self.old.plan) → IsErr result }
        ensures after { self.new ≡ after_write self.old piece.now result }
    {
        if self.plan.call() {
            self.faults = count_more(self.faults);
            return Err(Failed);
        }
        if self.written.extend_from_slice(piece).is_err() {
            self.faults = count_more(self.faults);
            self.wants = count_more(self.wants);
            return Err(Failed);
        }
        Ok(piece.len())
    }
}
