//! An output in memory, whose writes fail as it is told.
ghost use Rattle.std.specs.Prelude.{◌≡◌, IsTrue, IsErr, IfOk, length};
ghost use Rattle.decimal_rank.specs.Outputs.FailurePlans.{fails_next};
ghost use Rattle.campaign_server.specs.MemoryForms.MemoryWritten.{after_write, nothing_written};
ghost use Rattle.campaign_cli.specs.Surroundings.Sinks.{told_by};

use campaign_server::MemoryWrites;
use decimal_rank::{Failed, Output};
use std::marker::Model;

/// A sink in memory, which tells its bytes. It takes each piece whole.
#[derive(Debug, Drop)]
pub struct MemorySink {
    writes: MemoryWrites,
}

impl Model for MemorySink {
    ghost use Rattle.campaign_server.specs.MemoryForms.MemoryWritten.{Written};

    ghost Value = { Written };

    ghost view = { λ sink. sink.writes };
}

impl MemorySink {
    /// A sink without bytes. The writes at the places in `fails`, from 1, fail.
    pub fn new(fails: Vec<u64>) -> MemorySink
        ensures { result ≡ nothing_written fails.items }
    {
        MemorySink {
            writes: MemoryWrites::new(fails),
        }
    }

    /// The bytes that were written, in order.
    pub fn written(&self) -> &[u8]
        ensures { result.now ≡ self.now.written }
    {
        self.writes.written()
    }

    /// How many writes failed for want of memory.
    pub fn wants(&self) -> u64
        ensures { result ≡ self.now.wants }
    {
        self.writes.wants()
    }
}

impl Output for MemorySink {
    ghost writing = { told_by };

    ghost Keeps = { λ a b. Unit {0} };

    ghost keeps_itself = { λ a. tt };

    ghost keeps_on = { λ a b c p q. tt };

    /// A write that is to fail changes the counts alone; another one fails only for want of memory.
    fn write(&mut self, piece: &[u8]) -> Result<usize, Failed>
        ensures whole { IfOk result (λ count. count ≡ length piece.now) }
        ensures failed { IsTrue (fails_next self.old.plan) → IsErr result }
        ensures after { self.new ≡ after_write self.old piece.now result }
    {
        self.writes.write(piece)
    }
}
