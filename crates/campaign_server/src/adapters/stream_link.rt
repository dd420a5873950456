//! A connection over standard input and output.
ghost use Rattle.std.specs.Prelude.{◌≡◌};
ghost use Rattle.campaign_server.specs.Links.{counts_of};

use crate::adapters::system_calls::{given_by, taken_by};
use crate::adapters::watches::Watch;
use crate::links::Link;
use decimal_rank::Failed;
use std::io::Read;
use std::rt::Clock;

/// Standard input and output, with the machine's clock in seconds. It tells its counts alone.
#[derive(Drop)]
pub struct StreamLink<R: Input + Print + Clock> {
    runtime: R,
    input: R::Reader,
    read_faults: u64,
    write_faults: u64,
    watch: Watch,
}

impl<R: Input + Print + Clock + Drop> StreamLink<R> {
    /// A link of which nothing was read or written yet.
    pub fn new(runtime: R) -> StreamLink<R>
        ensures { ⟦<StreamLink<R> as Link>⟧.seen result ≡ counts_of 0 0 0 }
    {
        StreamLink {
            input: runtime.reader(),
            runtime,
            read_faults: 0,
            write_faults: 0,
            watch: Watch::new(),
        }
    }
}

impl<R: Input + Print + Clock + Drop> Link for StreamLink<R> {
    ghost use Rattle.std.proofs.Common.{refl};

    ghost seen = { λ link. counts_of link.read_faults link.write_faults link.watch.asked };

    fn read(&mut self, out: &mut [u8]) -> Result<usize, Failed> {
        given_by(self.input.read(out), &mut self.read_faults)
    }

    fn write(&mut self, piece: &[u8]) -> Result<usize, Failed> {
        taken_by(
            self.runtime.write_some(piece),
            piece,
            &mut self.write_faults,
        )
    }

    fn moment(&mut self) -> u64 {
        self.watch.moment(&self.runtime)
    }

    ghost tells_alike = { λ _ _.
        record { taken = refl; left = refl; last = refl; written = refl; moments = refl } };
}
