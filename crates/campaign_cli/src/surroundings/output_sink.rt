//! Standard output.
ghost use Rattle.std.specs.Prelude.{◌≡◌, None};

use campaign_server::taken_by;
use decimal_rank::{Failed, Output};

/// Standard output. It tells its count of faults alone.
#[derive(Drop)]
pub struct OutputSink<R: Print> {
    output: R,
    faults: u64,
}

impl<R: Print + Drop> OutputSink<R> {
    /// A sink to which nothing was written yet.
    pub fn new(output: R) -> OutputSink<R>
        ensures { ⟦<OutputSink<R> as Output>⟧.writing result
            ≡ record { written = None; faults = 0 } }
    {
        OutputSink { output, faults: 0 }
    }
}

impl<R: Print + Drop> Output for OutputSink<R> {
    ghost writing = { λ sink. record { written = None; faults = sink.faults } };

    ghost Keeps = { λ a b. Unit {0} };

    ghost keeps_itself = { λ a. tt };

    ghost keeps_on = { λ a b c p q. tt };

    fn write(&mut self, piece: &[u8]) -> Result<usize, Failed> {
        taken_by(self.output.write_some(piece), piece, &mut self.faults)
    }
}
