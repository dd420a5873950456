//! `drill`: plays a generated campaign in memory, and prints its seven lines.
ghost use Rattle.std.specs.Prelude.{IsTrue};
ghost use Rattle.drill.specs.Figures.{are_numbers};
ghost use Rattle.campaign_cli.specs.Causes.{IsWay, ending_of};
ghost use Rattle.campaign_cli.specs.Ends.DrillEnds.{DrillWay, cause_of};

use crate::endings::{Cause, Outcome};
use decimal_rank::Memory;
use drill::{DrillNumbers, drill};
use std::alloc::Global;

/// Plays the campaign of these numbers, and tells what it comes to.
pub(crate) fn run_drill<W>(rt: &W, alloc: Global, numbers: DrillNumbers) -> Outcome
    requires { IsTrue (are_numbers numbers) }
    ensures { IsWay (DrillWay numbers) cause_of (ending_of result) }
{
    match drill(rt, alloc, &numbers) {
        Ok(text) => Outcome::Text(Cause::Done, text),
        Err(Memory) => Outcome::Silent(Cause::Memory),
    }
}
