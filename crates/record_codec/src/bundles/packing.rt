//! Which entries may stand in one bundle.
ghost use Rattle.std.specs.Prelude.{◌≡◌};
ghost use Rattle.std.specs.List.{list_all};
ghost use Rattle.rulebook.specs.Spelling.{is_number};
ghost use Rattle.record_codec.specs.Bundles.{are_rising, have_bundle, is_packable};

use crate::bundles::briefs::is_plain_brief;
use crate::layout::MOST_BUNDLED;
use rulebook::{EntryCore, MAX_MOMENT, NUMBER_BOUND};
use trec_formats::is_name;

fn is_number(number: Option<u64>) -> bool
    ensures { result ≡ is_number number }
{
    match number {
        None => true,
        Some(number) => number < NUMBER_BOUND,
    }
}

fn is_packable(core: &EntryCore) -> bool
    ensures { result ≡ is_packable core.now }
{
    is_name(core.caller.name.bytes())
        && is_number(core.number)
        && core.moment <= MAX_MOMENT
        && is_plain_brief(&core.command)
}

fn are_packable(cores: &[EntryCore]) -> bool
    ensures { result ≡ list_all is_packable cores.now }
{
    cores.iter().all(|core| is_packable(core))
}

/// Whether no moment is less than the one before.
fn are_rising(cores: &[EntryCore]) -> bool
    ensures { result ≡ are_rising 0 cores.now }
{
    let mut earlier = 0;
    for core in cores {
        if core.moment < earlier {
            return false;
        }
        earlier = core.moment;
    }
    true
}

/// Whether the entries may have a bundle: 1 to 4,096 of the kinds 4 to 11, their moments not
/// falling.
pub(crate) fn can_pack(cores: &[EntryCore]) -> bool
    ensures { result ≡ have_bundle cores.now }
{
    1 <= cores.len() && cores.len() <= MOST_BUNDLED && are_packable(cores) && are_rising(cores)
}
