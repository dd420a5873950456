//! The walk over the leases of one key that haven't ended, from the newest back.
ghost use Rattle.std.specs.Prelude.{◌≡◌, ◌<◌, ◌≤◌, ◌^◌, ◌&&◌, Bool, count_by, length};
ghost use Rattle.std.specs.Option.{option_map};
ghost use Rattle.lease_desk.specs.Series.{IsSeriesOf, LeadEarlier, is_asked, up_to};
ghost use Rattle.lease_desk.specs.Leases.{is_lease_live};
ghost use Rattle.lease_desk.specs.declared.leases.Lease.{Lease};

use crate::leases::Lease;
use crate::series::Link;

/// How many leases of one key are live: of one assessor, or of all. The walk goes from the newest
/// back to where no earlier one can be live.
pub(crate) fn count_live(
    leases: &[Lease],
    links: &[Link],
    newest: Option<u32>,
    assessor: Option<&[u8]>,
    now: u64,
) -> u32
    requires as_many { length links.now ≡ length leases.now }
    requires within { up_to newest ≤ length leases.now }
    requires back { LeadEarlier links.now }
    requires few { length leases.now < 2 ^ 32 }
    ensures { (key : Lease → Bool) → IsSeriesOf key leases.now links.now newest
        → result ≡ count_by (λ lease. key lease && is_asked (option_map
        (λ name. name.now) assessor.entry) lease && is_lease_live lease now) leases.now }
{
    let mut count = 0;
    let mut next = newest;
    while let Some(place) = next {
        let place = place as usize;
        if links[place].latest_until <= now {
            return count;
        }
        if counts(&leases[place], assessor, now) {
            count += 1;
        }
        next = links[place].previous;
    }
    count
}

/// Whether a lease is live, and of the assessor that is asked for.
fn counts(lease: &Lease, assessor: Option<&[u8]>, now: u64) -> bool
    ensures { result ≡ is_asked (option_map (λ name. name.now) assessor.entry) lease.now
        && is_lease_live lease.now now }
{
    let is_asked = match assessor {
        Some(name) => lease.assessor.bytes() == name,
        None => true,
    };
    is_asked && lease.end.is_none() && now < lease.until
}
