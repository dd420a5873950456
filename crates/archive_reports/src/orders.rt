//! The releases of an archive by name.
ghost use Rattle.std.specs.Prelude.{◌≡◌, ◌≤◌, IfOk, OnOk, length};
ghost use Rattle.std.specs.List.{position_or_len};
ghost use Rattle.archive_reports.specs.Orders.{by_name as in_order_of_name, is_before, releases_behind, with_kept};

use decimal_rank::Memory;
use release_archive::Kept;
use std::alloc::Global;

/// The releases by name, equal names in the order of the archive.
pub(crate) fn by_name(alloc: Global, all: &[Kept]) -> Result<Vec<&Kept>, Memory>
    ensures { IfOk result (λ sorted. releases_behind sorted.items ≡ in_order_of_name all.now) }
{
    let mut sorted = Vec::with_capacity(alloc, all.len())?;
    for kept in all {
        put_in(&mut sorted, kept)?;
    }
    Ok(sorted)
}

fn put_in<'a>(sorted: &mut Vec<&'a Kept>, kept: &'a Kept) -> Result<(), Memory>
    ensures { OnOk result
        (releases_behind sorted.new.items ≡ with_kept (releases_behind sorted.old.items) kept.now) }
{
    let place = place_in(sorted, kept.name.bytes());
    sorted.insert(place, kept)?;
    Ok(())
}

/// The place of the first release that a name comes before, or that behind all.
fn place_in(sorted: &[&Kept], name: &[u8]) -> usize
    ensures place { result
        ≡ position_or_len (λ kept. is_before name.now kept.name) (releases_behind sorted.now) }
    ensures within { result ≤ length sorted.now }
{
    for (place, kept) in sorted.iter().enumerate() {
        if is_before(name, kept.name.bytes()) {
            return place;
        }
    }
    sorted.len()
}

fn is_before(name: &[u8], next: &[u8]) -> bool
    ensures { result ≡ is_before name.now next.now }
{
    name.cmp(next).is_lt()
}
