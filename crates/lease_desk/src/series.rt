//! The leases of one key, found from the newest back, by links. What a link tells lets a walk stop
//! early, and an ended lease is left out by the link behind it.
ghost use Rattle.std.specs.Prelude.{◌≡◌, ◌+◌, ◌<◌, ◌≤◌, ◌^◌, max, Bool, None, Some, IfSome, OnOk, [], length, slice_index_or, vec_len, vec_capacity};
ghost use Rattle.indexmap.specs.IndexMap.{Updates, get, spare};
ghost use Rattle.lease_desk.specs.Series.{HasLink, IsSeriesOf, LeadEarlier, LeadPast, LeadsBack, latest_at, up_to};
ghost use Rattle.lease_desk.specs.declared.leases.Lease.{Lease};
ghost use Rattle.lease_desk.specs.declared.series.Link.{Link};

use crate::leases::Lease;
use decimal_rank::{Memory, Secret};
use indexmap::IndexMap;
use std::alloc::Global;
use std::hash::Hash;

/// What stands at a lease: the place of one before it with the same key, past ended ones; the place
/// of one whose link leads here, a hint alone; and the greatest `until` of those with this key up
/// to it.
#[derive(Clone, Copy)]
pub(crate) struct Link {
    pub(crate) previous: Option<u32>,
    pub(crate) next: Option<u32>,
    pub(crate) latest_until: u64,
}

/// A link for each lease in their order, and the place of the newest lease of each key.
#[derive(Drop)]
pub(crate) struct Series<K: Eq + Hash + Drop> {
    pub(crate) newest: IndexMap<K, u32, Secret>,
    pub(crate) links: Vec<Link>,
}

impl<K: Eq + Hash + Drop> Series<K> {
    pub(crate) fn new(alloc: Global, secret: Secret) -> Series<K>
        ensures newest { result.newest.entries ≡ [] }
        ensures links { result.links.items ≡ [] }
    {
        Series {
            newest: IndexMap::with_hasher(alloc, secret),
            links: Vec::new(alloc),
        }
    }

    /// Makes room for one more lease.
    pub(crate) fn reserve(&mut self) -> Result<(), Memory>
        ensures keys_room { OnOk result (1 ≤ spare self.new.newest) }
        ensures links_room { OnOk result (vec_len self.new.links < vec_capacity self.new.links) }
        ensures newest { self.new.newest.entries ≡ self.old.newest.entries }
        ensures links { self.new.links.items ≡ self.old.links.items }
    {
        self.newest.reserve(1)?;
        self.links.reserve(1)?;
        Ok(())
    }

    /// Adds a lease with this key behind these.
    pub(crate) fn add(&mut self, leases: &[Lease], key: K, until: u64)
        requires keys_room { 1 ≤ spare self.old.newest }
        requires links_room { vec_len self.old.links < vec_capacity self.old.links }
        requires few { vec_len self.old.links < 2 ^ 32 }
        requires as_many { length self.old.links.items ≡ length leases.now }
        requires within { up_to (get K.eq self.old.newest key) ≤ length self.old.links.items }
        requires back { LeadEarlier self.old.links.items }
        ensures newest { Updates K.eq self.old.newest self.new.newest key
            (Some (length self.old.links.items)) }
        ensures links { let newest = get K.eq self.old.newest key in
            HasLink leases.now self.old.links.items self.new.links.items newest
            (max until (latest_at self.old.links.items newest)) }
    {
        let place = self.links.len() as u32;
        let newest = self.newest.insert(key, place).unwrap();
        add_link(&mut self.links, leases, newest, until);
    }

    /// Leaves a lease that ends out of the walks.
    pub(crate) fn leave_out(&mut self, place: u32)
        requires within { place < length self.old.links.items }
        requires back { LeadEarlier self.old.links.items }
        ensures newest { self.new.newest ≡ self.old.newest }
        ensures links { LeadPast place self.old.links.items self.new.links.items }
        ensures links_room { vec_capacity self.new.links ≡ vec_capacity self.old.links }
    {
        lead_past(self.links.as_mut_slice(), place);
    }
}

/// Adds a link behind the newest lease of a key.
fn add_link(links: &mut Vec<Link>, leases: &[Lease], newest: Option<u32>, until: u64)
    requires room { vec_len links.old < vec_capacity links.old }
    requires few { vec_len links.old < 2 ^ 32 }
    requires as_many { length links.old.items ≡ length leases.now }
    requires within { up_to newest ≤ length links.old.items }
    requires back { LeadEarlier links.old.items }
    ensures { HasLink leases.now links.old.items links.new.items newest
        (max until (latest_at links.old.items newest)) }
{
    let place = links.len() as u32;
    let latest_until = until.max(latest_at(links.as_slice(), newest));
    let previous = unended(leases, links.as_slice(), newest);
    if let Some(previous) = previous {
        links[previous as usize].next = Some(place);
    }
    links
        .push(Link {
            previous,
            next: None,
            latest_until,
        })
        .unwrap();
}

/// The newest lease of a key, or the one that its link leads to where it has ended.
fn unended(leases: &[Lease], links: &[Link], newest: Option<u32>) -> Option<u32>
    requires as_many { length links.now ≡ length leases.now }
    requires within { up_to newest ≤ length links.now }
    requires back { LeadEarlier links.now }
    ensures within { up_to result ≤ length links.now }
    ensures back { (passes : Lease → Bool) → IsSeriesOf passes leases.now links.now newest
        → LeadsBack passes leases.now (length links.now) result }
{
    let place = newest?;
    if leases[place as usize].end.is_none() {
        return Some(place);
    }
    links[place as usize].previous
}

/// Where the link behind a place leads to it, it leads now to where the place's link leads.
fn lead_past(links: &mut [Link], place: u32)
    requires within { place < length links.old }
    requires back { LeadEarlier links.old }
    ensures { LeadPast place links.old links.new }
{
    if let Some(behind) = behind(links, place) {
        let previous = links[place as usize].previous;
        links[behind as usize].previous = previous;
        if let Some(previous) = previous {
            links[previous as usize].next = Some(behind);
        }
    }
}

/// The place whose link leads to this one, where the hint is right.
fn behind(links: &[Link], place: u32) -> Option<u32>
    requires { place < length links.now }
    ensures within { IfSome result (λ behind. behind < length links.now) }
    ensures leads { (link : Link)
        → IfSome result (λ behind. (slice_index_or links.now behind link).previous ≡ Some place) }
{
    let next = links[place as usize].next?;
    let link = links.get(next as usize)?;
    if link.previous == Some(place) {
        return Some(next);
    }
    None
}

/// The greatest `until` up to a place.
fn latest_at(links: &[Link], place: Option<u32>) -> u64
    requires { up_to place ≤ length links.now }
    ensures { result ≡ latest_at links.now place }
{
    match place {
        Some(place) => links[place as usize].latest_until,
        None => 0,
    }
}
