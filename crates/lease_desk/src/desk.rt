//! The leases of a campaign by number, and the counts of those that are live.
ghost use Rattle.std.specs.Prelude.{◌≡◌, ◌+◌, ◌-◌, ◌<◌, ◌≤◌, ◌^◌, ◌&&◌, [], None, OnOk, count_by, length};
ghost use Rattle.std.specs.Option.{IsSomeAnd, option_copied, option_map};
ghost use Rattle.lease_desk.specs.Series.{document_of, is_asked, same_document};
ghost use Rattle.lease_desk.specs.Leases.{AreNumbered, desk_lease, has_live, is_lease_live, live_of, live_on, live_on_topic, with_end, with_grant};

use crate::leases::{Lease, LeaseEnd};
use crate::series::Series;
use crate::walks::count_live;
use decimal_rank::{DocId, Memory, Secret, Text};
use std::alloc::Global;
use std::marker::Model;

/// The leases of a campaign. Contracts see the list of the leases in the order of their numbers,
/// and the room for more.
#[derive(Drop)]
pub struct Desk {
    leases: Vec<Lease>,
    secret: Secret,
    // by the key of the assessor's name: room for a name's entry then needs no name
    assessors: Series<u64>,
    // by topic and document
    documents: Series<(u16, u32)>,
    topics: Series<u16>,
}

impl Model for Desk {
    ghost use Rattle.std.specs.Prelude.{◌-◌, eqb, min, vec_len, vec_capacity};
    ghost use Rattle.indexmap.specs.IndexMap.{get, spare};
    ghost use Rattle.lease_desk.specs.Series.{same_document};
    ghost use Rattle.lease_desk.specs.DeskView.{DeskView, IsKept};

    ghost Value = { DeskView };

    ghost view = { λ desk. record {
      leases = desk.leases.items;
      spare = min (vec_capacity desk.leases - vec_len desk.leases)
          (min (min (vec_capacity desk.assessors.links - vec_len desk.assessors.links)
          (spare desk.assessors.newest))
          (min (min (vec_capacity desk.documents.links - vec_len desk.documents.links)
          (spare desk.documents.newest))
          (min (vec_capacity desk.topics.links - vec_len desk.topics.links)
          (spare desk.topics.newest))));
    } };

    ghost invariant = { λ desk. IsKept desk.secret desk.leases.items desk.assessors.links.items
        desk.documents.links.items desk.topics.links.items (get eqb desk.assessors.newest)
        (get same_document desk.documents.newest) (get eqb desk.topics.newest) };
}

impl Desk {
    /// No lease yet.
    pub fn new(alloc: Global) -> Desk
        ensures { result.leases ≡ [] }
    {
        let secret = Secret::drawn();
        Desk {
            leases: Vec::new(alloc),
            secret,
            assessors: Series::new(alloc, secret),
            documents: Series::new(alloc, secret),
            topics: Series::new(alloc, secret),
        }
    }

    /// How many leases were granted.
    pub fn len(&self) -> u32
        ensures len { result ≡ length self.now.leases }
        ensures numbered { AreNumbered self.now.leases }
    {
        self.leases.len() as u32
    }

    /// Makes room for one more lease.
    pub fn reserve(&mut self) -> Result<(), Memory>
        ensures room { OnOk result (1 ≤ self.new.spare) }
        ensures leases { self.new.leases ≡ self.old.leases }
    {
        self.leases.reserve(1)?;
        self.assessors.reserve()?;
        self.documents.reserve()?;
        self.topics.reserve()?;
        Ok(())
    }

    /// Grants a lease, and tells its number, the next one.
    pub fn grant(&mut self, assessor: Text, topic: u16, doc: DocId, until: u64) -> u32
        requires room { 1 ≤ self.old.spare }
        requires few { length self.old.leases < 2 ^ 32 - 1 }
        ensures number { result ≡ length self.old.leases + 1 }
        ensures leases { self.new.leases ≡ with_grant self.old.leases assessor topic doc until }
    {
        let number = self.leases.len() as u32 + 1;
        let leases = self.leases.as_slice();
        let key = self.secret.key_of(assessor.bytes());
        self.assessors.add(leases, key, until);
        self.documents.add(leases, (topic, doc.0), until);
        self.topics.add(leases, topic, until);
        let lease = Lease {
            number,
            assessor,
            topic,
            doc,
            until,
            end: None,
        };
        self.leases.push(lease).unwrap();
        number
    }

    /// Ends a lease that has no end yet. Room stays.
    pub fn end(&mut self, number: u32, how: LeaseEnd)
        requires { IsSomeAnd (desk_lease self.old.leases number) (λ lease. lease.end ≡ None) }
        ensures leases { self.new.leases ≡ with_end self.old.leases number how }
        ensures room { self.new.spare ≡ self.old.spare }
    {
        let place = number - 1;
        self.leases[place as usize].end = Some(how);
        self.assessors.leave_out(place);
        self.documents.leave_out(place);
        self.topics.leave_out(place);
    }

    /// The lease of a number, from 1.
    pub fn find(&self, number: u32) -> Option<&Lease>
        ensures lease { option_copied result ≡ desk_lease self.now.leases number }
        ensures numbered { AreNumbered self.now.leases }
    {
        let leases = self.leases.as_slice();
        let place = number.checked_sub(1)?;
        leases.get(place as usize)
    }

    /// How many leases on a document are live.
    pub fn live_on(&self, topic: u16, doc: DocId, now: u64) -> u32
        ensures { result ≡ live_on self.now.leases topic doc now }
    {
        self.count_on(topic, doc, None, now)
    }

    /// How many leases on a topic are live.
    pub fn live_on_topic(&self, topic: u16, now: u64) -> u32
        ensures { result ≡ live_on_topic self.now.leases topic now }
    {
        let newest = self.topics.newest.get(&topic).copied();
        let links = self.topics.links.as_slice();
        count_live(self.leases.as_slice(), links, newest, None, now)
    }

    /// How many leases of an assessor are live.
    pub fn live_of(&self, assessor: &[u8], now: u64) -> u32
        ensures { result ≡ live_of self.now.leases assessor.now now }
    {
        let newest = self
            .assessors
            .newest
            .get(&self.secret.key_of(assessor))
            .copied();
        let links = self.assessors.links.as_slice();
        count_live(self.leases.as_slice(), links, newest, Some(assessor), now)
    }

    /// Whether an assessor has a live lease on a document.
    pub fn has(&self, assessor: &[u8], topic: u16, doc: DocId, now: u64) -> bool
        ensures { result ≡ has_live self.now.leases assessor.now topic doc now }
    {
        self.count_on(topic, doc, Some(assessor), now) > 0
    }

    /// How many leases on a document are live: of one assessor, or of all.
    fn count_on(&self, topic: u16, doc: DocId, assessor: Option<&[u8]>, now: u64) -> u32
        ensures { result ≡ count_by (λ lease. same_document (topic, doc.0) (document_of lease)
            && is_asked (option_map (λ name. name.now) assessor.entry) lease
            && is_lease_live lease now) self.now.leases }
    {
        let newest = self.documents.newest.get(&(topic, doc.0)).copied();
        let links = self.documents.links.as_slice();
        count_live(self.leases.as_slice(), links, newest, assessor, now)
    }
}
