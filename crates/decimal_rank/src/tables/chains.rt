//! A table that finds items by a key which equal items share, as the key of a text in a table of a
//! secret. It holds no item and no key: its caller numbers the items from 0 as they come, and walks
//! the items of a bucket from the newest to the earliest, comparing each. An item costs 12 bytes.
ghost use Rattle.std.specs.Prelude.{◌≡◌, ℕ, ◌+◌, ◌<◌, ◌%◌, ◌^◌, [], length, max, Some, IfOk, OnOk, OnErr, slice_get};
ghost use Rattle.decimal_rank.specs.Tables.Buckets.{IsNewest, with_item};

use crate::storage::Memory;
use std::alloc::Global;
use std::marker::Model;

/// Which items share a bucket. Contracts see the number of buckets and the bucket of each item.
#[derive(Drop)]
pub struct Chains {
    // by bucket
    newest: Vec<Option<u32>>,
    // by item
    links: Vec<Link>,
}

/// The bucket of an item, and the item that came to it before.
#[derive(Clone, Copy, Debug)]
struct Link {
    bucket: u32,
    earlier: Option<u32>,
}

impl Model for Chains {
    ghost use Rattle.std.specs.Prelude.{length, map};
    ghost use Rattle.decimal_rank.specs.Tables.Buckets.{Buckets};
    ghost use Rattle.decimal_rank.specs.Tables.BucketChains.{AreLinked};

    ghost Value = { Buckets };

    ghost view = { λ chains. record {
      room = length chains.newest.items;
      items = map (λ link. link.bucket) chains.links.items;
    } };

    ghost invariant = { λ chains. AreLinked chains.newest.items chains.links.items };
}

impl Chains {
    /// No item yet, with so many buckets, and one at least.
    pub fn with_room(alloc: Global, room: u32) -> Result<Chains, Memory>
        ensures room { IfOk result (λ chains. chains.room ≡ max room 1) }
        ensures items { IfOk result (λ chains. chains.items ≡ []) }
    {
        let room = room.max(1) as usize;
        Ok(Chains {
            newest: vec![in alloc; None; room]?,
            links: Vec::with_capacity(alloc, room)?,
        })
    }

    /// One more item, in the bucket of its key.
    pub fn push(&mut self, key: u64) -> Result<(), Memory>
        requires { length self.old.items + 1 < 2 ^ 32 }
        ensures ok { OnOk result (self.new ≡ with_item self.old key) }
        ensures err { OnErr result (self.new ≡ self.old) }
    {
        let bucket = (key % self.newest.len() as u64) as usize;
        let item = self.links.len() as u32;
        self.links.push(Link {
            bucket: bucket as u32,
            earlier: self.newest[bucket],
        })?;
        self.newest[bucket] = Some(item);
        Ok(())
    }

    /// The newest item in the bucket of a key.
    pub fn newest(&self, key: u64) -> Option<u32>
        ensures { IsNewest self.now.items (length self.now.items) (key % self.now.room) result }
    {
        self.newest[(key % self.newest.len() as u64) as usize]
    }

    /// The item that came to the bucket of an item before it.
    pub fn earlier(&self, item: u32) -> Option<u32>
        requires { item < length self.now.items }
        ensures { (bucket : ℕ) → slice_get self.now.items item ≡ Some bucket
            → IsNewest self.now.items item bucket result }
    {
        self.links[item as usize].earlier
    }
}
