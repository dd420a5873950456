//! The index of a pool: for each document the runs that hold it, by number.
ghost use Rattle.std.specs.Prelude.{◌≡◌, ◌≢◌, ℕ, ◌+◌, ◌<◌, ◌≤◌, ◌==◌, ◌&&◌, nat_lt, not, true, false, List, OnOk, OnErr, IfOk, All, if◌then◌else◌, length};
ghost use Rattle.std.specs.List.{position_or_len};
ghost use Rattle.std.specs.BTreeMap.{IsOrdered};
ghost use Rattle.smallvec.specs.SmallVec.{HasRoomFor};
ghost use Rattle.decimal_rank.specs.declared.naming.DocId.{DocId};
ghost use Rattle.depth_pool.specs.Holdings.{IsCount, has_doc};
ghost use Rattle.depth_pool.specs.Index.{IsReserved, doc_cmp, has_holder, has_room, held_docs, holders_at, is_vacant, with_holder, without_holder};

use crate::runs::RunId;
use decimal_rank::{DocId, Memory};
use smallvec::SmallVec;
use std::alloc::Global;
use std::collections::BTreeMap;

/// The runs that hold each document, by number. Up to eight stand in the entry itself.
pub(crate) type Index = BTreeMap<DocId, SmallVec<RunId, 8>>;

/// Makes room for one more run at a document.
fn make_room(index: &mut Index, alloc: Global, doc: DocId) -> Result<(), Memory>
    ensures room { OnOk result (has_room index.new doc ≡ true) }
    ensures holders { (other : DocId) → holders_at index.new other ≡ holders_at index.old other }
    ensures rooms { (other : DocId) → has_room index.old other ≡ true
        → has_room index.new other ≡ true }
{
    match index.get_mut(&doc) {
        Some(holders) => holders.reserve(1)?,
        None => {
            index.insert(doc, SmallVec::new(alloc))?;
        }
    }
    Ok(())
}

/// Puts a run in by number, where there is room.
fn put_holder(holders: &mut SmallVec<RunId, 8>, run: RunId)
    requires { HasRoomFor holders.old 1 }
    ensures items { holders.new.items ≡ with_holder run holders.old.items }
    ensures capacity { holders.new.capacity ≡ holders.old.capacity }
{
    let place = place_of(holders.as_slice(), run);
    holders.insert(place, run).unwrap();
}

/// The index before which a run stands by number.
fn place_of(holders: &[RunId], run: RunId) -> usize
    ensures { result ≡ position_or_len (λ holder. nat_lt run.0 holder.0) holders.now }
{
    for (i, holder) in holders.iter().enumerate() {
        if run.0 < holder.0 {
            return i;
        }
    }
    holders.len()
}

/// Makes room for one more run at each document. On an error no entry is left for it.
pub(crate) fn make_rooms(index: &mut Index, alloc: Global, docs: &[DocId]) -> Result<(), Memory>
    ensures room { OnOk result (All (λ doc. has_room index.new doc ≡ true) docs.now) }
    ensures none_left { OnErr result (All (λ doc. is_vacant index.new doc ≡ false) docs.now) }
    ensures holders { (other : DocId) → holders_at index.new other ≡ holders_at index.old other }
{
    let made = try_rooms(index, alloc, docs);
    if made.is_err() {
        drop_empties(index, docs);
    }
    made
}

/// Makes room for one more run at each document, up to the first for which there is no memory.
fn try_rooms(index: &mut Index, alloc: Global, docs: &[DocId]) -> Result<(), Memory>
    ensures room { OnOk result (All (λ doc. has_room index.new doc ≡ true) docs.now) }
    ensures holders { (other : DocId) → holders_at index.new other ≡ holders_at index.old other }
{
    for doc in docs {
        make_room(index, alloc, *doc)?;
    }
    Ok(())
}

/// Takes the entry of each document out where no run stands at it.
pub(crate) fn drop_empties(index: &mut Index, docs: &[DocId])
    ensures gone { All (λ doc. is_vacant index.new doc ≡ false) docs.now }
    ensures holders { (other : DocId) → holders_at index.new other ≡ holders_at index.old other }
{
    for doc in docs {
        drop_empty(index, *doc);
    }
}

/// Takes the entry of a document out where no run stands at it.
fn drop_empty(index: &mut Index, doc: DocId)
    ensures gone { is_vacant index.new doc ≡ false }
    ensures others { (other : DocId) → is_vacant index.old other ≡ false
        → is_vacant index.new other ≡ false }
    ensures holders { (other : DocId) → holders_at index.new other ≡ holders_at index.old other }
{
    if let Some(holders) = index.get(&doc)
        && holders.is_empty()
    {
        index.remove(&doc);
    }
}

/// Puts a run at a document where there is room. Tells whether it is the first there.
fn add_holder(index: &mut Index, doc: DocId, run: RunId) -> bool
    requires { has_room index.old doc ≡ true }
    ensures holders { (other : DocId) → holders_at index.new other ≡ (if doc.0 == other.0 then
        with_holder run (holders_at index.old other) else holders_at index.old other) }
    ensures rooms { (other : DocId) → other ≢ doc
        → has_room index.new other ≡ has_room index.old other }
    ensures first { result ≡ not (has_holder index.old doc) }
{
    match index.get_mut(&doc) {
        Some(holders) => {
            let is_first = holders.is_empty();
            put_holder(holders, run);
            is_first
        }
        None => true,
    }
}

/// Puts a run at each document. Gives how many more documents have a holder then.
pub(crate) fn add_holders(index: &mut Index, docs: &[DocId], run: RunId) -> usize
    requires { IsReserved index.old docs.now }
    ensures count { (count : ℕ) → IsCount (has_holder index.old) count
        → IsCount (has_holder index.new) (count + result) }
    ensures holders { (other : DocId) → holders_at index.new other ≡ (if has_doc other docs.now then
        with_holder run (holders_at index.old other) else holders_at index.old other) }
{
    let mut more = 0;
    for doc in docs {
        let is_first = add_holder(index, *doc, run);
        if is_first {
            more += 1;
        }
    }
    more
}

/// Takes a run away from a document. Tells whether it was the last there.
fn remove_holder(index: &mut Index, doc: DocId, run: RunId) -> bool
    ensures holders { (other : DocId) → holders_at index.new other ≡ (if doc.0 == other.0 then
        without_holder run (holders_at index.old other) else holders_at index.old other) }
    ensures rooms { (other : DocId) → has_room index.old other ≡ true
        → has_room index.new other ≡ true }
    ensures last { result ≡ (has_holder index.old doc && not (has_holder index.new doc)) }
{
    match index.get_mut(&doc) {
        Some(holders) => take_holder(holders, run),
        None => false,
    }
}

/// Takes a run out. Tells whether it was the last.
fn take_holder(holders: &mut SmallVec<RunId, 8>, run: RunId) -> bool
    ensures items { holders.new.items ≡ without_holder run holders.old.items }
    ensures len { length holders.new.items ≤ length holders.old.items }
    ensures capacity { holders.new.capacity ≡ holders.old.capacity }
    ensures last { result
        ≡ (nat_lt 0 (length holders.old.items) && not (nat_lt 0 (length holders.new.items))) }
{
    let had_one = !holders.is_empty();
    holders.retain(|holder| holder.0 != run.0);
    had_one && holders.is_empty()
}

/// Takes a run away from each document. Gives how many documents fewer have a holder then.
pub(crate) fn remove_holders(index: &mut Index, docs: &[DocId], run: RunId) -> usize
    ensures count { (count : ℕ) → IsCount (has_holder index.new) count
        → IsCount (has_holder index.old) (count + result) }
    ensures holders { (other : DocId) → holders_at index.new other ≡ (if has_doc other docs.now then
        without_holder run (holders_at index.old other) else holders_at index.old other) }
    ensures rooms { (other : DocId) → has_room index.old other ≡ true
        → has_room index.new other ≡ true }
{
    let mut fewer = 0;
    for doc in docs {
        let was_last = remove_holder(index, *doc, run);
        if was_last {
            fewer += 1;
        }
    }
    fewer
}

/// The documents that have a holder.
pub(crate) fn docs_held(index: &Index, alloc: Global) -> Result<Vec<DocId>, Memory>
    ensures docs { IfOk result (λ docs. docs.items ≡ held_docs index.now.entries) }
    ensures ordered { IsOrdered doc_cmp index.now }
{
    let mut docs = Vec::with_capacity(alloc, index.len())?;
    for (doc, holders) in index {
        if !holders.is_empty() {
            docs.push(*doc)?;
        }
    }
    Ok(docs)
}
