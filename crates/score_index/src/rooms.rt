//! Room for lists, so that each is added without memory.
ghost use Rattle.std.specs.Prelude.{◌≡◌, ℕ, ◌+◌, ◌-◌, ◌<◌, ◌≤◌, ◌==◌, if◌then◌else◌, All, IfOk, false, count_by, length, map, position, replicate};
ghost use Rattle.score_index.specs.KeptBoards.{IsRoom, room_size};

use crate::filters::Filter;
use crate::trees::Trees;
use decimal_rank::Memory;
use std::alloc::Global;

/// The places and the filter of a list that is added later: no place is judged.
#[derive(Drop)]
pub(crate) struct Room {
    pub(crate) trees: Trees,
    pub(crate) filter: Filter,
}

impl Room {
    /// Room for a list of so many documents.
    pub(crate) fn new(alloc: Global, len: u32) -> Result<Room, Memory>
        requires { len ≤ 1000 }
        ensures relevant { IfOk result (λ room. room.trees.relevant ≡ replicate len false) }
        ensures lower { IfOk result (λ room. room.trees.lower ≡ replicate len false) }
    {
        let trees = Trees::new(alloc, len)?;
        let filter = Filter::new(alloc, len)?;
        Ok(Room { trees, filter })
    }
}

/// Takes a room for a list of this length out.
pub(crate) fn take_room(rooms: &mut Vec<Room>, len: usize) -> Room
    requires room { 0 < count_by (λ room. room == len) (map room_size rooms.old.items) }
    requires fresh { All (λ room. IsRoom room.trees) rooms.old.items }
    ensures room { room_size result ≡ len }
    ensures is_room { IsRoom result.trees }
    ensures rooms { (other : ℕ) → count_by (λ room. room == other) (map room_size rooms.new.items)
        ≡ count_by (λ room. room == other) (map room_size rooms.old.items) -
        (if len == other then 1 else 0) }
    ensures fresh { All (λ room. IsRoom room.trees) rooms.new.items }
    ensures one { length rooms.new.items + 1 ≡ length rooms.old.items }
{
    let place = room_for(rooms.as_slice(), len).unwrap();
    rooms.remove(place)
}

/// The place of the first room for a list of this length.
fn room_for(rooms: &[Room], len: usize) -> Option<usize>
    ensures { result ≡ position (λ room. room_size room == len) rooms.now }
{
    rooms
        .iter()
        .position(|room| room.trees.len() as usize == len)
}
