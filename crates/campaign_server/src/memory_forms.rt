//! Links and doors in memory, whose calls fail as they are told.

pub(crate) mod memory_door;
pub(crate) mod memory_link;
pub(crate) mod memory_writes;
