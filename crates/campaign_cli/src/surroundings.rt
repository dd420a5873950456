//! What the program is lent: shelves that files are read from, outputs, links and disks.

pub(crate) mod devices;
pub(crate) mod faults;
pub(crate) mod file_shelf;
pub(crate) mod memory_shelf;
pub(crate) mod memory_sink;
pub(crate) mod output_sink;
pub(crate) mod shelves;
