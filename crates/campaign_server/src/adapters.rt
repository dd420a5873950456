//! Links and doors of the system: the streams of a process, and the network.

mod listeners;
mod patience;
pub(crate) mod stream_link;
pub(crate) mod system_calls;
pub(crate) mod tcp_door;
mod watches;
