//! The numbers that a server is started with.

/// The port of a server, how many workers it has, and the most connections that it takes.
#[derive(Clone, Copy, Debug, PartialEq, Eq)]
pub struct ServerNumbers {
    pub port: u16,
    pub workers: u32,
    pub connections: u32,
}
