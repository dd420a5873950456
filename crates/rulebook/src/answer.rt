//! What a request to a kept campaign is answered: the reply of the rules, or that the disk failed
//! or memory was short.
use crate::reply::Reply;

/// What a campaign that is kept somewhere answers a request.
#[derive(Debug, Drop)]
pub enum Answer {
    /// The reply of the rules.
    Reply(Reply),
    /// The disk failed, and the command wasn't accepted.
    DiskFault,
    /// There was no memory, and nothing was accepted.
    Memory,
}
