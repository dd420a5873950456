//! An entry of a campaign: an accepted command with its caller, its number and its moment, and the
//! reply that it got.
use crate::ask::Command;
use crate::reply::Reply;
use crate::rules::Caller;

/// An accepted command: whose it was, the number that the caller gave it, and its moment in
/// seconds.
#[derive(Debug, Drop)]
pub struct EntryCore {
    pub caller: Caller,
    pub number: Option<u64>,
    pub moment: u64,
    pub command: Command,
}

/// An accepted command with the reply that it got.
#[derive(Debug, Drop)]
pub struct Entry {
    pub core: EntryCore,
    pub reply: Reply,
}
