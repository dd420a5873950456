//! What `State::prepare` comes to.
ghost use Rattle.std.specs.Prelude.{◌≡◌};

use rulebook::{Entry, EntryCore, Reply};
use std::marker::Model;

/// An entry that was accepted and isn't in the history yet: it is to be committed or cancelled. One
/// that is dropped is cancelled by the next `prepare`, so it may be. Contracts see the entry.
#[must_use]
#[derive(Drop)]
pub struct Prepared {
    pub(crate) entry: Entry,
    pub(crate) reply: Reply,
}

impl Model for Prepared {
    ghost use Rattle.std.specs.Prelude.{◌≡◌};
    ghost use Rattle.rulebook.specs.declared.entry.Entry.{Entry};

    ghost Value = { Entry };

    ghost view = { λ p. p.entry };

    ghost invariant = { λ p. p.reply ≡ p.entry.reply };
}

impl Prepared {
    /// What the journal keeps of the entry.
    pub fn core(&self) -> &EntryCore
        ensures { result.now ≡ self.now.core }
    {
        &self.entry.core
    }
}

/// What a request comes to.
#[must_use]
#[derive(Drop)]
pub enum Verdict {
    /// It adds nothing, and gets this reply.
    Told(Reply),
    /// It adds this entry once it is committed.
    Ready(Prepared),
}
