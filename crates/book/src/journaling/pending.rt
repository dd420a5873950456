//! The entry that may be on the disk though its journaling failed. It takes no memory: only
//! contracts know which it is.
ghost use Rattle.std.specs.Prelude.{◌≡◌, None, Some};

use campaign_core::Prepared;
use std::marker::Model;
use std::snapshot::Snapshot;

/// The entry whose journaling failed last, if it may be on the disk. Contracts see the entry.
#[derive(Drop)]
pub(crate) struct Pending {
    entry: Option<Snapshot<Prepared>>,
}

impl Model for Pending {
    ghost use Rattle.std.specs.Prelude.{Option};
    ghost use Rattle.std.specs.Option.{option_map};
    ghost use Rattle.rulebook.specs.declared.entry.Entry.{Entry};

    ghost Value = { Option Entry };

    ghost view = { λ pending. option_map (λ entry. entry.value) pending.entry };
}

impl Pending {
    pub(crate) fn none() -> Pending
        ensures { result ≡ None }
    {
        Pending { entry: None }
    }

    /// No entry is on the disk beside the accepted ones.
    pub(crate) fn settle(&mut self)
        ensures { self.new ≡ None }
    {
        self.entry = None;
    }

    /// The journaling of this entry failed.
    pub(crate) fn leave(&mut self, prepared: &Prepared)
        ensures { self.new ≡ Some prepared.now }
    {
        self.entry = Some(Snapshot::of(prepared));
    }
}
