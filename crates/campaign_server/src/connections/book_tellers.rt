//! A campaign that is kept on a disk as a teller.
use crate::connections::tellers::Teller;
use book::{Book, Disk};
use rulebook::{Addressed, Answer};

/// A book tells what one request makes of it.
impl<D: Disk> Teller for Book<D> {
    ghost use Rattle.book.specs.Books.{Acts};

    ghost tells = { Acts D.seen };

    ghost by_rules = { λ old asked reply new acts.
        (old.history, acts.before.legal, acts.told.leads.0) };

    fn tell(&mut self, asked: Addressed) -> Answer {
        self.act(asked)
    }
}
