//! A book in a hall, where many callers act on it, one at a time.
ghost use Rattle.book.specs.Halls.{BookTells, MayBeAnswered, story_in};

use crate::books::Book;
use hall::Storied;
use journal::Disk;
use rulebook::{Addressed, Answer, Entry};

impl<D: Disk> Storied for Book<D> {
    type Ask = Addressed;

    type Entry = Entry;

    type Answer = Answer;

    ghost story = { story_in D.seen };

    ghost fits = { MayBeAnswered };

    ghost tells = { BookTells };

    fn length(&self) -> u64 {
        self.entries() as u64
    }

    fn act(&mut self, ask: Addressed) -> Answer {
        Book::act(self, ask)
    }
}
