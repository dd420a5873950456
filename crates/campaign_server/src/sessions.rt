//! A session: one connection to a campaign on a disk.
//!
//! # The way of a session
//!
//! `campaign_cli::campaign` reads the settings, opens the campaign of their rules from the disk and
//! calls `session` on the program's own link. That is `connections::converse` over the book: it
//! makes the table of the paths and takes the buffer of the answers (`buffers.rt`), reads a piece,
//! feeds it to the stream of asks (`asks.rt`, over `http_wire::Wire` and `routes::AskReader`), and
//! answers each whole request before it reads on: `answers.rt` takes a moment, has the teller
//! answer (`book_tellers.rt` for a book), puts the answer's text into the buffer
//! (`routes::render`), and writes it.
ghost use Rattle.book.specs.Books.{IsSound, Runs};
ghost use Rattle.campaign_server.specs.Connections.{ConnectionEnds};
ghost use Rattle.campaign_server.specs.Sessions.{AreNumberedOnce, IsSession};

use crate::connections::converse;
use crate::ends::End;
use crate::links::Link;
use book::{Book, Disk};
use routes::Keys;
use rulebook::numbers_are_used_once;
use std::alloc::Global;

/// Answers the requests of a link as they come, to its end, by a campaign on a disk. Nobody else
/// adds an entry meanwhile. At each moment a crash leaves the entries so far, or these and one
/// more.
pub fn session<R, D: Disk, I: Link>(
    _rt: &R,
    alloc: Global,
    book: &mut Book<D>,
    link: &mut I,
    keys: &Keys,
) -> End
    ensures ends { let was = I.seen link.old in let is = I.seen link.new in
        ConnectionEnds
        (IsSession D.seen keys.now book.old was.clock book.new is.clock) was is result }
    ensures runs { Runs D.seen book.old book.new }
    ensures sound { IsSound D.seen book.new }
    ensures numbered { AreNumberedOnce book.new.history }
{
    book.stands();
    numbers_are_used_once();
    converse(alloc, book, link, keys)
}
