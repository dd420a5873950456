//! A connection to a campaign in a hall, on which others act too: the loop of a connection over a
//! teller that is lent the hall, the caller's pass and the handle by which it waits.
ghost use Rattle.std.specs.Prelude.{◌≡◌};
ghost use Rattle.campaign_server.specs.HallConnections.{Serves, TellsInHall};

use crate::connections::converse_with;
use crate::connections::tellers::Teller;
use crate::ends::End;
use crate::links::Link;
use book::Book;
use disk_model::Disk;
use hall::{Hall, Pass};
use routes::{Keys, Paths};
use rulebook::{Addressed, Answer};
use std::alloc::Global;
use std::sync::Wait;

/// A campaign in a hall as a teller, which waits for the turn at each request.
#[derive(Drop)]
struct HallTeller<'a, D: Disk, W: Wait> {
    rt: &'a W,
    hall: &'a Hall<Book<D>>,
    pass: &'a mut Pass<Book<D>>,
    ghost of: { pass.now.hall ≡ hall.now },
}

impl<'a, D: Disk, W: Wait> Teller for HallTeller<'a, D, W> {
    // it stays the same pass
    ghost tells = { λ old asked answer new. TellsInHall old.pass.now asked answer new.pass.now
        × (new.pass.ghost_name ≡ old.pass.ghost_name) };

    ghost by_rules = { λ old asked reply new tells.
        (tells.0.0.0.list, tells.0.0.3.legal, tells.0.0.3.leads.0) };

    fn tell(&mut self, asked: Addressed) -> Answer {
        self.hall.act(self.rt, self.pass, asked)
    }
}

/// Answers the requests of a link as they come, to its end, while others act on the campaign too.
/// The turn is held while the rules answer a whole request, and not while bytes are read, parsed,
/// rendered or written.
pub fn serve_connection<D: Disk, I: Link, W: Wait>(
    rt: &W,
    alloc: Global,
    hall: &Hall<Book<D>>,
    pass: &mut Pass<Book<D>>,
    link: &mut I,
    keys: &Keys,
) -> End
    requires { pass.old.hall ≡ hall.now }
    ensures hall { pass.new.hall ≡ pass.old.hall }
    ensures serves { Serves keys.now pass.old pass.new (I.seen link.old) (I.seen link.new) result }
{
    let Ok(paths) = Paths::new(alloc) else {
        return End::Memory;
    };
    serve_link(rt, alloc, hall, pass, link, &paths, keys)
}

/// The same by a table of the paths that was made before.
pub(crate) fn serve_link<D: Disk, I: Link, W: Wait>(
    rt: &W,
    alloc: Global,
    hall: &Hall<Book<D>>,
    pass: &mut Pass<Book<D>>,
    link: &mut I,
    paths: &Paths,
    keys: &Keys,
) -> End
    requires { pass.old.hall ≡ hall.now }
    ensures hall { pass.new.hall ≡ pass.old.hall }
    ensures serves { Serves keys.now pass.old pass.new (I.seen link.old) (I.seen link.new) result }
{
    let mut teller = HallTeller { rt, hall, pass };
    converse_with(alloc, &mut teller, link, paths, keys)
}
