//! A pass: what one worker knows of a hall.
ghost use Rattle.std.specs.Prelude.{◌≡◌, [], length};
ghost use Rattle.hall.specs.Places.{Rises};

use crate::storied::Storied;
use crate::stories::StoryView;
use atomic_table::Seat;
use std::marker::Model;

/// What a worker has seen, and the places of what it added. Contracts see which hall it is of, the
/// state that was seen, and those places, from 1. It has no bytes.
#[derive(Drop)]
pub struct Pass<B: Storied> {
    pub(crate) seat: Seat<Option<B>, StoryView<B::Entry>>,
}

impl<B: Storied> Model for Pass<B> {
    ghost use Rattle.std.specs.Prelude.{◌≡◌, [], length};
    ghost use Rattle.hall.specs.declared.stories.Stage.TheVariants.{Idle};
    ghost use Rattle.hall.specs.Acts.{Known};
    ghost use Rattle.hall.specs.Places.{Rises};

    ghost Value = { Known B.Entry };

    ghost view = { λ p. record {
      hall = p.seat.table_id;
      seen = p.seat.me.0.seen;
      mine = p.seat.me.0.mine;
    } };

    ghost invariant = { λ p. (p.seat.me.1 ≡ []) × (p.seat.me.0.stage ≡ Idle)
        × Rises 0 p.seat.me.0.mine (length p.seat.me.0.seen.list) };
}

impl<B: Storied> Pass<B> {
    /// Its places ascend, and are places of what it has seen.
    pub fn places_rise(&self)
        ensures { Rises 0 self.now.mine (length self.now.seen.list) }
    {
        let _seat = &self.seat;
    }
}
