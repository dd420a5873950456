//! A hall, and what workers do in it. The value lies in the one slot of a table while nobody has
//! the turn. A worker takes the turn by the lock word, takes the value out, acts on it, writes down
//! how many entries it has, puts it back, and leaves the turn.
ghost use Rattle.std.specs.Prelude.{◌≡◌, ◌+◌, ◌++◌, List, [], ◌≤◌, length, IfOk, IfErr};
ghost use Rattle.hall.specs.declared.stories.Stage.TheVariants.{Counted, Idle, Took};
ghost use Rattle.hall.specs.declared.stories.Story.{Story};
ghost use Rattle.hall.specs.Acts.{HallActs};
ghost use Rattle.hall.specs.Places.{Apart, added_place, places_merged};
ghost use Rattle.hall.specs.Rule.{HasTurn, viewed};
ghost use Rattle.hall.specs.Stories.{AreComparable, AtMost, Grows, joined_story};

use crate::passes::Pass;
use crate::storied::Storied;
use crate::stories::StoryView;
use crate::turns::{End, Fresh, Leave, Meet, Note, Passing, Take, Turns};
use atomic_table::{Refused, Seat, Table};
use decimal_rank::Memory;
use std::alloc::Global;
use std::marker::{Brand, Model};
use std::snapshot::Snapshot;
use std::sync::Wait;

/// the words of the table: whether the turn is taken, and the number of entries
const LOCK: usize = 0;

const COUNT: usize = 1;

/// what the lock word says
const FREE: u64 = 0;

const TAKEN: u64 = 1;

const ENDED: u64 = 2;

/// One value, on which the holders of its passes act in turn. Contracts see which hall it is.
pub struct Hall<B: Storied> {
    table: Table<Option<B>, StoryView<B::Entry>, Snapshot<B>, Turns<B>, Global>,
}

impl<B: Storied> Model for Hall<B> {
    ghost use Rattle.std.specs.Prelude.{◌≡◌};
    ghost use Rattle.atomic_table.specs.Seated.{TableId};

    ghost Value = { TableId };

    ghost view = { λ h. h.table.shared.table_id };

    ghost invariant = { λ h. (h.table.shared.table_id.words ≡ 2)
        × (h.table.shared.table_id.slots ≡ 1) };
}

impl<B: Storied> Hall<B> {
    /// A hall with a value, and its first pass, which has seen the value's state.
    pub fn new(alloc: Global, value: B) -> Result<(Hall<B>, Pass<B>), (B, Memory)>
        ensures hall { IfOk result (λ made. made.1.hall ≡ made.0) }
        ensures pass { IfOk result (λ made. (made.1.seen ≡ B.story value) × (made.1.mine ≡ [])) }
        ensures back { IfErr result (λ given. given.0 ≡ value) }
    {
        let key = Snapshot::of(&value);
        let count = value.length();
        let Ok(mut slots) = Vec::with_capacity(alloc, 1) else {
            return Err((value, Memory));
        };
        slots.push_reserved(Some(value));
        match Table::new(alloc, &[FREE, count], slots, &key) {
            Ok((table, seat)) => Ok((Hall { table }, Pass { seat })),
            Err(Refused { mut slots }) => {
                let Some(Some(value)) = slots.pop() else {
                    unreachable!()
                };
                slots.destroy_empty();
                Err((value, Memory))
            }
        }
    }

    /// A pass that has seen as much and added nothing. It waits for nobody, and takes no memory.
    pub fn split(&self, pass: &mut Pass<B>) -> Pass<B>
        requires { pass.old.hall ≡ self.now }
        ensures new { (result.hall ≡ pass.old.hall) × (result.seen ≡ pass.old.seen)
            × (result.mine ≡ []) }
        ensures same { pass.new ≡ pass.old }
    {
        let seat = self.table.shared.split_seat::<Passing>(&mut pass.seat);
        Pass { seat }
    }

    /// Makes two passes one, which has seen what both had seen and keeps what both added. It waits
    /// for nobody, and takes no memory.
    pub fn join(&self, other: Pass<B>, pass: &mut Pass<B>)
        requires pass { pass.old.hall ≡ self.now }
        requires other { other.hall ≡ self.now }
        ensures hall { pass.new.hall ≡ pass.old.hall }
        ensures seen { pass.new.seen ≡ joined_story pass.old.seen other.seen }
        ensures grown { AtMost pass.old.seen pass.new.seen × AtMost other.seen pass.new.seen }
        ensures one_history { AreComparable pass.old.seen.list other.seen.list
            × (pass.old.seen.opening ≡ other.seen.opening) }
        ensures mine { Apart pass.old.mine other.mine
            × (pass.new.mine ≡ places_merged pass.old.mine other.mine) }
    {
        let Pass { seat } = other;
        let shared = &self.table.shared;
        shared.join_seat::<Passing>(&mut pass.seat, seat);
        let _ = shared.load::<Meet<B>>(&mut pass.seat, LOCK);
    }

    fn take_turn<R: Wait>(&self, rt: &R, seat: &mut Seat<Option<B>, StoryView<B::Entry>>)
        requires hall { seat.old.table_id ≡ self.now }
        requires free { (seat.old.me.1 ≡ []) × (seat.old.me.0.stage ≡ Idle) }
        ensures hall { seat.new.table_id ≡ seat.old.table_id }
        ensures turn { HasTurn B.story seat.old.me.0 seat.new.me }
    {
        let shared = &self.table.shared;
        for _ in rt.forever() {
            if shared.compare_exchange::<Take<B>>(seat, LOCK, FREE, TAKEN) == FREE {
                break;
            }
            shared.park(rt, LOCK, TAKEN as u32);
        }
    }

    fn note<N: Fresh<B::Entry>>(
        &self,
        seat: &mut Seat<Option<B>, StoryView<B::Entry>>,
        _value: &B,
        count: u64,
    )
        requires hall { seat.old.table_id ≡ self.now }
        requires turn { (base : Story B.Entry) × (seat.old.me.0.stage ≡ Took base)
            × Grows base N.next }
        requires count { count ≡ length N.next.list }
        ensures hall { (seat.new.table_id ≡ seat.old.table_id) × (seat.new.id ≡ seat.old.id) }
        ensures noted { (base : Story B.Entry) → seat.old.me.0.stage ≡ Took base
            → seat.new.me ≡ (
              viewed Counted N.next
                  (seat.old.me.0.mine ++ added_place base.list N.next.list),
              seat.old.me.1,
            ) }
    {
        self.table.shared.store::<Note<B, N>>(seat, COUNT, count);
    }

    /// Waits for the turn, and acts on the value.
    pub fn act<R: Wait>(&self, rt: &R, pass: &mut Pass<B>, ask: B::Ask) -> B::Answer
        requires hall { pass.old.hall ≡ self.now }
        requires ask { B.fits ask }
        ensures hall { pass.new.hall ≡ pass.old.hall }
        ensures acts { HallActs B.tells pass.old ask result pass.new }
    {
        self.take_turn(rt, &mut pass.seat);
        let shared = &self.table.shared;
        let Some(mut value) = shared.exchange(&mut pass.seat, 0, None) else {
            unreachable!()
        };
        let answer = value.act(ask);
        let count = value.length();
        self.note::<Brand>(&mut pass.seat, &value, count);
        let left = shared.exchange(&mut pass.seat, 0, Some(value));
        let None = left else { unreachable!() };
        shared.store::<Leave<B>>(&mut pass.seat, LOCK, FREE);
        shared.wake_one(LOCK);
        answer
    }

    /// Waits for the turn, and gives the value back.
    pub fn close<R: Wait>(self, rt: &R, pass: Pass<B>) -> B
        requires { pass.hall ≡ self }
        ensures { AtMost pass.seen (B.story result) }
    {
        let Pass { mut seat } = pass;
        self.take_turn(rt, &mut seat);
        self.table.shared.store::<End<B>>(&mut seat, LOCK, ENDED);
        let Hall { table } = self;
        let mut closed = table.close_with(seat);
        let Some(value) = closed.take(0) else {
            unreachable!()
        };
        closed.free();
        value
    }
}
