//! The rule of a hall, and the steps by which the turn is taken, used and left.
ghost use Rattle.std.specs.Prelude.{[]};
ghost use Rattle.hall.specs.declared.stories.Story.{Story};
ghost use Rattle.hall.specs.Rule.{KeepsRule, both, cut_view, empty_story, idle, seats_met, spent, state_noted, took, turn_ended, turn_left};

use crate::storied::Storied;
use crate::stories::StoryView;
use atomic_table::{Join, Play, Split, TableRule};
use std::marker::{Brand, PhantomData};
use std::snapshot::Snapshot;

/// The rule. The table is told the value as it is at the opening.
pub struct Turns<B> {
    of: PhantomData<B>,
}

impl<B: Storied> TableRule<Option<B>, StoryView<B::Entry>, Snapshot<B>> for Turns<B> {
    ghost holds = { λ _. KeepsRule B.story };

    ghost first = { λ key. idle (B.story key.value) [] };
}

/// The turn is taken where it is free.
pub struct Take<B> {
    of: PhantomData<B>,
}

impl<B: Storied> Play<Option<B>, StoryView<B::Entry>> for Take<B> {
    ghost then = { took B.story };
}

/// What the value has become, for the proof alone.
pub trait Fresh<E> {
    ghost next: { Story E };
}

impl<E> Fresh<E> for Brand {
    ghost next = { empty_story };
}

/// The entries are counted.
pub struct Note<B, N> {
    of: PhantomData<(B, N)>,
}

impl<B: Storied, N: Fresh<B::Entry>> Play<Option<B>, StoryView<B::Entry>> for Note<B, N> {
    ghost then = { state_noted B.story N.next };
}

/// The turn is left.
pub struct Leave<B> {
    of: PhantomData<B>,
}

impl<B: Storied> Play<Option<B>, StoryView<B::Entry>> for Leave<B> {
    ghost then = { turn_left B.story };
}

/// The turn is kept for good.
pub struct End<B> {
    of: PhantomData<B>,
}

impl<B: Storied> Play<Option<B>, StoryView<B::Entry>> for End<B> {
    ghost then = { turn_ended B.story };
}

/// A look behind a join.
pub struct Meet<B> {
    of: PhantomData<B>,
}

impl<B: Storied> Play<Option<B>, StoryView<B::Entry>> for Meet<B> {
    ghost then = { seats_met B.story };
}

/// How a pass is split off, and how two are made one.
pub struct Passing;

impl<E> Split<StoryView<E>> for Passing {
    ghost left = { λ v. v };

    ghost right = { cut_view };
}

impl<E> Join<StoryView<E>> for Passing {
    ghost both = { both };

    ghost spent = { spent };
}
