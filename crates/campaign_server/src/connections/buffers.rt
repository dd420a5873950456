//! Where the answers are written, one in place of the other.
ghost use Rattle.std.specs.Prelude.{◌≡◌, ◌≤◌, ◌⊎◌, [], IfOk, IsTrue, vec_capacity};
ghost use Rattle.routes.specs.Answers.{is_plain_answer, is_short, text_of};
ghost use Rattle.routes.specs.declared.answers.Answered.TheVariants as answered_as;

use decimal_rank::Memory;
use routes::{Answered, render};
use std::alloc::Global;
use std::marker::Model;

/// The most bytes of the answer of an accepted command, a refusal or a fault.
const ROOM: usize = 4096;

/// How many bytes of room are kept for the next answer at most.
const MOST_KEPT: usize = 1 << 20;

/// The text of an answer, with room for each that is short. Contracts see the text.
#[derive(Drop)]
pub(crate) struct Buffer {
    text: Vec<u8>,
}

impl Model for Buffer {
    ghost use Rattle.std.specs.Prelude.{List, ℕ, ◌≤◌, vec_capacity};

    ghost Value = { List ℕ };

    ghost view = { λ buffer. buffer.text.items };

    ghost invariant = { λ buffer. 4096 ≤ vec_capacity buffer.text };
}

/// Writes the text of an answer in place of what stands there, or that of want of memory where
/// there is none for it.
fn put_text(text: &mut Vec<u8>, answered: &Answered, close: bool)
    requires { 4096 ≤ vec_capacity text.old }
    ensures text { (text.new.items ≡ text_of answered.now close)
        ⊎ (text.new.items ≡ text_of answered_as.Memory close) }
    ensures fits { IsTrue (is_plain_answer answered.now) → IsTrue (is_short answered.now)
        → text.new.items ≡ text_of answered.now close }
    ensures capacity { 4096 ≤ vec_capacity text.new }
{
    text.clear();
    match render(answered, close, text) {
        Ok(()) => {}
        Err(Memory) => put_memory(text, close),
    }
}

/// Writes the answer of want of memory, for which there is room.
fn put_memory(text: &mut Vec<u8>, close: bool)
    requires empty { text.old.items ≡ [] }
    requires room { 4096 ≤ vec_capacity text.old }
    ensures text { text.new.items ≡ text_of answered_as.Memory close }
    ensures capacity { 4096 ≤ vec_capacity text.new }
{
    let _room = render(&Answered::Memory, close, text);
}

impl Buffer {
    pub(crate) fn new(alloc: Global) -> Result<Buffer, Memory>
        ensures { IfOk result (λ buffer. buffer ≡ []) }
    {
        Ok(Buffer {
            text: Vec::with_capacity(alloc, ROOM)?,
        })
    }

    /// The text that was put last.
    pub(crate) fn text(&self) -> &[u8]
        ensures { result.now ≡ self.now }
    {
        &self.text
    }

    /// Puts the text of an answer, or that of want of memory where there is none for it. There is
    /// memory for each answer that is short.
    pub(crate) fn put(&mut self, answered: &Answered, close: bool)
        ensures text { (self.new ≡ text_of answered.now close)
            ⊎ (self.new ≡ text_of answered_as.Memory close) }
        ensures fits { IsTrue (is_plain_answer answered.now) → IsTrue (is_short answered.now)
            → self.new ≡ text_of answered.now close }
    {
        put_text(&mut self.text, answered, close);
    }

    /// The text isn't needed any more: the room of a large one is given back.
    pub(crate) fn settle(&mut self) {
        if self.text.capacity() > MOST_KEPT {
            self.text.clear();
            self.text.shrink_to(ROOM);
        }
    }
}
