//! The bytes of a connection as HTTP/1.x messages (RFC 9112): the requests that they are, however
//! they were cut on the way, and the texts of the answers.
//!
//! - `messages`: what a wire gives. Which requests and which end bytes are: `specs/Messages.antt`.
//! - `wires`: what is kept between two pieces; the steps, and how they make a request:
//!   `specs/Pieces.antt`. `fronts`: what stands at the front of the bytes.
//! - `heads`, `fields`: a head's end, a body's length, and their faults (`specs/Heads.antt`).
//! - `answers`: an answer's text (`specs/Answers.antt`).
//! - `laws`: bytes are requests and an end in one way at most, however they were cut.
//!
//! # What a message costs
//!
//! `Wire::feed` copies each byte once, and a piece that is given is one more copy. `Wire::next`
//! drops the bytes that were given where they are more than those that are left, so it moves a byte
//! that stays at most once for each byte that is given away. It looks for the end of a head from
//! where the last look ended. A head is copied out once it is whole.
#![tactic(auto)]

mod answers;
mod fields;
mod fronts;
mod heads;
mod laws;
mod messages;
mod wires;

pub use answers::{write_answer, write_head};
pub use fields::find_named;
pub use laws::{
    fronts_are_messages, fronts_stay, one_front, one_reading, pieces_go_on, readings_go_on,
    refusals_stay,
};
pub use messages::{HttpField, HttpHead, HttpRequest, Step, WireFault};
pub use wires::Wire;
