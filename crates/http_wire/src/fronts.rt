//! What stands at the front of a connection's bytes: a head, a piece of a body, the body's end, a
//! fault, or too few bytes to tell.
ghost use Rattle.std.specs.Prelude.{◌≡◌, ◌≤◌, ◌<◌, ◌^◌, None, Some, IfOk, length, drop, take};
ghost use Rattle.http_wire.specs.Fronts.{IsFound, IsSearched, behind_look, found_with, wire_at};
ghost use Rattle.http_wire.specs.Heads.{behind_line_ends, body_length, head_length};
ghost use Rattle.http_wire.specs.Pieces.{BodyFits, BodySteps, HeadSteps, Shortens, Steps};

use crate::fields::body_length;
use crate::heads::{
    Head, LONGEST_EMPTY_LINE, MOST_FIELDS, MOST_HEAD, copy_head, find_head_from, find_parts,
    pass_line_ends,
};
use crate::messages::{HttpHead, Step, WireFault};
use decimal_rank::{Memory, Text};
use httparse::spans::EMPTY_HEADER_SPAN;
use std::alloc::Global;

/// What stands at the front of bytes that begin with no CR or LF.
#[derive(Drop)]
pub(crate) enum Found {
    /// A head, and how many bytes it has.
    Whole(HttpHead, usize),
    Faulty(WireFault),
    /// More bytes are needed. No head ends before the place.
    Unfinished { searched: usize },
}

/// What a look at bytes came to.
#[derive(Drop)]
pub(crate) struct Look {
    pub(crate) step: Step,
    /// How many bytes are given or passed over.
    pub(crate) taken: usize,
    /// No head of the bytes that are left ends before this place.
    pub(crate) searched: usize,
    /// So many bytes of a body are still to be given.
    pub(crate) left: Option<u32>,
}

/// The head with the length of its body, or the fault of its fields.
fn with_length(head: Head, head_len: usize) -> Found
    ensures { result ≡ found_with head head_len (body_length head.method head.fields) }
{
    match body_length(head.method.bytes(), head.fields.items()) {
        Err(fault) => Found::Faulty(fault),
        Ok(length) => {
            let Head {
                method,
                path,
                fields,
                close,
            } = head;
            Found::Whole(
                HttpHead {
                    method,
                    path,
                    fields,
                    length,
                    close,
                },
                head_len,
            )
        }
    }
}

/// What stands at the front of a message whose head has this length.
fn read_message(alloc: Global, message: &[u8], head_len: usize) -> Result<Found, Memory>
    requires head { head_length (take 8192 message.now) ≡ Some head_len }
    requires inside { head_len ≤ length message.now }
    requires bounded { length message.now < 2 ^ 63 }
    ensures { IfOk result (IsFound message.now) }
{
    let text = &message[..head_len];
    let mut spans = [EMPTY_HEADER_SPAN; MOST_FIELDS];
    match find_parts(text, &mut spans) {
        Some(parts) => {
            let head = copy_head(alloc, text, &spans, &parts)?;
            Ok(with_length(head, head_len))
        }
        None => Ok(Found::Faulty(WireFault::Head)),
    }
}

/// The bytes that a head may have.
fn head_bytes(message: &[u8]) -> &[u8]
    ensures { result.now ≡ take 8192 message.now }
{
    if message.len() <= MOST_HEAD {
        message
    } else {
        &message[..MOST_HEAD]
    }
}

/// What stands at the front of bytes that begin with no CR or LF.
fn find_front(alloc: Global, message: &[u8], searched: usize) -> Result<Found, Memory>
    requires bounded { length message.now < 2 ^ 63 }
    requires searched { IsSearched message.now searched }
    ensures { IfOk result (IsFound message.now) }
{
    match find_head_from(head_bytes(message), searched) {
        Some(head_len) => read_message(alloc, message, head_len),
        None if message.len() < MOST_HEAD => Ok(Found::Unfinished {
            searched: message.len().saturating_sub(LONGEST_EMPTY_LINE),
        }),
        None => Ok(Found::Faulty(WireFault::HeadSize)),
    }
}

/// The step that comes next. So many bytes of a body are still to be given, or none was begun.
pub(crate) fn look_at(
    alloc: Global,
    bytes: &[u8],
    left: Option<u32>,
    searched: usize,
) -> Result<Look, Memory>
    requires { IsSearched (behind_line_ends bytes.now) searched }
    ensures step { IfOk result
        (λ look. Steps (wire_at bytes.now left) look.step (behind_look bytes.now look)) }
    ensures body { IfOk result (λ look. BodyFits look.step) }
    ensures shorter { IfOk result
        (λ look. Shortens (wire_at bytes.now left) look.step (behind_look bytes.now look)) }
    ensures inside { IfOk result (λ look. look.taken ≤ length bytes.now) }
    ensures searched { IfOk result
        (λ look. IsSearched (behind_line_ends (drop look.taken bytes.now)) look.searched) }
{
    match left {
        None => look_for_head(alloc, bytes, searched),
        Some(left) => look_in_body(alloc, bytes, left),
    }
}

/// The step where no body was begun.
fn look_for_head(alloc: Global, bytes: &[u8], searched: usize) -> Result<Look, Memory>
    requires { IsSearched (behind_line_ends bytes.now) searched }
    ensures step { IfOk result
        (λ look. HeadSteps bytes.now look.step (behind_look bytes.now look)) }
    ensures body { IfOk result (λ look. BodyFits look.step) }
    ensures shorter { IfOk result
        (λ look. Shortens (wire_at bytes.now None) look.step (behind_look bytes.now look)) }
    ensures inside { IfOk result (λ look. look.taken ≤ length bytes.now) }
    ensures searched { IfOk result
        (λ look. IsSearched (behind_line_ends (drop look.taken bytes.now)) look.searched) }
{
    let (taken, message) = pass_line_ends(bytes);
    if message.is_empty() {
        return Ok(Look {
            step: Step::Need { clean: true },
            taken,
            searched: 0,
            left: None,
        });
    }
    let found = find_front(alloc, message, searched)?;
    match found {
        Found::Whole(head, count) => Ok(Look {
            left: Some(head.length),
            step: Step::Head(head),
            taken: taken + count,
            searched: 0,
        }),
        Found::Faulty(fault) => Ok(Look {
            step: Step::Refused(fault),
            taken,
            searched: 0,
            left: None,
        }),
        Found::Unfinished { searched } => Ok(Look {
            step: Step::Need { clean: false },
            taken,
            searched,
            left: None,
        }),
    }
}

/// The step where so many bytes of a body are still to be given.
fn look_in_body(alloc: Global, bytes: &[u8], left: u32) -> Result<Look, Memory>
    ensures step { IfOk result
        (λ look. BodySteps left bytes.now look.step (behind_look bytes.now look)) }
    ensures body { IfOk result (λ look. BodyFits look.step) }
    ensures shorter { IfOk result
        (λ look. Shortens (wire_at bytes.now (Some left)) look.step (behind_look bytes.now look)) }
    ensures inside { IfOk result (λ look. look.taken ≤ length bytes.now) }
    ensures searched { IfOk result
        (λ look. IsSearched (behind_line_ends (drop look.taken bytes.now)) look.searched) }
{
    let is_given = left == 0;
    if is_given {
        return Ok(Look {
            step: Step::Whole,
            taken: 0,
            searched: 0,
            left: None,
        });
    }
    if bytes.is_empty() {
        return Ok(Look {
            step: Step::Need { clean: false },
            taken: 0,
            searched: 0,
            left: Some(left),
        });
    }
    let taken = bytes.len().min(left as usize);
    let piece = Text::from_slice(alloc, &bytes[..taken])?;
    Ok(Look {
        step: Step::Piece(piece),
        taken,
        searched: 0,
        left: Some(left - taken as u32),
    })
}
