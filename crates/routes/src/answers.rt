//! The texts of answers: each has a status by what was answered, and a body, which is plain text
//! for a page and a JSON object else.
ghost use Rattle.std.specs.Prelude.{◌≡◌, ◌+◌, ◌^◌, ◌<◌, ◌≤◌, ◌++◌, false, true, IsTrue, IsOk, MatchOption, OnOk, OnErr, length, vec_len, vec_capacity};
ghost use Rattle.decimal_rank.specs.Texts.Additions.{Adds};
ghost use Rattle.http_wire.specs.Answers.{is_status};
ghost use Rattle.routes.specs.Answers.{IsPage, body_of, is_json, is_page, is_plain_answer, is_short, status_of, text_of};
ghost use Rattle.rulebook.specs.declared.reply.Reply.TheVariants as reply_as;

mod heads;
mod objects;
mod refusals;
mod replies;
mod statuses;
mod values;

use crate::answers::heads::put_head;
use crate::answers::refusals::{write_fault, write_route, write_wire};
use crate::answers::replies::write_reply;
use crate::answers::statuses::{reply_status, route_status, wire_status};
use crate::faults::RouteFault;
use decimal_rank::Memory;
use http_wire::{WireFault, write_answer};
use rulebook::Reply;

/// What a request is answered.
#[derive(Debug, Drop)]
pub enum Answered {
    /// The reply of the rules; `asked` says that the request was a query.
    Reply { reply: Reply, asked: bool },
    /// The request asks nothing, by its first fault.
    Route(RouteFault),
    /// The bytes are no request.
    Wire(WireFault),
    /// The disk failed.
    DiskFault,
    /// There was no memory for another answer.
    Memory,
}

fn status_of(answer: &Answered) -> u16
    ensures status { result ≡ status_of answer.now }
    ensures small { status_of answer.now < 2 ^ 16 }
    ensures known { IsTrue (is_status result) }
{
    match answer {
        Answered::Reply { reply, asked } => reply_status(reply, *asked),
        Answered::Route(fault) => route_status(*fault),
        Answered::Wire(fault) => wire_status(*fault),
        Answered::DiskFault => 503,
        Answered::Memory => 507,
    }
}

fn write_body(out: &mut Vec<u8>, answer: &Answered) -> Result<(), Memory>
    ensures adds { Adds out.old out.new (body_of answer.now) result }
    ensures few { IsTrue (is_plain_answer answer.now) → IsTrue (is_short answer.now)
        → length (body_of answer.now) ≤ 3000 }
{
    match answer {
        Answered::Reply { reply, .. } => write_reply(out, reply),
        Answered::Route(fault) => write_route(out, *fault),
        Answered::Wire(fault) => write_wire(out, *fault),
        Answered::DiskFault => write_fault(out, b"disk"),
        Answered::Memory => write_fault(out, b"memory"),
    }
}

/// The text of an answer that is a page.
fn page_of(answer: &Answered) -> Option<&[u8]>
    ensures { MatchOption result (is_json answer.now ≡ true) (λ page. IsPage answer.now page.now) }
{
    match answer {
        Answered::Reply { reply, .. } => page_in(reply),
        Answered::Route(_) | Answered::Wire(_) | Answered::DiskFault | Answered::Memory => None,
    }
}

fn page_in(reply: &Reply) -> Option<&[u8]>
    ensures { MatchOption result (is_page reply.now ≡ false)
        (λ page. reply.now ≡ reply_as.Page page.now) }
{
    match reply {
        Reply::Page { text } => Some(text.bytes()),
        Reply::Done
        | Reply::Topics { .. }
        | Reply::Submitted { .. }
        | Reply::Leased { .. }
        | Reply::Graded { .. }
        | Reply::Pool { .. }
        | Reply::Refused(_) => None,
    }
}

/// Appends the text of an answer whose body is JSON. The body is written once, and the head, which
/// has its length, is put in front of it.
#[tactic(auto, unfolding(crate::specs::Answers::text_of))]
fn write_object(answer: &Answered, close: bool, out: &mut Vec<u8>) -> Result<(), Memory>
    requires { is_json answer.now ≡ true }
    ensures ok { OnOk result (out.new.items ≡ out.old.items ++ text_of answer.now close) }
    ensures err { OnErr result (out.new.items ≡ out.old.items) }
    ensures room { vec_len out.old + length (text_of answer.now close) ≤ vec_capacity out.old
        → IsOk result }
    ensures few { IsTrue (is_plain_answer answer.now) → IsTrue (is_short answer.now)
        → length (text_of answer.now close) ≤ 4096 }
    ensures capacity { vec_capacity out.old ≤ vec_capacity out.new }
{
    let before = out.len();
    let status = status_of(answer);
    write_body(out, answer)?;
    match put_head(status, close, before, out) {
        Ok(()) => Ok(()),
        Err(memory) => {
            out.truncate(before);
            Err(memory)
        }
    }
}

/// Appends the text of an answer; `close` says that the connection ends behind it. It takes no
/// memory where `out` has room for the text, which is at most 4,096 bytes but for a pool and a
/// page.
#[tactic(auto, unfolding(crate::specs::Answers::text_of))]
pub fn render(answer: &Answered, close: bool, out: &mut Vec<u8>) -> Result<(), Memory>
    ensures ok { OnOk result (out.new.items ≡ out.old.items ++ text_of answer.now close) }
    ensures err { OnErr result (out.new.items ≡ out.old.items) }
    ensures room { vec_len out.old + length (text_of answer.now close) ≤ vec_capacity out.old
        → IsOk result }
    ensures few { IsTrue (is_plain_answer answer.now) → IsTrue (is_short answer.now)
        → length (text_of answer.now close) ≤ 4096 }
    ensures capacity { vec_capacity out.old ≤ vec_capacity out.new }
{
    match page_of(answer) {
        Some(page) => write_answer(status_of(answer), false, close, page, out),
        None => write_object(answer, close, out),
    }
}
