//! The text of an answer: the status line, `Content-Type`, `Content-Length`, `Connection: close`
//! where it closes, an empty line, and the body.
ghost use Rattle.std.specs.Prelude.{◌≡◌, ◌+◌, ◌++◌, ◌≤◌, IsTrue, IsOk, OnOk, OnErr, length, map, vec_len, vec_capacity};
ghost use Rattle.std.specs.List.{concat};
ghost use Rattle.http_wire.specs.Answers.{answer_text, closing, head_text, is_status, reason_of, type_of};

use decimal_rank::{Memory, append, append_all};
use itoa::Buffer;

fn reason_of(status: u16) -> &'static [u8]
    ensures { result.now ≡ reason_of status }
{
    match status {
        200 => b"OK",
        201 => b"Created",
        400 => b"Bad Request",
        401 => b"Unauthorized",
        403 => b"Forbidden",
        404 => b"Not Found",
        405 => b"Method Not Allowed",
        409 => b"Conflict",
        411 => b"Length Required",
        413 => b"Content Too Large",
        429 => b"Too Many Requests",
        431 => b"Request Header Fields Too Large",
        501 => b"Not Implemented",
        503 => b"Service Unavailable",
        _ => b"Insufficient Storage",
    }
}

fn type_of(json: bool) -> &'static [u8]
    ensures { result.now ≡ type_of json }
{
    if json {
        b"application/json"
    } else {
        b"text/plain"
    }
}

fn closing(close: bool) -> &'static [u8]
    ensures { result.now ≡ closing close }
{
    if close { b"Connection: close\r\n" } else { b"" }
}

/// Appends the head of an answer with a body of this size.
pub fn write_head(
    status: u16,
    json: bool,
    close: bool,
    size: usize,
    out: &mut Vec<u8>,
) -> Result<(), Memory>
    requires { IsTrue (is_status status) }
    ensures ok { OnOk result (out.new.items ≡ out.old.items ++ head_text status json close size) }
    ensures err { OnErr result (out.new.items ≡ out.old.items) }
    ensures room { vec_len out.old + length (head_text status json close size)
        ≤ vec_capacity out.old → IsOk result }
    ensures capacity { vec_capacity out.old ≤ vec_capacity out.new }
{
    let mut status_digits = Buffer::new();
    let mut size_digits = Buffer::new();
    append_all(
        out,
        &[
            b"HTTP/1.1 ",
            status_digits.format(status).as_bytes(),
            b" ",
            reason_of(status),
            b"\r\nContent-Type: ",
            type_of(json),
            b"\r\nContent-Length: ",
            size_digits.format(size).as_bytes(),
            b"\r\n",
            closing(close),
            b"\r\n",
        ],
    )
}

/// Appends the answer of this status, the body being JSON or else plain text. It takes no memory
/// where `out` has room for it.
pub fn write_answer(
    status: u16,
    json: bool,
    close: bool,
    body: &[u8],
    out: &mut Vec<u8>,
) -> Result<(), Memory>
    requires { IsTrue (is_status status) }
    ensures ok { OnOk result
        (out.new.items ≡ out.old.items ++ answer_text status json close body.now) }
    ensures err { OnErr result (out.new.items ≡ out.old.items) }
    ensures room { vec_len out.old + length (answer_text status json close body.now)
        ≤ vec_capacity out.old → IsOk result }
    ensures capacity { vec_capacity out.old ≤ vec_capacity out.new }
{
    let before = out.len();
    write_head(status, json, close, body.len(), out)?;
    match append(out, body) {
        Ok(()) => Ok(()),
        Err(memory) => {
            out.truncate(before);
            Err(memory)
        }
    }
}
