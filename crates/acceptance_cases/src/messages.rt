//! Messages with their answers, by the lines of a case.
//!
//!     org POST /open -> 201 {"done":true}|
//!     p#7 POST /leases/1/grade {"grade":1} -> 201 {"doc":"a","grade":1,"topic":"1"}|
//!     - GET /table -> 401 {"fault":"key"}|
//!     raw GET /nope\r|\r| -> 400 close {"fault":"head"}|
//!     org GET /table ->
//!
//! The caller's name stands for its key, and a minus for no key. A raw message has these bytes
//! alone; raw lines without an arrow are its first bytes. An answer is its status, whether it
//! closes, and its body; the last line has none.
use crate::marks::{bytes_of, cut};
use crate::stages::Unplayed;
use decimal_rank::Memory;
use std::alloc::Global;

/// The keys of the callers.
const KEYS: &str = "\
org ORGANISERORGAN01
grp GROUPGROUPGROUP1
other OTHERGROUPOTHER1
p ASSESSORASSESS01
q ASSESSORASSESS02";

/// Each status with its reason.
const REASONS: &str = "\
200 OK
201 Created
400 Bad Request
401 Unauthorized
403 Forbidden
404 Not Found
405 Method Not Allowed
409 Conflict
411 Length Required
413 Content Too Large
429 Too Many Requests
431 Request Header Fields Too Large
501 Not Implemented
503 Service Unavailable
507 Insufficient Storage";

/// A message and the text that has to answer it.
pub(crate) struct Exchange {
    pub(crate) message: Vec<u8>,
    pub(crate) answer: Vec<u8>,
}

impl Drop for Exchange {
    fn drop(self) {
        let Exchange {
            message: _,
            answer: _,
        } = self;
    }
}

/// What stands behind this word in a table of lines.
fn of_word<'x>(table: &'x str, word: &str) -> Option<&'x str> {
    for line in table.lines() {
        let (first, rest) = cut(line);
        if first == word {
            return Some(rest);
        }
    }
    None
}

/// Whether a line is a request of one of the callers, or of none.
pub(crate) fn is_request(line: &str) -> bool {
    let (caller, _) = cut(line);
    let (name, _) = caller.split_once('#').unwrap_or((caller, ""));
    name == "-" || of_word(KEYS, name).is_some()
}

/// The bytes of a request by its caller, method, path and body.
pub(crate) fn request_of(alloc: Global, line: &str) -> Result<Vec<u8>, Memory> {
    let (caller, rest) = cut(line);
    let (method, rest) = cut(rest);
    let (path, body) = cut(rest);
    let body = bytes_of(alloc, body)?;
    let size = body.len();
    let head = format!(in alloc;
        "{method} {path} HTTP/1.1\r\nHost: h\r\nContent-Length: {size}\r\n"
    )?;
    let mut text = Vec::from_slice(alloc, head.as_bytes())?;
    add_caller(alloc, caller, &mut text)?;
    text.extend_from_slice(b"\r\n")?;
    text.extend_from_slice(&body)?;
    Ok(text)
}

/// The fields of a caller's key and number.
fn add_caller(alloc: Global, caller: &str, text: &mut Vec<u8>) -> Result<(), Memory> {
    let (name, number) = caller.split_once('#').unwrap_or((caller, ""));
    if let Some(key) = of_word(KEYS, name) {
        add_field(alloc, "X-Campaign-Key", key, text)?;
    }
    if !number.is_empty() {
        add_field(alloc, "X-Request-Number", number, text)?;
    }
    Ok(())
}

fn add_field(alloc: Global, name: &str, value: &str, text: &mut Vec<u8>) -> Result<(), Memory> {
    let field = format!(in alloc; "{name}: {value}\r\n")?;
    Ok(text.extend_from_slice(field.as_bytes())?)
}

/// The text of an answer by its status, whether it closes, and its body; no text where there is no
/// status.
pub(crate) fn answer_of(alloc: Global, words: &str) -> Result<Vec<u8>, Unplayed> {
    if words.is_empty() {
        return Ok(Vec::new(alloc));
    }
    let (status, rest) = cut(words);
    let reason = of_word(REASONS, status).ok_or(Unplayed)?;
    let (first, behind) = cut(rest);
    let closes = first == "close";
    let body = bytes_of(alloc, if closes { behind } else { rest })?;
    Ok(answer_text(alloc, status, reason, closes, &body)?)
}

fn answer_text(
    alloc: Global,
    status: &str,
    reason: &str,
    closes: bool,
    body: &[u8],
) -> Result<Vec<u8>, Memory> {
    let kind = if body.starts_with(b"{") {
        "application/json"
    } else {
        "text/plain"
    };
    let connection = if closes { "Connection: close\r\n" } else { "" };
    let size = body.len();
    let head = format!(in alloc;
        "HTTP/1.1 {status} {reason}\r\nContent-Type: {kind}\r\nContent-Length: {size}\r\n{connection}\r\n"
    )?;
    let mut text = Vec::from_slice(alloc, head.as_bytes())?;
    text.extend_from_slice(body)?;
    Ok(text)
}
