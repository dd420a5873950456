//! Tries which messages are requests and which faults others have, that it is the same however they
//! are cut, the limits of a head, the texts of answers, and the search for a field by its name.
use decimal_rank::Memory;
use http_wire::{HttpField, HttpHead, Step, Wire, WireFault, find_named, write_answer};
use std::alloc::Global;
use std::test::Fail;

/// A head, its lines cut by `|`, and what is told of its bytes; a full stop is that the request is
/// whole.
const MESSAGES: &str = "\
GET /a HTTP/1.1|Host: h| => GET /a.
GET /a HTTP/1.1|Content-Length: 0|content-length: 0| => 400
GET /a HTTP/1.1|Content-Length: +5| => 400
GET /a HTTP/1.1|Content-Length:| => 400
GET /a HTTP/1.2| => 400
GET /a b HTTP/1.1| => 400
GET /é HTTP/1.1| => GET /é.
POST /open HTTP/1.1| => 411
POST /open HTTP/1.1|Transfer-Encoding: chunked| => 501
POST /open HTTP/1.1|Content-Length: 999999999999999999999999999999| => 413
POST /open HTTP/1.1|Content-Length: 16777217| => 413
POST /open HTTP/1.1|Content-Length: 16777216| => POST /open more
POST /open HTTP/1.1|Content-Length: 000000000000000000000000000000| => POST /open.
GET /table HTTP/1.0| => GET /table close.
GET /table HTTP/1.1|connection: CLOSE| => GET /table close.
GET /table HTTP/1.1|Connection: close, x| => GET /table.";

fn status_of(fault: WireFault) -> &'static str {
    match fault {
        WireFault::Head => "400",
        WireFault::Length => "411",
        WireFault::Body => "413",
        WireFault::HeadSize => "431",
        WireFault::Coding => "501",
    }
}

fn tell_head(head: &HttpHead, told: &mut Vec<u8>) -> Result<(), Fail> {
    told.extend_from_slice(head.method.bytes())?;
    told.extend_from_slice(b" ")?;
    told.extend_from_slice(head.path.bytes())?;
    if head.close {
        told.extend_from_slice(b" close")?;
    }
    Ok(())
}

fn tell(step: &Step, told: &mut Vec<u8>) -> Result<(), Fail> {
    match step {
        Step::Head(head) => tell_head(head, told)?,
        Step::Piece(text) => told.extend_from_slice(text.bytes())?,
        Step::Whole => told.extend_from_slice(b".")?,
        Step::Need { clean: true } => {}
        Step::Need { clean: false } => told.extend_from_slice(b" more")?,
        Step::Refused(fault) => told.extend_from_slice(status_of(*fault).as_bytes())?,
    }
    Ok(())
}

fn tell_next(wire: &mut Wire, told: &mut Vec<u8>) -> Result<(), Fail> {
    let step = wire.next()?;
    tell(&step, told)
}

fn feed_head(wire: &mut Wire, lines: &str) -> Result<(), Memory> {
    for line in lines.split('|') {
        wire.feed(line.as_bytes())?;
        wire.feed(b"\r\n")?;
    }
    Ok(())
}

/// Tells a message, and where it is a request what comes behind its head.
fn tell_message(wire: &mut Wire, lines: &str, told: &mut Vec<u8>) -> Result<(), Fail> {
    feed_head(wire, lines)?;
    tell_next(wire, told)?;
    if told.as_slice().starts_with(b"GET") || told.as_slice().starts_with(b"POST") {
        tell_next(wire, told)?;
    }
    Ok(())
}

/// A message in words, as it is told to a wire of its own.
fn message_told(alloc: Global, lines: &str) -> Result<Vec<u8>, Fail> {
    let mut told = Vec::new(alloc);
    tell_message(&mut Wire::new(alloc), lines, &mut told)?;
    Ok(told)
}

/// Whether a row's message is told as the row has it.
fn is_told(alloc: Global, row: &str) -> Result<bool, Fail> {
    let (lines, want) = row.split_once(" => ").ok_or("no row")?;
    Ok(message_told(alloc, lines)?.as_slice() == want.as_bytes())
}

#[test]
fn each_message_is_a_request_or_its_fault(rt: HostRuntime) -> Result<(), Fail> {
    for row in MESSAGES.lines() {
        assert!(rt; is_told(rt.alloc(), row)?, "at {row}");
    }
    Ok(())
}

/// Two requests, one behind the other.
const TWO_REQUESTS: &str = "\
POST /runs/X HTTP/1.1\r
Host: h\r
X-Campaign-Key: GROUPGROUPGROUP1\r
X-Request-Number: 1\r
Content-Length: 39\r
\r
1 Q0 a 1 3 X
1 Q0 b 2 2 X
1 Q0 e 3 1 X
GET /table HTTP/1.1
Host: h

";

/// Tells the requests and the pieces that are there.
fn tell_requests(wire: &mut Wire, told: &mut Vec<u8>) -> Result<(), Fail> {
    for _ in 0..7 {
        let step = wire.next()?;
        if let Step::Need { .. } = step {
            return Ok(());
        }
        tell(&step, told)?;
    }
    Ok(())
}

fn tell_in_two_pieces(
    wire: &mut Wire,
    first: &[u8],
    second: &[u8],
    told: &mut Vec<u8>,
) -> Result<(), Fail> {
    wire.feed(first)?;
    tell_requests(wire, told)?;
    wire.feed(second)?;
    tell_requests(wire, told)
}

/// Two requests in words, told to a wire of their own in two pieces.
fn cut_told(alloc: Global, first: &[u8], second: &[u8]) -> Result<Vec<u8>, Fail> {
    let mut told = Vec::new(alloc);
    tell_in_two_pieces(&mut Wire::new(alloc), first, second, &mut told)?;
    Ok(told)
}

#[test]
fn requests_are_the_same_however_they_are_cut(rt: HostRuntime) -> Result<(), Fail> {
    let bytes = TWO_REQUESTS.as_bytes();
    let want = b"POST /runs/X1 Q0 a 1 3 X\n1 Q0 b 2 2 X\n1 Q0 e 3 1 X\n.GET /table.";
    for cut in 0..=bytes.len() {
        let told = cut_told(rt.alloc(), &bytes[..cut], &bytes[cut..])?;
        assert!(rt; told.as_slice() == want.as_slice(), "cut at {cut}");
    }
    Ok(())
}

fn feed_long_head(wire: &mut Wire, count: usize) -> Result<(), Memory> {
    for _ in 0..count {
        wire.feed(b"A")?;
    }
    Ok(())
}

fn feed_fields(wire: &mut Wire, count: usize) -> Result<(), Memory> {
    wire.feed(b"GET /a HTTP/1.1\r\n")?;
    for _ in 0..count {
        wire.feed(b"Accept: x\r\n")?;
    }
    wire.feed(b"\r\n")
}

fn tell_long_head(wire: &mut Wire, told: &mut Vec<u8>) -> Result<(), Fail> {
    feed_long_head(wire, 8191)?;
    tell_next(wire, told)?;
    feed_long_head(wire, 1)?;
    tell_next(wire, told)
}

fn tell_many_fields(wire: &mut Wire, told: &mut Vec<u8>) -> Result<(), Fail> {
    feed_fields(wire, 32)?;
    feed_fields(wire, 33)?;
    for _ in 0..3 {
        tell_next(wire, told)?;
    }
    Ok(())
}

#[test]
fn a_head_has_8192_bytes_and_32_fields_at_most(rt: HostRuntime) -> Result<(), Fail> {
    let mut told = Vec::new(rt.alloc());
    tell_long_head(&mut Wire::new(rt.alloc()), &mut told)?;
    tell_many_fields(&mut Wire::new(rt.alloc()), &mut told)?;
    assert!(rt; told.as_slice() == b" more431GET /a.400".as_slice());
    Ok(())
}

const CREATED: &str = "\
HTTP/1.1 201 Created\r
Content-Type: application/json\r
Content-Length: 12\r
\r
{\"lease\":7}
";

const REFUSED: &str = "\
HTTP/1.1 431 Request Header Fields Too Large\r
Content-Type: text/plain\r
Content-Length: 4\r
Connection: close\r
\r
page";

/// Whether these are the bytes of two answers, one behind the other.
fn are_two_answers(out: &mut Vec<u8>) -> Result<bool, Memory> {
    write_answer(201, true, false, b"{\"lease\":7}\n", out)?;
    write_answer(431, false, true, b"page", out)?;
    Ok(out.as_slice().strip_prefix(CREATED.as_bytes()) == Some(REFUSED.as_bytes()))
}

#[test]
fn answers_have_a_head_and_the_body(rt: HostRuntime) -> Result<(), Fail> {
    assert!(rt; are_two_answers(&mut Vec::new(rt.alloc()))?);
    Ok(())
}

/// Whether the field of the key alone is found, with nothing behind it.
fn are_found(fields: &[HttpField]) -> bool {
    let found = find_named(fields, "x-campaign-key");
    find_named(fields, "x-request-number").is_none()
        && found.is_some_and(|found| found.0 == b"GROUPGROUPGROUP1".as_slice()
            && found.1.is_empty())
}

#[test]
fn a_field_is_found_by_its_name(rt: HostRuntime) -> Result<(), Fail> {
    let mut wire = Wire::new(rt.alloc());
    feed_head(
        &mut wire,
        "GET /a HTTP/1.1|Host: h|X-Campaign-Key: \tGROUPGROUPGROUP1 |",
    )?;
    let Step::Head(head) = wire.next()? else {
        return Err(Fail::from("no head"));
    };
    assert!(rt; are_found(head.fields.items()));
    Ok(())
}
