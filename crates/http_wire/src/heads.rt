//! The head of a request: CR and LF in front are passed over, its end is found, and its parts are
//! copied. It has at most 8,192 bytes and 32 fields.
ghost use Rattle.std.specs.Prelude.{◌≡◌, ◌+◌, ◌≤◌, ℕ, List, [], true, length, drop, take, map, All, IfOk, IfSome, IfNone};
ghost use Rattle.std.specs.Option.{option_map};
ghost use Rattle.httparse.specs.Grammar.{RequestHead};
ghost use Rattle.httparse.specs.Spans.{IsHeaderWithin, IsRequestAt, IsRequestWithin};
ghost use Rattle.http_wire.specs.Fronts.{SaysHead, field_at};
ghost use Rattle.http_wire.specs.Heads.{IsHead, behind_line_ends, head_length, is_last, line_end_length};

use crate::fields::says_close;
use crate::messages::HttpField;
use decimal_rank::{Memory, Rows, Text};
use httparse::Status;
use httparse::spans::{HeaderSpan, RequestSpans, parse_request};
use std::alloc::Global;

/// The most bytes of a head.
pub(crate) const MOST_HEAD: usize = 8_192;

/// The most bytes of the empty line that ends a head: CR and LF.
pub(crate) const LONGEST_EMPTY_LINE: usize = 2;

/// The most fields of a head.
pub(crate) const MOST_FIELDS: usize = 32;

/// A head as it is kept.
#[derive(Drop)]
pub(crate) struct Head {
    pub(crate) method: Text,
    pub(crate) path: Text,
    pub(crate) fields: Rows<HttpField>,
    pub(crate) close: bool,
}

/// How many bytes of CR and LF stand in front, and the bytes behind them.
pub(crate) fn pass_line_ends(bytes: &[u8]) -> (usize, &[u8])
    ensures message { result.1.now ≡ behind_line_ends bytes.now }
    ensures behind { result.1.now ≡ drop result.0 bytes.now }
    ensures inside { result.0 ≤ length bytes.now }
{
    let mut count = 0;
    let mut left = bytes;
    while let [first, rest @ ..] = left {
        if *first != b'\n' && *first != b'\r' {
            return (count, left);
        }
        count += 1;
        left = rest;
    }
    (count, left)
}

/// How many bytes the empty line in front has.
fn empty_line(bytes: &[u8]) -> usize
    ensures value { result ≡ line_end_length bytes.now }
    ensures inside { result ≤ length bytes.now }
{
    match bytes {
        [b'\n', ..] => 1,
        [b'\r', b'\n', ..] => 2,
        _ => 0,
    }
}

/// How many bytes a head in front has, up to the end of its empty line. None ends at a byte before
/// those that are left to be searched.
pub(crate) fn find_head_from(bytes: &[u8], searched: usize) -> Option<usize>
    requires inside { searched ≤ length bytes.now }
    requires ends { head_length bytes.now
        ≡ option_map (λ n. n + searched) (head_length (drop searched bytes.now)) }
    ensures value { result ≡ head_length bytes.now }
    ensures inside { IfSome result (λ count. count ≤ length bytes.now) }
{
    match find_head(&bytes[searched..]) {
        Some(count) => Some(count + searched),
        None => None,
    }
}

/// How many bytes a head in front has.
fn find_head(bytes: &[u8]) -> Option<usize>
    ensures value { result ≡ head_length bytes.now }
    ensures inside { IfSome result (λ count. count ≤ length bytes.now) }
{
    let mut count = 0;
    let mut left = bytes;
    while let [first, rest @ ..] = left {
        let end = empty_line(rest);
        if *first == b'\n' && 0 < end {
            return Some(end + 1 + count);
        }
        count += 1;
        left = rest;
    }
    None
}

/// Where the parts of a text are that is, whole, a request head.
pub(crate) fn find_parts(text: &[u8], spans: &mut [HeaderSpan]) -> Option<RequestSpans>
    requires { length spans.old ≡ 32 }
    ensures within { IfSome result (λ parts. IsRequestWithin text.now spans.new parts) }
    ensures found { IfSome result (λ parts. (head : RequestHead) × IsHead text.now head
        × IsRequestAt text.now spans.new parts head) }
    ensures none { IfNone result ((head : RequestHead) → ¬ (IsHead text.now head)) }
{
    match parse_request(text, spans) {
        Ok(Status::Complete(parts)) if parts.len == text.len() => Some(parts),
        _ => None,
    }
}

fn copy_text(alloc: Global, bytes: &[u8]) -> Result<Text, Memory>
    ensures { IfOk result (λ text. text ≡ bytes.now) }
{
    Text::from_slice(alloc, bytes)
}

fn copy_field(alloc: Global, text: &[u8], span: &HeaderSpan) -> Result<HttpField, Memory>
    requires { IsHeaderWithin (length text.now) span.now }
    ensures { IfOk result (λ field. field ≡ field_at text.now span.now) }
{
    Ok(HttpField {
        name: copy_text(alloc, span.name.of(text))?,
        value: copy_text(alloc, span.value.of(text))?,
    })
}

fn copy_fields(alloc: Global, text: &[u8], spans: &[HeaderSpan]) -> Result<Rows<HttpField>, Memory>
    requires { All (IsHeaderWithin (length text.now)) spans.now }
    ensures { IfOk result (λ fields. fields ≡ map (field_at text.now) spans.now) }
{
    let mut fields = Vec::with_capacity(alloc, spans.len())?;
    for span in spans {
        fields.push(copy_field(alloc, text, span)?)?;
    }
    Ok(Rows::new(fields))
}

fn is_last(minor: u8, fields: &[HttpField]) -> bool
    ensures { result ≡ is_last minor fields.now }
{
    minor == 0 || says_close(fields)
}

/// The head of a text, whose parts were found there.
pub(crate) fn copy_head(
    alloc: Global,
    text: &[u8],
    spans: &[HeaderSpan],
    parts: &RequestSpans,
) -> Result<Head, Memory>
    requires within { IsRequestWithin text.now spans.now parts.now }
    requires whole { parts.now.len ≤ length text.now }
    ensures { IfOk result (λ said. (head : RequestHead)
        → IsRequestAt text.now spans.now parts.now head → SaysHead said head) }
{
    let fields = copy_fields(alloc, text, &spans[..parts.headers])?;
    Ok(Head {
        method: copy_text(alloc, parts.method.of(text))?,
        path: copy_text(alloc, parts.path.of(text))?,
        close: is_last(parts.version, fields.items()),
        fields,
    })
}
