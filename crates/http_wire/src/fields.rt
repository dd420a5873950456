//! Fields of a head, found by their names, and what they say: how many bytes the body has, and
//! whether the connection is to close.
ghost use Rattle.std.specs.Prelude.{◌≡◌, [], ◌∷◌, min, codes, IsTrue, MatchOption};
ghost use Rattle.std.specs.List.{list_all, list_any};
ghost use Rattle.std.specs.Str.{str_eq_ignore_ascii_case};
ghost use Rattle.std.specs.Str.Parse.{digits_value};
ghost use Rattle.decimal_rank.specs.Decimals.DecimalText.{are_digits, is_digit};
ghost use Rattle.http_wire.specs.Heads.{body_length, length_of_value, says_close, stated_length, values_named};

use crate::messages::{HttpField, WireFault};
use decimal_rank::{capped_number, is_number};

/// The most bytes of a body.
const MOST_BODY: u32 = 16_777_216;

fn is_same_word(text: &[u8], word: &str) -> bool
    ensures { result ≡ str_eq_ignore_ascii_case text.now word.now }
{
    text.eq_ignore_ascii_case(word.as_bytes())
}

/// The value of the first field of a name, and the fields behind it. Names are compared without
/// regard to ASCII case.
pub fn find_named<'a>(fields: &'a [HttpField], name: &str) -> Option<(&'a [u8], &'a [HttpField])>
    ensures { MatchOption result (values_named name.now fields.now ≡ []) (λ found.
        values_named name.now fields.now ≡ found.0.now ∷ values_named name.now found.1.now) }
{
    let mut left = fields;
    while let [first, rest @ ..] = left {
        if is_same_word(first.name.bytes(), name) {
            return Some((first.value.bytes(), rest));
        }
        left = rest;
    }
    None
}

/// The length of a body that the value of `Content-Length` states.
fn length_of_value(value: &[u8]) -> Result<u32, WireFault>
    ensures { result ≡ length_of_value value.now }
{
    if !is_number(value) {
        return Err(WireFault::Head);
    }
    let length = capped_number(value, u64::from(MOST_BODY) + 1) as u32;
    if length <= MOST_BODY {
        Ok(length)
    } else {
        Err(WireFault::Body)
    }
}

fn stated_length(method: &[u8], fields: &[HttpField]) -> Result<u32, WireFault>
    ensures { result ≡ stated_length method.now (values_named (codes "content-length") fields.now) }
{
    match find_named(fields, "content-length") {
        None if method == b"POST".as_slice() => Err(WireFault::Length),
        None => Ok(0),
        Some((value, rest)) => match find_named(rest, "content-length") {
            None => length_of_value(value),
            Some(_) => Err(WireFault::Head),
        },
    }
}

/// How many bytes the body has, by the fields of the head.
pub(crate) fn body_length(method: &[u8], fields: &[HttpField]) -> Result<u32, WireFault>
    ensures { result ≡ body_length method.now fields.now }
{
    match find_named(fields, "transfer-encoding") {
        Some(_) => Err(WireFault::Coding),
        None => stated_length(method, fields),
    }
}

/// Whether a field `Connection` has the value `close`.
pub(crate) fn says_close(fields: &[HttpField]) -> bool
    ensures { result ≡ says_close fields.now }
{
    let mut left = fields;
    while let [first, rest @ ..] = left {
        if is_same_word(first.name.bytes(), "connection")
            && is_same_word(first.value.bytes(), "close")
        {
            return true;
        }
        left = rest;
    }
    false
}
