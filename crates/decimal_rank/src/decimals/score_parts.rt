//! The parts of a score's text: `[+-] DIGITS [. DIGITS] [(e|E) [+-] DIGITS]`, with a digit on at
//! least one side of the point.
ghost use Rattle.std.specs.Prelude.{◌≡◌, ◌≤◌, ◌<◌, ◌++◌, false, true, [], length, min, position, IsTrue, MatchOption, IfSome};
ghost use Rattle.std.specs.List.{list_all, list_any, before_first, after_first};
ghost use Rattle.std.specs.Str.Parse.{digits_value, signed_digits_value, starts_with_minus, without_leading_sign};
ghost use Rattle.decimal_rank.specs.Decimals.DecimalText.{is_decimal, is_digit, is_point, is_exponent_mark, are_digits};
ghost use Rattle.decimal_rank.specs.Decimals.Significands.{ArePartsOf};

use crate::texts::numbers::{are_all_digits, capped_number};

/// The most bytes of a score's text.
const MOST_BYTES: usize = 400;

/// The greatest size of a written exponent.
const MOST_EXPONENT: u64 = 400;

/// The parts of a score's text.
#[derive(Clone, Copy)]
pub(crate) struct Parts<'a> {
    pub(crate) negative: bool,
    /// The digits before the point.
    pub(crate) whole: &'a [u8],
    /// The digits behind the point.
    pub(crate) fraction: &'a [u8],
    /// The exponent as it is written, with its sign; nothing where none is.
    pub(crate) exponent: &'a [u8],
}

fn is_exponent_mark(byte: u8) -> bool
    ensures { result ≡ is_exponent_mark byte }
{
    byte == b'e' || byte == b'E'
}

fn starts_with_minus(text: &[u8]) -> bool
    ensures { result ≡ starts_with_minus text.now }
{
    text.len() > 0 && text[0] == b'-'
}

fn without_sign(text: &[u8]) -> &[u8]
    ensures { result.now ≡ without_leading_sign text.now }
{
    if text.len() > 0 && (text[0] == b'-' || text[0] == b'+') {
        &text[1..]
    } else {
        text
    }
}

fn mark_of(text: &[u8]) -> Option<usize>
    ensures { result ≡ position is_exponent_mark text.now }
{
    text.iter().position(|byte| is_exponent_mark(*byte))
}

fn point_of(text: &[u8]) -> Option<usize>
    ensures { result ≡ position is_point text.now }
{
    text.iter().position(|byte| *byte == b'.')
}

/// What stands before the point, and behind it.
fn cut_at_point(text: &[u8]) -> (&[u8], &[u8])
    ensures before { result.0.now ≡ before_first is_point text.now }
    ensures behind { result.1.now ≡ after_first is_point text.now }
{
    match point_of(text) {
        Some(place) => (&text[..place], &text[place + 1..]),
        None => (text, &[]),
    }
}

/// What stands before the mark, and behind it where it stands.
fn cut_at_mark(text: &[u8]) -> (&[u8], Option<&[u8]>)
    ensures before { result.0.now ≡ before_first is_exponent_mark text.now }
    ensures behind { MatchOption result.1 ((list_any is_exponent_mark text.now ≡ false)
        × (after_first is_exponent_mark text.now ≡ []))
        (λ part. (list_any is_exponent_mark text.now ≡ true)
        × (part.now ≡ after_first is_exponent_mark text.now)) }
{
    match mark_of(text) {
        Some(place) => (&text[..place], Some(&text[place + 1..])),
        None => (text, None),
    }
}

/// Whether the parts around the point are digits, and at least one.
fn are_mantissa_digits(whole: &[u8], fraction: &[u8]) -> bool
    ensures { result ≡ are_digits (whole.now ++ fraction.now) }
{
    (!whole.is_empty() || !fraction.is_empty()) && are_all_digits(whole) && are_all_digits(fraction)
}

/// Whether an exponent that is written is an optional sign and digits.
fn is_exponent(written: Option<&[u8]>) -> bool
    ensures { MatchOption written.entry (result ≡ true)
        (λ part. result ≡ are_digits (without_leading_sign part.now)) }
{
    match written {
        Some(part) => {
            let digits = without_sign(part);
            !digits.is_empty() && are_all_digits(digits)
        }
        None => true,
    }
}

/// The parts of a text, where it has the shape of a score.
pub(crate) fn parts_of(text: &[u8]) -> Option<Parts<'_>>
    ensures { MatchOption result (is_decimal text.now ≡ false)
        (λ parts. (is_decimal text.now ≡ true) × ArePartsOf text.now parts) }
{
    if text.len() > MOST_BYTES {
        return None;
    }
    let (mantissa, exponent) = cut_at_mark(without_sign(text));
    let (whole, fraction) = cut_at_point(mantissa);
    if !are_mantissa_digits(whole, fraction) || !is_exponent(exponent) {
        return None;
    }
    Some(Parts {
        negative: starts_with_minus(text),
        whole,
        fraction,
        exponent: exponent.unwrap_or(&[]),
    })
}

/// The value of an exponent as it is written, where it's -400 to 400; nothing written is 0.
pub(crate) fn exponent_of(written: &[u8]) -> Option<i16>
    requires { IsTrue (list_all is_digit (without_leading_sign written.now)) }
    ensures { MatchOption result (400 < digits_value 10 (without_leading_sign written.now))
        (λ exponent. (digits_value 10 (without_leading_sign written.now) ≤ 400)
        × (exponent ≡ signed_digits_value 10 written.now)) }
{
    let size = capped_number(without_sign(written), MOST_EXPONENT + 1);
    if size > MOST_EXPONENT {
        return None;
    }
    if starts_with_minus(written) {
        Some(-(size as i16))
    } else {
        Some(size as i16)
    }
}
