//! The lines of a text, and the fields of a line.
ghost use Rattle.std.specs.Prelude.{◌≡◌, ◌<◌, ◌≤◌, ◌+◌, List, [], ◌∷◌, length, not, position, MatchOption, IfSome};
ghost use Rattle.trec_formats.specs.Lines.{is_white_space, is_filled, is_line_feed, lines_of, fields_of, rows_from};

use memchr::memchr;

const VERTICAL_TAB: u8 = 11;

const FORM_FEED: u8 = 12;

pub(crate) fn is_white_space(byte: u8) -> bool
    ensures { result ≡ is_white_space byte }
{
    byte == b'\t' || byte == VERTICAL_TAB || byte == FORM_FEED || byte == b'\r' || byte == b' '
}

/// The place of the first line feed.
pub(crate) fn line_feed(text: &[u8]) -> Option<usize>
    ensures { result ≡ position is_line_feed text.now }
{
    memchr(b'\n', text)
}

/// The first line, without its line feed, and the text behind it.
pub(crate) fn cut_line(text: &[u8]) -> (&[u8], &[u8])
    requires { 0 < length text.now }
    ensures cut { lines_of text.now ≡ result.0.now ∷ lines_of result.1.now }
    ensures shorter { length result.1.now < length text.now }
{
    match line_feed(text) {
        Some(end) => (&text[..end], &text[end + 1..]),
        None => (text, &[]),
    }
}

fn field_start(line: &[u8]) -> Option<usize>
    ensures { result ≡ position (λ b. not (is_white_space b)) line.now }
{
    line.iter().position(|byte| !is_white_space(*byte))
}

#[inline(never)]
fn field_end(line: &[u8]) -> Option<usize>
    ensures { result ≡ position is_white_space line.now }
{
    line.iter().position(|byte| is_white_space(*byte))
}

/// Whether a line isn't white space alone.
pub(crate) fn has_field(line: &[u8]) -> bool
    ensures { result ≡ is_filled (fields_of line.now) }
{
    field_start(line).is_some()
}

/// The first field of a line, and the line behind it.
pub(crate) fn cut_field(line: &[u8]) -> Option<(&[u8], &[u8])>
    ensures { MatchOption result (fields_of line.now ≡ [])
        (λ cut. fields_of line.now ≡ cut.0.now ∷ fields_of cut.1.now) }
{
    let line = &line[field_start(line)?..];
    match field_end(line) {
        Some(end) => Some((&line[..end], &line[end + 1..])),
        None => Some((line, &[])),
    }
}

/// A line that has a field.
#[derive(Clone, Copy)]
pub(crate) struct Row<'a> {
    /// Its number in the text, from 1.
    pub(crate) number: u32,
    pub(crate) line: &'a [u8],
    /// The text behind it.
    pub(crate) rest: &'a [u8],
}

/// The next line that has a field, in a text behind so many lines.
pub(crate) fn next_row(before: u32, text: &[u8]) -> Option<Row<'_>>
    requires { before + length text.now ≤ 268435456 }
    ensures row { MatchOption result (rows_from (before + 1) (lines_of text.now) ≡ [])
        (λ row. rows_from (before + 1) (lines_of text.now) ≡ (row.number, fields_of row.line.now)
        ∷ rows_from (row.number + 1) (lines_of row.rest.now)) }
    ensures shorter { IfSome result (λ row. length row.rest.now < length text.now) }
    ensures fits { IfSome result
        (λ row. row.number + length row.rest.now ≤ before + length text.now) }
{
    let mut number = before;
    let mut rest = text;
    while !rest.is_empty() {
        let (line, after) = cut_line(rest);
        number += 1;
        rest = after;
        if has_field(line) {
            return Some(Row { number, line, rest });
        }
    }
    None
}
