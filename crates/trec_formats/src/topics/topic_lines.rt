//! What a line of a topics text does: it opens or closes a topic, begins a field, or goes on with
//! one.
ghost use Rattle.std.specs.Prelude.{◌≡◌, false, true, MatchOption, bytes_eq};
ghost use Rattle.trec_formats.specs.TopicsFormat.TopicLines.{back_stripped, begins_with, behind_tag, field_mark, front_stripped, has_letter, is_tag, mark_of, shown_byte, without_label, without_space};
ghost use Rattle.trec_formats.specs.TopicsFormat.TopicLineViews.{kind_seen};

use crate::lines::is_white_space;

/// A field of a topic beside its number.
#[derive(Clone, Copy, Debug, PartialEq, Eq)]
pub(crate) enum TopicField {
    Title,
    Desc,
    Narr,
}

/// What a line of a topics text does.
#[derive(Clone, Copy)]
pub(crate) enum LineKind<'a> {
    /// `<top>`
    Opens,
    /// `</top>`
    Closes,
    /// `<num>`, with its text.
    Numbers(&'a [u8]),
    /// The tag of another field, with its text.
    Begins(TopicField, &'a [u8]),
    /// Another tag.
    Skips,
    /// A text.
    Says(&'a [u8]),
}

fn strip_front(text: &[u8]) -> &[u8]
    ensures { result.now ≡ front_stripped text.now }
{
    let mut rest = text;
    while let [first, after @ ..] = rest
        && is_white_space(*first)
    {
        rest = after;
    }
    rest
}

fn strip_back(text: &[u8]) -> &[u8]
    ensures { result.now ≡ back_stripped text.now }
{
    let mut kept = text;
    while let [before @ .., last] = kept
        && is_white_space(*last)
    {
        kept = before;
    }
    kept
}

/// A text without the white space at both ends.
pub(crate) fn strip(text: &[u8]) -> &[u8]
    ensures { result.now ≡ without_space text.now }
{
    strip_back(strip_front(text))
}

/// The text behind a tag or a label, where it begins with that.
fn behind<'a>(front: &[u8], text: &'a [u8]) -> Option<&'a [u8]>
    ensures { MatchOption result (begins_with front.now text.now ≡ false) (λ rest.
        (begins_with front.now text.now ≡ true) × (rest.now ≡ behind_tag front.now text.now)) }
{
    if !text.starts_with(front) {
        return None;
    }
    Some(strip(&text[front.len()..]))
}

fn unlabelled<'a>(label: &[u8], text: &'a [u8]) -> &'a [u8]
    ensures { result.now ≡ without_label label.now text.now }
{
    behind(label, text).unwrap_or(text)
}

fn has_letter(text: &[u8]) -> bool
    ensures { result ≡ has_letter text.now }
{
    match text {
        [] => false,
        [first, ..] => matches!(*first, b'A'..=b'Z' | b'a'..=b'z'),
    }
}

fn is_tag(line: &[u8]) -> bool
    ensures { result ≡ is_tag line.now }
{
    (line.starts_with(b"<") && has_letter(&line[1..]))
        || (line.starts_with(b"</") && has_letter(&line[2..]))
}

/// What a line does that neither begins nor ends a topic.
fn field_mark(line: &[u8]) -> LineKind<'_>
    ensures { kind_seen result ≡ field_mark line.now }
{
    if let Some(text) = behind(b"<num>", line) {
        return LineKind::Numbers(unlabelled(b"Number:", text));
    }
    if let Some(text) = behind(b"<title>", line) {
        return LineKind::Begins(TopicField::Title, text);
    }
    if let Some(text) = behind(b"<desc>", line) {
        return LineKind::Begins(TopicField::Desc, unlabelled(b"Description:", text));
    }
    if let Some(text) = behind(b"<narr>", line) {
        return LineKind::Begins(TopicField::Narr, unlabelled(b"Narrative:", text));
    }
    if is_tag(line) {
        return LineKind::Skips;
    }
    LineKind::Says(line)
}

fn is_same(line: &[u8], tag: &[u8]) -> bool
    ensures { result ≡ bytes_eq line.now tag.now }
{
    line == tag
}

/// What a stripped line does.
#[inline(never)]
pub(crate) fn mark_of(line: &[u8]) -> LineKind<'_>
    ensures { kind_seen result ≡ mark_of line.now }
{
    if is_same(line, b"<top>") {
        return LineKind::Opens;
    }
    if is_same(line, b"</top>") {
        return LineKind::Closes;
    }
    field_mark(line)
}

/// A byte as it is kept.
pub(crate) fn shown_byte(byte: u8) -> u8
    ensures { result ≡ shown_byte byte }
{
    if is_white_space(byte) {
        b' '
    } else if 33 <= byte && byte <= 126 {
        byte
    } else {
        b'?'
    }
}
