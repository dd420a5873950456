//! The values of members, appended one after another: words and texts between quotes, numbers in
//! decimal, and arrays of texts. Where memory is short the bytes stay as they were.
ghost use Rattle.std.specs.Prelude.{◌≡◌, ◌∷◌, ◌++◌, [], codes, decimal};
ghost use Rattle.std.specs.List.{list_all};
ghost use Rattle.decimal_rank.specs.Texts.Additions.{Adds};
ghost use Rattle.routes.specs.Bytes.{quote};
ghost use Rattle.routes.specs.Json.MemberValues.{further_texts, is_unescaped_byte, value_text};
ghost use Rattle.routes.specs.Json.Objects.{escaped, escaped_byte, in_quotes, listed, quoted};

use decimal_rank::{Memory, Text, append, append_all};
use itoa::Buffer;

/// A member's value.
#[derive(Clone, Copy)]
pub(crate) enum Value<'a> {
    /// A word, which has no `"` and no `\`.
    Word(&'a [u8]),
    /// A text, with `\` before each `"` and `\`.
    Quoted(&'a [u8]),
    /// A number, in decimal.
    Number(u64),
    /// An array of texts.
    Listed(&'a [Text]),
    True,
}

fn append_byte(out: &mut Vec<u8>, byte: u8) -> Result<(), Memory>
    ensures { Adds out.old out.new (escaped_byte byte) result }
{
    if byte == b'"' || byte == b'\\' {
        append(out, &[b'\\', byte])
    } else {
        append(out, &[byte])
    }
}

/// Appends the text, or leaves the bytes as they were.
#[tactic(auto, using(decimal_rank::proofs::GrowingBytes::ByteParts::part_fits, decimal_rank::proofs::GrowingBytes::ByteParts::part_added))]
fn append_escaped(out: &mut Vec<u8>, text: &[u8]) -> Result<(), Memory>
    ensures { Adds out.old out.new (escaped text.now) result }
{
    let before = out.len();
    let mut rest = text;
    while let [byte, others @ ..] = rest {
        match append_byte(out, *byte) {
            Ok(()) => rest = others,
            Err(memory) => {
                out.truncate(before);
                return Err(memory);
            }
        }
    }
    Ok(())
}

/// Whether a text has no `"` and no `\`.
fn is_unescaped(text: &[u8]) -> bool
    ensures { result ≡ list_all is_unescaped_byte text.now }
{
    text.iter().all(|byte| *byte != b'"' && *byte != b'\\')
}

/// Appends the text with its escapes. One without any is copied whole.
#[tactic(auto, using(crate::proofs::AnswerTexts::ByteParts::escaped_same))]
fn append_text(out: &mut Vec<u8>, text: &[u8]) -> Result<(), Memory>
    ensures { Adds out.old out.new (escaped text.now) result }
{
    if is_unescaped(text) {
        append(out, text)
    } else {
        append_escaped(out, text)
    }
}

fn append_behind(out: &mut Vec<u8>, front: &[u8], text: &[u8]) -> Result<(), Memory>
    ensures { Adds out.old out.new (front.now ++ escaped text.now) result }
{
    let before = out.len();
    append(out, front)?;
    match append_text(out, text) {
        Ok(()) => Ok(()),
        Err(memory) => {
            out.truncate(before);
            Err(memory)
        }
    }
}

/// Appends a text and the quote behind it; these bytes, with the quote before it, stand in front.
fn append_quoted(out: &mut Vec<u8>, front: &[u8], text: &[u8]) -> Result<(), Memory>
    ensures { Adds out.old out.new ((front.now ++ escaped text.now) ++ quote ∷ []) result }
{
    let before = out.len();
    append_behind(out, front, text)?;
    match append(out, b"\"") {
        Ok(()) => Ok(()),
        Err(memory) => {
            out.truncate(before);
            Err(memory)
        }
    }
}

/// Appends texts between quotes, each behind a comma, or leaves the bytes as they were.
#[tactic(auto, using(decimal_rank::proofs::GrowingBytes::ByteParts::part_fits, decimal_rank::proofs::GrowingBytes::ByteParts::part_added))]
fn append_others(out: &mut Vec<u8>, texts: &[Text]) -> Result<(), Memory>
    ensures { Adds out.old out.new (further_texts texts.now) result }
{
    let before = out.len();
    let mut rest = texts;
    while let [text, others @ ..] = rest {
        match append_quoted(out, b",\"", text.bytes()) {
            Ok(()) => rest = others,
            Err(memory) => {
                out.truncate(before);
                return Err(memory);
            }
        }
    }
    Ok(())
}

/// Appends the first text behind a bracket, and the others behind commas.
fn append_texts(out: &mut Vec<u8>, first: &[u8], others: &[Text]) -> Result<(), Memory>
    ensures { Adds out.old out.new
        ((codes "[" ++ quoted first.now) ++ further_texts others.now) result }
{
    let before = out.len();
    append_quoted(out, b"[\"", first)?;
    match append_others(out, others) {
        Ok(()) => Ok(()),
        Err(memory) => {
            out.truncate(before);
            Err(memory)
        }
    }
}

/// Appends an array of a first text and others.
fn append_some(out: &mut Vec<u8>, first: &[u8], others: &[Text]) -> Result<(), Memory>
    ensures { Adds out.old out.new
        (((codes "[" ++ quoted first.now) ++ further_texts others.now) ++ codes "]") result }
{
    let before = out.len();
    append_texts(out, first, others)?;
    match append(out, b"]") {
        Ok(()) => Ok(()),
        Err(memory) => {
            out.truncate(before);
            Err(memory)
        }
    }
}

fn append_listed(out: &mut Vec<u8>, texts: &[Text]) -> Result<(), Memory>
    ensures { Adds out.old out.new (listed texts.now) result }
{
    match texts {
        [first, others @ ..] => append_some(out, first.bytes(), others),
        [] => append(out, b"[]"),
    }
}

fn append_number(out: &mut Vec<u8>, number: u64) -> Result<(), Memory>
    ensures { Adds out.old out.new (decimal number) result }
{
    let mut digits = Buffer::new();
    append(out, digits.format(number).as_bytes())
}

fn append_word(out: &mut Vec<u8>, text: &[u8]) -> Result<(), Memory>
    ensures { Adds out.old out.new (in_quotes text.now) result }
{
    append_all(out, &[b"\"", text, b"\""])
}

/// Appends the text of a value, or leaves the bytes as they were.
pub(crate) fn append_value(out: &mut Vec<u8>, value: &Value<'_>) -> Result<(), Memory>
    ensures { Adds out.old out.new (value_text value.now) result }
{
    match value {
        Value::Word(text) => append_word(out, text),
        Value::Quoted(text) => append_quoted(out, b"\"", text),
        Value::Number(number) => append_number(out, *number),
        Value::Listed(texts) => append_listed(out, texts),
        Value::True => append(out, b"true"),
    }
}
