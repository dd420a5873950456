//! The texts of a line, with marks for what a line can't hold. `|` ends a line; `\r`, `\t`, `\v`,
//! `\f` and `\0` are the bytes that are called so, `\x4d` is any byte, and `\|` is a bar. `(X all 1
//! 3 ..)` are the score lines of a run on a topic, or on all, by their values. Behind `500 times` a
//! text stands so often, with its number for each `%`.
use decimal_rank::Memory;
use std::alloc::Global;

/// The measures of a cell, by their lines.
const MEASURES: &str =
    "num_ret num_rel num_rel_ret map Rprec bpref recip_rank P_5 P_10 P_15 P_20 P_30 P_100 P_200 P_500 P_1000";

/// How many bytes of a text are shown.
const MOST_SHOWN: usize = 600;

/// The bytes of a text.
pub(crate) fn bytes_of(alloc: Global, text: &str) -> Result<Vec<u8>, Memory> {
    let mut out = Vec::new(alloc);
    add(text, &mut out)?;
    Ok(out)
}

/// Adds the bytes of a text, which may stand in it so many times.
pub(crate) fn add_times(alloc: Global, text: &str, out: &mut Vec<u8>) -> Result<(), Memory> {
    if let Some((count, part)) = text.split_once(" times ")
        && let Ok(count) = count.parse::<u32>()
    {
        let part = bytes_of(alloc, part)?;
        return repeat(alloc, &part, count, out);
    }
    add(text, out)
}

fn repeat(alloc: Global, part: &[u8], count: u32, out: &mut Vec<u8>) -> Result<(), Memory> {
    for number in 0..count {
        add_numbered(alloc, part, number, out)?;
    }
    Ok(())
}

fn add_numbered(alloc: Global, part: &[u8], number: u32, out: &mut Vec<u8>) -> Result<(), Memory> {
    for byte in part {
        if *byte == b'%' {
            let digits = format!(in alloc; "{number}")?;
            out.extend_from_slice(digits.as_bytes())?;
        } else {
            out.push(*byte)?;
        }
    }
    Ok(())
}

/// Adds a text, whose parentheses hold the values of score lines.
fn add(text: &str, out: &mut Vec<u8>) -> Result<(), Memory> {
    let (plain, groups) = text.split_once('(').unwrap_or((text, ""));
    add_plain(plain, out)?;
    for group in groups.split('(') {
        add_group(group, out)?;
    }
    Ok(())
}

/// Adds the score lines of these values, and what stands behind their parenthesis.
fn add_group(group: &str, out: &mut Vec<u8>) -> Result<(), Memory> {
    let Some((values, plain)) = group.split_once(')') else {
        return add_plain(group, out);
    };
    add_scores(values, out)?;
    add_plain(plain, out)
}

fn add_scores(values: &str, out: &mut Vec<u8>) -> Result<(), Memory> {
    let (run, rest) = cut(values);
    let (topic, rest) = cut(rest);
    let mut rest = rest;
    if topic == "all" {
        let (count, behind) = cut(rest);
        add_score(run, topic, "num_q", count, out)?;
        rest = behind;
    }
    for (measure, value) in MEASURES.split_whitespace().zip(rest.split_whitespace()) {
        add_score(run, topic, measure, value, out)?;
    }
    Ok(())
}

fn add_score(
    run: &str,
    topic: &str,
    measure: &str,
    value: &str,
    out: &mut Vec<u8>,
) -> Result<(), Memory> {
    out.extend_from_slice(run.as_bytes())?;
    out.push(b'\t')?;
    out.extend_from_slice(topic.as_bytes())?;
    out.push(b'\t')?;
    out.extend_from_slice(measure.as_bytes())?;
    out.push(b'\t')?;
    out.extend_from_slice(value.as_bytes())?;
    Ok(out.push(b'\n')?)
}

/// Adds a text whose bytes may have names behind a backslash.
fn add_plain(text: &str, out: &mut Vec<u8>) -> Result<(), Memory> {
    let (first, named) = text.split_once('\\').unwrap_or((text, ""));
    add_lines(first.as_bytes(), out)?;
    for part in named.split('\\') {
        add_named(part.as_bytes(), out)?;
    }
    Ok(())
}

/// Adds the byte of the name at the front, and what stands behind it.
fn add_named(part: &[u8], out: &mut Vec<u8>) -> Result<(), Memory> {
    match part {
        [] => Ok(()),
        [b'x', high, low, rest @ ..] => {
            out.push((digit(*high) << 4) | digit(*low))?;
            add_lines(rest, out)
        }
        [letter, rest @ ..] => {
            out.push(named(*letter))?;
            add_lines(rest, out)
        }
    }
}

fn named(letter: u8) -> u8 {
    match letter {
        b'0' => 0,
        b'r' => b'\r',
        b't' => b'\t',
        b'v' => 11,
        b'f' => 12,
        other => other,
    }
}

fn digit(letter: u8) -> u8 {
    match letter {
        b'0'..=b'9' => letter - b'0',
        b'a'..=b'f' => letter - b'a' + 10,
        _ => 0,
    }
}

fn add_lines(bytes: &[u8], out: &mut Vec<u8>) -> Result<(), Memory> {
    for byte in bytes {
        out.push(if *byte == b'|' { b'\n' } else { *byte })?;
    }
    Ok(())
}

/// The first word and the rest.
pub(crate) fn cut(words: &str) -> (&str, &str) {
    words.split_once(' ').unwrap_or((words, ""))
}

/// Bytes with marks, as far as they are shown.
pub(crate) fn shown(alloc: Global, bytes: &[u8]) -> Result<String, Memory> {
    let mut text = String::new(alloc);
    for byte in bytes.iter().take(MOST_SHOWN) {
        show(alloc, *byte, &mut text)?;
    }
    Ok(text)
}

fn show(alloc: Global, byte: u8, text: &mut String) -> Result<(), Memory> {
    match byte {
        b'\n' => Ok(text.push('|')?),
        b'\r' => Ok(text.push_str("\\r")?),
        b'\t' => Ok(text.push_str("\\t")?),
        b' '..=b'~' => Ok(text.push(char::from(byte))?),
        _ => {
            let name = format!(in alloc; "\\x{byte:02x}")?;
            Ok(text.push_str(name.as_str())?)
        }
    }
}
