//! Requests to a campaign as lines of words.
//!
//!     p 1000 lease 1               who asks, at which moment, and what
//!     p#7 1000 grade 1 0           under the number 7
//!     p 1000 cancel lease 1        the entry is cancelled once it is prepared
//!
//! Each verb has a form, the method, the path and the body of its request, which `routes` reads:
//!
//!     form grade POST /leases/$/grade {"grade":%}
//!
//! `$` is the first word behind the verb, `%` the second, `@` the lines of a run of the second's
//! letters by rank, and `|` ends a line.
ghost use Rattle.std.specs.Prelude.{◌≤◌, ℕ, IfSome, IsTrue};
ghost use Rattle.rulebook.specs.Histories.Legal.{is_well_addressed};
ghost use Rattle.rulebook.specs.declared.limits.TheConstants.{MAX_MOMENT};

use decimal_rank::{Memory, Rows, Text};
use http_wire::{HttpField, HttpHead};
use routes::{AskReader, KeyRow, Keys, Paths, are_rows};
use rulebook::{Ask, Caller, Role};
use std::alloc::Global;

/// The most bytes of a request's body.
const MOST_BODY: usize = 16_777_216;

/// The method, the path and the body of a verb.
fn form_of<'x>(forms: &'x str, verb: &str) -> Option<&'x str> {
    for line in forms.lines() {
        if let Some(words) = line.strip_prefix("form ") {
            let (word, form) = cut(words);
            if word == verb {
                return Some(form);
            }
        }
    }
    None
}

/// A line's request. The words behind the verb are empty where there are none.
#[derive(Clone, Copy)]
pub(crate) struct Asked<'x> {
    pub(crate) caller: &'x str,
    pub(crate) number: Option<&'x str>,
    pub(crate) moment: u64,
    pub(crate) is_kept: bool,
    pub(crate) verb: &'x str,
    pub(crate) first: &'x str,
    pub(crate) second: &'x str,
}

/// The first word and the rest.
pub(crate) fn cut(words: &str) -> (&str, &str) {
    words.split_once(' ').unwrap_or((words, ""))
}

/// The request of a line.
pub(crate) fn asked_of(line: &str) -> Option<Asked<'_>> {
    let (caller, rest) = cut(line);
    let (caller, number) = caller_of(caller);
    let (moment, words) = cut(rest);
    let kept = words.strip_prefix("cancel ");
    let (verb, rest) = cut(kept.unwrap_or(words));
    let (first, second) = cut(rest);
    Some(Asked {
        caller,
        number,
        moment: moment.parse::<u64>().ok()?,
        is_kept: kept.is_none(),
        verb,
        first,
        second,
    })
}

/// The caller and the number behind its mark.
fn caller_of(word: &str) -> (&str, Option<&str>) {
    match word.split_once('#') {
        Some((caller, number)) => (caller, Some(number)),
        None => (word, None),
    }
}

/// The table of the paths, the callers of the campaigns, whose keys are their names, and the forms
/// of the verbs.
#[derive(Drop)]
pub(crate) struct Door<'x> {
    paths: Paths,
    keys: Keys,
    forms: &'x str,
}

impl<'x> Door<'x> {
    /// None where memory is short.
    pub(crate) fn new(alloc: Global, forms: &'x str) -> Option<Door<'x>> {
        let rows = rows(alloc).ok()?;
        if !are_rows(&rows) {
            return None;
        }
        Some(Door {
            paths: Paths::new(alloc).ok()?,
            keys: Keys::new(rows),
            forms,
        })
    }
}

fn rows(alloc: Global) -> Result<Vec<KeyRow>, Memory> {
    let mut rows = Vec::new(alloc);
    let callers = [
        ("org", Role::Organiser),
        ("grp", Role::Group),
        ("gr", Role::Group),
        ("p", Role::Assessor),
        ("q", Role::Assessor),
        ("r", Role::Assessor),
    ];
    for (name, role) in callers {
        rows.push(row(alloc, name, role)?)?;
    }
    Ok(rows)
}

fn row(alloc: Global, name: &str, role: Role) -> Result<KeyRow, Memory> {
    Ok(KeyRow {
        name: Text::from_slice(alloc, name.as_bytes())?,
        role,
        key: Text::from_slice(alloc, name.as_bytes())?,
    })
}

fn field(alloc: Global, name: &str, value: &str) -> Result<HttpField, Memory> {
    Ok(HttpField {
        name: Text::from_slice(alloc, name.as_bytes())?,
        value: Text::from_slice(alloc, value.as_bytes())?,
    })
}

fn fields(alloc: Global, asked: &Asked) -> Result<Rows<HttpField>, Memory> {
    let mut fields = Vec::new(alloc);
    fields.push(field(alloc, "X-Campaign-Key", asked.caller)?)?;
    if let Some(number) = asked.number {
        fields.push(field(alloc, "X-Request-Number", number)?)?;
    }
    Ok(Rows::new(fields))
}

/// The lines of a run of these documents on the topic 1, and behind a slash of those on the topic
/// 2.
fn add_run(alloc: Global, docs: &str, out: &mut Vec<u8>) -> Result<(), Memory> {
    let (first, second) = docs.split_once('/').unwrap_or((docs, ""));
    add_list(alloc, "1", first, out)?;
    add_list(alloc, "2", second, out)
}

fn add_list(alloc: Global, topic: &str, docs: &str, out: &mut Vec<u8>) -> Result<(), Memory> {
    for (place, doc) in docs.chars().enumerate() {
        let line = format!(in alloc; "{topic} Q0 {doc} {place} -{place} t\n")?;
        add(line.as_bytes(), out)?;
    }
    Ok(())
}

/// A part of a form with the words of a request in it.
fn filled(alloc: Global, part: &str, asked: &Asked) -> Result<Text, Memory> {
    let mut out = Vec::new(alloc);
    for byte in part.as_bytes() {
        add_byte(alloc, *byte, asked, &mut out)?;
    }
    Ok(Text::new(out))
}

fn add_byte(alloc: Global, byte: u8, asked: &Asked, out: &mut Vec<u8>) -> Result<(), Memory> {
    match byte {
        b'$' => add(asked.first.as_bytes(), out),
        b'%' => add(asked.second.as_bytes(), out),
        b'@' => add_run(alloc, asked.second, out),
        b'|' => add(b"\n", out),
        _ => add(&[byte], out),
    }
}

fn add(bytes: &[u8], out: &mut Vec<u8>) -> Result<(), Memory> {
    Ok(out.extend_from_slice(bytes)?)
}

/// The caller, the number and what is asked, by the words of a request.
pub(crate) fn ask_of(
    alloc: Global,
    door: &Door,
    asked: &Asked,
) -> Option<(Caller, Option<u64>, Ask)>
    ensures { IfSome result (λ read. (moment : ℕ) → moment ≤ MAX_MOMENT
        → IsTrue (is_well_addressed read.0 read.1 read.2 moment)) }
{
    let (method, rest) = cut(form_of(door.forms, asked.verb)?);
    let (path, body) = cut(rest);
    let body = filled(alloc, body, asked).ok()?;
    let head = head_of(alloc, method, path, body.bytes().len(), asked).ok()?;
    read(alloc, door, &head, body.bytes())
}

fn head_of(
    alloc: Global,
    method: &str,
    path: &str,
    length: usize,
    asked: &Asked,
) -> Result<HttpHead, Memory> {
    Ok(HttpHead {
        method: filled(alloc, method, asked)?,
        path: filled(alloc, path, asked)?,
        fields: fields(alloc, asked)?,
        length: length.min(MOST_BODY) as u32,
        close: false,
    })
}

fn read(
    alloc: Global,
    door: &Door,
    head: &HttpHead,
    body: &[u8],
) -> Option<(Caller, Option<u64>, Ask)>
    ensures { IfSome result (λ read. (moment : ℕ) → moment ≤ MAX_MOMENT
        → IsTrue (is_well_addressed read.0 read.1 read.2 moment)) }
{
    if body.len() > MOST_BODY {
        return None;
    }
    let mut reader = AskReader::new_by(alloc, &door.paths, head, &door.keys).ok()?;
    reader.feed(body).ok()?;
    reader.finish().ok()
}
