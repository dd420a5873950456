//! Why settings are refused. `read_settings` decides that they are; this second walk over their
//! text looks for the first fault and its line, to tell a person.
ghost use Rattle.std.specs.Prelude.{◌≡◌, ◌≢◌, None, Ok, IfOk, IfSome};
ghost use Rattle.campaign_settings.specs.Settings.{settings_of};

use crate::setting_faults::Fault;
use crate::setting_lines::{line_of_caller, line_of_key, line_of_name, line_of_place};
use campaign_settings::{MOST_CALLERS, NAMES, SettingsEnd, is_key, read_settings};
use decimal_rank::Memory;
use rulebook::{MAX_DEPTH, MAX_HOLD, MAX_TERM, MAX_TOPICS};
use std::alloc::Global;
use toml::{Table, Value};
use trec_formats::is_name;

/// The greatest grade that a byte can tell.
const MOST_GRADE: i64 = 255;

/// A fault of settings, with the line of the text where it stands, if that was found.
#[derive(Clone, Copy)]
struct Finding<'a> {
    line: Option<usize>,
    fault: Fault<'a>,
}

/// Tells what is wrong with the text of the settings, or that the journal is of others. `name` is
/// that of their file.
pub fn tell_settings(errors: &impl Eprint, alloc: Global, name: &str, text: &[u8]) {
    let _ = match complaint_of(alloc, text) {
        Ok(Some(complaint)) => eprintln!(errors; "{name}: {complaint}"),
        Ok(None) => eprintln!(errors;
            "{name}: the journal was founded under other settings: set them back, callers aside, or take a new folder"
        ),
        Err(_) => eprintln!(errors; "{name}: memory was short to look at it"),
    };
}

/// The sentence on the first fault of settings that are refused, with its line where that was
/// found; none where they aren't refused.
fn complaint_of(alloc: Global, text: &[u8]) -> Result<Option<String>, Memory>
    ensures refused { IfOk result
        (λ complaint. IfSome complaint (λ _. settings_of text.now ≡ None)) }
    ensures accepted { result ≡ Ok None → settings_of text.now ≢ None }
{
    match read_settings(alloc, text) {
        Ok(_) => Ok(None),
        Err(SettingsEnd::Refused) => Ok(Some(first_complaint(alloc, text)?)),
        Err(SettingsEnd::Memory) => Err(Memory),
    }
}

fn first_complaint(alloc: Global, bytes: &[u8]) -> Result<String, Memory> {
    let text = match str::from_utf8(bytes) {
        Ok(text) => text,
        Err(error) => {
            let line = line_of_place(bytes, error.valid_up_to());
            return complaint(alloc, Some(line), Fault::NoText);
        }
    };
    match toml::table_from_str(alloc, text) {
        Ok(table) => match first_fault(text, &table) {
            Some(found) => complaint(alloc, found.line, found.fault),
            None => complaint(alloc, None, Fault::Unnamed),
        },
        Err(error) => {
            let line = match error.span() {
                Some(span) => Some(line_of_place(bytes, span.start)),
                None => return Err(Memory),
            };
            complaint(alloc, line, Fault::NoToml(error.message()))
        }
    }
}

fn complaint(alloc: Global, line: Option<usize>, fault: Fault) -> Result<String, Memory> {
    match line {
        Some(line) => Ok(format!(in alloc; "line {line}: {fault}")?),
        None => Ok(format!(in alloc; "{fault}")?),
    }
}

/// The fault on the least line; those whose line wasn't found come behind the others.
fn first_fault<'a>(text: &str, table: &'a Table) -> Option<Finding<'a>> {
    let keys = earlier(unknown_key(text, table), number_fault(text, table));
    let topics = earlier(doubles_fault(text, table), levels_fault(text, table));
    earlier(earlier(keys, topics), callers_fault(text, table))
}

fn earlier<'a>(first: Option<Finding<'a>>, second: Option<Finding<'a>>) -> Option<Finding<'a>> {
    match (first, second) {
        (Some(one), Some(other)) if is_before(other.line, one.line) => Some(other),
        (Some(one), _) => Some(one),
        (None, other) => other,
    }
}

fn is_before(line: Option<usize>, other: Option<usize>) -> bool {
    match (line, other) {
        (Some(line), Some(other)) => line < other,
        (Some(_), None) => true,
        (None, _) => false,
    }
}

fn unknown_key<'a>(text: &str, table: &'a Table) -> Option<Finding<'a>> {
    let mut found = None;
    for key in table.keys() {
        if !NAMES.iter().any(|name| *name == key.as_str()) {
            let line = line_of_name(text, key.as_str());
            let fault = Fault::UnknownKey(key.as_str());
            found = earlier(found, Some(Finding { line, fault }));
        }
    }
    found
}

fn number_fault<'a>(text: &str, table: &Table) -> Option<Finding<'a>> {
    let top_grade = top_grade_of(table);
    let rows = [
        ("depth", i64::from(MAX_DEPTH)),
        ("term", MAX_TERM as i64),
        ("hold", i64::from(MAX_HOLD)),
        ("top_grade", MOST_GRADE),
        ("level", top_grade),
    ];
    let mut found = None;
    for (key, high) in rows {
        if let Some(fault) = fault_of_number(table, key, high) {
            let line = line_of_number(text, table, key);
            found = earlier(found, Some(Finding { line, fault }));
        }
    }
    found
}

/// A number that is missing has no line, though a topic's level may have one.
fn line_of_number(text: &str, table: &Table, key: &str) -> Option<usize> {
    match table.get(key) {
        Some(_) => line_of_key(text, 0, key),
        None => None,
    }
}

/// The greatest grade that the settings allow, where they tell one.
fn top_grade_of(table: &Table) -> i64 {
    integer_at(table, "top_grade").unwrap_or(MOST_GRADE)
}

/// Each number is from 1 on.
fn fault_of_number<'a>(table: &Table, key: &'static str, high: i64) -> Option<Fault<'a>> {
    let low = 1;
    if table.get(key).is_none() {
        return Some(Fault::Absent { key, low, high });
    }
    match integer_at(table, key) {
        Some(number) if low <= number && number <= high => None,
        _ => Some(Fault::Number { key, low, high }),
    }
}

fn integer_at(table: &Table, key: &str) -> Option<i64> {
    match table.get(key) {
        Some(value) => value.as_integer(),
        None => None,
    }
}

fn doubles_fault<'a>(text: &str, table: &Table) -> Option<Finding<'a>> {
    match table.get("doubles") {
        Some(value) if !are_doubles(value) => Some(Finding {
            line: line_of_key(text, 0, "doubles"),
            fault: Fault::Doubles,
        }),
        _ => None,
    }
}

/// Whether a value is an array of names, each before the next.
fn are_doubles(value: &Value) -> bool {
    let Some(items) = value.as_array() else {
        return false;
    };
    let mut before = "";
    for item in items {
        match item.as_str() {
            Some(name) if is_name(name.as_bytes()) && before < name => before = name,
            _ => return false,
        }
    }
    items.len() <= MAX_TOPICS as usize
}

fn levels_fault<'a>(text: &str, table: &Table) -> Option<Finding<'a>> {
    match table.get("levels") {
        Some(value) if !are_levels(value, top_grade_of(table)) => Some(Finding {
            line: line_of_name(text, "levels"),
            fault: Fault::Levels,
        }),
        _ => None,
    }
}

/// Whether a value is an array of tables with a topic and its level alone, each topic before the
/// next.
fn are_levels(value: &Value, top_grade: i64) -> bool {
    let Some(items) = value.as_array() else {
        return false;
    };
    let mut before = "";
    for item in items {
        match topic_with_level(item, top_grade) {
            Some(topic) if before < topic => before = topic,
            _ => return false,
        }
    }
    items.len() <= MAX_TOPICS as usize
}

/// The topic of a table that has a topic and its level alone.
fn topic_with_level(item: &Value, top_grade: i64) -> Option<&str> {
    let topic = text_at(item, "topic")?;
    let table = item.as_table()?;
    let level = integer_at(table, "level")?;
    if is_name(topic.as_bytes()) && 1 <= level && level <= top_grade && table.len() == 2 {
        Some(topic)
    } else {
        None
    }
}

fn callers_fault<'a>(text: &str, table: &'a Table) -> Option<Finding<'a>> {
    let items = match table.get("caller") {
        Some(value) => value.as_array(),
        None => return None,
    };
    match items {
        Some(items) if items.len() <= MOST_CALLERS => fault_among(text, items.as_slice()),
        _ => Some(Finding {
            line: line_of_name(text, "caller"),
            fault: Fault::Callers,
        }),
    }
}

fn fault_among<'a>(text: &str, callers: &'a [Value]) -> Option<Finding<'a>> {
    for (place, caller) in callers.iter().enumerate() {
        let number = place.saturating_add(1);
        let found = match fault_of_caller(number, caller) {
            Some(found) => Some(found),
            None => repeat(&callers[..place], number, caller),
        };
        if let Some((key, fault)) = found {
            let line = match line_of_key(text, number, key) {
                Some(line) => Some(line),
                None => line_of_caller(text, number),
            };
            return Some(Finding { line, fault });
        }
    }
    None
}

/// The first fault of a caller, with the key that it is of.
fn fault_of_caller<'a>(caller: usize, value: &'a Value) -> Option<(&'a str, Fault<'a>)> {
    let Some(table) = value.as_table() else {
        return Some(("", Fault::Callers));
    };
    for key in table.keys() {
        let key = key.as_str();
        if !matches!(key, "name" | "role" | "key") {
            return Some((key, Fault::UnknownOfCaller { caller, key }));
        }
    }
    match text_at(value, "name") {
        Some(name) if is_name(name.as_bytes()) => {}
        _ => return Some(("name", Fault::Name { caller })),
    }
    match text_at(value, "role") {
        Some("organiser" | "group" | "assessor") => {}
        _ => return Some(("role", Fault::Role { caller })),
    }
    match text_at(value, "key") {
        Some(key) if is_key(key.as_bytes()) => None,
        _ => Some(("key", Fault::Key { caller })),
    }
}

fn text_at<'a>(value: &'a Value, key: &str) -> Option<&'a str> {
    match value.get(key) {
        Some(text) => text.as_str(),
        None => None,
    }
}

/// Whether one of the callers before this one has its name or its key.
fn repeat<'a>(before: &[Value], caller: usize, value: &Value) -> Option<(&'static str, Fault<'a>)> {
    for (place, other) in before.iter().enumerate() {
        let first = place.saturating_add(1);
        for key in ["name", "key"] {
            if text_at(value, key) == text_at(other, key) {
                return Some((key, Fault::Repeat { caller, key, first }));
            }
        }
    }
    None
}
