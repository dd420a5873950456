//! The lines of the settings' text, as it is written by hand: the keys of the campaign stand above
//! the callers, and each caller's behind a header `[[caller]]` of its own.

/// The line, from 1, that gives a key: above the callers where `caller` is 0, else behind the
/// header of this caller.
pub fn line_of_key(text: &str, caller: usize, key: &str) -> Option<usize> {
    let mut headers = 0usize;
    for (place, line) in text.lines().enumerate() {
        if is_header(line) {
            headers = headers.saturating_add(1);
        }
        if headers == caller && is_of_key(line, key) {
            return Some(place.saturating_add(1));
        }
    }
    None
}

/// The first line, from 1, that gives a key, or a table of its name.
pub fn line_of_name(text: &str, key: &str) -> Option<usize> {
    for (place, line) in text.lines().enumerate() {
        if is_of_key(line, key) {
            return Some(place.saturating_add(1));
        }
    }
    None
}

/// The line, from 1, of the header of a caller, by its number from 1.
pub fn line_of_caller(text: &str, caller: usize) -> Option<usize> {
    let mut headers = 0usize;
    for (place, line) in text.lines().enumerate() {
        if is_header(line) {
            headers = headers.saturating_add(1);
            if headers == caller {
                return Some(place.saturating_add(1));
            }
        }
    }
    None
}

/// The line, from 1, of the byte at this place.
pub fn line_of_place(text: &[u8], place: usize) -> usize {
    let mut line = 1usize;
    for byte in text.iter().take(place) {
        if *byte == b'\n' {
            line = line.saturating_add(1);
        }
    }
    line
}

/// Whether a line is the header of a caller.
fn is_header(line: &str) -> bool {
    match line.trim_start().strip_prefix("[[") {
        Some(rest) => rest.trim_start_matches(is_behind_key).starts_with("caller"),
        None => false,
    }
}

/// Whether a line gives this key, or is the header of a table of its name.
fn is_of_key(line: &str, key: &str) -> bool {
    match line.trim_start_matches(is_before_key).strip_prefix(key) {
        Some(rest) => rest.trim_start_matches(is_behind_key).starts_with(ends_key),
        None => false,
    }
}

fn is_before_key(c: char) -> bool {
    c == '[' || is_behind_key(c)
}

fn is_behind_key(c: char) -> bool {
    matches!(c, ' ' | '\t' | '"' | '\'')
}

fn ends_key(c: char) -> bool {
    matches!(c, '=' | ']' | '.')
}
