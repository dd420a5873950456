//! The words of a call as a command.
ghost use Rattle.std.specs.Prelude.{◌≡◌, false, true, IfOk, IsTrue, map, option_map, string_bytes};
ghost use Rattle.std.specs.List.{list_all, list_any};
ghost use Rattle.std.specs.Option.{option_map_or};
ghost use Rattle.command_words.specs.Words.{begins_with_minus, behind_minus, form_of, given_by, is_form, is_stray, option_named, value_behind, view_of};

use crate::command_lines::find_matches;
use crate::forms::{CommandForm, CommandWords};
use crate::values::command_in;
use decimal_rank::Memory;
use std::alloc::Global;

const MINUS: u8 = b'-';

const EQUALS: u8 = b'=';

/// The command that the words give by the forms; none, where they give none. The words are those
/// behind the program's name. A form has fewer than 1,000 positional words.
pub fn read_command<'a>(
    alloc: Global,
    forms: &'a [CommandForm<'a>],
    words: &'a [String],
) -> Result<Option<CommandWords<'a>>, Memory>
    requires { IsTrue (list_all is_form (map form_of forms.now)) }
    ensures { IfOk result (λ found. option_map view_of found
        ≡ given_by (map form_of forms.now) (map string_bytes words.now)) }
{
    if has_stray(words) {
        return Ok(None);
    }
    match find_matches(alloc, forms, words)? {
        Some(matches) => command_in(alloc, forms, &matches),
        None => Ok(None),
    }
}

fn has_stray(words: &[String]) -> bool
    ensures { result ≡ list_any is_stray (map string_bytes words.now) }
{
    let mut left = words;
    while let [word, rest @ ..] = left {
        if is_stray(word.as_bytes()) {
            return true;
        }
        left = rest;
    }
    false
}

/// Whether no command has the word.
fn is_stray(word: &[u8]) -> bool
    ensures { result ≡ is_stray word.now }
{
    let Some(rest) = behind_minus(word) else {
        return false;
    };
    match behind_minus(rest) {
        Some(option) => is_stray_option(option),
        None => true,
    }
}

/// Whether what is behind two minuses is no option, or has a value that begins with a minus.
fn is_stray_option(option: &[u8]) -> bool
    ensures { result ≡ option_map_or (λ found. option_map_or begins_with_minus found.1 false)
        (option_named option.now) true }
{
    if option.is_empty() {
        return true;
    }
    match value_behind(option) {
        Some(value) => behind_minus(value).is_some(),
        None => false,
    }
}

fn behind_minus(word: &[u8]) -> Option<&[u8]>
    ensures { option_map (λ rest. rest.now) result ≡ behind_minus word.now }
{
    match word {
        [first, rest @ ..] if *first == MINUS => Some(rest),
        _ => None,
    }
}

fn value_behind(option: &[u8]) -> Option<&[u8]>
    ensures { option_map (λ value. value.now) result ≡ value_behind option.now }
{
    let mut left = option;
    while let [first, rest @ ..] = left {
        if *first == EQUALS {
            return Some(rest);
        }
        left = rest;
    }
    None
}
