//! The callers of a campaign, each with a name, a role and the key by which it is known. No two
//! have one name or one key.
ghost use Rattle.std.specs.Prelude.{◌≡◌, IsTrue, IfOk, bytes_eq, map, option_copied};
ghost use Rattle.std.specs.List.{list_all, list_any};
ghost use Rattle.rulebook.specs.Spelling.{differ};
ghost use Rattle.trec_formats.specs.Names.{is_name};
ghost use Rattle.routes.specs.Keys.{are_rows, caller_text, caller_with, without_key};

use decimal_rank::{Memory, Text};
use rulebook::{Caller, Role};
use std::marker::Model;
use trec_formats::is_name;

/// A caller and the key by which it is known.
#[derive(Debug, Drop)]
pub struct KeyRow {
    pub name: Text,
    pub role: Role,
    pub key: Text,
}

impl KeyRow {
    pub(crate) fn without_key(&self) -> Result<Caller, Memory>
        ensures { IfOk result (λ caller. caller ≡ without_key self.now) }
    {
        Ok(Caller {
            name: self.name.copy()?,
            role: self.role,
        })
    }
}

/// A text that no two callers share.
#[derive(Clone, Copy)]
pub(crate) enum CallerText {
    Name,
    Key,
}

fn text_of(caller: &KeyRow, which: CallerText) -> &[u8]
    ensures { result.now ≡ caller_text which caller.now }
{
    match which {
        CallerText::Name => caller.name.bytes(),
        CallerText::Key => caller.key.bytes(),
    }
}

fn has_text(callers: &[KeyRow], which: CallerText, text: &[u8]) -> bool
    ensures { result ≡ list_any (λ caller. bytes_eq text.now (caller_text which caller))
        callers.now }
{
    callers.iter().any(|caller| text == text_of(caller, which))
}

fn texts_differ(callers: &[KeyRow], which: CallerText) -> bool
    ensures { result ≡ differ (map (caller_text which) callers.now) }
{
    let mut left = callers;
    while let [first, rest @ ..] = left {
        if has_text(rest, which, text_of(first, which)) {
            return false;
        }
        left = rest;
    }
    true
}

fn are_named(callers: &[KeyRow]) -> bool
    ensures { result ≡ list_all (λ caller. is_name caller.name) callers.now }
{
    callers.iter().all(|caller| is_name(caller.name.bytes()))
}

/// Whether these may be the callers of a campaign: each name is a name, and no two have one name or
/// one key.
pub fn are_rows(callers: &[KeyRow]) -> bool
    ensures { result ≡ are_rows callers.now }
{
    are_named(callers)
        && texts_differ(callers, CallerText::Name)
        && texts_differ(callers, CallerText::Key)
}

/// The callers of a campaign. Contracts see the list of them.
#[derive(Debug, Drop)]
pub struct Keys {
    callers: Vec<KeyRow>,
}

impl Model for Keys {
    ghost use Rattle.std.specs.Prelude.{List, IsTrue};
    ghost use Rattle.routes.specs.declared.keys.KeyRow.{KeyRow};
    ghost use Rattle.routes.specs.Keys.{are_rows};

    ghost Value = { List KeyRow };

    ghost view = { λ keys. keys.callers.items };

    ghost invariant = { λ keys. IsTrue (are_rows keys.callers.items) };
}

impl Keys {
    /// Each caller's name is a name, and no two callers have one name or one key.
    pub fn new(rows: Vec<KeyRow>) -> Keys
        requires { IsTrue (are_rows rows.items) }
        ensures { result ≡ rows.items }
    {
        Keys { callers: rows }
    }

    /// The caller with a key.
    pub(crate) fn caller_with(&self, key: &[u8]) -> Option<&KeyRow>
        ensures caller { option_copied result ≡ caller_with self.now key.now }
        ensures callers { IsTrue (are_rows self.now) }
    {
        self.callers.iter().find(|caller| caller.key.bytes() == key)
    }
}
