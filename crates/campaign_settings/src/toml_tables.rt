//! What the tables of a TOML text have at their keys.
ghost use Rattle.std.specs.Prelude.{◌≡◌, ◌≤◌, IfOk, IfSome, map, option_map, bytes_eq, string_bytes};
ghost use Rattle.std.specs.BTreeMap.{keys};
ghost use Rattle.std.specs.List.{list_all, list_any};
ghost use Rattle.toml.specs.View.{view};
ghost use Rattle.campaign_settings.specs.TomlTables.{data_of, natural, number_within, whole_number_at, text_at, array_at, has_keys, has_known_keys};

use decimal_rank::Memory;
use std::alloc::Global;
use toml::{Table, Value};

/// The data of a text as TOML; none where `toml` refuses it.
#[tactic(auto, using(crate::proofs::Documents::table_read, crate::proofs::Documents::no_table, crate::proofs::Documents::no_text))]
pub(crate) fn read_data(alloc: Global, text: &[u8]) -> Result<Option<Value>, Memory>
    ensures { IfOk result (λ found. option_map view found ≡ data_of text.now) }
{
    let Ok(text) = str::from_utf8(text) else {
        return Ok(None);
    };
    match toml::table_from_str(alloc, text) {
        Ok(table) => Ok(Some(Value::Table(table))),
        Err(error) if error.is_memory() => Err(Memory),
        Err(_) => Ok(None),
    }
}

fn natural(number: i64) -> Option<u64>
    ensures { result ≡ natural number }
{
    if number < 0 {
        None
    } else {
        Some(number as u64)
    }
}

fn within(low: u64, high: u64, number: u64) -> Option<u64>
    ensures number { result ≡ number_within low high number }
    ensures bounds { IfSome result (λ found. (low ≤ found) × (found ≤ high)) }
{
    if low <= number && number <= high {
        Some(number)
    } else {
        None
    }
}

/// The whole number at a key, within these bounds.
pub(crate) fn number_at(tree: &Value, key: &str, low: u64, high: u64) -> Option<u64>
    ensures number { result ≡ whole_number_at key.now low high (view tree.now) }
    ensures bounds { IfSome result (λ found. (low ≤ found) × (found ≤ high)) }
{
    let Some(value) = tree.get(key) else {
        return None;
    };
    let Some(number) = value.as_integer() else {
        return None;
    };
    match natural(number) {
        Some(number) => within(low, high, number),
        None => None,
    }
}

/// The text at a key.
pub(crate) fn text_at<'a>(tree: &'a Value, key: &str) -> Option<&'a [u8]>
    ensures { option_map (λ text. text.now) result ≡ text_at key.now (view tree.now) }
{
    let Some(value) = tree.get(key) else {
        return None;
    };
    match value.as_str() {
        Some(text) => Some(text.as_bytes()),
        None => None,
    }
}

/// The items of the array at a key; where the key is absent there are none.
#[tactic(auto, using(crate::proofs::Lists::listed))]
pub(crate) fn items_at<'a>(tree: &'a Value, key: &str) -> Option<&'a [Value]>
    ensures { option_map (λ items. map view items.now) result ≡ array_at key.now (view tree.now) }
{
    match tree.get(key) {
        Some(value) => match value.as_array() {
            Some(items) => Some(items.as_slice()),
            None => None,
        },
        None => Some(&[]),
    }
}

/// Whether it is a table with so many keys.
#[tactic(auto, using(crate::proofs::TableKeys::counted, crate::proofs::TableKeys::uncounted))]
pub(crate) fn has_members(tree: &Value, count: usize) -> bool
    ensures { result ≡ has_keys count (view tree.now) }
{
    match tree.as_table() {
        Some(table) => table.len() == count,
        None => false,
    }
}

fn is_known(known: &[&str], key: &str) -> bool
    ensures { result ≡ list_any (λ k. bytes_eq k.now key.now) known.now }
{
    known.iter().any(|name| *name == key)
}

fn are_known(known: &[&str], table: &Table) -> bool
    ensures { result ≡ list_all (λ key. list_any (λ k. bytes_eq k.now (string_bytes key)) known.now)
        (keys table.now) }
{
    table.keys().all(|key| is_known(known, key.as_str()))
}

/// Whether it is a table with no other keys than these.
#[tactic(auto, using(crate::proofs::TableKeys::no_keys))]
pub(crate) fn has_known_keys(tree: &Value, known: &[&str]) -> bool
    ensures { result ≡ has_known_keys (map (λ k. k.now) known.now) (view tree.now) }
{
    match tree.as_table() {
        Some(table) => are_known(known, table),
        None => false,
    }
}
