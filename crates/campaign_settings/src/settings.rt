//! The settings of a campaign, as `campaign.toml` gives them.
ghost use Rattle.std.specs.Prelude.{◌≡◌, ◌≤◌, IfOk, IsTrue, map};
ghost use Rattle.std.specs.Cmp.Lexicographic.{slice_cmp};
ghost use Rattle.std.specs.List.{list_all};
ghost use Rattle.std.specs.Ordering.{is_lt, nat_cmp};
ghost use Rattle.toml.specs.View.{view};
ghost use Rattle.rulebook.specs.Requests.Limits.{max_top_grade};
ghost use Rattle.rulebook.specs.Spelling.{are_rules, is_ascending};
ghost use Rattle.campaign_settings.specs.Settings.{GivesSetting, is_key, is_key_byte, name_setting, name_of, key_in, role_in, doubles_setting, level_setting, levels_setting, rules_setting, role_setting, caller_setting, callers_at, settings_in, settings_of};
ghost use Rattle.campaign_settings.specs.TomlTables.{whole_number_at, each_of};

use crate::faults::SettingsEnd;
use crate::limits::{MOST_CALLERS, NAMES};
use crate::toml_tables::{has_known_keys, has_members, items_at, number_at, read_data, text_at};
use decimal_rank::{Rows, Text};
use routes::{KeyRow, Keys, are_rows};
use rulebook::{MAX_DEPTH, MAX_HOLD, MAX_TERM, MAX_TOPICS, Role, Rules, TopicLevel};
use std::alloc::Global;
use toml::Value;
use trec_formats::is_name;

/// The settings of a campaign: its rules, and its callers with their keys.
#[derive(Drop)]
pub struct Settings {
    pub rules: Rules,
    pub callers: Keys,
}

/// Reads the settings that the bytes of `campaign.toml` give.
pub fn read_settings(alloc: Global, text: &[u8]) -> Result<Settings, SettingsEnd>
    ensures settings { GivesSetting (λ settings. settings) result (settings_of text.now) }
    ensures rules { IfOk result (λ settings. IsTrue (are_rules settings.rules)) }
{
    match read_data(alloc, text)? {
        Some(tree) => settings_in(alloc, &tree),
        None => Err(SettingsEnd::Refused),
    }
}

#[tactic(auto, unfolding(crate::specs::Settings::settings_in))]
fn settings_in(alloc: Global, tree: &Value) -> Result<Settings, SettingsEnd>
    ensures { GivesSetting (λ settings. settings) result (settings_in (view tree.now)) }
{
    let rules = rules_in(alloc, tree)?;
    let callers = callers_at(alloc, tree)?;
    if has_known_keys(tree, &NAMES) {
        Ok(Settings { rules, callers })
    } else {
        Err(SettingsEnd::Refused)
    }
}

/// The number at a key, within these bounds.
fn number_in(tree: &Value, key: &str, low: u64, high: u64) -> Result<u64, SettingsEnd>
    ensures number { GivesSetting (λ n. n) result
        (whole_number_at key.now low high (view tree.now)) }
    ensures bounds { IfOk result (λ found. (low ≤ found) × (found ≤ high)) }
{
    match number_at(tree, key, low, high) {
        Some(number) => Ok(number),
        None => Err(SettingsEnd::Refused),
    }
}

#[tactic(auto, unfolding(crate::specs::Settings::rules_setting))]
fn rules_in(alloc: Global, tree: &Value) -> Result<Rules, SettingsEnd>
    ensures { GivesSetting (λ rules. rules) result (rules_setting (view tree.now)) }
{
    let depth = number_in(tree, "depth", 1, u64::from(MAX_DEPTH))?;
    let term = number_in(tree, "term", 1, MAX_TERM)?;
    let hold = number_in(tree, "hold", 1, u64::from(MAX_HOLD))?;
    let top_grade = number_in(tree, "top_grade", 1, 255)?;
    let level = number_in(tree, "level", 1, top_grade)?;
    let doubles = doubles_at(alloc, tree)?;
    let levels = levels_at(alloc, tree, top_grade)?;
    Ok(Rules {
        depth: depth as u16,
        term,
        hold: hold as u8,
        level: level as u8,
        top_grade: top_grade as u8,
        doubles,
        levels,
    })
}

/// The names of the topics whose documents need two labels.
fn doubles_at(alloc: Global, tree: &Value) -> Result<Rows<Text>, SettingsEnd>
    ensures { GivesSetting (λ names. names) result (doubles_setting (view tree.now)) }
{
    let Some(items) = items_at(tree, "doubles") else {
        return Err(SettingsEnd::Refused);
    };
    let names = names_of(alloc, items)?;
    if names.len() <= MAX_TOPICS as usize && is_ascending(&names) {
        Ok(Rows::new(names))
    } else {
        Err(SettingsEnd::Refused)
    }
}

/// The name that each of these is.
#[tactic(auto, using(crate::proofs::DataPrefixes::begun, crate::proofs::DataPrefixes::more, crate::proofs::DataPrefixes::failed, crate::proofs::DataPrefixes::whole))]
fn names_of(alloc: Global, items: &[Value]) -> Result<Vec<Text>, SettingsEnd>
    ensures { GivesSetting (λ names. names.items) result (each_of name_of (map view items.now)) }
{
    let mut names = Vec::new(alloc);
    let mut left = items;
    while let [first, rest @ ..] = left {
        names.push(name_of(alloc, first)?)?;
        left = rest;
    }
    Ok(names)
}

fn name_of(alloc: Global, value: &Value) -> Result<Text, SettingsEnd>
    ensures { GivesSetting (λ name. name) result (name_of (view value.now)) }
{
    match value.as_str() {
        Some(text) if is_name(text.as_bytes()) => Ok(Text::from_slice(alloc, text.as_bytes())?),
        _ => Err(SettingsEnd::Refused),
    }
}

/// Whether each name is before the next in byte order.
fn is_ascending(names: &[Text]) -> bool
    ensures { result ≡ is_ascending names.now }
{
    names.is_sorted_by(|name, next| is_before(name, next))
}

fn is_before(name: &Text, next: &Text) -> bool
    ensures { result ≡ is_lt (slice_cmp nat_cmp name.now next.now) }
{
    name.bytes().cmp(next.bytes()).is_lt()
}

/// The levels of topics, at most the greatest grade.
fn levels_at(alloc: Global, tree: &Value, top: u64) -> Result<Rows<TopicLevel>, SettingsEnd>
    requires { top ≤ max_top_grade }
    ensures { GivesSetting (λ levels. levels) result (levels_setting top (view tree.now)) }
{
    let Some(items) = items_at(tree, "levels") else {
        return Err(SettingsEnd::Refused);
    };
    let levels = levels_of(alloc, items, top)?;
    if levels.len() <= MAX_TOPICS as usize && topics_ascend(&levels) {
        Ok(Rows::new(levels))
    } else {
        Err(SettingsEnd::Refused)
    }
}

/// The level that each of these is.
#[tactic(auto, using(crate::proofs::DataPrefixes::begun, crate::proofs::DataPrefixes::more, crate::proofs::DataPrefixes::failed, crate::proofs::DataPrefixes::whole))]
fn levels_of(alloc: Global, items: &[Value], top: u64) -> Result<Vec<TopicLevel>, SettingsEnd>
    requires { top ≤ max_top_grade }
    ensures { GivesSetting (λ levels. levels.items) result
        (each_of (level_setting top) (map view items.now)) }
{
    let mut levels = Vec::new(alloc);
    let mut left = items;
    while let [first, rest @ ..] = left {
        levels.push(level_of(alloc, first, top)?)?;
        left = rest;
    }
    Ok(levels)
}

#[tactic(auto, unfolding(crate::specs::Settings::level_setting))]
fn level_of(alloc: Global, value: &Value, top: u64) -> Result<TopicLevel, SettingsEnd>
    requires { top ≤ max_top_grade }
    ensures { GivesSetting (λ level. level) result (level_setting top (view value.now)) }
{
    let topic = name_at(value, "topic")?;
    let level = number_in(value, "level", 1, top)?;
    if !has_members(value, 2) {
        return Err(SettingsEnd::Refused);
    }
    Ok(TopicLevel {
        topic: Text::from_slice(alloc, topic)?,
        level: level as u8,
    })
}

/// Whether each topic is before the next in byte order.
fn topics_ascend(levels: &[TopicLevel]) -> bool
    ensures { result ≡ is_ascending (map (λ own. own.topic) levels.now) }
{
    levels.is_sorted_by(|own, next| is_before(&own.topic, &next.topic))
}

/// The callers, and their keys.
fn callers_at(alloc: Global, tree: &Value) -> Result<Keys, SettingsEnd>
    ensures { GivesSetting (λ rows. rows) result (callers_at (view tree.now)) }
{
    let Some(items) = items_at(tree, "caller") else {
        return Err(SettingsEnd::Refused);
    };
    let rows = rows_of(alloc, items)?;
    if rows.len() <= MOST_CALLERS && are_rows(&rows) {
        Ok(Keys::new(rows))
    } else {
        Err(SettingsEnd::Refused)
    }
}

/// The caller that each of these is.
#[tactic(auto, using(crate::proofs::DataPrefixes::begun, crate::proofs::DataPrefixes::more, crate::proofs::DataPrefixes::failed, crate::proofs::DataPrefixes::whole))]
fn rows_of(alloc: Global, items: &[Value]) -> Result<Vec<KeyRow>, SettingsEnd>
    ensures { GivesSetting (λ rows. rows.items) result
        (each_of caller_setting (map view items.now)) }
{
    let mut rows = Vec::new(alloc);
    let mut left = items;
    while let [first, rest @ ..] = left {
        rows.push(caller_of(alloc, first)?)?;
        left = rest;
    }
    Ok(rows)
}

#[tactic(auto, unfolding(crate::specs::Settings::caller_setting))]
fn caller_of(alloc: Global, value: &Value) -> Result<KeyRow, SettingsEnd>
    ensures { GivesSetting (λ row. row) result (caller_setting (view value.now)) }
{
    let name = name_at(value, "name")?;
    let role = role_in(value)?;
    let key = key_in(value)?;
    if !has_members(value, 3) {
        return Err(SettingsEnd::Refused);
    }
    Ok(KeyRow {
        name: Text::from_slice(alloc, name)?,
        role,
        key: Text::from_slice(alloc, key)?,
    })
}

/// The name at a key.
fn name_at<'a>(table: &'a Value, key: &str) -> Result<&'a [u8], SettingsEnd>
    ensures { GivesSetting (λ name. name.now) result (name_setting key.now (view table.now)) }
{
    match text_at(table, key) {
        Some(name) if is_name(name) => Ok(name),
        _ => Err(SettingsEnd::Refused),
    }
}

fn role_in(caller: &Value) -> Result<Role, SettingsEnd>
    ensures { GivesSetting (λ role. role) result (role_in (view caller.now)) }
{
    let Some(text) = text_at(caller, "role") else {
        return Err(SettingsEnd::Refused);
    };
    match role_of(text) {
        Some(role) => Ok(role),
        None => Err(SettingsEnd::Refused),
    }
}

fn role_of(text: &[u8]) -> Option<Role>
    ensures { result ≡ role_setting text.now }
{
    if text == b"organiser".as_slice() {
        Some(Role::Organiser)
    } else if text == b"group".as_slice() {
        Some(Role::Group)
    } else if text == b"assessor".as_slice() {
        Some(Role::Assessor)
    } else {
        None
    }
}

fn key_in(caller: &Value) -> Result<&[u8], SettingsEnd>
    ensures { GivesSetting (λ key. key.now) result (key_in (view caller.now)) }
{
    match text_at(caller, "key") {
        Some(key) if is_key(key) => Ok(key),
        _ => Err(SettingsEnd::Refused),
    }
}

/// Whether a text may be a key: 16 to 64 letters and digits.
pub fn is_key(text: &[u8]) -> bool
    ensures { result ≡ is_key text.now }
{
    16 <= text.len() && text.len() <= 64 && are_key_bytes(text)
}

fn are_key_bytes(text: &[u8]) -> bool
    ensures { result ≡ list_all is_key_byte text.now }
{
    text.iter().all(|byte| is_key_byte(*byte))
}

fn is_key_byte(byte: u8) -> bool
    ensures { result ≡ is_key_byte byte }
{
    matches!(byte, b'0'..=b'9' | b'A'..=b'Z' | b'a'..=b'z')
}
