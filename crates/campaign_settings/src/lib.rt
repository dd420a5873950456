//! The settings of a campaign, its rules and its callers, as the bytes of `campaign.toml` give
//! them.
//!
//! - `settings`: the settings that the bytes give (`specs/Settings.antt`).
//! - `toml_tables`: what a table has at its keys (`specs/TomlTables.antt`).
//! - `limits`: bounds. `faults`: why settings weren't read.
#![tactic(auto)]

mod faults;
mod limits;
mod settings;
mod toml_tables;

pub use faults::SettingsEnd;
pub use limits::{MOST_CALLERS, NAMES};
pub use settings::{Settings, is_key, read_settings};
