//! A run through the releases of an archive.
ghost use Rattle.std.specs.Prelude.{◌≡◌, ◌++◌, IfOk, OnOk, bytes_eq, find, option_copied};
ghost use Rattle.archive_reports.specs.Histories.{history_of, history_row};

use crate::orders::by_name;
use decimal_rank::{Memory, Text};
use release_archive::Kept;
use rulebook::System;
use std::alloc::Global;

/// A run in one release: the release's name, how many topics counted, and the map, in units of
/// 10^-15.
#[derive(Debug)]
pub struct HistoryRow {
    pub name: Text,
    pub topics: u32,
    pub map: u64,
}

// a call of its own, so that no caller's proof takes a row apart
impl Drop for HistoryRow {
    fn drop(self) {
        let HistoryRow {
            name: _,
            topics: _,
            map: _,
        } = self;
    }
}

/// A run in each release that has it, by the releases' names, equal names in the order of `all`.
pub fn history(alloc: Global, run: &[u8], all: &[Kept]) -> Result<Vec<HistoryRow>, Memory>
    ensures { IfOk result (λ rows. rows.items ≡ history_of run.now all.now) }
{
    let mut rows = Vec::new(alloc);
    for kept in &by_name(alloc, all)? {
        add_row(run, kept, &mut rows)?;
    }
    Ok(rows)
}

fn add_row(run: &[u8], kept: &Kept, rows: &mut Vec<HistoryRow>) -> Result<(), Memory>
    ensures { OnOk result (rows.new.items ≡ rows.old.items ++ history_row run.now kept.now) }
{
    match system_of(kept.systems.items(), run) {
        Some(system) => {
            rows.push(HistoryRow {
                name: kept.name.copy()?,
                topics: system.summary.topics,
                map: system.summary.map,
            })?;
            Ok(())
        }
        None => Ok(()),
    }
}

fn system_of<'a>(systems: &'a [System], run: &[u8]) -> Option<&'a System>
    ensures { option_copied result ≡ find (λ system. bytes_eq run.now system.run) systems.now }
{
    systems.iter().find(|system| run == system.run.bytes())
}
