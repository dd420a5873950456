//! What an archive keeps of a release.
ghost use Rattle.std.specs.Prelude.{◌≡◌, IfOk, bytes_eq, option_copied};
ghost use Rattle.std.specs.List.{list_all, list_any};
ghost use Rattle.rulebook.specs.Spelling.{differ};
ghost use Rattle.rulebook.specs.Reports.Systems.{are_means, is_mean, is_sound_system, runs_of};
ghost use Rattle.release_archive.specs.Releases.{is_sound as sound, release_named as named, same_kept};

use decimal_rank::{Memory, ONE, Rows, Text};
use measures::Summary;
use rulebook::{MAX_RUNS, System};
use std::alloc::Global;
use trec_formats::is_name;

/// A release of a campaign under its name in the archive: the text of its qrels, and its systems by
/// submission.
#[derive(Debug, PartialEq)]
pub struct Kept {
    pub name: Text,
    pub qrels: Text,
    pub systems: Rows<System>,
}

// a call of its own, so that no caller's proof takes a release apart
impl Drop for Kept {
    fn drop(self) {
        let Kept {
            name: _,
            qrels: _,
            systems: _,
        } = self;
    }
}

impl Kept {
    /// The same again.
    pub fn copy(&self, alloc: Global) -> Result<Kept, Memory>
        ensures { IfOk result (λ copy. copy ≡ self.now) }
    {
        Ok(Kept {
            name: self.name.copy()?,
            qrels: self.qrels.copy()?,
            systems: copy_systems(alloc, self.systems.items())?,
        })
    }

    /// Whether all of it is the same.
    pub fn is_same(&self, other: &Kept) -> bool
        ensures { result ≡ same_kept self.now other.now }
    {
        self == other
    }
}

fn copy_systems(alloc: Global, systems: &[System]) -> Result<Rows<System>, Memory>
    ensures { IfOk result (λ copy. copy ≡ systems.now) }
{
    let mut copies = Vec::with_capacity(alloc, systems.len())?;
    for system in systems {
        copies.push(system.copy()?)?;
    }
    Ok(Rows::new(copies))
}

/// Whether a release is sound: its name and those of its runs and groups are names, it has no
/// more systems than runs may be, no two of one run name, and no mean is above 1.
pub fn is_sound(kept: &Kept) -> bool
    ensures { result ≡ sound kept.now }
{
    let systems = kept.systems.items();
    is_name(kept.name.bytes())
        && systems.len() <= MAX_RUNS as usize
        && are_sound_systems(systems)
        && runs_differ(systems)
}

fn are_sound_systems(systems: &[System]) -> bool
    ensures { result ≡ list_all is_sound_system systems.now }
{
    systems.iter().all(|system| is_sound_system(system))
}

fn is_sound_system(system: &System) -> bool
    ensures { result ≡ is_sound_system system.now }
{
    is_name(system.run.bytes()) && is_name(system.group.bytes()) && are_means(&system.summary)
}

fn are_means(summary: &Summary) -> bool
    ensures { result ≡ are_means summary.now }
{
    summary.map <= ONE
        && summary.r_prec <= ONE
        && summary.bpref <= ONE
        && summary.recip <= ONE
        && are_all_means(&summary.at)
}

fn are_all_means(values: &[u64]) -> bool
    ensures { result ≡ list_all is_mean values.now }
{
    values.iter().all(|value| *value <= ONE)
}

/// Whether no two systems have one run name.
fn runs_differ(systems: &[System]) -> bool
    ensures { result ≡ differ (runs_of systems.now) }
{
    let mut rest = systems;
    while let [system, others @ ..] = rest {
        if has_run(others, system.run.bytes()) {
            return false;
        }
        rest = others;
    }
    true
}

fn has_run(systems: &[System], run: &[u8]) -> bool
    ensures { result ≡ list_any (λ system. bytes_eq run.now system.run) systems.now }
{
    systems.iter().any(|system| run == system.run.bytes())
}

/// The release of a name.
pub fn release_named<'a>(releases: &'a [Kept], name: &[u8]) -> Option<&'a Kept>
    ensures { option_copied result ≡ named releases.now name.now }
{
    releases.iter().find(|kept| name == kept.name.bytes())
}
