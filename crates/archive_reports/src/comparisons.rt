//! Two releases compared by the runs that both have.
ghost use Rattle.std.specs.Prelude.{◌≡◌, ◌+◌, ◌*◌, ◌-◌, ◌≤◌, ◌<◌, ◌^◌, IsTrue, Some, length, map, take};
ghost use Rattle.rulebook.specs.Spelling.{differ};
ghost use Rattle.rulebook.specs.Reports.Systems.{runs_of};
ghost use Rattle.archive_reports.specs.Comparisons.{is_concordant, is_discordant, is_tied, map_in, maps_of, pairs_among, pairs_of};
ghost use Rattle.archive_reports.specs.PairCounts.{PairsMayGrow, present, with_maps, with_pair};

use release_archive::Kept;
use rulebook::System;

/// How many systems a release has at most.
const MOST_SYSTEMS: usize = 256;

/// How two releases agree. `common` is how many runs both have. Of the pairs of two of these,
/// `concordant` are those whose maps differ in both releases the same way, `discordant` those whose
/// maps differ in both the opposite way, and `tied` the others.
#[derive(Clone, Copy, Debug, PartialEq, Eq)]
pub struct Pairs {
    pub common: u32,
    pub concordant: u32,
    pub discordant: u32,
    pub tied: u32,
}

/// How two releases agree, in whichever order they are given. It takes no memory.
pub fn compare(a: &Kept, b: &Kept) -> Pairs
    requires few { length a.now.systems ≤ 256 }
    requires few_others { length b.now.systems ≤ 256 }
    requires differ { IsTrue (differ (runs_of a.now.systems)) }
    requires others_differ { IsTrue (differ (runs_of b.now.systems)) }
    ensures pairs { result ≡ pairs_of a.now.systems b.now.systems }
    ensures even { result ≡ pairs_of b.now.systems a.now.systems }
    ensures sum { 2 * (result.concordant + result.discordant + result.tied)
        ≡ result.common * (result.common - 1) }
{
    let systems = a.systems.items();
    let found = maps_in_both(systems, b.systems.items());
    counted(&found[..systems.len()])
}

/// Each system's map and that of its run in the other release, where it is there, by the places of
/// the systems.
fn maps_in_both(systems: &[System], others: &[System]) -> [Option<(u64, u64)>; MOST_SYSTEMS]
    requires { length systems.now ≤ 256 }
    ensures { take (length systems.now) result ≡ map (maps_of others.now) systems.now }
{
    let mut found = [None; MOST_SYSTEMS];
    for place in 0..systems.len() {
        found[place] = maps_of(others, &systems[place]);
    }
    found
}

/// The runs that are there, and their pairs.
fn counted(found: &[Option<(u64, u64)>]) -> Pairs
    requires { length found.now ≤ 256 }
    ensures { result ≡ pairs_among (present found.now) }
{
    let mut pairs = Pairs {
        common: 0,
        concordant: 0,
        discordant: 0,
        tied: 0,
    };
    let mut left = found;
    while let [maps, rest @ ..] = left {
        pairs = with_run(pairs, *maps, rest);
        left = rest;
    }
    pairs
}

/// The counts with a run, where it is there, and with its pairs with those behind it.
fn with_run(pairs: Pairs, maps: Option<(u64, u64)>, rest: &[Option<(u64, u64)>]) -> Pairs
    requires room { PairsMayGrow pairs (length rest.now) }
    requires common { pairs.common < 2 ^ 32 - 1 }
    ensures { result ≡ with_maps pairs maps (present rest.now) }
{
    match maps {
        Some(maps) => with_later(pairs, maps, rest),
        None => pairs,
    }
}

fn with_later(pairs: Pairs, maps: (u64, u64), rest: &[Option<(u64, u64)>]) -> Pairs
    requires room { PairsMayGrow pairs (length rest.now) }
    requires common { pairs.common < 2 ^ 32 - 1 }
    ensures { result ≡ with_maps pairs (Some maps) (present rest.now) }
{
    let mut now = Pairs {
        common: pairs.common + 1,
        concordant: pairs.concordant,
        discordant: pairs.discordant,
        tied: pairs.tied,
    };
    let mut left = rest;
    while let [other, behind @ ..] = left {
        if let Some(other) = *other {
            now = with_pair(now, maps, other);
        }
        left = behind;
    }
    now
}

fn with_pair(pairs: Pairs, x: (u64, u64), y: (u64, u64)) -> Pairs
    requires { PairsMayGrow pairs 1 }
    ensures { result ≡ with_pair pairs x y }
{
    Pairs {
        common: pairs.common,
        concordant: pairs.concordant + u32::from(is_concordant(x, y)),
        discordant: pairs.discordant + u32::from(is_discordant(x, y)),
        tied: pairs.tied + u32::from(is_tied(x, y)),
    }
}

fn is_concordant(x: (u64, u64), y: (u64, u64)) -> bool
    ensures { result ≡ is_concordant x y }
{
    (x.0 < y.0 && x.1 < y.1) || (y.0 < x.0 && y.1 < x.1)
}

fn is_discordant(x: (u64, u64), y: (u64, u64)) -> bool
    ensures { result ≡ is_discordant x y }
{
    (x.0 < y.0 && y.1 < x.1) || (y.0 < x.0 && x.1 < y.1)
}

fn is_tied(x: (u64, u64), y: (u64, u64)) -> bool
    ensures { result ≡ is_tied x y }
{
    x.0 == y.0 || x.1 == y.1
}

/// A system's map, and that of its run in the other release, where it is there.
fn maps_of(others: &[System], system: &System) -> Option<(u64, u64)>
    ensures { result ≡ maps_of others.now system.now }
{
    match map_of(others, system.run.bytes()) {
        Some(other) => Some((system.summary.map, other)),
        None => None,
    }
}

fn map_of(systems: &[System], run: &[u8]) -> Option<u64>
    ensures { result ≡ map_in systems.now run.now }
{
    match systems.iter().find(|system| run == system.run.bytes()) {
        Some(system) => Some(system.summary.map),
        None => None,
    }
}
