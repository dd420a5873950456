//! The counts and sums from which the measures of one ranked list on one topic are taken.
ghost use Rattle.std.specs.Prelude.{◌≡◌, ◌*◌, ◌^◌, ◌<◌, ◌≤◌, IfSome, length, map, count_by, position};
ghost use Rattle.measures.specs.Grades.{is_relevant as relevant_is, is_non_relevant as non_relevant_is, relevant_to as relevant_to_rank, sum_over_relevant};
ghost use Rattle.measures.specs.Cells.{cutoffs, first_relevant as first_relevant_rank, ap_sum_of, left_of_cap, bpref_num as bpref_num_of, bpref_den as bpref_den_of, cell_of, IsSound};

use decimal_rank::{is_non_relevant, is_relevant, weight};

/// The cutoffs k of the measures P_k.
pub const CUTOFFS: [u32; 9] = [5, 10, 15, 20, 30, 100, 200, 500, 1000];

/// The counts and sums of one ranked list on one topic: the documents retrieved, the topic's
/// relevant documents, the relevant ones retrieved, those within each of `CUTOFFS` and within the
/// first `rel` ranks; the rank of the first relevant one, or 0; the sum, in units of 10^-15, from
/// which average precision is taken; and bpref's numerator and denominator.
#[derive(Clone, Copy, Debug, PartialEq, Eq)]
pub struct Cell {
    pub ret: u32,
    pub rel: u32,
    pub rel_ret: u32,
    pub at: [u32; 9],
    pub r_prec: u32,
    pub first: u32,
    pub ap_sum: u64,
    pub bpref_num: u64,
    pub bpref_den: u64,
}

/// The cell of a ranked list from its effective grades by rank. The topic has `r` relevant
/// documents and `n` that are judged and not relevant, retrieved or not.
#[tactic(auto, unfolding(crate::specs::Cells::cell_of))]
pub fn scratch(grades: &[Option<u8>], r: u32, n: u32, level: u8) -> Cell
    requires length { length grades.now ≤ 1000 }
    requires relevant { count_by (relevant_is level) grades.now ≤ r }
    requires non_relevant { count_by (non_relevant_is level) grades.now ≤ n }
    requires few { r ≤ 268435456 }
    requires few_others { n ≤ 268435456 }
    ensures cell { result ≡ cell_of grades.now r n level }
    ensures sound { IsSound result }
{
    Cell {
        ret: grades.len() as u32,
        rel: r,
        rel_ret: relevant_in(level, grades),
        at: relevant_within(level, grades),
        r_prec: relevant_to(level, grades, r),
        first: first_relevant(level, grades),
        ap_sum: precision_sum(level, grades),
        bpref_num: bpref_num(level, grades, r, n),
        bpref_den: bpref_den(r, n),
    }
}

fn relevant_in(level: u8, grades: &[Option<u8>]) -> u32
    requires { length grades.now ≤ 1000 }
    ensures { result ≡ count_by (relevant_is level) grades.now }
{
    grades
        .iter()
        .filter(|grade| is_relevant(level, **grade))
        .count() as u32
}

fn relevant_to(level: u8, grades: &[Option<u8>], k: u32) -> u32
    requires { length grades.now ≤ 1000 }
    ensures { result ≡ relevant_to_rank level grades.now k }
{
    relevant_in(level, &grades[..grades.len().min(k as usize)])
}

fn relevant_within(level: u8, grades: &[Option<u8>]) -> [u32; 9]
    requires { length grades.now ≤ 1000 }
    ensures { result ≡ map (relevant_to_rank level grades.now) cutoffs }
{
    let mut counts = [0; 9];
    for place in 0..9 {
        counts[place] = relevant_to(level, grades, CUTOFFS[place]);
    }
    counts
}

fn precision_sum(level: u8, grades: &[Option<u8>]) -> u64
    requires { length grades.now ≤ 1000 }
    ensures sum { result ≡ ap_sum_of level grades.now }
    ensures bound { result ≤ count_by (relevant_is level) grades.now * 10 ^ 15 }
{
    let mut relevant: u64 = 0;
    let mut sum: u64 = 0;
    for (place, grade) in grades.iter().enumerate() {
        if is_relevant(level, *grade) {
            relevant += 1;
            sum += relevant * weight(place as u32 + 1);
        }
    }
    sum
}

fn first_place(level: u8, grades: &[Option<u8>]) -> Option<usize>
    ensures place { result ≡ position (relevant_is level) grades.now }
    ensures within { IfSome result (λ place. place < length grades.now) }
{
    grades.iter().position(|grade| is_relevant(level, *grade))
}

fn first_relevant(level: u8, grades: &[Option<u8>]) -> u32
    requires { length grades.now ≤ 1000 }
    ensures { result ≡ first_relevant_rank level grades.now }
{
    match first_place(level, grades) {
        Some(place) => place as u32 + 1,
        None => 0,
    }
}

/// The sum, over the relevant documents, of what those that are judged lower above each leave of
/// the cap.
fn preference_sum(level: u8, grades: &[Option<u8>], cap: u64) -> u64
    requires length { length grades.now ≤ 1000 }
    requires few { cap ≤ 268435456 }
    ensures sum { result ≡ sum_over_relevant level grades.now (left_of_cap level grades.now cap) }
    ensures bound { result ≤ count_by (relevant_is level) grades.now * cap }
{
    let mut lower: u64 = 0;
    let mut sum: u64 = 0;
    for grade in grades {
        if is_relevant(level, *grade) {
            sum += cap - cap.min(lower);
        } else if is_non_relevant(level, *grade) {
            lower += 1;
        }
    }
    sum
}

fn bpref_num(level: u8, grades: &[Option<u8>], r: u32, n: u32) -> u64
    requires length { length grades.now ≤ 1000 }
    requires relevant { count_by (relevant_is level) grades.now ≤ r }
    requires few { r ≤ 268435456 }
    ensures num { result ≡ bpref_num_of level grades.now r n }
    ensures within { result ≤ bpref_den_of r n }
{
    let cap = r.min(n) as u64;
    if cap == 0 {
        return relevant_in(level, grades) as u64;
    }
    preference_sum(level, grades, cap)
}

/// The denominator of bpref, with `r` relevant documents and `n` that are judged and not relevant.
pub fn bpref_den(r: u32, n: u32) -> u64
    requires { r ≤ 268435456 }
    ensures den { result ≡ bpref_den_of r n }
    ensures positive { 0 < result }
{
    if r == 0 {
        return 1;
    }
    match r.min(n) {
        0 => r as u64,
        cap => r as u64 * cap as u64,
    }
}
