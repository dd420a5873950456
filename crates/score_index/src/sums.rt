//! The sums of a list, from which its cell is taken. They follow each place that becomes relevant
//! or judged lower, or no longer is, and the cap of the topic, which moves by one at a time.
ghost use Rattle.std.specs.Prelude.{◌≡◌, ℕ, ◌+◌, ◌-◌, ◌*◌, ◌<◌, ◌≤◌, ◌&&◌, Some, false, true, if◌then◌else◌, length, map, min, nat_le, nat_eq, not, slice_index, slice_set, take};
ghost use Rattle.decimal_rank.specs.Rankings.Places.{levels};
ghost use Rattle.measures.specs.Cells.{cutoffs};
ghost use Rattle.qrels_view.specs.Grades.{as_number};
ghost use Rattle.score_index.specs.KeptSums.{AreNear, AreSums, HasRelevance, IsOnAt, is_lower_standing, is_relevant_standing, with_lower, with_relevant};
ghost use Rattle.rank_trees.specs.PlacesOn.{count_on};
ghost use Rattle.score_index.specs.KeptBoards.{IsRoom};
ghost use Rattle.score_index.specs.Places.{Places, cell_by, first_from};
ghost use Rattle.score_index.specs.declared.relevance.Relevance.TheVariants.{Unjudged};

use crate::relevance::Relevance;
use crate::trees::Trees;
use decimal_rank::Steps;
use measures::{CUTOFFS, Cell, bpref_den};
use qrels_view::Counts;
use std::sync::ledger::Ledger;

/// How many places are relevant, in all and within each cutoff; the sum of precisions; and the sum
/// of what each relevant place has left of the cap.
#[derive(Clone, Copy, Debug)]
pub(crate) struct Sums {
    pub(crate) rel_ret: u32,
    pub(crate) at: [u32; 9],
    pub(crate) ap_sum: u64,
    pub(crate) preferences: u64,
}

/// The cap of a topic with these counts.
pub(crate) fn cap_of(counts: Counts) -> u32
    ensures { result ≡ min counts.relevant counts.non_relevant }
{
    counts.relevant.min(counts.non_relevant)
}

/// The sums of a list of which nothing is judged.
pub(crate) fn no_sums() -> Sums
    ensures { (cap : ℕ) (places : Places) → IsRoom places → length places.relevant ≤ 1000
        → AreSums cap places result }
{
    Sums {
        rel_ret: 0,
        at: [0; 9],
        ap_sum: 0,
        preferences: 0,
    }
}

/// The sums after a place becomes relevant, or no longer is; in the trees it isn't.
fn moved_relevant<L: Ledger>(
    trees: &Trees,
    sums: Sums,
    place: u32,
    on: bool,
    cap: u32,
    steps: &mut Steps<L>,
) -> Sums
    requires off { IsOnAt (Some place) false trees.now.relevant }
    requires few { cap ≤ 268435456 }
    requires sums { AreSums cap (with_relevant place (not on) trees.now) sums }
    ensures sums { AreSums cap (with_relevant place on trees.now) result }
    ensures cost { steps.new ≤ steps.old + 3 * (levels (length trees.now.relevant) + 1) }
{
    let gain = trees.precision_gain(place, steps);
    let left = trees.left_above(place, cap, steps);
    let at = moved_counts(sums.at, place, on);
    if on {
        return Sums {
            rel_ret: sums.rel_ret + 1,
            at,
            ap_sum: sums.ap_sum + gain,
            preferences: sums.preferences + left,
        };
    }
    Sums {
        rel_ret: sums.rel_ret - 1,
        at,
        ap_sum: sums.ap_sum - gain,
        preferences: sums.preferences - left,
    }
}

/// The sums after a place becomes judged lower, or no longer is; in the trees it is.
fn moved_lower<L: Ledger>(
    trees: &Trees,
    sums: Sums,
    place: u32,
    on: bool,
    cap: u32,
    steps: &mut Steps<L>,
) -> Sums
    requires on { IsOnAt (Some place) true trees.now.lower }
    requires few { cap ≤ 268435456 }
    requires sums { AreSums cap (with_lower place (not on) trees.now) sums }
    ensures sums { AreSums cap (with_lower place on trees.now) result }
    ensures cost { steps.new ≤ steps.old + 3 * (levels (length trees.now.relevant) + 1) }
{
    // trees tell with their length that they are as long as one another
    let _ = trees.len();
    let past = trees.reached_past(place, cap, sums.rel_ret, steps);
    if on {
        return with_preferences(sums, sums.preferences - past);
    }
    with_preferences(sums, sums.preferences + past)
}

/// The sums after the cap moved, by one at most.
fn with_cap<L: Ledger>(trees: &Trees, sums: Sums, from: u32, to: u32, steps: &mut Steps<L>) -> Sums
    requires caps { AreNear from to }
    requires sums { AreSums from trees.now sums }
    ensures sums { AreSums to trees.now result }
    ensures cost { steps.new ≤ steps.old + 2 * (levels (length trees.now.relevant) + 1) }
{
    if from < to {
        let reached = trees.reached(from, sums.rel_ret, steps);
        return with_preferences(sums, sums.preferences + u64::from(reached));
    }
    if to < from {
        let reached = trees.reached(to, sums.rel_ret, steps);
        return with_preferences(sums, sums.preferences - u64::from(reached));
    }
    sums
}

/// Has the sums follow the cap, which moves by one at most. Where it stays they aren't touched.
pub(crate) fn follow_cap<L: Ledger>(
    trees: &Trees,
    sums: &mut Sums,
    from: u32,
    to: u32,
    steps: &mut Steps<L>,
)
    requires caps { AreNear from to }
    requires sums { AreSums from trees.now sums.old }
    ensures sums { AreSums to trees.now sums.new }
    ensures cost { steps.new ≤ steps.old + 2 * (levels (length trees.now.relevant) + 1) }
{
    if from == to {
        return;
    }
    *sums = with_cap(trees, *sums, from, to, steps);
}

fn with_preferences(sums: Sums, preferences: u64) -> Sums
    ensures { result ≡ record sums { preferences = preferences } }
{
    let mut moved = sums;
    moved.preferences = preferences;
    moved
}

/// A count within a cutoff after a place is counted, or no longer is, where it is within it.
fn moved_count(count: u32, place: u32, cutoff: u32, on: bool) -> u32
    requires { count ≤ 1000 }
    ensures { result ≡ (if on then count + as_number (nat_le place cutoff) else count - as_number
        (nat_le place cutoff)) }
{
    let here = u32::from(place <= cutoff);
    if on {
        return count + here;
    }
    count.saturating_sub(here)
}

/// The counts within all cutoffs after that.
fn moved_counts(at: [u32; 9], place: u32, on: bool) -> [u32; 9]
    requires { (i : ℕ) → i < 9 → slice_index at i ≤ 1000 }
    ensures { (counts : ℕ → ℕ)
        → at ≡ map (λ k. counts k + as_number (not on && nat_le place k)) cutoffs
        → result ≡ map (λ k. counts k + as_number (on && nat_le place k)) cutoffs }
{
    [
        moved_count(at[0], place, CUTOFFS[0], on),
        moved_count(at[1], place, CUTOFFS[1], on),
        moved_count(at[2], place, CUTOFFS[2], on),
        moved_count(at[3], place, CUTOFFS[3], on),
        moved_count(at[4], place, CUTOFFS[4], on),
        moved_count(at[5], place, CUTOFFS[5], on),
        moved_count(at[6], place, CUTOFFS[6], on),
        moved_count(at[7], place, CUTOFFS[7], on),
        moved_count(at[8], place, CUTOFFS[8], on),
    ]
}

/// Takes the mark of a place away.
pub(crate) fn take_mark<L: Ledger>(
    trees: &mut Trees,
    sums: Sums,
    place: u32,
    mark: Relevance,
    cap: u32,
    steps: &mut Steps<L>,
) -> Sums
    requires mark { HasRelevance (Some place) mark trees.old }
    requires few { cap ≤ 268435456 }
    requires sums { AreSums cap trees.old sums }
    ensures relevant { trees.new.relevant ≡ slice_set trees.old.relevant (place - 1) false }
    ensures lower { trees.new.lower ≡ slice_set trees.old.lower (place - 1) false }
    ensures sums { AreSums cap trees.new result }
    ensures cost { steps.new ≤ steps.old + 5 * (levels (length trees.old.relevant) + 1) }
{
    match mark {
        Relevance::Relevant => {
            trees.set_relevant(place, false, steps);
            moved_relevant(trees, sums, place, false, cap, steps)
        }
        Relevance::Lower => {
            let taken = moved_lower(trees, sums, place, false, cap, steps);
            trees.set_lower(place, false, steps);
            taken
        }
        Relevance::Unjudged => sums,
    }
}

/// Gives a place, which is not judged, a mark.
pub(crate) fn put_mark<L: Ledger>(
    trees: &mut Trees,
    sums: Sums,
    place: u32,
    mark: Relevance,
    cap: u32,
    steps: &mut Steps<L>,
) -> Sums
    requires unjudged { HasRelevance (Some place) Unjudged trees.old }
    requires few { cap ≤ 268435456 }
    requires sums { AreSums cap trees.old sums }
    ensures relevant { trees.new.relevant
        ≡ slice_set trees.old.relevant (place - 1) (is_relevant_standing mark) }
    ensures lower { trees.new.lower
        ≡ slice_set trees.old.lower (place - 1) (is_lower_standing mark) }
    ensures sums { AreSums cap trees.new result }
    ensures cost { steps.new ≤ steps.old + 5 * (levels (length trees.old.relevant) + 1) }
{
    match mark {
        Relevance::Relevant => {
            let put = moved_relevant(trees, sums, place, true, cap, steps);
            trees.set_relevant(place, true, steps);
            put
        }
        Relevance::Lower => {
            trees.set_lower(place, true, steps);
            moved_lower(trees, sums, place, true, cap, steps)
        }
        Relevance::Unjudged => sums,
    }
}

/// Gives a place another mark, while the cap moves by one at most.
pub(crate) fn remark<L: Ledger>(
    trees: &mut Trees,
    sums: Sums,
    place: u32,
    marks: (Relevance, Relevance),
    caps: (u32, u32),
    steps: &mut Steps<L>,
) -> Sums
    requires mark { HasRelevance (Some place) marks.0 trees.old }
    requires caps { AreNear caps.0 caps.1 }
    requires sums { AreSums caps.0 trees.old sums }
    ensures relevant { trees.new.relevant
        ≡ slice_set trees.old.relevant (place - 1) (is_relevant_standing marks.1) }
    ensures lower { trees.new.lower
        ≡ slice_set trees.old.lower (place - 1) (is_lower_standing marks.1) }
    ensures sums { AreSums caps.1 trees.new result }
    ensures cost { steps.new ≤ steps.old + 12 * (levels (length trees.old.relevant) + 1) }
{
    let taken = take_mark(trees, sums, place, marks.0, caps.0, steps);
    let put = put_mark(trees, taken, place, marks.1, caps.0, steps);
    with_cap(trees, put, caps.0, caps.1, steps)
}

/// The cell of a list whose topic has these counts.
pub(crate) fn cell_from<L: Ledger>(
    trees: &Trees,
    sums: Sums,
    counts: Counts,
    steps: &mut Steps<L>,
) -> Cell
    requires few { counts.relevant ≤ 268435456 }
    requires few_lower { counts.non_relevant ≤ 268435456 }
    requires sums { AreSums (min counts.relevant counts.non_relevant) trees.now sums }
    ensures cell { result
        ≡ cell_by trees.now.relevant trees.now.lower counts.relevant counts.non_relevant }
    ensures cost { steps.new ≤ steps.old + 2 * (levels (length trees.now.relevant) + 1) }
{
    let r_prec = trees.relevant_to(counts.relevant, sums.rel_ret, steps);
    let first = trees.first_relevant(steps);
    cell_with(trees, sums, r_prec, first, counts)
}

/// Has the cell of a list whose places stay follow the topic's counts, of which that of the
/// relevant documents moves by one at most.
pub(crate) fn follow_counts<L: Ledger>(
    trees: &Trees,
    sums: &Sums,
    cell: &mut Cell,
    counts: Counts,
    steps: &mut Steps<L>,
)
    requires near { AreNear cell.old.rel counts.relevant }
    requires few_lower { counts.non_relevant ≤ 268435456 }
    requires sums { AreSums (min counts.relevant counts.non_relevant) trees.now sums.now }
    requires cell { (rel : ℕ) × (low : ℕ)
        × (cell.old ≡ cell_by trees.now.relevant trees.now.lower rel low) }
    ensures cell { cell.new
        ≡ cell_by trees.now.relevant trees.now.lower counts.relevant counts.non_relevant }
    ensures cost { steps.new ≤ steps.old + 1 }
{
    let r_prec = moved_r_prec(trees, cell.r_prec, cell.rel, counts.relevant, steps);
    cell.rel = counts.relevant;
    cell.r_prec = r_prec;
    cell.bpref_num = bpref_num(sums, counts);
    cell.bpref_den = bpref_den(counts.relevant, counts.non_relevant);
}

/// How many of so many first places are relevant, after that number moved by one at most.
fn moved_r_prec<L: Ledger>(
    trees: &Trees,
    r_prec: u32,
    from: u32,
    to: u32,
    steps: &mut Steps<L>,
) -> u32
    requires near { AreNear from to }
    requires few { length trees.now.relevant ≤ 1000 }
    requires count { r_prec ≡ count_on (take from trees.now.relevant) }
    ensures count { result ≡ count_on (take to trees.now.relevant) }
    ensures cost { steps.new ≤ steps.old + 1 }
{
    if from < to {
        return r_prec + trees.relevant_at(to, steps);
    }
    if to < from {
        return r_prec - trees.relevant_at(from, steps);
    }
    r_prec
}

fn cell_with(trees: &Trees, sums: Sums, r_prec: u32, first: u32, counts: Counts) -> Cell
    requires few { counts.relevant ≤ 268435456 }
    requires few_lower { counts.non_relevant ≤ 268435456 }
    requires sums { AreSums (min counts.relevant counts.non_relevant) trees.now sums }
    requires r_prec { r_prec ≡ count_on (take counts.relevant trees.now.relevant) }
    requires first { first ≡ first_from 1 trees.now.relevant }
    ensures cell { result
        ≡ cell_by trees.now.relevant trees.now.lower counts.relevant counts.non_relevant }
{
    Cell {
        ret: trees.len(),
        rel: counts.relevant,
        rel_ret: sums.rel_ret,
        at: sums.at,
        r_prec,
        first,
        ap_sum: sums.ap_sum,
        bpref_num: bpref_num(&sums, counts),
        bpref_den: bpref_den(counts.relevant, counts.non_relevant),
    }
}

fn bpref_num(sums: &Sums, counts: Counts) -> u64
    ensures { result ≡ (if nat_eq counts.relevant 0 then 0 else (if nat_eq (min counts.relevant
        counts.non_relevant) 0 then sums.now.rel_ret else sums.now.preferences)) }
{
    if counts.relevant == 0 {
        return 0;
    }
    if cap_of(counts) == 0 {
        return u64::from(sums.rel_ret);
    }
    sums.preferences
}
