//! The changes of a queue: a group of runs goes first, a run is put in or taken out, a grade
//! changes.
ghost use Rattle.std.specs.Prelude.{◌≡◌, ◌<◌, ◌≤◌, ◌==◌, AllPairs, false, not, filter, vec_len, vec_capacity};
ghost use Rattle.depth_pool.specs.Holdings.{has_id};
ghost use Rattle.mtf_queue.specs.Rule.{moved_runs, trail_regraded};

use crate::rule::Judged;
use depth_pool::{RunId, is_among};

/// Puts the runs first that a judged document with these holders puts first. The others wait in a
/// buffer with room for them.
pub(crate) fn move_group(
    order: &mut Vec<RunId>,
    behind: &mut Vec<RunId>,
    holders: &[RunId],
    relevant: bool,
)
    requires room { vec_len order.old ≤ vec_capacity behind.old }
    requires ascending { AllPairs (λ a b. a.0 < b.0) holders.now }
    ensures { order.new.items
        ≡ moved_runs (λ run. has_id run holders.now) relevant order.old.items }
{
    behind.clear();
    let mut front = 0;
    for at in 0..order.len() {
        let run = order[at];
        let is_first = is_among(run, holders) == relevant;
        if is_first {
            order[front] = run;
            front += 1;
        } else {
            behind.push(run).unwrap();
        }
    }
    order.truncate(front);
    order.extend_from_slice(behind.as_slice()).unwrap();
}

/// Takes a run out.
pub(crate) fn remove_run(order: &mut Vec<RunId>, run: RunId)
    ensures runs { order.new.items ≡ filter (λ other. not (other.0 == run.0)) order.old.items }
    ensures len { vec_len order.new ≤ vec_len order.old }
{
    order.retain(|other| other.0 != run.0);
}

/// Gives the document at an index another grade. Tells whether it had another one.
pub(crate) fn set_grade(trail: &mut Vec<Judged>, index: usize, relevant: Option<bool>) -> bool
    requires { index < vec_len trail.old }
    ensures trail { trail.new.items ≡ trail_regraded trail.old.items index relevant }
    ensures same { result ≡ false → trail.new.items ≡ trail.old.items }
{
    let is_other = trail[index].relevant != relevant;
    trail[index].relevant = relevant;
    is_other
}
