//! The scores of runs without the judgements that their own groups alone brought in.
ghost use Rattle.std.specs.Prelude.{◌≡◌, ◌+◌, ◌<◌, ◌≤◌, ◌^◌, ◌*◌, ◌/◌, ℕ, ◌==◌, IfOk, IsTrue, if◌then◌else◌, length};
ghost use Rattle.std.specs.List.{list_all};
ghost use Rattle.rulebook.specs.Campaign.{Run};
ghost use Rattle.rulebook.specs.Requests.Limits.{max_entries, max_topics};
ghost use Rattle.rulebook.specs.Reports.Systems.{is_mean, system_of};
ghost use Rattle.campaign_core.specs.Views.Groups.{group_of};
ghost use Rattle.campaign_core.specs.Assessments.Topics.{topic_ids};
ghost use Rattle.leave_out.specs.ReducedJudgements.{AreOfGroup, IsLive, sums_in, with_topic};
ghost use Rattle.leave_out.specs.Reuse.{are_reused_means, reuse, reuse_of};

use crate::groups::{GroupJudgements, place_of};
use crate::precision::value_on;
use campaign_core::State;
use decimal_rank::{Memory, Text};
use depth_pool::RunId;
use rulebook::{System, entries_are_plain};
use std::alloc::Global;

/// A live run: how many documents with an effective grade its group alone holds, over all topics;
/// and its mean average precision by all effective grades, and without those documents', in units
/// of 10^-15.
#[derive(Debug, Drop, PartialEq)]
pub struct Reused {
    pub run: Text,
    pub unique: u32,
    pub full: u64,
    pub reduced: u64,
}

/// Over some topics, a group's own documents with a grade; and the topics that count without them,
/// with the sum of a run's average precisions on these, in units of 10^-15.
#[derive(Clone, Copy)]
pub(crate) struct Sums {
    own: u64,
    topics: u64,
    precisions: u128,
}

/// The live runs by submission, scored without the judgements that their own groups alone brought
/// in.
pub fn reuse(alloc: Global, state: &State) -> Result<Vec<Reused>, Memory>
    ensures reused { IfOk result (λ rows. rows.items ≡ reuse state.now.history) }
    ensures means { IfOk result (λ rows. IsTrue (list_all are_reused_means rows.items)) }
{
    // a board tells that the topics are few, and a legal history that a run names no document twice
    // on a topic
    entries_are_plain();
    let _board = state.board();
    let _entries = state.entries();
    let systems = state.systems()?;
    let live = state.live();
    let mut groups = Vec::new(alloc);
    let mut rows = Vec::new(alloc);
    for (place, system) in systems.items().iter().enumerate() {
        let group = place_of(alloc, state, &mut groups, system.group.bytes())?;
        let row = row_of(alloc, state, live[place], system, &groups[group])?;
        rows.push(row)?;
    }
    Ok(rows)
}

/// A live run, by the reduced judgements of its group.
fn row_of(
    alloc: Global,
    state: &State,
    run: RunId,
    system: &System,
    judgements: &GroupJudgements,
) -> Result<Reused, Memory>
    requires topics { length (topic_ids state.now.history) ≤ max_topics }
    requires live { let H = state.now.history in
        (one : ℕ × Run) × IsLive H run one × (system.now ≡ system_of H (group_of H one.0) one.1) }
    requires mean { IsTrue (is_mean system.now.summary.map) }
    requires group { judgements.now.group ≡ system.now.group }
    requires reduced { AreOfGroup state.now.history judgements.now }
    ensures reused { let H = state.now.history in (one : ℕ × Run) → IsLive H run one
        → system.now ≡ system_of H (group_of H one.0) one.1
        → IfOk result (λ row. row ≡ reuse_of H one) }
    ensures means { IfOk result (λ row. IsTrue (are_reused_means row)) }
{
    let sums = sums_of(alloc, state, judgements, run)?;
    let name = system.run.copy()?;
    Ok(Reused {
        run: name,
        unique: sums.own as u32,
        full: system.summary.map,
        reduced: mean_of(sums),
    })
}

/// The mean of the average precisions, rounded down; 0 where no topic counts.
fn mean_of(sums: Sums) -> u64
    requires { sums.precisions ≤ sums.topics * 10 ^ 15 }
    ensures value { result ≡ (if sums.topics == 0 then 0 else sums.precisions / sums.topics) }
    ensures mean { result ≤ 10 ^ 15 }
{
    if sums.topics == 0 {
        return 0;
    }
    (sums.precisions / u128::from(sums.topics)) as u64
}

/// The sums of a run over all topics.
fn sums_of(
    alloc: Global,
    state: &State,
    judgements: &GroupJudgements,
    run: RunId,
) -> Result<Sums, Memory>
    requires live { (one : ℕ × Run) × IsLive state.now.history run one }
    requires reduced { AreOfGroup state.now.history judgements.now }
    ensures means { IfOk result (λ sums. sums.precisions ≤ sums.topics * 10 ^ 15) }
    ensures own { IfOk result
        (λ sums. sums.own ≤ length (topic_ids state.now.history) * max_entries) }
    ensures sums { let H = state.now.history in (one : ℕ × Run) → IsLive H run one
        → IfOk result (λ sums. sums ≡ sums_in H judgements.now.group one.1 (topic_ids H)) }
{
    let mut sums = Sums {
        own: 0,
        topics: 0,
        precisions: 0,
    };
    for topic in 0..state.topics() {
        let reduced = judgements.topics[topic as usize];
        let value = value_on(alloc, state, topic, judgements.group.bytes(), run, reduced)?;
        sums = with_topic(reduced.own as u64, value, sums);
    }
    Ok(sums)
}

/// One more topic.
fn with_topic(owned: u64, value: Option<u64>, sums: Sums) -> Sums
    requires own { sums.own + owned < 2 ^ 64 }
    requires topics { sums.topics + 1 < 2 ^ 64 }
    requires precisions { sums.precisions < 2 ^ 127 }
    ensures { result ≡ with_topic owned value sums }
{
    Sums {
        own: sums.own + owned,
        topics: sums.topics + u64::from(value.is_some()),
        precisions: sums.precisions + u128::from(value.unwrap_or(0)),
    }
}
