//! The reduced judgements of the groups whose runs are scored, made once for each group.
ghost use Rattle.std.specs.Prelude.{◌≡◌, All, IfOk, OnOk, Some, position, slice_get};
ghost use Rattle.std.specs.Option.{option_map};
ghost use Rattle.std.specs.Str.{bytes_eq};
ghost use Rattle.leave_out.specs.ReducedJudgements.{AreOfGroup, AreReduced, group_in};

use crate::reduced_judgements::{ReducedJudgements, reduced_on};
use campaign_core::State;
use decimal_rank::{Memory, Text};
use std::alloc::Global;

/// A group, and its reduced judgements by the numbers of the topics.
#[derive(Drop)]
pub(crate) struct GroupJudgements {
    pub(crate) group: Text,
    pub(crate) topics: Vec<ReducedJudgements>,
}

/// The place of a group's reduced judgements among those of the groups so far, where they are added
/// if they aren't there yet.
pub(crate) fn place_of(
    alloc: Global,
    state: &State,
    groups: &mut Vec<GroupJudgements>,
    group: &[u8],
) -> Result<usize, Memory>
    requires { All (AreOfGroup state.now.history) groups.old.items }
    ensures reduced { OnOk result (All (AreOfGroup state.now.history) groups.new.items) }
    ensures place { IfOk result (λ place.
        option_map group_in (slice_get groups.new.items place) ≡ Some group.now) }
{
    if let Some(place) = place_among(groups, group) {
        return Ok(place);
    }
    let judgements = judgements_of(alloc, state, group)?;
    let place = groups.len();
    groups.push(judgements)?;
    Ok(place)
}

fn place_among(groups: &[GroupJudgements], group: &[u8]) -> Option<usize>
    ensures { result ≡ position (λ one. bytes_eq one.group group.now) groups.now }
{
    groups.iter().position(|one| one.group.bytes() == group)
}

/// The reduced judgements of a group.
fn judgements_of(alloc: Global, state: &State, group: &[u8]) -> Result<GroupJudgements, Memory>
    ensures group { IfOk result (λ judgements. judgements.group ≡ group.now) }
    ensures reduced { IfOk result (AreOfGroup state.now.history) }
{
    let topics = reduced_by_topic(alloc, state, group)?;
    let group = Text::from_slice(alloc, group)?;
    Ok(GroupJudgements { group, topics })
}

/// The same by the numbers of the topics.
fn reduced_by_topic(
    alloc: Global,
    state: &State,
    group: &[u8],
) -> Result<Vec<ReducedJudgements>, Memory>
    ensures { IfOk result (λ topics. AreReduced state.now.history group.now topics.items) }
{
    let mut topics = Vec::new(alloc);
    for topic in 0..state.topics() {
        topics.push(reduced_on(state, topic, group))?;
    }
    Ok(topics)
}
