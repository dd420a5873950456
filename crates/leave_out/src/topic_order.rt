//! The topics of a campaign by id.
ghost use Rattle.std.specs.Prelude.{◌≡◌, IfOk, Some, map};
ghost use Rattle.rulebook.specs.Reports.Pages.{topics_in_order};
ghost use Rattle.campaign_core.specs.Views.LentTopics.{topic_at};
ghost use Rattle.leave_out.specs.TopicOrder.{AreTopicsById};

use campaign_core::State;
use decimal_rank::{Memory, Text};
use std::alloc::Global;
use std::collections::BTreeMap;

/// The numbers of the topics, by id.
pub(crate) fn topics_by_id(alloc: Global, state: &State) -> Result<Vec<u16>, Memory>
    ensures { let H = state.now.history in
        IfOk result (λ topics. map (topic_at H) topics.items ≡ map Some (topics_in_order H)) }
{
    let ids = topic_ids(alloc, state)?;
    numbers_of(alloc, &ids)
}

fn numbers_of(alloc: Global, ids: &BTreeMap<Text, u16>) -> Result<Vec<u16>, Memory>
    ensures { IfOk result (λ numbers. numbers.items ≡ map (λ one. one.1) ids.now.entries) }
{
    let mut numbers = Vec::with_capacity(alloc, ids.len())?;
    for number in ids.values() {
        numbers.push(*number)?;
    }
    Ok(numbers)
}

/// The ids of the topics with their numbers, by id.
fn topic_ids(alloc: Global, state: &State) -> Result<BTreeMap<Text, u16>, Memory>
    ensures { IfOk result (λ ids. AreTopicsById state.now.history ids.entries) }
{
    let mut ids = BTreeMap::new(alloc);
    for topic in 0..state.topics() {
        let id = Text::from_slice(alloc, state.topic_name(topic))?;
        ids.insert(id, topic)?;
    }
    Ok(ids)
}
