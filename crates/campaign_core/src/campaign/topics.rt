//! The campaign's topics by id and by number, and what a command gives them.
ghost use Rattle.std.specs.Prelude.{◌≡◌, [], ℕ, List, IfOk, IsTrue, find, get_or, map, option_map};
ghost use Rattle.std.specs.List.{position};
ghost use Rattle.std.specs.Str.{bytes_eq};
ghost use Rattle.assessment.specs.TopicFacts.{facts_of};
ghost use Rattle.assessment.specs.TopicFacts.{new_topic};
ghost use Rattle.rulebook.specs.Campaign.{docs_on, level_in, needed_labels};
ghost use Rattle.rulebook.specs.Spelling.{differ};
ghost use Rattle.rulebook.specs.Words.{contains_text};
ghost use Rattle.campaign_core.specs.Numbering.Numbers.{AreRankable, docs_in};
ghost use Rattle.campaign_core.specs.Assessments.Topics.{AreById, empty_topic, fact_ids, kept_topic, labelled_of, unlabelled_topic};

use crate::campaign::docnos::numbers_on;
use assessment::{AssessedTopic, TopicRules};
use decimal_rank::{DocId, Memory, Ranking, Text};
use rulebook::{Rules, TopicLevel};
use std::alloc::Global;
use trec_formats::{Topic as GivenTopic, TopicList};

/// The topic of this id.
pub(crate) fn topic_of<'a>(topics: &'a [AssessedTopic], id: &[u8]) -> Option<&'a AssessedTopic>
    ensures { option_map (λ topic. topic.now) result
        ≡ find (λ topic. bytes_eq topic.facts.id id.now) topics.now }
{
    topics.iter().find(|topic| topic.id() == id)
}

/// The number of the topic of this id, from 0.
pub(crate) fn topic_number(topics: &[AssessedTopic], id: &[u8]) -> Option<usize>
    ensures { result ≡ position (λ topic. bytes_eq topic.id id.now) (map facts_of topics.now) }
{
    place_among(topics, id)
}

fn place_among(topics: &[AssessedTopic], id: &[u8]) -> Option<usize>
    ensures { result ≡ position (λ topic. bytes_eq topic.facts.id id.now) topics.now }
{
    topics.iter().position(|topic| topic.id() == id)
}

/// The numbers of the topics, from 0, by id.
pub(crate) fn numbers_by_id(alloc: Global, topics: &[AssessedTopic]) -> Result<Vec<usize>, Memory>
    requires { IsTrue (differ (fact_ids (map facts_of topics.now))) }
    ensures { IfOk result (λ numbers. AreById (map facts_of topics.now) numbers.items) }
{
    let mut numbers = Vec::with_capacity(alloc, topics.len())?;
    for number in 0..topics.len() {
        numbers.push(number)?;
    }
    numbers.sort_unstable_by(|a, b| id_at(topics, *a).cmp(id_at(topics, *b)));
    Ok(numbers)
}

/// The id of the topic of a number: empty where there is none.
fn id_at(topics: &[AssessedTopic], number: usize) -> &[u8]
    ensures { result.now ≡ get_or (fact_ids (map facts_of topics.now)) number [] }
{
    match topics.get(number) {
        Some(topic) => topic.id(),
        None => &[],
    }
}

/// How many labels a document of a topic needs.
fn needed_labels(rules: &Rules, id: &[u8]) -> u32
    ensures { result ≡ needed_labels rules.now id.now }
{
    if is_among(rules.doubles.items(), id) {
        2
    } else {
        1
    }
}

fn is_among(ids: &[Text], id: &[u8]) -> bool
    ensures { result ≡ contains_text ids.now id.now }
{
    ids.iter().any(|other| id == other.bytes())
}

/// The grade from which on a document of a topic is relevant.
fn level_of(rules: &Rules, id: &[u8]) -> u8
    ensures { result ≡ level_in rules.now id.now }
{
    match own_level(rules.levels.items(), id) {
        Some(own) => own.level,
        None => rules.level,
    }
}

fn own_level<'a>(levels: &'a [TopicLevel], id: &[u8]) -> Option<&'a TopicLevel>
    ensures { option_map (λ own. own.now) result
        ≡ find (λ own. bytes_eq own.topic id.now) levels.now }
{
    levels.iter().find(|own| own.topic.bytes() == id)
}

/// What the rules say of each topic.
pub(crate) fn topic_rules(
    alloc: Global,
    topics: &[GivenTopic],
    rules: &Rules,
) -> Result<Vec<TopicRules>, Memory>
    ensures kept { IfOk result (λ made. map kept_topic (map new_topic made.items)
        ≡ map (λ topic. empty_topic rules.now topic.id) topics.now) }
    ensures labelled { IfOk result (λ made. map labelled_of (map new_topic made.items)
        ≡ map (λ topic. unlabelled_topic topic.id) topics.now) }
{
    let mut made = Vec::with_capacity(alloc, topics.len())?;
    for topic in topics {
        made.push(TopicRules {
            id: topic.id.copy()?,
            need: needed_labels(rules, topic.id.bytes()),
            level: level_of(rules, topic.id.bytes()),
            depth: rules.depth,
        })?;
    }
    Ok(made)
}

/// The rankings of a run of these lists, one for each topic, by the numbers of its documents one
/// list after another.
pub(crate) fn rankings_of(
    alloc: Global,
    topics: &[AssessedTopic],
    lists: &[TopicList],
    numbers: &[DocId],
) -> Result<Vec<Ranking>, Memory>
    requires { (names : List (List ℕ)) × AreRankable names lists.now numbers.now }
    ensures { (names : List (List ℕ)) → AreRankable names lists.now numbers.now
        → IfOk result (λ made. made.items
        ≡ map (λ topic. docs_in names (docs_on lists.now topic.id)) (map facts_of topics.now)) }
{
    let mut made = Vec::with_capacity(alloc, topics.len())?;
    for topic in topics {
        let docs = Vec::from_slice(alloc, numbers_on(lists, numbers, topic.id()))?;
        made.push(Ranking::listed(docs)?)?;
    }
    Ok(made)
}
