//! The document that an assessor is told to grade.
ghost use Rattle.std.specs.Prelude.{◌≡◌, ◌+◌, ◌<◌, find, length, nat_lt, take};
ghost use Rattle.depth_pool.specs.Holdings.{pool_docs};
ghost use Rattle.labels.specs.LabelledDocuments.{given_at};
ghost use Rattle.lease_desk.specs.Leases.{live_on};
ghost use Rattle.assessment.specs.Fronts.{AreDone};
ghost use Rattle.assessment.specs.TopicFacts.{IsQueued};
ghost use Rattle.mtf_queue.specs.QueueView.{QueueView};
ghost use Rattle.campaign_core.specs.Assessments.DeskLeases.{first_open, is_open_in};

use assessment::{AssessedTopic, front_of};
use decimal_rank::{DocId, Steps};
use depth_pool::RunId;
use lease_desk::Desk;
use std::marker::Brand;
use std::sync::ledger::{Blank, Ledger};

/// An assessor who asks for a document of a topic at a moment. `number` is the topic's, from 0.
#[derive(Drop)]
struct Asker<'a> {
    topic: &'a AssessedTopic,
    number: u16,
    desk: &'a Desk,
    assessor: &'a [u8],
    moment: u64,
}

/// The document that an assessor is told to grade at a moment: in the first run of the judging
/// order that holds one that is open to the assessor, the one of least rank. `number` is the
/// topic's, from 0.
pub(crate) fn named(
    topic: &AssessedTopic,
    number: u16,
    desk: &Desk,
    assessor: &[u8],
    now: u64,
) -> Option<DocId>
    ensures { let is_open = is_open_in topic.now.facts.need
        topic.now.facts.marked desk.now.leases number now assessor.now in
        (queue : QueueView)
        × IsQueued topic.now.facts.level topic.now.facts.pool topic.now.facts.graded queue
        × (result ≡ first_open is_open topic.now.facts.pool queue.order) }
{
    let asker = Asker {
        topic,
        number,
        desk,
        assessor,
        moment: now,
    };
    let queue = topic.queue();
    first_in::<Brand>(&asker, queue.order(), Blank::new(1))
}

/// The same for runs in this order.
fn first_in<L: Ledger>(asker: &Asker, order: &[RunId], blank: Blank) -> Option<DocId>
    requires name { blank.name ≡ L.name }
    requires parts { blank.parts ≡ L.parts }
    requires some { 0 < L.parts }
    ensures { let who = asker.now in let topic = who.topic.now.facts in
        let is_open = is_open_in topic.need topic.marked
        who.desk.now.leases who.number who.moment who.assessor.now in
        result ≡ first_open is_open topic.pool order.now }
{
    let mut steps: Steps<L> = Steps::new(blank);
    let fronts = asker.topic.fronts_of(asker.assessor);
    for run in order {
        let front = front_of(fronts, *run);
        let open = open_from(asker, *run, front, &mut steps);
        if open.is_some() {
            return open;
        }
    }
    None
}

/// The first document of a run that is open to an assessor. It is none of those that are done.
fn open_from<L: Ledger>(
    asker: &Asker,
    run: RunId,
    front: usize,
    steps: &mut Steps<L>,
) -> Option<DocId>
    requires { let who = asker.now in let topic = who.topic.now.facts in
        AreDone topic.need topic.marked who.assessor.now (take front (pool_docs topic.pool run)) }
    ensures { let who = asker.now in let topic = who.topic.now.facts in
        let is_open = is_open_in topic.need topic.marked
        who.desk.now.leases who.number who.moment who.assessor.now in
        result ≡ find is_open (pool_docs topic.pool run) }
{
    let pool = asker.topic.pool();
    for place in front..pool.count_of(run) {
        let doc = pool.doc_at(run, place, steps);
        if is_open(asker, doc) {
            return Some(doc);
        }
    }
    None
}

/// Whether a document may be leased to an assessor.
fn is_open(asker: &Asker, doc: DocId) -> bool
    ensures { let who = asker.now in let topic = who.topic.now.facts in result ≡ is_open_in
        topic.need topic.marked who.desk.now.leases who.number who.moment who.assessor.now doc }
{
    let marks = asker.topic.marks();
    let desk = asker.desk;
    marks.effective(asker.topic.need(), doc).is_none()
        && !marks.has_label(asker.assessor, doc)
        && !desk.has(asker.assessor, asker.number, doc, asker.moment)
        && is_wanted(asker, doc)
}

/// Whether the labels and live leases on a document are fewer than the topic needs.
fn is_wanted(asker: &Asker, doc: DocId) -> bool
    ensures { let who = asker.now in let topic = who.topic.now.facts in
        result ≡ nat_lt (length (given_at topic.marked doc)
        + live_on who.desk.now.leases who.number doc who.moment) topic.need }
{
    let topic = asker.topic;
    let labels = u64::from(topic.marks().count(doc));
    let leases = u64::from(asker.desk.live_on(asker.number, doc, asker.moment));
    labels + leases < u64::from(topic.need())
}
