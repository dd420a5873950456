//! What a campaign knows by numbers while it is judged: its topics with their pools, labels, grades
//! and judging orders, the board of the runs' lists, and the leases. A change is given room first
//! and made then, without memory.
//!
//! - `assessment`: the calls. What a change makes of what is known, when it may be made, and what
//!   it needs room for: `specs/Changes.antt`; how many steps it may take: `specs/Costs.antt`.
//! - `topics`: all topics (`specs/TopicsFacts.antt`). `topic`: one topic (`specs/TopicFacts.antt`).
//!   `fronts`: which of its documents are done for an assessor (`specs/Fronts.antt`).
//! - `runs`: a run's lists (`specs/RunLists.antt`). `waiting`: those that wait in a replay
//!   (`specs/WaitingRuns.antt`).
//! - A new kind of change: a variant in `change`, its cases in `specs/Changes.antt` and in
//!   `effects`, and a method of `Topics`.
//!
//! # The way of a change
//!
//! `Assessment::reserve` takes one `Change`, makes room for it (`effects::make_room`) and keeps it.
//! A run needs room in the pool and the queue of each topic, and on the board for each of its
//! lists; a label or a ruling needs it in the topic's labels, grades and queue, a lease on the
//! desk; the other changes need none. `commit` makes the change that is kept (`effects::make`)
//! without memory, and `cancel` gives its room on the board back (`effects::give_back`). While
//! nothing is kept the board has no room for a list. Room in a vector or a map, and the one list
//! for which a pool has room, stay for the next change.
//!
//! In a replay (`Assessment::replayed`) a run enters the pools and the queues, and its lists wait
//! (`waiting.rt`); `with_lists` puts those of the runs that are left on the board, each scored
//! once, by the grades at the end. What is known counts both (`with_waiting_lists` in
//! `specs/Changes.antt`), so a change means the same in a replay.
//!
//! # A label, a ruling and what follows
//!
//! `assessment::Topics::mark` gives a document a label or a ruling: the topic sets it
//! (`TopicLabels::set`, `TopicLabels::rule`), asks for the effective grade that the document has
//! then, and brings it to the grades (`View::apply`) and to the queue: a first grade is judged
//! (`Queue::judge`), and one that was there before is regraded at its place on the trail
//! (`Queue::regrade`). Then the grade is brought to the board (`Board::regrade`). Amend is a label
//! without a lease (`Change::Amend`), Rule is a ruling (`Change::Rule`), and Release is
//! `Change::Release` and `Desk::end`; each is decided in its file of `campaign_core/src/decisions`.
#![tactic(auto)]

mod assessment;
mod change;
mod effects;
mod fronts;
mod runs;
mod topic;
mod topics;
mod waiting;

pub use assessment::Assessment;
pub use change::{Change, Grant, Label, Ruling};
pub use fronts::front_of;
pub use topic::{AssessedTopic, TopicRules};
pub use topics::Topics;
