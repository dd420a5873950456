//! The state of a campaign: the list of accepted entries, from which each request is answered.
//!
//! - `state`: what `prepare` and `commit` promise (`specs/State.antt`). `state::preparations`: the
//!   kept reply, or the entry that is prepared; `state::verdict`: what comes of it.
//! - `decisions`: what a command comes to, with its refusals, a file a command in `src/decisions`;
//!   what that has to be: `specs/Commands/Decisions.antt`. `selection`: the named document.
//! - `campaign`: what is kept, and how an entry joins it (`IsKnown` in
//!   `specs/CampaignStates.antt`). Which change carries an entry out:
//!   `specs/Commands/Changes.antt`; the steps of a commit: `specs/Commands/Costs.antt`.
//! - What the assessment has to do with the history: `IsAssessmentOf` in
//!   `specs/CampaignStates.antt`; of topics `specs/Assessments/Topics.antt`, of leases
//!   `specs/Assessments/DeskLeases.antt`, of labels `specs/Assessments/TopicLabelling.antt`, of the
//!   runs' lists `specs/Assessments/RunScores.antt`.
//! - `queries`: what is told to a question. Its pages: `pages` (topic by topic), `pages::pools`,
//!   `pages::score_pages`; `tallies`: how the judgements and the runs stand
//!   (`specs/Views/Tallies.antt`).
//! - By number: `campaign::topics`; `campaign::docnos`, the documents of a run;
//!   `campaign::submissions`, the runs by the places of their entries, and which were withdrawn
//!   (`specs/Numbering/Submissions.antt`); `state::request_numbers`
//!   (`specs/Numbering/NumberedRequests.antt`).
//! - `replays`: the entries of a journal, entered again (`specs/Commands/Replays.antt`).
//! - `systems`: the live runs as a release has them. `lendings`: what a state lends of its topics
//!   and runs (`specs/Views/Lendings.antt`), in the words of the rules by `laws`.
//! - Proofs by idea: `proofs/Rulings` (the tests of the rules), `proofs/Entries` (what one more
//!   entry makes of all this, `Commits.antt` first), `proofs/NamedDocuments`, `proofs/Numbers`,
//!   `proofs/PageTexts`, `proofs/Lists`.
//!
//! # The way of a command
//!
//!     decide    decisions.rt   an arm a command; reads only, but that Submit adds docnos
//!                 decisions/lease.rt, grade.rt, ..
//!                   Refused(refusal)          the first refusal that holds; nothing below is done
//!                   Accepted(reply, change)   the reply, and what the entry changes
//!     reserve   campaign.rt    room for the entry and its change; nothing that is known changes
//!     commit    campaign.rt    the entry joins, the change is made; no memory, no refusal
//!     cancel    state.rt       the change is dropped, its room given back
//!
//! Each command is decided once, in a file of its own: what is looked up for its refusals (the
//! topic's number, the lease, the document) is what its change is made of. The decision promises
//! that it is what the rules say, `command_outcome` in `rulebook/specs/Answers.antt`, and that the
//! change carries the entry out (`CarriesOut` in `campaign_core/specs/Commands/Changes.antt`).
//! `Campaign::reserve` makes room, and `Campaign::commit` adds the entry and has the assessment
//! make the change. Docnos and numbers that a refused or dropped request added are cut off before
//! the next request.
//!
//! A `Campaign` is the history, the phase, one `Assessment`, the places of the entries that submit
//! runs, the count of their lines, and the numbers of the live runs. One relation, `IsKnown` in
//! `campaign_core/specs/CampaignStates.antt`, says that all of it is what the history says; the
//! state (`state.rt`) keeps it, with the docnos by number and the numbers of requests.
//! `carried-out` in `campaign_core/proofs/Entries/Commits.antt` proves for each change that what
//! the assessment knows is again what the history says, whichever command brought it. A question is
//! answered from what is kept (`queries.rt`): a pool by `pools.rt`, a page topic by topic by
//! `pages.rt`, scores by `score_pages.rt`.
//!
//! # What a lease costs
//!
//! - `named` walks the runs of the topic's queue in their order, and of each its documents by rank,
//!   up to the first that is open. It begins at the run's front, behind the first documents that
//!   are done for this assessor: those that have a ruling, all their labels, or this assessor's.
//!   Before a lease is decided the fronts are led on, in the runs up to the first that holds
//!   another document (`assessment/src/fronts.rt`, `Campaign::lead_fronts`); so a front passes each
//!   document once, and stands at the first that isn't done: while somebody holds a long lease on
//!   that one, each lease looks again at those behind it. Where one label is enough the fronts are
//!   everybody's; where two are needed each assessor who asked has some of 8 to 16 bytes a run.
//!   What a lease still passes are documents under a live lease, and those behind them that are
//!   done, in the runs up to the one with the next document. For each it looks its labels up by
//!   document, and the live leases on it.
//! - `live_on`, `live_of` and `has` walk back over the leases on one document or of one assessor
//!   that haven't ended, from the newest, and stop where no earlier one can be live. Three lists of
//!   links in the desk, by document, by assessor and by topic, lead from each lease to one before
//!   it with the same key, with the latest moment of those up to it; where a lease ends, the link
//!   behind it leads past it (`lease_desk/src/series.rt`). So a walk passes the live leases, and
//!   those of the last term that ran out, however many there were.
//! - A label, a grade and a lease are one look-up each, by document or by number.
//! - A first grade moves the runs that hold the document in the queue, in one pass over at most 256
//!   runs, with one look-up by document. A label or a ruling that leaves a graded document
//!   relevant, or not relevant, leaves the queue alone. Where it changes that, the runs are sorted
//!   from the trail's end: one look-up for each document of the trail up to the one by which each
//!   run is told from all others, and for each a few passes over the runs.
//! - The topic and its title are found among at most 250 topics: they stand in the second entry,
//!   and the rules in the first.
//!
//! None of this goes through the history. So a lease at 4,000,000 entries costs no more than at
//! 4,000. What keeps it so is the desk: a new question about leases gets links of its own there.
//!
//! # What a page costs
//!
//! Qrels goes through the documents of each topic that have a grade. A state keeps for each topic
//! the order by docno in which the last page left them (`DocnoOrder` of `qrels_view`, 4 bytes a
//! document): the next page puts those that came since behind the others and sorts all, which takes
//! one comparison a document where none came, and little more where few did. The first page after a
//! journal was opened sorts all. An order is no part of what a state stands for: whatever it is,
//! the page is the rules'. Disagreements goes through the documents with a label of the topics that
//! need two, and sorts those whose labels differ. Progress takes a few look-ups for each topic: the
//! pool and the view keep their counts, and the desk walks the live leases on the topic. The ids of
//! at most 250 topics are sorted for each page. Scores and Table find the runs by the places of
//! their entries, at most 256, and never go through the history; what each cell costs `score_index`
//! says.
#![tactic(auto)]

mod campaign;
mod decisions;
mod laws;
mod lendings;
mod pages;
mod queries;
mod replays;
mod selection;
mod state;
mod systems;
mod tallies;

pub use laws::{
    boards_score_by_the_rules, cells_by_numbers, holders_by_numbers, queues_are_in_the_rules_order,
};
pub use replays::Replay;
pub use state::State;
pub use state::verdict::{Prepared, Verdict};
pub use tallies::Tally;
