//! The judging order of one topic's runs. The documents stand on a trail by their first grades. Of
//! two runs the newest document of the trail that has a grade and that one of them alone holds
//! decides: its holder is first where it is relevant, and second where it is not. Where there is
//! none, the earlier submitted run is first.
//!
//! - `queues`: the runs of a topic in judging order (what contracts see: `specs/QueueView.antt`).
//! - `rule`: which of two runs is first (`specs/Rule.antt`).
//! - `moves`: a group of runs goes first or last, a run is put in or taken out, a grade changes.
//! - `groups`: the runs sorted by the rule, from the trail's end (what a group is:
//!   `specs/Groups.antt`).
//! - `laws`: the rule is a total order, and changes of other runs leave it.
//!
//! # A trail and the order that it gives
//!
//! X holds a, b and e on a topic, and Y, submitted after it, holds c, b and f. Three documents were
//! graded, a first: a not relevant, c relevant, b relevant.
//!
//!     trail, the first grade first        a -      c +      b +
//!     held by                             X        Y        X and Y
//!                                                  |        |
//!                                                  |        both: doesn't decide
//!                                                  Y alone, relevant: its holder is first
//!     order                               Y, X
//!
//! The order is looked up from the trail's end: the first document that exactly one of two runs
//! holds decides. If c's grade becomes 0, c still decides, and its holder is second: X, Y. If c
//! loses its grade, a decides: its holder X is second, so Y, X. A regraded document keeps its place
//! on the trail.
//!
//! `Queue::judge` looks the holders of a newly graded document up once and moves them in one pass
//! (`moves`). `regrade` does nothing where the document stays relevant, or stays not relevant. Else
//! it sorts the runs from the trail's end (`groups`): at first all are one group, and each
//! document, the newest first, cuts groups in two, its first side and the others, until each run is
//! a group of its own or the trail ends; in a group the runs stand by number. The runs are kept by
//! number meanwhile, as the holders of a document are, so that a cut is one walk along both and a
//! count of the groups, and they are sorted once, at the end. Where a third run Z holds b alone and
//! c becomes 0:
//!
//!     looked at       groups, the first in order first
//!                     X Y Z
//!     b +             X Y Z           all hold it: nothing is cut
//!     c -             X Z | Y         Y alone holds it
//!     a -             Z | X | Y       X holds it, and Z doesn't
//!
//! `enter` puts a run in by binary search, with one comparison along the trail for each step of it
//! (`rule`). All come to the order of `specs/Rule.antt`.
#![tactic(auto)]

mod groups;
mod laws;
mod moves;
mod queues;
mod rule;

pub use laws::{first_that_passes, order_outlasts_other_runs, rule_is_total_order};
pub use queues::Queue;
pub use rule::Judged;
