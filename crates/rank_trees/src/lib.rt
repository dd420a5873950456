//! Sums over places that are on or off: how many of them are on below a place, which place is the
//! (j + 1)th that is on, and what those above a place weigh. A place is a bit of a word, and a tree
//! has the sums of blocks of places. A call after `new` goes down or up one path of a tree and
//! looks at one word, a step for each.
//!
//! - `count_trees`, `weight_trees`: the two trees; what they count, select and weigh:
//!   `specs/PlacesOn.antt`.
//! - `sum_trees`: the tree under both (`specs/SumTrees.antt`), over `nodes`, which count a step a
//!   look; the blocks that its leaves sum: `specs/Blocks.antt`.
//! - `place_words`: the places as bits (`specs/Words.antt`).
#![tactic(auto)]

mod count_trees;
mod nodes;
mod place_words;
mod sum_trees;
mod weight_trees;

pub use count_trees::CountTree;
pub use place_words::PlaceWords;
pub use weight_trees::WeightTree;
