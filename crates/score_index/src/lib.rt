//! The scores of the runs of a campaign while it goes on: the cell of each run on each topic, and
//! its summary over the topics, after each change of a grade.
//!
//! - `board`: all scores (what contracts see: `specs/Scores.antt`); which grades a board stands
//!   for, and its cells: `specs/BoardGrades.antt`. `laws`: what follows for each topic.
//! - `topics`, `lists`: what a changed grade does to a topic, and to one list. `relevance`:
//!   relevant, judged lower or unjudged.
//! - `sums`: what one place, or one more of the cap, adds to a sum; the cell by places: `places`,
//!   `specs/Places.antt`. `trees`: the places of a list.
//! - `filters`: which documents a list may have (`specs/Filters.antt`). `rooms`: room for lists.
//!
//! # What a score costs
//!
//! The board keeps of each list three trees over its places, its sums, its cell and a filter of its
//! documents. Of the trees one counts the relevant places, one counts the places judged lower, and
//! one has the weights of the relevant places. A tree has a bit for each place, 64 in a word, and
//! over blocks of places a binary tree of sums: how many are on in each block of 64, or what those
//! weigh that are on in each block of 16. A tree that counts 200 places, of which 1, 3, 70 and 130
//! are on:
//!
//!     node            1:4                     the root: how many are on
//!                 2:3         3:1
//!     leaf      4:2   5:1   6:1   7:0         leaf 4 + b: how many of 64b + 1 to 64b + 64 are on
//!     word       0     1     2     3          the places as bits, the first the lowest
//!
//! Under node k stand 2k and 2k + 1, and it has their sum. `below` goes up from the leaf of a
//! block, adds what stands to its left, and counts the bits before the place in its word; `select`
//! goes down to the block in which the place is, and looks for it in its word; `set` puts a bit on
//! or off and changes the leaf and each node above it. Each visits one node of a level at most, and
//! one word: of 1,000 places 6 at most where they are counted and 8 where they are weighed, within
//! the bound of one for each binary digit of the number of places and one more. Nodes and words are
//! read in one function each (`read` in `rank_trees/src/nodes.rt`, `word_of` in `place_words.rt`),
//! which counts a step.
//!
//! What one grade changes in a list whose document stands at place k; the cap is the lesser of R
//! and N:
//!
//! - Average precision's sum: a relevant place adds (on above k, and 1) times the weight of k, and
//!   the weights on below k. Nothing else changes it.
//! - bpref's sum: a relevant place adds what the places judged lower above k leave of the cap. A
//!   place judged lower takes one for each relevant place behind k that the cap reaches. Where the
//!   cap grows by one, it adds one for each relevant place that the cap reaches.
//! - The counts: a relevant place adds one, also within each cutoff from k on. Nothing else changes
//!   them.
//!
//! A place that goes is the same backwards. So `Board::regrade` looks the document up in each list
//! of its topic, by binary search where the list's filter admits it. A filter has 32 bits for each
//! document of its list; a document has the bit at the remainder of its number by how many there
//! are, and those of the list are on. So of the lists that don't have the document one look passes
//! about 97 in 100, and no list that has it. In a list that has it (`RunList::remark`) it takes at
//! most one mark away and puts one, moves the cap, and makes the cell of the sums: 15 walks through
//! a tree at most. A list that doesn't have it follows the counts of the topic alone
//! (`RunList::follow`): one walk where the cap moves, a second one where the cap is reached within
//! the list, and where R moves one place is looked at, since of the first R places one comes or
//! goes. Each topic also keeps the cell of the empty list, made anew in `regrade`.
//!
//! `Board::cell` lends the kept cell, and `Board::summary` adds the cells of the topics with a
//! grade up in `measures::Totals`. `Board::reserve` makes the trees and the filter of one list and
//! a place for one on every topic; after that nothing takes memory, and `Board::drop_room` gives
//! back what isn't used. The trees of a list take 8 bytes a word and a node, and there are two
//! nodes a leaf: 1.9 KB for 1,000 places, 384 bytes for each of the two that count and 1,152 for
//! the one that weighs. Its filter takes four bytes for each document.
#![tactic(auto)]

mod board;
mod filters;
mod laws;
mod lists;
mod places;
mod relevance;
mod rooms;
mod sums;
mod topics;
mod trees;

pub use board::Board;
pub use laws::each_topic_stands;
