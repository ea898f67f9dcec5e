//! The full pass over one row of a matrix: it looks at the full nodes of a PQ-tree, those below which all leaves are in
//! the row, and at the P-nodes above them, and at no other node. It finds many of the rows that every frontier keeps
//! already, of those that are some children of one P-node, and of those that are a run of children of a Q-node and some
//! children of the P-node beside an end of it or beside each. Most rows of a long list are one of these.
//!
//! A pass labels full nodes from the leaves up. Each label joins a run of labelled children of a Q-node, or adds to the
//! number of labelled children of a P-node. What the labels form is counted in parts: where one part is left, it is the
//! row. The first pass only counts, and sees no full Q-node. Where it leaves the row open, and both end children of a
//! Q-node showed that node, a second pass lets the two ends of each run name each other, and sees where one is full.
//! After two rows on which it found nothing it is left out on some (`Pace`).
//! Where it leaves two or three parts, and no Q-node showed that, the leaves are gone over once more, for the P-nodes to
//! which all parts but one belong.
#![tactic(auto)]

mod added;
mod beside;
mod count;
mod entries;
mod joins;
mod pace;
mod settled;
mod tallies;
mod work;

pub use settled::{End, Settled, settle};
pub use work::FullWork;
