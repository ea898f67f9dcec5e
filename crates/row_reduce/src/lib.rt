//! One row reduced in place (Booth and Lueker, 1976), and the reducer that keeps its tree in an arena.
//!
//! A row is taken at once where the full pass finds that the tree keeps it, or that it changes one P-node, or the two at
//! the ends of a run of children of a Q-node. Else the bubble pass finds the pertinent root and labels the nodes that
//! meet the row; for each of these a template is chosen, children first, while the arena still stands. Only where each of
//! them has one are they applied, in the same order. So a refused row changes nothing.
#![tactic(auto)]

mod apply;
mod choose;
mod decide;
mod reducer;
mod rows;
mod template;

pub use reducer::ArenaReducer;
