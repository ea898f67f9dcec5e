//! The theory of PQ-trees (Booth and Lueker, 1976): what a tree that is tied to rows stands for (`tied_trees`), that a
//! canonical tree is told by its frontiers (`canonical_trees`), what each template makes of a node, what a row makes of
//! a tree, what follows for the valid orders of the rows (`laws`) and what it costs (`weight`), and that no other trees
//! are tied to rows than those with exactly their valid orders (`exact_trees`). What a reducer promises, however it
//! keeps its tree, is the trait `Reducer`. The crate has no running code.
#![tactic(auto)]

mod canonical_trees;
mod exact_trees;
mod laws;
mod reducer;
mod tied_trees;
mod weight;

pub use canonical_trees::{canonical_form_law, canonical_tree_law};
pub use exact_trees::exact_law;
pub use laws::{order_law, reduce_law, template_law, turned_law};
pub use reducer::{Reducer, Step};
pub use row_model::NoMemory;
pub use tied_trees::{equivalent_law, leaves_law, tied_law, universal_law};
pub use weight::{ticks_law, weight_law};
