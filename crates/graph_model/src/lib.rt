//! Graphs, bipartite graphs and distances.
//!
//! Vertices, the xs and ys of the two sides, and items count from 1.
#![tactic(auto)]

ghost use Rattle.std.specs.Prelude.{◌≡◌};

mod bigraph;
mod distances;
mod graph;
mod lists;

pub use bigraph::Bigraph;
pub use distances::Distances;
pub use graph::Graph;
pub use lists::count_below;
pub use row_model::NoMemory;

/// The greatest number of xs that a [`Bigraph`] allows.
pub const LEFT_BOUND: u32 = 131_072;

/// The greatest number of items that [`Distances`] allow.
pub const ITEM_BOUND: u32 = 4_096;

/// The values of the constants of this crate, by their numerals.
pub fn values_law()
    ensures left { LEFT_BOUND ≡ 131072 }
    ensures items { ITEM_BOUND ≡ 4096 }
{}
