//! The arena of a PQ-tree (Booth and Lueker, 1976): all nodes in one vector, named by their numbers, so that a change
//! of the tree costs only what it touches.
//!
//! The children of a P-node form a ring, those of a Q-node a run in no stated direction. A child of a P-node and an end
//! child of a Q-node hold the node above them; a child within a run holds its two neighbours alone. Contracts see an
//! arena as a [layout](arena_model): for each node its shape and its children from left to right, read from `ends[0]`.
//! Each call is one change of the layout. Between two calls the arena may be a forest: nodes that are taken or cut off
//! stand alone, which is to be in use with no node above and not to be the root.
//!
//! A call that takes a counter of steps ticks once.
#![tactic(auto)]

mod arena;
mod child_lists;
mod node;
mod ring;
mod run;
mod start;
mod swap;

pub use arena::Arena;
pub use arena_model::Shape;
pub use node::{NodeId, NodeView};
pub use pq_tree::NoMemory;
