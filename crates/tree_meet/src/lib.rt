//! The orders that two PQ-trees share.
//!
//! The nodes of a tree ask that certain columns stand together: the leaves of each node, and those of each two
//! neighbouring children of a Q-node (Booth and Lueker, 1976). The orders that keep these rows are exactly the
//! frontiers of the tree ([`tree_rows_law`]), so the rows of two trees have exactly their common frontiers as valid
//! orders, and a solver of the consecutive-ones problem finds them all, or an odd cycle of the rows that shows that
//! there is none ([`meet`]).
#![tactic(auto)]

mod common;
mod count;
mod laws;
mod mark;
mod part;
mod rows;

pub use common::{Met, meet};
pub use count::row_count;
pub use laws::{common_law, tree_rows_law};
pub use row_model::NoMemory;
pub use rows::tree_rows;
