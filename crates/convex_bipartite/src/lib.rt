//! The neighbourhoods of a bipartite graph as the rows of a matrix.
//!
//! A bipartite graph is convex on one side where that side has an order in which the neighbours of each vertex of the
//! other side are consecutive (Glover, 1967). Such an order is a valid order of the matrix of these neighbourhoods.
#![tactic(auto)]

mod laws;
mod left;
mod right;

pub use laws::convex_law;
pub use left::rows_of;
pub use right::columns_of;
pub use row_model::NoMemory;
