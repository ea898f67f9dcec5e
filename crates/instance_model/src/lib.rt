//! Instances of the nine kinds: what an order has to meet in each, and the matrix whose valid orders are such orders.
//!
//! By kind, the textbook orders, and the rows that are derived:
//!
//! - matrix, rows, table, clones: the valid orders of the matrix; the matrix itself.
//! - circular: orders in which the columns of each row, or those outside it, stand together; each row with column 1 is
//!   replaced by its complement.
//! - convex: orders of the right side that keep the neighbours of each x together; row x has the neighbours of x.
//! - doubly: the same for the right side, and orders of the left side that keep the neighbours of each y together;
//!   side 1 as for convex, and on side 2 row y has the neighbours of y.
//! - proper: umbrella orders of the vertices; row v has v and its neighbours.
//! - robinson: orders in which, of three items, the outer two are at least as far apart as the middle one is from
//!   either; the balls round each item, in rising order of their radii.
#![tactic(auto)]

mod derived;
mod instance;
mod laws;

pub use derived::Derived;
pub use instance::Instance;
pub use laws::{derived_sizes_law, textbook_law};
pub use row_model::NoMemory;
