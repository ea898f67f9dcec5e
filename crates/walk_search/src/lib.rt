//! The search for a closed walk of odd length in the incompatibility graph of a matrix, which leaves its columns no valid
//! order, and the odd cycle in it (McConnell, 2004).
//!
//! One search goes two ways: among all rows, or along an order that is valid for the rows before the last.
#![tactic(auto)]

mod closing;
mod cycle;
mod forest;
mod holders;
mod laws;
mod neighbours;
mod reason;
mod search;

pub use cycle::simple_cycle;
pub use laws::odd_cycle_law;
pub use reason::joined;
pub use row_model::NoMemory;
pub use search::{odd_walk, walk_across, walk_among};
