//! Where the clones stand in an order of the probes, and the contigs that they make up.
//!
//! A clone is a row of a matrix, the set of the probes that it holds; a probe is a column. In a valid order the probes
//! of each clone stand side by side.
#![tactic(auto)]

mod contigs;
mod laws;
mod placed;
mod places;

pub use laws::place_laws;
pub use placed::{Placed, place};
pub use row_model::NoMemory;
