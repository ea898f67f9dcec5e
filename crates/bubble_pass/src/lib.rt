//! The bubble pass of Booth and Lueker (1976): from the leaves of a row up to the smallest node of a PQ-tree that holds
//! the row.
#![tactic(auto)]

mod chains;
mod climber;
mod labels;
mod laws;
mod pass;
mod tables;
mod work;

pub use labels::Label;
pub use laws::met_law;
pub use pass::bubble;
pub use tables::Found;
pub use work::{Counts, Work};
