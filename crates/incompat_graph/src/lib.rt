//! All that is known here of the incompatibility graph of some rows (McConnell, 2004): its odd walks and odd cycles, the
//! classes of its pairs, and the short odd cycle after a refused row. The crates below have the code; the program uses
//! those that it needs.
#![tactic(auto)]

pub use odd_cycle::{Cycle, Marks, Walk, cycle_length_law, short_cycle_law};
pub use pair_classes::{Classes, even_classes};
pub use row_model::NoMemory;
pub use short_cycles::{odd_cycle_along, shorter_cycle};
pub use walk_search::{joined, odd_cycle_law, odd_walk, simple_cycle};
