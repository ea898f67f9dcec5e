//! The classes of pairs that walks of even length join in the incompatibility graph of some rows (McConnell, 2004).
//! Nothing is searched for here: the rows are read for the columns that they lack.
#![tactic(auto)]

mod classes;
mod unions;

pub use classes::{Classes, even_classes};
pub use row_model::NoMemory;
