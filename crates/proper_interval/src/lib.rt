//! Proper interval graphs (Roberts, 1969): closed rows, umbrella orders and models by intervals.
//!
//! A graph is a proper interval graph exactly where its vertices have an umbrella order, in which each vertex and its
//! neighbours are consecutive. Such an order is a valid order of the closed rows, and gives a proper model: an interval
//! of whole numbers for each vertex, of which two share a number exactly where there is an edge, and none contains
//! another unless they are equal.
//!
//! It is proved that
//! - [`closed_rows`] has the closed row of each vertex ([`closed_rows_law`]), and its valid orders are the umbrella
//!   orders ([`umbrella_law`]);
//! - [`intervals`] gives the intervals of its formula, and they are a proper model;
//! - [`fits`] is true exactly of a proper model;
//! - a graph has a proper model exactly where its closed rows have a valid order ([`model_law`]).
#![tactic(auto)]

mod formula;
mod laws;
mod model;
mod rows;

pub use formula::intervals;
pub use laws::{closed_rows_law, model_law, umbrella_law};
pub use model::fits;
pub use row_model::NoMemory;
pub use rows::closed_rows;
