//! Unit interval graphs (Roberts, 1969): models of a graph by intervals of one length, in whole numbers.
//!
//! A graph is a proper interval graph exactly where it has a unit model: a length of at least 1 and a left end for
//! each vertex, whole numbers, such that the left ends of two distinct vertices differ by at most the length exactly
//! where the vertices are adjacent.
//!
//! It is proved that
//! - [`model`] gives the left ends of its rule, and they are a unit model whose length is the number of vertices;
//! - [`unit_fits`] is true exactly of a unit model;
//! - a graph that has a unit model has an umbrella order ([`unit_law`]);
//! - [`print_unit`] and [`parse_unit`] are the text of a unit model both ways.
#![tactic(auto)]

mod drawing;
mod fits;
mod laws;
mod read;
mod rule;
mod text;
mod write;

pub use fits::unit_fits;
pub use laws::{one_rule_law, unit_law, unit_text_laws};
pub use read::parse_unit;
pub use row_model::NoMemory;
pub use rule::model;
pub use text::UnitText;
pub use write::print_unit;
