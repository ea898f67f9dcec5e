//! The balls of a table of distances: a Robinson order of the items is a valid order of the balls.
//!
//! In a Robinson order the distance grows, or stays, away from each item in both directions, so the items within any
//! distance of an item are consecutive (Mirkin and Rodin, 1984).
#![tactic(auto)]

mod laws;
mod neighbours;
mod rows;

pub use laws::{balls_law, robinson_law};
pub use row_model::NoMemory;
pub use rows::{balls, balls_round};
