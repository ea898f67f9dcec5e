//! The odd cycle after a refused row, the certificate that no order of the columns keeps every row.
//!
//! Where the rows before row k have a valid order and the rows 1 to k have none, a short odd cycle is looked for in
//! two ways before all pairs are searched (`walk_search`): among the columns near the borders of row k in that order, a
//! part of the matrix that is searched by itself (`part`), and along ways from pairs of a column of row k and one that it
//! lacks. Where to look `border_ways` knows. Two columns that come again on a walk along ways, in either order, cut it
//! shorter (`repeats`). What a short cycle meets is searched once more as a part of its own, for a still shorter one
//! (`shorter`).
//!
//! What these attempts find is tested line by line before it is taken (`checked`); where they find nothing, the search
//! finds a cycle.
#![tactic(auto)]

mod checked;
mod part;
mod quick;
mod repeats;
mod shorter;

pub use quick::odd_cycle_along;
pub use row_model::NoMemory;
pub use shorter::shorter_cycle;

#[cfg(test)]
mod tests;
