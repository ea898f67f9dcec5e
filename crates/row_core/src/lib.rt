//! The rows that are to blame: a core of a matrix, which is a set of rows that have no valid order together, while for
//! each row of the set the others have one.
//!
//! A core is found by a solver of the consecutive-ones problem that is seen as a [`Judge`] alone. The rows that an odd
//! cycle names have no valid order together by themselves (McConnell, 2004). So a set of such rows shrinks by leaving
//! out one of them: where the others still have no valid order, a new cycle names the rows that stay, and else no core
//! of the set can do without the row. Rows that are needed are judged first. So a solver that goes through the rows in
//! turn, and names no row past the first that it refuses, finds a further needed row each time that it is asked: a core
//! costs it two judgements for each of its rows, and one.
//!
//! What a core is, and its text, is told by `core_text`.
#![tactic(auto)]

mod blamed;
mod find;
mod narrow;
mod others;
mod part;

pub use core_text::{Core, CoreText, blame_law, one_core, parse_core, print_core};
pub use find::{Cored, find_core};
pub use row_judge::{Judge, Judged};
pub use row_model::NoMemory;
