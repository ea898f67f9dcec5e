//! Whether an order of the columns is valid for several rows but one, for each of the rows in turn.
//!
//! An order has at most one pair of neighbours fewer within a row than the row has columns, and exactly so many where
//! it keeps the row. So where the rows in which two columns lie together are counted once, one order is judged for all
//! rows but one in a look at each of its pairs of neighbours.
#![tactic(auto)]

mod each;
mod joins;
mod others;
mod spans;
mod square;
mod table;

pub use others::Others;
