//! Matrices of zeros and ones as lists of rows, the incompatibility graph of their columns, and what a reader of files
//! answers.
//!
//! A matrix has columns 1 to c and rows from 1 on. Each row is the set of the columns at which it has a one (Booth and
//! Lueker, 1976).
#![tactic(auto)]

/// The codes of refusals.
pub mod code;
mod counted;
mod graph;
mod kind;
mod laws;
mod lists;
mod matrix;
mod order;
mod pieces;
mod refusal;
mod rows;

pub use column_order::COLUMN_BOUND;
pub use counted::{CountedMatrix, CountedRows};
pub use graph::{Line, Pair, Why, is_pair, joined_by};
pub use kind::Kind;
pub use laws::{values_law, walk_laws};
pub use lists::{Interval, Intervals, Lines, ListOf, Place, Places, Span, Spans};
pub use matrix::Matrix;
pub use order::{is_kept, is_order, positions, span_of};
pub use refusal::{Read, Refusal};
pub use rows::row_has;
pub use std::alloc::AllocError as NoMemory;

/// The greatest number of rows that a [`Matrix`](Matrix) allows.
pub const ROW_BOUND: u32 = 16_777_216;

/// The greatest number of columns of an instance.
pub const MAX_COLUMNS: u32 = 2_048;

/// The greatest number of rows of an instance.
pub const MAX_ROWS: u32 = 131_072;

/// The greatest number of bytes of an instance's file.
pub const MAX_FILE_BYTES: u64 = 16_777_216;

/// The greatest number of items of a table of distances.
pub const MAX_ITEMS: u32 = 256;
