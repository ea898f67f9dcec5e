//! Readers of matrices.
//!
//! A reader gives the value of a list of bytes or its first refusal, by one definition on the whole list. Where the
//! format has lines, the code goes over the bytes line by line and keeps no list of them.
#![tactic(auto)]

mod bit_places;
mod cells;
mod clone_names;
mod clones;
mod dense;
mod dense_reader;
mod digit_blocks;
mod digit_lines;
mod digit_rows;
mod laws;
mod named_rows;
mod passing;
mod plain;
mod records;
mod rows;
mod rows_reader;
mod sparse;
mod table;

pub use clones::{clone_law, read_clones};
pub use dense::{dense_law, read_dense};
pub use dense_reader::DenseReader;
pub use laws::{limits_law, refusal_laws};
pub use row_model::NoMemory;
pub use rows_reader::RowsReader;
pub use sparse::{named_laws, read_more, read_rows};
pub use table::{read_table, table_laws};
pub use text_lines::{
    FilledLine, LineSpan, NumberWord, Numeral, PlainPair, WordSpan, next_filled_line, next_line,
    next_number, next_word, number, plain_pair, text_laws, without_mark,
};
