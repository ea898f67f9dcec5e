//! Where a short odd cycle may lie after a refused row: what is looked at before all pairs of columns are searched.
//!
//! An order is known that is valid for the rows before row k, and with it the gaps that these rows leave open
//! (`open_gaps`). Two places are worth a look:
//!
//! 1. **Near a border.** A border is a place of the order where row k has one of two neighbours and lacks the other
//!    (`sample`). The columns within four of some borders, with the rows that open gaps there (`borders`), are a part of
//!    the matrix that can be searched by itself. Many refusals show there, in few lines.
//! 2. **Along ways.** From a pair of a column of row k and one that it lacks a way goes on from the end of a row to the
//!    end of the next, by rows that have one column of the pair and lack the other (`ways`). Pairs whose ways end at one
//!    pair are linked. Where links and row k close an odd circle (`links`), the ways themselves are a closed walk of odd
//!    length (`around`).
//!
//! Of how these look only this is proved: the lists of columns, rows, ways and links that they choose are short, as
//! clauses named `few` say, and they take no more steps than their own share. Whether a walk along ways is a closed walk of
//! the matrix no clause says, so whoever takes it tests it line by line.
#![tactic(auto)]

mod around;
mod borders;
mod links;
mod met;
mod sample;
mod ways;

pub use around::walk_around;
pub use borders::met_at_borders;
pub use links::{Link, odd_links};
pub use met::Met;
pub use row_model::NoMemory;
pub use sample::{Sample, sample_of};
pub use ways::Front;
