//! The lines of a text, the words of a line and the numbers that they write, by which every text format is read.
//!
//! The code goes over the bytes line by line and word by word, and keeps no list of them.
#![tactic(auto)]

mod digit_ends;
mod digit_word;
mod four_digits;
mod laws;
mod lines;
mod pieces;
mod plain;
mod words;

pub use digit_ends::{DigitEnds, EndedRun, next_digits};
pub use laws::text_laws;
pub use lines::{FilledLine, LineSpan, line_from, next_filled_line, next_line, without_mark};
pub use pieces::{unmarked_part, whole_len};
pub use plain::{DigitRun, PlainPair, plain_pair};
pub use words::{
    NumberWord, Numeral, WordSpan, all_digits, count_blanks, next_number, next_word, number,
};
