//! What the texts of verdicts and of cores share, both ways: the words of the kinds, numbers, and the lines of a cycle.
//!
//! A text is printed at the end of bytes, and read from their front. Each reader gives what it read and the bytes after
//! it, and says that they are outside the grammar ([`Stop::Outside`]) exactly where nothing of its kind stands there.
#![tactic(auto)]

mod cycle;
mod kinds;
mod lines;
mod numbers;
mod stop;

pub use cycle::{print_cycle, read_cycle};
pub use kinds::{read_kind, word_of};
pub use lines::{LineForm, print_counted, print_lines, read_counted, read_lines};
pub use numbers::{
    after, push, push_word, push_words, read_column_count, read_number, read_numbers, room,
};
pub use stop::Stop;
