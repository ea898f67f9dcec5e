//! Cores of a matrix and their texts. A core is a set of rows that have no valid order together, while for each row of
//! the set the others have one. An odd cycle names rows that have no valid order together by themselves
//! (McConnell, 2004); an order for each row shows that the others have one.
//!
//! The text of a core has these lines, each with a line feed at its end and one space between entries, and nothing
//! after the last of them. Capital letters stand for plain numbers, which have no leading zeros; K is the word of a
//! kind. C is from 1 to 2,048, and every other number is at most 2^32 - 1.
//!
//! ```text
//! pq-core 1
//! kind K
//! columns C
//! core N
//! row R                     N times these two lines
//! without N1 N2 ..
//! cycle L
//! A B flip, or: A B row N   L lines
//! end
//! ```
#![tactic(auto)]

mod core_parts;
mod laws;
mod orders;
mod read;
mod text;
mod write;

pub use core_parts::Core;
pub use laws::{blame_law, one_core};
pub use orders::Orders;
pub use read::parse_core;
pub use row_model::NoMemory;
pub use text::CoreText;
pub use write::print_core;
