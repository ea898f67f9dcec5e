//! A run over two files that lie in memory: the words, the files and the reply are slices.
//!
//! The caller lends the room for the reply, and for the line that tells what stood in its way. Nothing is kept between
//! calls, so calls from several threads at a time don't meet.
#![tactic(auto)]

mod call;
mod files;
mod handing;
mod kept;
mod laws;
mod over;
mod words;

pub use call::run_in_memory;
pub use laws::{agreed_law, complete_law};
