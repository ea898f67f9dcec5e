//! The top call for other languages: the words, the files and the reply lie in memory, and are handed over as slices.
//!
//! C passes a slice as a pointer and a length. No pointer may be null, also with the length 0, and what is written
//! may not overlap with anything else that is passed. Nothing is kept between calls, so calls from several threads at
//! a time don't meet.
#![tactic(auto)]

mod call;

pub use call::pq_c_run;
pub use memory_run::{agreed_law, complete_law};
