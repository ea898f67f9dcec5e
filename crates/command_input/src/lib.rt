//! What the program `pq` is asked: the words of its command line as a [`Task`], and how the bytes of a file are read as
//! an instance or as a tree.
//!
//! Each kind has a form of files, and a reader of its own. [`instance_in`] reads each kind by its reader, and what is
//! read is within the limits of files ([`instance_law`]). An [`InstanceReader`] takes the bytes in pieces.
#![tactic(auto)]

mod instance;
mod instance_laws;
mod instance_reader;
mod tree_file;
mod tree_laws;
mod words;

pub use instance::instance_in;
pub use instance_laws::{graph_law, held_law, instance_law, long_law};
pub use instance_reader::InstanceReader;
pub use row_model::NoMemory;
pub use tree_file::tree_in;
pub use tree_laws::tree_file_law;
pub use words::{Task, task_of};
