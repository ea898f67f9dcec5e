//! Where bytes come from, and where they go to.
//!
//! A [`Shelf`] holds files by name: one is chosen, and then it is read. A [`Sink`] takes bytes. Each counts its
//! own failures, and may tell the bytes that it holds. [`read_all`] reads a file whole up to a limit, [`read_through`]
//! hands it to a [`Taker`] in pieces, and [`write_all`] writes a text whole.
//!
//! [`RealShelf`] and [`RealSink`] are the files and the streams of the system; they tell what their reads handed out and
//! what they answered as written, in a history that proofs alone see. Shelves and sinks in memory are in `pq_io`.
#![tactic(auto)]

mod begun;
mod chosen;
mod error;
mod flushed;
mod history;
mod reading;
mod real_shelf;
mod real_sink;
mod retried;
mod shelf;
mod sink;
mod taker;
mod writing;

pub use error::{ChooseError, Failed, ReadFail, WriteFault};
pub use history::History;
pub use reading::{Whole, read_all, read_through};
pub use real_shelf::RealShelf;
pub use real_sink::RealSink;
pub use shelf::Shelf;
pub use sink::Sink;
pub use std::alloc::AllocError as NoMemory;
pub use taker::Taker;
pub use writing::write_all;
