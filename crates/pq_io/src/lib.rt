//! Where bytes come from, and where they go to: all of `file_io`, and shelves and sinks in memory.
//!
//! [`MemShelf`] and [`MemSink`] lie in memory and tell their bytes; their calls fail, and move few bytes at a time,
//! where that is asked for. [`NeverShelf`] and [`NeverSink`] never fail. The program needs none of them.
#![tactic(auto)]

mod mem_shelf;
mod mem_sink;
mod never_shelf;
mod never_sink;

pub use file_io::{
    ChooseError, Failed, NoMemory, ReadFail, RealShelf, RealSink, Shelf, Sink, Taker, Whole,
    WriteFault, read_all, read_through, write_all,
};
pub use mem_shelf::MemShelf;
pub use mem_sink::MemSink;
pub use never_shelf::NeverShelf;
pub use never_sink::NeverSink;
