// A stream of the system, and what was not flushed yet.
ghost use Rattle.std.specs.Prelude.{◌≡◌, [], ◌++◌, take, IfOk, OnOk, OnErr};
ghost use Rattle.std.specs.Io.{WritesAtMost};
ghost use Rattle.std.specs.Io.KnownBytes.{Keeps, WriteAppends};

use crate::history::Noted;
use crate::retried::{flush_retried, write_retried};
use std::io::{self, Write};

/// A stream, and the bytes that it took since it was last flushed.
#[derive(Drop)]
pub struct Flushed<W: Write> {
    stream: W,
    waiting: Noted,
}

impl<W: Write> Flushed<W> {
    /// A stream that took nothing yet.
    pub fn over(stream: W) -> Self
        ensures waiting { result.waiting.bytes ≡ [] }
        ensures contents { W.contents result.stream ≡ W.contents stream }
    {
        Flushed {
            stream,
            waiting: Noted::new(),
        }
    }

    /// One write. What it takes waits for a flush.
    pub fn write(&mut self, piece: &[u8]) -> io::Result<usize>
        ensures bound { WritesAtMost result piece.now }
        ensures bytes { WriteAppends (W.contents self.old.stream) (W.contents self.new.stream) result piece.now }
        ensures waiting { IfOk result (λ n. self.new.waiting.bytes ≡ self.old.waiting.bytes ++ take n piece.now) }
        ensures kept { OnErr result (self.new.waiting.bytes ≡ self.old.waiting.bytes) }
    {
        let n = write_retried(&mut self.stream, piece)?;
        self.waiting.add(&piece[..n]);
        Ok(n)
    }

    /// Has the stream pass on what waits. That its call does so no clause of it can say.
    pub fn flush(&mut self) -> io::Result<()>
        ensures bytes { Keeps (W.contents self.old.stream) (W.contents self.new.stream) }
        ensures flushed { OnOk result (self.new.waiting.bytes ≡ []) }
    {
        flush_retried(&mut self.stream)?;
        self.waiting = Noted::new();
        Ok(())
    }
}
