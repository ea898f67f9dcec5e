// Standard output and standard error.
ghost use Rattle.std.specs.Prelude.{◌≡◌, ◌<◌, [], Some, length, take, IfOk, OnOk};
ghost use Rattle.std.specs.Io.{WritesAtMost};
ghost use Rattle.std.specs.Io.KnownBytes.{Appends, WriteAppends};
ghost use Rattle.file_io.specs.Faults.{HasCause, ChangedOnlyIfFailed, count_after};
ghost use Rattle.file_io.specs.Sink.{TakesSome, AppendsPrefix};

use crate::flushed::Flushed;
use crate::history::Noted;
use crate::{Failed, Sink};
use std::io::{self, Stderr, Stdout, Write};
use std::marker::Model;

/// Standard output or standard error, flushed behind each write. It tells the bytes of all writes that it answered as done.
///
/// Contracts see it as these bytes, those that were written since the last flush, the bytes that the stream itself tells,
/// and the count of its faults. The streams of the system tell none.
#[derive(Drop)]
pub struct RealSink<W: Write> {
    stream: Flushed<W>,
    sent: Noted,
    faults: u64,
}

impl<W: Write> Model for RealSink<W> {
    ghost use Rattle.file_io.specs.RealSink.{Stream};

    ghost Value = { Stream };

    ghost view = { λ sink. record { sent = sink.sent.bytes; unflushed = sink.stream.waiting.bytes; contents = W.contents sink.stream.stream; faults = sink.faults } };
}

impl<W: Write> RealSink<W> {
    /// A stream with no faults so far.
    pub fn over(stream: W) -> Self
        ensures sent { result.sent ≡ [] }
        ensures contents { result.contents ≡ W.contents stream }
        ensures faults { result.faults ≡ 0 }
    {
        RealSink {
            stream: Flushed::over(stream),
            sent: Noted::new(),
            faults: 0,
        }
    }

    // One write and the flush behind it.
    fn write_through(&mut self, piece: &[u8]) -> io::Result<usize>
        ensures bound { WritesAtMost result piece.now }
        ensures bytes { IfOk result (λ n. Appends self.old.contents self.new.contents (take n piece.now)) }
        ensures part { AppendsPrefix self.old.contents self.new.contents piece.now }
        ensures flushed { OnOk result (self.new.unflushed ≡ []) }
        ensures kept { self.new ≡ record self.old { unflushed = self.new.unflushed; contents = self.new.contents } }
    {
        let n = self.stream.write(piece)?;
        self.stream.flush()?;
        Ok(n)
    }
}

impl RealSink<Stdout> {
    /// Standard output, with no faults so far.
    pub fn output(stream: Stdout) -> Self
        ensures sent { result.sent ≡ [] }
        ensures faults { result.faults ≡ 0 }
    {
        RealSink::over(stream)
    }
}

impl RealSink<Stderr> {
    /// Standard error, with no faults so far.
    pub fn error(stream: Stderr) -> Self
        ensures sent { result.sent ≡ [] }
        ensures faults { result.faults ≡ 0 }
    {
        RealSink::over(stream)
    }
}

impl<W: Write> Sink for RealSink<W> {
    ghost written = { λ sink. Some sink.sent };

    ghost faults = { λ sink. sink.faults };

    /// The stream took the bytes that are told, where it tells its own. The count rises by one at each failure, and a
    /// write that a signal interrupted is made again. Where the flush fails the stream may have taken a first part of the
    /// piece, which the sink doesn't tell.
    fn write(&mut self, piece: &[u8]) -> Result<usize, Failed>
        requires { 0 < length piece.now }
        ensures bound { IfOk result (TakesSome piece.now) }
        ensures bytes { WriteAppends (Some self.old.sent) (Some self.new.sent) result piece.now }
        ensures cause { HasCause self.old.faults self.new.faults result }
        ensures told { ChangedOnlyIfFailed self.old.faults self.new.faults result }

        ensures sent { IfOk result (λ n. Appends self.old.contents self.new.contents (take n piece.now)) }
        ensures part { AppendsPrefix self.old.contents self.new.contents piece.now }
        ensures flushed { OnOk result (self.new.unflushed ≡ []) }
        ensures count { self.new.faults ≡ count_after self.old.faults result }
    {
        match self.write_through(piece) {
            Ok(n) if n > 0 => {
                self.sent.add(&piece[..n]);
                Ok(n)
            }
            _ => {
                self.faults = self.faults.saturating_add(1);
                Err(Failed)
            }
        }
    }
}
