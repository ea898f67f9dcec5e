// A sink that never fails.
ghost use Rattle.std.specs.Prelude.{◌≡◌, ◌<◌, ◌+◌, ◌-◌, ◌^◌, None, length, min, IsOk, IfOk};
ghost use Rattle.std.specs.Io.KnownBytes.{WriteAppends};
ghost use Rattle.file_io.specs.Faults.{HasCause, ChangedOnlyIfFailed};
ghost use Rattle.file_io.specs.Sink.{TakesSome};

use crate::{Failed, Sink};
use std::marker::Model;

/// A sink that takes each piece whole and keeps none of it. It tells no bytes.
///
/// Contracts see it as the number of bytes that it took, which stands still at 2^64 - 1.
#[derive(Drop)]
pub struct NeverSink {
    taken: u64,
}

impl Model for NeverSink {
    ghost use Rattle.std.specs.Prelude.{ℕ};

    ghost Value = { ℕ };

    ghost view = { λ sink. sink.taken };
}

impl NeverSink {
    /// A sink that took nothing yet.
    pub fn new() -> Self
        ensures { result ≡ 0 }
    {
        NeverSink { taken: 0 }
    }

    /// The number of bytes that it took.
    pub fn taken(&self) -> u64
        ensures { result ≡ self.now }
    {
        self.taken
    }
}

impl Sink for NeverSink {
    ghost written = { λ _. None };

    ghost faults = { λ _. 0 };

    /// Takes the whole piece. It never fails.
    fn write(&mut self, piece: &[u8]) -> Result<usize, Failed>
        requires { 0 < length piece.now }
        ensures bound { IfOk result (TakesSome piece.now) }
        ensures bytes { WriteAppends None None result piece.now }
        ensures cause { HasCause 0 0 result }
        ensures told { ChangedOnlyIfFailed 0 0 result }

        ensures succeeds { IsOk result }
        ensures whole { IfOk result (λ n. n ≡ length piece.now) }
        ensures taken { self.new ≡ min (self.old + length piece.now) (2 ^ 64 - 1) }
    {
        self.taken = self.taken.saturating_add(piece.len() as u64);
        Ok(piece.len())
    }
}
