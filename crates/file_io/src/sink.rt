// Where bytes are written to.
ghost use Rattle.std.specs.Prelude.{◌<◌, List, ℕ, Option, length, IfOk};
ghost use Rattle.std.specs.Io.KnownBytes.{WriteAppends};
ghost use Rattle.file_io.specs.Faults.{HasCause, ChangedOnlyIfFailed};
ghost use Rattle.file_io.specs.Sink.{TakesSome};

use crate::Failed;

/// A place to which bytes are written.
pub trait Sink {
    /// The bytes written, where the sink tells them.
    ghost written: { Self → Option (List ℕ) };

    /// How many calls have failed: a count that never falls, and that stands still at 2^64 - 1.
    ghost faults: { Self → ℕ };

    /// Writes some first bytes of a piece that isn't empty, and returns how many: at least one. It takes no memory.
    ///
    /// # Errors
    ///
    /// `Failed`, which counts a fault, also where no byte could be taken. Nothing was added then that the sink tells.
    fn write(&mut self, piece: &[u8]) -> Result<usize, Failed>
        requires { 0 < length piece.now }
        ensures bound { IfOk result (TakesSome piece.now) }
        ensures bytes { WriteAppends (written self.old) (written self.new) result piece.now }
        ensures cause { HasCause (faults self.old) (faults self.new) result }
        ensures told { ChangedOnlyIfFailed (faults self.old) (faults self.new) result };
}
