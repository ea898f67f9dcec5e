// Files by name, of which one is chosen and read.
ghost use Rattle.std.specs.Prelude.{◌≡◌, ◌<◌, List, ℕ, Bool, false, Option, length, OnOk, OnErr, IsTrue};
ghost use Rattle.std.specs.Io.{ReadsAtMost};
ghost use Rattle.std.specs.Io.KnownBytes.{ReadConsumes};
ghost use Rattle.file_io.specs.Faults.{HasCause, ChangedOnlyIfFailed};
ghost use Rattle.file_io.specs.Shelf.{HasChoiceCause, ChangedOnlyIfNotFound};
ghost use Rattle.file_io.specs.Taken.{Taken, Asks, HandsOut};

use crate::{ChooseError, Failed};
use std::alloc::Global;

/// A place from which files are read, one at a time.
///
/// A new shelf has asked for no file, and no file is chosen.
pub trait Shelf {
    /// The bytes of the file of a name, where the shelf tells them. No call of this trait changes them.
    ghost content: { Self → List ℕ → Option (List ℕ) };

    /// The bytes left of the chosen file, where the shelf tells them.
    ghost left: { Self → Option (List ℕ) };

    /// How many calls have failed: a count that never falls, and that stands still at 2^64 - 1.
    ghost faults: { Self → ℕ };

    /// The names that were asked for, in their order, each with the bytes that reads handed out of its file. A call of
    /// `choose` that answers `NoMemory` asks for none.
    ghost taken: { Self → List Taken };

    /// Whether a file is chosen.
    ghost has_chosen: { Self → Bool };

    /// Chooses the file of this name, to be read from its first byte. `alloc` serves the opening alone.
    ///
    /// # Errors
    ///
    /// `Failed` where the file is missing or can't be opened, which counts a fault, and
    /// `NoMemory`, where the name doesn't join those asked for. No file is chosen then.
    fn choose(&mut self, alloc: Global, name: &str) -> Result<(), ChooseError>
        ensures chosen { OnOk result (IsTrue (has_chosen self.new)) }
        ensures left { OnOk result (left self.new ≡ content self.old name.now) }
        ensures none_chosen { OnErr result (has_chosen self.new ≡ false) }
        ensures asked { Asks (taken self.old) (taken self.new) name.now result }
        ensures cause { HasChoiceCause (faults self.old) (faults self.new) result }
        ensures told { ChangedOnlyIfNotFound (faults self.old) (faults self.new) result }
        ensures content { (other : List ℕ) → content self.new other ≡ content self.old other };

    /// Reads the next bytes of the chosen file into the start of `buf`, and returns how many: 0 only at the end. The
    /// file stays chosen. It takes no memory.
    ///
    /// # Errors
    ///
    /// `Failed`, which counts a fault. What is left is then as before.
    fn read(&mut self, buf: &mut [u8]) -> Result<usize, Failed>
        requires room { 0 < length buf.old }
        requires chosen { IsTrue (has_chosen self.old) }
        ensures bound { ReadsAtMost result buf.new }
        ensures bytes { ReadConsumes (left self.old) (left self.new) result buf.new }
        ensures cause { HasCause (faults self.old) (faults self.new) result }
        ensures told { ChangedOnlyIfFailed (faults self.old) (faults self.new) result }
        ensures chosen { IsTrue (has_chosen self.new) }
        ensures taken { HandsOut (taken self.old) (taken self.new) result buf.new }
        ensures content { (other : List ℕ) → content self.new other ≡ content self.old other };
}
