// A shelf that never fails.
ghost use Rattle.std.specs.Prelude.{◌≡◌, ◌≢◌, ◌<◌, ℕ, List, [], Some, None, length, is_some, false, IsTrue, IsOk, OnOk, OnErr};
ghost use Rattle.std.specs.Io.{ReadsAtMost};
ghost use Rattle.std.specs.Io.KnownBytes.{ReadConsumes};
ghost use Rattle.file_io.specs.Faults.{HasCause, ChangedOnlyIfFailed};
ghost use Rattle.file_io.specs.Taken.{Asks, HandsOut};
ghost use Rattle.file_io.specs.Shelf.{HasChoiceCause, ChangedOnlyIfNotFound};
ghost use Rattle.pq_io.specs.NamedFiles.{content_of};
ghost use Rattle.pq_io.specs.NeverShelf.{content_or_empty};

use crate::{ChooseError, Failed, MemShelf, NoMemory, Shelf};
use file_io::History;
use std::alloc::Global;
use std::marker::Model;

/// A shelf in memory whose choices and reads never fail. A name that was never added is an empty file.
///
/// Contracts see it as its files, the bytes left of the chosen one, and the names asked for with what reads handed out of
/// each.
#[derive(Drop)]
pub struct NeverShelf {
    shelf: MemShelf,
    history: History,
    // Whether the chosen file is one that was never added.
    is_missing: bool,
}

impl Model for NeverShelf {
    ghost use Rattle.pq_io.specs.NeverShelf.{Kept, kept, NeverFails};

    ghost Value = { Kept };

    ghost view = { kept };

    ghost invariant = { NeverFails };
}

impl NeverShelf {
    /// A shelf with no files, which has asked for none.
    pub fn new(alloc: Global) -> Self
        ensures { result ≡ record { files = []; left = None; taken = [] } }
    {
        NeverShelf {
            shelf: MemShelf::new(alloc),
            history: History::new(),
            is_missing: false,
        }
    }

    /// Adds a file, in place of an earlier one of this name. No file is chosen afterwards.
    ///
    /// # Errors
    ///
    /// `NoMemory`, and the shelf is as before.
    pub fn add(&mut self, name: &str, bytes: &[u8]) -> Result<(), NoMemory>
        ensures added { OnOk result (content_of self.new.files name.now ≡ Some bytes.now) }
        ensures others { OnOk result ((other : List ℕ) → other ≢ name.now → content_of self.new.files other ≡ content_of self.old.files other) }
        ensures kept { OnOk result (self.new ≡ record self.old { files = self.new.files; left = None }) }
        ensures err { OnErr result (self.new ≡ self.old) }
    {
        self.shelf.add(name, bytes)?;
        self.is_missing = false;
        Ok(())
    }
}

impl Shelf for NeverShelf {
    ghost content = { λ shelf name. Some (content_or_empty shelf.files name) };

    ghost left = { λ shelf. shelf.left };

    ghost faults = { λ _. 0 };

    ghost taken = { λ shelf. shelf.taken };

    ghost has_chosen = { λ shelf. is_some shelf.left };

    /// It never fails, also for a name that was never added.
    fn choose(&mut self, alloc: Global, name: &str) -> Result<(), ChooseError>
        ensures chosen { OnOk result (IsTrue (is_some self.new.left)) }
        ensures left { OnOk result (self.new.left ≡ Some (content_or_empty self.old.files name.now)) }
        ensures none_chosen { OnErr result (is_some self.new.left ≡ false) }
        ensures asked { Asks self.old.taken self.new.taken name.now result }
        ensures cause { HasChoiceCause 0 0 result }
        ensures told { ChangedOnlyIfNotFound 0 0 result }
        ensures content { (other : List ℕ) → Some (content_or_empty self.new.files other) ≡ Some (content_or_empty self.old.files other) }

        ensures succeeds { IsOk result }
    {
        let outcome = self.shelf.choose(alloc, name);
        self.is_missing = matches!(outcome, Err(ChooseError::Failed));
        match outcome {
            Ok(()) | Err(ChooseError::Failed) => {
                self.history.ask(name.as_bytes());
                Ok(())
            }
            Err(ChooseError::NoMemory) => Err(ChooseError::NoMemory),
        }
    }

    /// It never fails.
    fn read(&mut self, buf: &mut [u8]) -> Result<usize, Failed>
        requires room { 0 < length buf.old }
        requires chosen { IsTrue (is_some self.old.left) }
        ensures bound { ReadsAtMost result buf.new }
        ensures bytes { ReadConsumes self.old.left self.new.left result buf.new }
        ensures cause { HasCause 0 0 result }
        ensures told { ChangedOnlyIfFailed 0 0 result }
        ensures chosen { IsTrue (is_some self.new.left) }
        ensures taken { HandsOut self.old.taken self.new.taken result buf.new }
        ensures content { (other : List ℕ) → Some (content_or_empty self.new.files other) ≡ Some (content_or_empty self.old.files other) }

        ensures succeeds { IsOk result }
    {
        if self.is_missing {
            self.history.hand_out(&buf[..0]);
            return Ok(0);
        }
        match self.shelf.read(buf) {
            Ok(n) => {
                self.history.hand_out(&buf[..n]);
                Ok(n)
            }
            Err(Failed) => unreachable!(),
        }
    }
}
