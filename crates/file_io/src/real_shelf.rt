// The files of the system.
ghost use Rattle.std.specs.Prelude.{◌≡◌, [], ◌++◌, None, Some, false, length, take, IsTrue, IfOk, OnOk, OnErr, ◌<◌};
ghost use Rattle.std.specs.Io.{ReadsAtMost};
ghost use Rattle.file_io.specs.Faults.{HasCause, ChangedOnlyIfFailed, count_after};
ghost use Rattle.std.specs.Io.KnownBytes.{ReadConsumes};
ghost use Rattle.file_io.specs.Shelf.{HasChoiceCause, ChangedOnlyIfNotFound, count_after_choice};
ghost use Rattle.file_io.specs.Source.{source_of};
ghost use Rattle.file_io.specs.Taken.{Asks, HandsOut};

use crate::chosen::{Chosen, choose_by};
use crate::history::History;
use crate::{ChooseError, Failed, Shelf};
use std::alloc::Global;
use std::io::Read;
use std::marker::Model;
use std::rt::Files;

/// The files of the system, of which `-` is standard input. What they hold nobody can tell beforehand.
///
/// Contracts see it as what its reads handed out for each name asked for, whether a file is chosen, where its bytes come
/// from, what it gave since it was chosen, what it has left where its own type tells it, and the count of faults.
#[derive(Drop)]
pub struct RealShelf<R: Files + Input> {
    runtime: R,
    chosen: Chosen<R::File, R::Reader>,
    history: History,
    faults: u64,
}

impl<R: Files + Input> Model for RealShelf<R> {
    ghost use Rattle.file_io.specs.RealShelf.{Asked};

    ghost Value = { Asked };

    ghost use Rattle.file_io.specs.Chosen.{is_chosen, source_chosen, given_of, left_of};

    ghost view = { λ shelf. record { taken = shelf.history.files; has_chosen = is_chosen shelf.chosen; source = source_chosen shelf.chosen; given = given_of shelf.chosen; left = left_of R.File.remaining R.Reader.remaining shelf.chosen; faults = shelf.faults } };
}

impl<R: Files + Input> RealShelf<R> {
    /// A shelf that has asked for no file, with no faults so far.
    pub fn new(runtime: R) -> Self
        ensures { result ≡ record { taken = []; has_chosen = false; source = None; given = []; left = None; faults = 0 } }
    {
        RealShelf {
            runtime,
            chosen: Chosen::Nothing,
            history: History::new(),
            faults: 0,
        }
    }
}

impl<R: Files + Input + Drop> Shelf for RealShelf<R> {
    ghost content = { λ _ _. None };

    ghost left = { λ _. None };

    ghost faults = { λ shelf. shelf.faults };

    ghost taken = { λ shelf. shelf.taken };

    ghost has_chosen = { λ shelf. shelf.has_chosen };

    /// `-` chooses standard input, any other name the file of that name, in place of what was chosen before. The count
    /// rises by one at each failure.
    fn choose(&mut self, _alloc: Global, name: &str) -> Result<(), ChooseError>
        ensures chosen { OnOk result (IsTrue self.new.has_chosen) }
        ensures none_chosen { OnErr result (self.new.has_chosen ≡ false) }
        ensures asked { Asks self.old.taken self.new.taken name.now result }
        ensures cause { HasChoiceCause self.old.faults self.new.faults result }
        ensures told { ChangedOnlyIfNotFound self.old.faults self.new.faults result }

        ensures source { OnOk result (self.new.source ≡ Some (source_of name.now)) }
        ensures unread { OnOk result (self.new.given ≡ []) }
        ensures count { self.new.faults ≡ count_after_choice self.old.faults result }
    {
        self.chosen = Chosen::Nothing;
        match choose_by(&self.runtime, name) {
            Ok(chosen) => {
                self.history.ask(name.as_bytes());
                self.chosen = chosen;
                Ok(())
            }
            Err(ChooseError::Failed) => {
                self.history.ask(name.as_bytes());
                self.faults = self.faults.saturating_add(1);
                Err(ChooseError::Failed)
            }
            Err(ChooseError::NoMemory) => Err(ChooseError::NoMemory),
        }
    }

    /// The count rises by one at each failure. A read that a signal interrupted is made again.
    fn read(&mut self, buf: &mut [u8]) -> Result<usize, Failed>
        requires room { 0 < length buf.old }
        requires chosen { IsTrue self.old.has_chosen }
        ensures bound { ReadsAtMost result buf.new }
        ensures cause { HasCause self.old.faults self.new.faults result }
        ensures told { ChangedOnlyIfFailed self.old.faults self.new.faults result }
        ensures chosen { IsTrue self.new.has_chosen }
        ensures taken { HandsOut self.old.taken self.new.taken result buf.new }

        ensures given { ReadConsumes self.old.left self.new.left result buf.new }
        ensures noted { IfOk result (λ n. self.new.given ≡ self.old.given ++ take n buf.new) }
        ensures unnoted { OnErr result (self.new.given ≡ self.old.given) }
        ensures source { self.new.source ≡ self.old.source }
        ensures count { self.new.faults ≡ count_after self.old.faults result }
    {
        match self.chosen.read(buf) {
            Ok(n) => {
                self.history.hand_out(&buf[..n]);
                Ok(n)
            }
            Err(_) => {
                self.faults = self.faults.saturating_add(1);
                Err(Failed)
            }
        }
    }
}
