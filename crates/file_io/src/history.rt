// What was written, opened and read so far, which only clauses see. It takes no memory and no time.
ghost use Rattle.std.specs.Prelude.{◌≡◌, ℕ, List, [], ◌++◌, ◌==◌, length};
ghost use Rattle.std.specs.Borrow.{ftrue};
ghost use Rattle.file_io.specs.Taken.{Taken, asked_for, handed_out};

use std::marker::{Model, PhantomData};

/// Bytes that were noted: those that were sent, or a name.
#[derive(Drop)]
pub struct Noted {
    marker: PhantomData<u8>,
    pub ghost bytes: { List ℕ },
}

impl Model for Noted {
    ghost also_owns = { λ _. ftrue };
}

impl Noted {
    pub(crate) fn new() -> Noted
        ensures { result.bytes ≡ [] }
    {
        Noted {
            marker: PhantomData,
        }
    }

    pub(crate) fn of(bytes: &[u8]) -> Noted
        ensures { result.bytes ≡ bytes.now }
    {
        let mut noted = Noted::new();
        noted.add(bytes);
        noted
    }

    pub(crate) fn add(&mut self, _piece: &[u8])
        ensures { self.new.bytes ≡ self.old.bytes ++ _piece.now }
    {}
}

/// The names that were asked for, each with the bytes that reads handed out.
#[derive(Drop)]
pub struct History {
    marker: PhantomData<u8>,
    pub ghost files: { List Taken },
}

impl Model for History {
    ghost also_owns = { λ _. ftrue };
}

impl History {
    pub fn new() -> History
        ensures { result.files ≡ [] }
    {
        History {
            marker: PhantomData,
        }
    }

    pub fn ask(&mut self, name: &[u8])
        ensures { self.new.files ≡ asked_for name.now self.old.files }
    {
        self.becomes(name);
    }

    pub fn hand_out(&mut self, piece: &[u8])
        ensures { self.new.files ≡ handed_out piece.now (length piece.now == 0) self.old.files }
    {
        self.becomes(piece);
    }

    // The files are what the caller picks, in view of the bytes.
    fn becomes(&mut self, _bytes: &[u8])
        ghost files: { List Taken }
        ensures { self.new.files ≡ files }
    {}
}
