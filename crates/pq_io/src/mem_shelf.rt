// A shelf in memory.
ghost use Rattle.std.specs.Prelude.{◌≡◌, ◌≢◌, ◌<◌, ◌≤◌, ◌+◌, ◌-◌, ◌^◌, ◌||◌, ℕ, List, [], ◌∷◌, ◌++◌, Some, None, length, take, drop, min, is_some, is_none, is_err, true, false, slice_get, IsTrue, IfOk, IfSome, IfNone, OnOk, OnErr};
ghost use Rattle.std.specs.Io.{ReadsAtMost};
ghost use Rattle.std.specs.Io.KnownBytes.{ReadConsumes};
ghost use Rattle.file_io.specs.Faults.{HasCause, ChangedOnlyIfFailed, one_more, count_after, is_to_fail};
ghost use Rattle.file_io.specs.Taken.{Asks, HandsOut};
ghost use Rattle.file_io.specs.Shelf.{HasChoiceCause, ChangedOnlyIfNotFound, FailsExactly, count_after_choice};
ghost use Rattle.pq_io.specs.NamedFiles.{content_of};
ghost use Rattle.pq_io.specs.MemFile.{bytes_at, has_name, IsNamedByNone};

use crate::{ChooseError, Failed, NoMemory, Shelf};
use file_io::History;
use std::alloc::Global;
use std::marker::Model;

// A file in memory.
#[derive(Drop)]
struct MemFile {
    name: String,
    bytes: Vec<u8>,
}

// A place in a file: the file's index, and how many of its bytes have been read.
#[derive(Clone, Copy)]
struct Place {
    file: usize,
    read: usize,
}

/// A shelf in memory, whose calls fail where that is asked for. A name that is added again has its last bytes.
///
/// Contracts see it as its files, the bytes left of the chosen one, the names asked for with what reads handed out of
/// each, the greatest number of bytes a read, the numbers of the calls that are to fail, and the counts of calls and of
/// faults. The calls of `choose` and of
/// `read` are numbered together, from 1; the count stands still at 2^64 - 1.
#[derive(Drop)]
pub struct MemShelf {
    alloc: Global,
    files: Vec<MemFile>,
    chosen: Option<Place>,
    history: History,
    piece: usize,
    failing: Vec<u64>,
    calls: u64,
    faults: u64,
}

impl Model for MemShelf {
    ghost use Rattle.pq_io.specs.NamedFiles.{Held};

    ghost Value = { Held };

    ghost use Rattle.pq_io.specs.MemShelf.{held, IsInRange};

    ghost view = { held };

    ghost invariant = { IsInRange };
}

impl MemShelf {
    /// A shelf with no files and no faults, which has asked for none. A read gives as many bytes as there is room for.
    pub fn new(alloc: Global) -> Self
        ensures { result ≡ record { files = []; left = None; taken = []; piece = 2 ^ 64 - 1; failing = []; calls = 0; faults = 0 } }
    {
        MemShelf {
            alloc,
            files: Vec::new(alloc),
            chosen: None,
            history: History::new(),
            piece: usize::MAX,
            failing: Vec::new(alloc),
            calls: 0,
            faults: 0,
        }
    }

    /// Adds a file, in place of an earlier one of this name. No file is chosen afterwards.
    ///
    /// # Errors
    ///
    /// `NoMemory`, and the shelf is as before.
    pub fn add(&mut self, name: &str, bytes: &[u8]) -> Result<(), NoMemory>
        ensures added { OnOk result (content_of self.new.files name.now ≡ Some bytes.now) }
        ensures others { OnOk result ((other : List ℕ) → other ≢ name.now → content_of self.new.files other ≡ content_of self.old.files other) }
        ensures kept { OnOk result (self.new ≡ record self.old { files = self.new.files; left = None }) }
        ensures err { OnErr result (self.new ≡ self.old) }
    {
        let file = MemFile {
            name: String::from_str(self.alloc, name)?,
            bytes: Vec::from_slice(self.alloc, bytes)?,
        };
        self.files.push(file)?;
        self.chosen = None;
        Ok(())
    }

    /// Has the call with this number fail.
    ///
    /// # Errors
    ///
    /// `NoMemory`, and the shelf is as before.
    pub fn fail_at(&mut self, call: u64) -> Result<(), NoMemory>
        ensures ok { OnOk result (self.new ≡ record self.old { failing = self.old.failing ++ call ∷ [] }) }
        ensures err { OnErr result (self.new ≡ self.old) }
    {
        self.failing.push(call)?;
        Ok(())
    }

    /// Has each read give at most `n` bytes.
    pub fn piece(&mut self, n: usize)
        requires { 1 ≤ n }
        ensures { self.new ≡ record self.old { piece = n } }
    {
        self.piece = n;
    }
}

impl Shelf for MemShelf {
    ghost content = { λ shelf name. content_of shelf.files name };

    ghost left = { λ shelf. shelf.left };

    ghost faults = { λ shelf. shelf.faults };

    ghost taken = { λ shelf. shelf.taken };

    ghost has_chosen = { λ shelf. is_some shelf.left };

    /// It fails exactly for a name that was not added, and where the call is one of those that are to fail. It takes no
    /// memory, so the answer is `Failed` then.
    fn choose(&mut self, _alloc: Global, name: &str) -> Result<(), ChooseError>
        ensures chosen { OnOk result (IsTrue (is_some self.new.left)) }
        ensures left { OnOk result (self.new.left ≡ content_of self.old.files name.now) }
        ensures none_chosen { OnErr result (is_some self.new.left ≡ false) }
        ensures asked { Asks self.old.taken self.new.taken name.now result }
        ensures cause { HasChoiceCause self.old.faults self.new.faults result }
        ensures told { ChangedOnlyIfNotFound self.old.faults self.new.faults result }
        ensures content { (other : List ℕ) → content_of self.new.files other ≡ content_of self.old.files other }

        ensures fails { FailsExactly (is_to_fail self.old.failing (one_more self.old.calls) || is_none (content_of self.old.files name.now)) result }
        ensures calls { self.new.calls ≡ one_more self.old.calls }
        ensures count { self.new.faults ≡ count_after_choice self.old.faults result }
        ensures kept { self.new ≡ record self.old { left = self.new.left; taken = self.new.taken; calls = self.new.calls; faults = self.new.faults } }
    {
        self.calls = self.calls.saturating_add(1);
        self.chosen = None;
        self.history.ask(name.as_bytes());
        if self.failing.contains(&self.calls) {
            self.faults = self.faults.saturating_add(1);
            return Err(ChooseError::Failed);
        }
        let Some(file) = last_with_name(&self.files, name) else {
            self.faults = self.faults.saturating_add(1);
            return Err(ChooseError::Failed);
        };
        self.chosen = Some(Place { file, read: 0 });
        Ok(())
    }

    /// Gives as many bytes as `buf` has room for, and no more than a piece. It fails exactly where the call is one
    /// of those that are to fail.
    fn read(&mut self, buf: &mut [u8]) -> Result<usize, Failed>
        requires room { 0 < length buf.old }
        requires chosen { IsTrue (is_some self.old.left) }
        ensures bound { ReadsAtMost result buf.new }
        ensures bytes { ReadConsumes self.old.left self.new.left result buf.new }
        ensures cause { HasCause self.old.faults self.new.faults result }
        ensures told { ChangedOnlyIfFailed self.old.faults self.new.faults result }
        ensures chosen { IsTrue (is_some self.new.left) }
        ensures taken { HandsOut self.old.taken self.new.taken result buf.new }
        ensures content { (other : List ℕ) → content_of self.new.files other ≡ content_of self.old.files other }

        ensures fails { is_err result ≡ is_to_fail self.old.failing (one_more self.old.calls) }
        ensures calls { self.new.calls ≡ one_more self.old.calls }
        ensures count { self.new.faults ≡ count_after self.old.faults result }
        ensures given { IfOk result (λ n. IfSome self.old.left (λ bytes. n ≡ min (length bytes) (min (length buf.old) self.old.piece))) }
        ensures kept { self.new ≡ record self.old { left = self.new.left; taken = self.new.taken; calls = self.new.calls; faults = self.new.faults } }
    {
        self.calls = self.calls.saturating_add(1);
        if self.failing.contains(&self.calls) {
            self.faults = self.faults.saturating_add(1);
            return Err(Failed);
        }
        let Some(place) = &mut self.chosen else {
            unreachable!()
        };
        let n = give(
            bytes_of(&self.files, place.file),
            place.read,
            self.piece,
            buf,
        );
        place.read += n;
        self.history.hand_out(&buf[..n]);
        Ok(n)
    }
}

// The index of the last file with this name.
fn last_with_name(files: &[MemFile], name: &str) -> Option<usize>
    ensures found { IfSome result (λ i. (i < length files.now) × IfSome (slice_get files.now i) (λ file. has_name name.now file ≡ true)) }
    ensures last { IfSome result (λ i. IsNamedByNone name.now (i + 1) files.now) }
    ensures none { IfNone result (IsNamedByNone name.now 0 files.now) }
{
    files.iter().rposition(|file| file.name.as_str() == name)
}

// The bytes of the file at an index.
fn bytes_of(files: &[MemFile], file: usize) -> &[u8]
    requires { file < length files.now }
    ensures { result.now ≡ bytes_at files.now file }
{
    &files[file].bytes
}

// Copies the bytes from the place `read` on into `buf`, as many as it has room for and no more than
// a piece, and returns how many.
fn give(bytes: &[u8], read: usize, piece: usize, buf: &mut [u8]) -> usize
    requires { read ≤ length bytes.now }
    ensures count { result ≡ min (length (drop read bytes.now)) (min (length buf.old) piece) }
    ensures within { read + result ≤ length bytes.now }
    ensures given { take result buf.new ≡ take result (drop read bytes.now) }
    ensures length { length buf.new ≡ length buf.old }
{
    let rest = &bytes[read..];
    let n = rest.len().min(buf.len().min(piece));
    buf[..n].copy_from_slice(&rest[..n]);
    n
}
