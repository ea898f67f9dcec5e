// The files of a command: the bytes of each are read by the form that it should have, of the whole file or piece by piece.
ghost use Rattle.std.specs.Prelude.{◌≡◌, ◌≤◌, ◌^◌, List, ℕ, length, IsOk, IfOk, IfErr};
ghost use Rattle.row_model.specs.declared.TheConstants.{MAX_FILE_BYTES};
ghost use Rattle.row_model.specs.declared.code.TheConstants.{LIMIT};
ghost use Rattle.file_io.specs.Taken.{Taken};
ghost use Rattle.file_io.specs.Whole.{IsWhole};
ghost use Rattle.pq_cli.specs.Reading.{OnlyReads, IsReadStop, RefusesLong, ReadsFile, ReadsWhole, ReadsBytes, IsMadeWithin, IsRead, value_of};
ghost use Rattle.pq_cli.specs.Stops.{read_status};

use crate::NoMemory;
use crate::stop::Stop;
use file_io::{ChooseError, ReadFail, Shelf, Taker, Whole, read_all, read_through};
use row_model::{MAX_FILE_BYTES, Read, Refusal, code};
use std::alloc::Global;

pub mod instance_file;

/// The form that a file of a command should have. It has [`MAX_FILE_BYTES`] bytes at most.
pub trait FileForm {
    ghost use Rattle.row_model.specs.declared.refusal.Read.{Read};

    /// What is read of the file.
    type Value: Drop;

    /// The bytes are read so: as a value, or with their first refusal.
    ghost reads: { Self → List ℕ → Read Self.Value → Type 0 };

    /// What holds of each reading, whatever the bytes.
    ghost holds: { Self → Read Self.Value → Type 0 };

    /// Reads the bytes of a file.
    ///
    /// # Errors
    ///
    /// Memory is refused.
    fn read(&self, alloc: Global, bytes: &[u8]) -> Result<Read<Self::Value>, NoMemory>
        ensures reads { IfOk result (λ made.
            length bytes.now ≤ MAX_FILE_BYTES → reads self.now bytes.now made) }
        ensures holds { IfOk result (holds self.now) };

    /// A file that is too long is refused as such.
    fn long_law(&self)
        ensures { RefusesLong (reads self.now) (holds self.now) };
}

/// What is in the file of this name, which has this number among those of the command.
///
/// # Errors
///
/// The file is refused or can't be read, or memory is refused.
pub fn read_file<F: Shelf, V: Drop, R: FileForm<Value = V>>(
    alloc: Global,
    form: &R,
    which: u8,
    name: &str,
    files: &mut F,
) -> Result<V, Stop>
    ensures { ReadsFile F.content F.taken F.faults files.old files.new name.now which
        (R.reads form.now) (R.holds form.now) result }
{
    let whole = read_bytes(alloc, name, MAX_FILE_BYTES, files)?;
    value_of(which, read_whole(alloc, form, &whole)?)
}

/// The bytes of the file of this name, the second of the command, or that they are more than a limit. It is never refused.
///
/// # Errors
///
/// The file can't be read, or memory is refused.
pub fn read_text<F: Shelf>(
    alloc: Global,
    limit: u64,
    name: &str,
    files: &mut F,
) -> Result<Whole, Stop>
    requires { limit ≤ 2 ^ 32 }
    ensures { ReadsFile F.content F.taken F.faults files.old files.new name.now 2 (ReadsBytes limit)
        IsRead result }
{
    let whole = read_bytes(alloc, name, limit, files)?;
    value_of(2, Read::Ok(whole))
}

// What is read of a file, by its form. One that is too long takes no memory.
fn read_whole<V: Drop, R: FileForm<Value = V>>(
    alloc: Global,
    form: &R,
    whole: &Whole,
) -> Result<Read<V>, NoMemory>
    ensures reads { IfOk result (λ made.
        (bytes : List ℕ) → IsWhole MAX_FILE_BYTES bytes whole.now → R.reads form.now bytes made) }
    ensures holds { IfOk result (R.holds form.now) }
    ensures long { whole.now ≡ Whole.TooLong → IsOk result }
{
    match whole {
        Whole::Bytes(bytes) => form.read(alloc, bytes),
        Whole::TooLong => {
            form.long_law();
            Ok(Read::Refused(too_long()))
        }
    }
}

/// The value that was read of the file with this number, or its refusal.
pub(crate) fn value_of<V: Drop>(which: u8, read: Read<V>) -> Result<V, Stop>
    ensures { result ≡ value_of which read }
{
    match read {
        Read::Ok(value) => Ok(value),
        Read::Refused(refusal) => Err(Stop::Refused(which, refusal)),
    }
}

/// The refusal of a file with more bytes than there may be.
pub(crate) fn too_long() -> Refusal
    ensures { result ≡ record { code = LIMIT; line = 0 } }
{
    Refusal {
        code: code::LIMIT,
        line: 0,
    }
}

// The bytes of the file of this name, up to a limit.
fn read_bytes<F: Shelf>(alloc: Global, name: &str, limit: u64, files: &mut F) -> Result<Whole, Stop>
    requires { limit ≤ 2 ^ 32 }
    ensures whole { (t : Taken) × ReadsWhole F.content F.taken F.faults files.old files.new name.now (IsWhole limit) result t }
    ensures shelf { OnlyReads F.content F.faults files.old files.new (read_status result) }
    ensures stop { IfErr result IsReadStop }
{
    match files.choose(alloc, name) {
        Err(ChooseError::Failed) => Err(Stop::ReadFault),
        Err(ChooseError::NoMemory) => Err(Stop::NoMemory),
        Ok(()) => match read_all(alloc, files, limit) {
            Err(ReadFail::Fault) => Err(Stop::ReadFault),
            Err(ReadFail::NoMemory) => Err(Stop::NoMemory),
            Ok(whole) => Ok(whole),
        },
    }
}

/// What a taker makes of the bytes of the file of this name, or none where they are more than a limit.
///
/// # Errors
///
/// The file can't be read, or memory is refused.
pub(crate) fn pass_bytes<F: Shelf, T: Taker>(
    alloc: Global,
    name: &str,
    limit: u64,
    taker: T,
    files: &mut F,
) -> Result<Option<T::Made>, Stop>
    requires { limit ≤ 2 ^ 32 }
    ensures made { (t : Taken) × ReadsWhole F.content F.taken F.faults files.old files.new name.now (IsMadeWithin limit (T.makes taker)) result t }
    ensures shelf { OnlyReads F.content F.faults files.old files.new (read_status result) }
    ensures stop { IfErr result IsReadStop }
{
    match files.choose(alloc, name) {
        Err(ChooseError::Failed) => Err(Stop::ReadFault),
        Err(ChooseError::NoMemory) => Err(Stop::NoMemory),
        Ok(()) => match read_through(alloc, files, limit, taker) {
            Err(ReadFail::Fault) => Err(Stop::ReadFault),
            Err(ReadFail::NoMemory) => Err(Stop::NoMemory),
            Ok(made) => Ok(made),
        },
    }
}
