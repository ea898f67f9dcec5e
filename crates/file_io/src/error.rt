// Why a call of a shelf or a sink, or of the calls over them, failed.
use crate::NoMemory;
use std::alloc::AllocFailed;
use std::error::Error;
use std::fmt;

/// A read or a write failed, and the shelf or the sink counted a fault.
#[derive(Clone, Copy, Debug, PartialEq, Eq)]
pub struct Failed;

/// Why no file was chosen.
#[derive(Clone, Copy, Debug, PartialEq, Eq)]
pub enum ChooseError {
    /// The file is missing, or it could not be opened. The shelf counted a fault.
    Failed,
    /// Memory was refused. The name doesn't join those that the shelf was asked for.
    NoMemory,
}

/// Why a file was not read whole.
#[derive(Clone, Copy, Debug, PartialEq, Eq)]
pub enum ReadFail {
    /// A read failed, and the shelf counted a fault.
    Fault,
    /// Memory was refused.
    NoMemory,
}

/// A text was not written whole: a write failed, and the sink counted a fault.
#[derive(Clone, Copy, Debug, PartialEq, Eq)]
pub struct WriteFault;

impl From<NoMemory> for ChooseError {
    ghost use Rattle.std.specs.Prelude.{◌≡◌};
    ghost use Rattle.file_io.specs.declared.error.ChooseError.TheVariants.{NoMemory};

    ghost from_gives = { λ _ error. error ≡ NoMemory };

    fn from(_: NoMemory) -> Self {
        ChooseError::NoMemory
    }
}

impl<T: Drop> From<AllocFailed<T>> for ChooseError {
    ghost use Rattle.std.specs.Prelude.{◌≡◌};
    ghost use Rattle.file_io.specs.declared.error.ChooseError.TheVariants.{NoMemory};

    ghost from_gives = { λ _ error. error ≡ NoMemory };

    fn from(_: AllocFailed<T>) -> Self {
        ChooseError::NoMemory
    }
}

impl From<NoMemory> for ReadFail {
    ghost use Rattle.std.specs.Prelude.{◌≡◌};
    ghost use Rattle.file_io.specs.declared.error.ReadFail.TheVariants.{NoMemory};

    ghost from_gives = { λ _ error. error ≡ NoMemory };

    fn from(_: NoMemory) -> Self {
        ReadFail::NoMemory
    }
}

impl From<Failed> for ReadFail {
    ghost use Rattle.std.specs.Prelude.{◌≡◌};
    ghost use Rattle.file_io.specs.declared.error.ReadFail.TheVariants.{Fault};

    ghost from_gives = { λ _ error. error ≡ Fault };

    fn from(_: Failed) -> Self {
        ReadFail::Fault
    }
}

impl From<Failed> for WriteFault {
    fn from(_: Failed) -> Self {
        WriteFault
    }
}

impl fmt::Display for Failed {
    ghost use Rattle.std.specs.Prelude.{Some, codes};

    ghost output = { λ _. Some (codes "a read or a write failed") };

    fn fmt<W: fmt::Write>(&self, f: &mut fmt::Formatter<W>) -> fmt::Result {
        f.write_str("a read or a write failed")
    }
}

impl fmt::Display for ChooseError {
    ghost use Rattle.std.specs.Prelude.{Some, codes};
    ghost use Rattle.file_io.specs.Errors.{choose_text};

    ghost output = { λ error. Some (choose_text error) };

    fn fmt<W: fmt::Write>(&self, f: &mut fmt::Formatter<W>) -> fmt::Result {
        match self {
            ChooseError::Failed => f.write_str("the file could not be opened"),
            ChooseError::NoMemory => f.write_str("out of memory"),
        }
    }
}

impl fmt::Display for ReadFail {
    ghost use Rattle.std.specs.Prelude.{Some, codes};
    ghost use Rattle.file_io.specs.Errors.{read_text};

    ghost output = { λ error. Some (read_text error) };

    fn fmt<W: fmt::Write>(&self, f: &mut fmt::Formatter<W>) -> fmt::Result {
        match self {
            ReadFail::Fault => f.write_str("the file could not be read"),
            ReadFail::NoMemory => f.write_str("out of memory"),
        }
    }
}

impl fmt::Display for WriteFault {
    ghost use Rattle.std.specs.Prelude.{Some, codes};

    ghost output = { λ _. Some (codes "the text could not be written whole") };

    fn fmt<W: fmt::Write>(&self, f: &mut fmt::Formatter<W>) -> fmt::Result {
        f.write_str("the text could not be written whole")
    }
}

impl Error for Failed {}

impl Error for ChooseError {}

impl Error for ReadFail {}

impl Error for WriteFault {}
