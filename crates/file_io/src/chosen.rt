// What a name stands for: standard input, or a file of the system.
ghost use Rattle.std.specs.Prelude.{◌≡◌, [], ◌++◌, take, Some, IfOk, OnErr, IsTrue};
ghost use Rattle.std.specs.Io.{ReadsAtMost};
ghost use Rattle.std.specs.Io.KnownBytes.{ReadConsumes};
ghost use Rattle.file_io.specs.Source.{source_of};
ghost use Rattle.file_io.specs.Chosen.{is_chosen, source_chosen, given_of, left_of};

use crate::ChooseError;
use crate::begun::Begun;
use crate::history::Noted;
use std::fs;
use std::io::{self, ErrorKind, Read};
use std::rt::Files;

/// What is chosen.
#[derive(Drop)]
pub enum Chosen<File, Reader> {
    Nothing,
    Input(Begun<Reader>),
    File(Opened<File>),
}

/// A file that was begun, and the name by which it was opened.
#[derive(Drop)]
pub struct Opened<File> {
    pub begun: Begun<File>,
    name: Noted,
}

impl<File: Read, Reader: Read> Chosen<File, Reader> {
    /// One read of what is chosen. It fails where the system's read fails for another cause than an interruption.
    pub fn read(&mut self, buf: &mut [u8]) -> io::Result<usize>
        requires { IsTrue (is_chosen self.old) }
        ensures bound { ReadsAtMost result buf.new }
        ensures bytes { ReadConsumes (left_of File.remaining Reader.remaining self.old) (left_of File.remaining Reader.remaining self.new) result buf.new }
        ensures given { IfOk result (λ n. given_of self.new ≡ given_of self.old ++ take n buf.new) }
        ensures kept { OnErr result (given_of self.new ≡ given_of self.old) }
        ensures source { source_chosen self.new ≡ source_chosen self.old }
        ensures chosen { IsTrue (is_chosen self.new) }
    {
        match self {
            Chosen::Nothing => unreachable!(),
            Chosen::Input(begun) => begun.read(buf),
            Chosen::File(opened) => opened.begun.read(buf),
        }
    }
}

/// What stands behind a name.
///
/// # Errors
///
/// The file is missing or can't be opened, or the opening lacks memory.
pub fn choose_by<R: Files + Input>(
    runtime: &R,
    name: &str,
) -> Result<Chosen<R::File, R::Reader>, ChooseError>
    ensures source { IfOk result (λ chosen. source_chosen chosen ≡ Some (source_of name.now)) }
    ensures unread { IfOk result (λ chosen. given_of chosen ≡ []) }
{
    if name == "-" {
        return Ok(Chosen::Input(Begun::of(runtime.reader())));
    }
    match open_by(runtime, name) {
        Ok(opened) => Ok(Chosen::File(opened)),
        Err(error) if error.kind() == ErrorKind::OutOfMemory => Err(ChooseError::NoMemory),
        Err(_) => Err(ChooseError::Failed),
    }
}

// Opens the file of a name, and notes the name. That these are one and the same no clause of the system's call can say.
fn open_by<R: Files>(runtime: &R, name: &str) -> io::Result<Opened<R::File>>
    ensures name { IfOk result (λ opened. opened.name.bytes ≡ name.now) }
    ensures unread { IfOk result (λ opened. opened.begun.given.bytes ≡ []) }
{
    Ok(Opened {
        begun: Begun::of(fs::open(runtime, name)?),
        name: Noted::of(name.as_bytes()),
    })
}
