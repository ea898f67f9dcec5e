// A runtime whose files tell their bytes, and whose reads give them as is listed.
ghost use Rattle.std.specs.Prelude.{◌≡◌, ◌<◌, Some, IfOk};

use std::alloc::Allocator;
use std::fs::{Files, Metadata, OpenFile, OpenOptions};
use std::io::{self, BufRead, Error, ErrorKind, Input, Lines, Read, Seek, SeekFrom, Write};

// What a read does.
#[derive(Clone, Copy)]
pub enum Step {
    // It gives this many bytes, and at least one, as far as there are so many and room for them.
    UpTo(usize),
    // A signal interrupts it, and it has to be made again.
    Interrupted,
    // It fails.
    Fault,
}

// The bytes of a file, and what its reads do; the reads behind the listed ones give all that there is room for.
#[derive(Clone, Copy)]
pub struct Script<'a> {
    pub bytes: &'a [u8],
    pub steps: &'a [Step],
}

// A file that was opened: the bytes that are left of it, and what its next reads do.
#[derive(Drop)]
pub struct Played<'a> {
    left: &'a [u8],
    steps: &'a [Step],
}

impl<'a> Played<'a> {
    fn of(script: Script<'a>) -> Played<'a> {
        Played {
            left: script.bytes,
            steps: script.steps,
        }
    }

    // Takes the next step: the most bytes that the read may give.
    fn step(&mut self) -> io::Result<usize>
        ensures most { IfOk result (λ most. 0 < most) }
        ensures left { self.new.left ≡ self.old.left }
    {
        let Some((next, others)) = self.steps.split_first() else {
            return Ok(usize::MAX);
        };
        self.steps = others;
        match *next {
            Step::UpTo(most) => Ok(most.max(1)),
            Step::Interrupted => Err(Error::from(ErrorKind::Interrupted)),
            Step::Fault => Err(Error::from(ErrorKind::Other)),
        }
    }
}

impl Read for Played<'_> {
    ghost remaining = { λ played. Some played.left.now };

    fn read(&mut self, buf: &mut [u8]) -> io::Result<usize> {
        let most = self.step()?;
        let n = buf.len().min(most);
        self.left.read(&mut buf[..n])
    }
}

// The answer to all that a run never asks for.
fn unsupported() -> Error {
    Error::from(ErrorKind::Unsupported)
}

impl Write for Played<'_> {
    fn write(&mut self, _buf: &[u8]) -> io::Result<usize> {
        Err(unsupported())
    }

    fn flush(&mut self) -> io::Result<()> {
        Err(unsupported())
    }
}

impl Seek for Played<'_> {
    fn seek(&mut self, _to: SeekFrom) -> io::Result<u64> {
        Err(unsupported())
    }
}

impl OpenFile for Played<'_> {
    fn metadata(&self) -> io::Result<Metadata> {
        Err(unsupported())
    }

    fn set_len(&self, _size: u64) -> io::Result<()> {
        Err(unsupported())
    }

    fn sync_all(&self) -> io::Result<()> {
        Err(unsupported())
    }

    fn sync_data(&self) -> io::Result<()> {
        Err(unsupported())
    }
}

// Standard input, which tells nothing of its bytes.
#[derive(Drop)]
pub struct PlayedInput<'a>(Played<'a>);

impl Read for PlayedInput<'_> {
    fn read(&mut self, buf: &mut [u8]) -> io::Result<usize> {
        self.0.read(buf)
    }
}

impl BufRead for PlayedInput<'_> {
    fn fill_buf(&mut self) -> io::Result<&[u8]> {
        Err(unsupported())
    }

    fn consume(&mut self, _amount: usize) {}
}

// The files by their names, and standard input. The file `unopened` can't be opened for want of memory, and any other
// name is no file.
#[derive(Clone, Copy)]
pub struct Playing<'a> {
    pub first: Script<'a>,
    pub second: Script<'a>,
    pub input: Script<'a>,
}

impl<'a> Files for Playing<'a> {
    type File = Played<'a>;

    type Dir = Played<'a>;

    fn open_file(&self, how: &OpenOptions, path: &str) -> io::Result<Played<'a>> {
        how.check()?;
        match path {
            "first" => Ok(Played::of(self.first)),
            "second" => Ok(Played::of(self.second)),
            "unopened" => Err(Error::from(ErrorKind::OutOfMemory)),
            _ => Err(Error::from(ErrorKind::NotFound)),
        }
    }

    fn open_dir(&self, _path: &str) -> io::Result<Played<'a>> {
        Err(unsupported())
    }

    fn metadata(&self, _path: &str) -> io::Result<Metadata> {
        Err(unsupported())
    }

    fn symlink_metadata(&self, _path: &str) -> io::Result<Metadata> {
        Err(unsupported())
    }

    fn copy(&self, _from: &str, _to: &str) -> io::Result<u64> {
        Err(unsupported())
    }

    fn rename(&self, _from: &str, _to: &str) -> io::Result<()> {
        Err(unsupported())
    }

    fn remove_file(&self, _path: &str) -> io::Result<()> {
        Err(unsupported())
    }

    fn create_dir(&self, _path: &str) -> io::Result<()> {
        Err(unsupported())
    }

    fn remove_dir(&self, _path: &str) -> io::Result<()> {
        Err(unsupported())
    }

    fn remove_dir_all<B: Allocator>(&self, _alloc: B, _path: &str) -> io::Result<()> {
        Err(unsupported())
    }
}

impl<'a> Input for Playing<'a> {
    type Reader = PlayedInput<'a>;

    fn read_line<A: Allocator + Clone>(&self, _buf: &mut String<A>) -> io::Result<usize> {
        Err(unsupported())
    }

    fn lines<A: Allocator>(&self, alloc: A) -> Lines<PlayedInput<'a>, A> {
        self.reader().lines(alloc)
    }

    fn reader(&self) -> PlayedInput<'a> {
        PlayedInput(Played::of(self.input))
    }
}
