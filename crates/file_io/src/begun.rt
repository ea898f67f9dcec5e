// A reader of the system that was begun.
ghost use Rattle.std.specs.Prelude.{◌≡◌, [], ◌++◌, take, IfOk, OnErr};
ghost use Rattle.std.specs.Io.{ReadsAtMost};
ghost use Rattle.std.specs.Io.KnownBytes.{ReadConsumes};

use crate::history::Noted;
use crate::retried::read_retried;
use std::io::{self, Read};

/// A reader, and the bytes that it gave so far. No call but `read` takes bytes of it, and each byte is noted.
#[derive(Drop)]
pub struct Begun<T> {
    reader: T,
    given: Noted,
}

impl<T: Read> Begun<T> {
    /// A reader that gave nothing yet.
    pub fn of(reader: T) -> Begun<T>
        ensures given { result.given.bytes ≡ [] }
        ensures bytes { T.remaining result.reader ≡ T.remaining reader }
    {
        Begun {
            reader,
            given: Noted::new(),
        }
    }

    /// One read. It fails where the system's read fails for another cause than an interruption.
    pub fn read(&mut self, buf: &mut [u8]) -> io::Result<usize>
        ensures bound { ReadsAtMost result buf.new }
        ensures bytes { ReadConsumes (T.remaining self.old.reader) (T.remaining self.new.reader) result buf.new }
        ensures given { IfOk result (λ n. self.new.given.bytes ≡ self.old.given.bytes ++ take n buf.new) }
        ensures kept { OnErr result (self.new.given.bytes ≡ self.old.given.bytes) }
    {
        let n = read_retried(&mut self.reader, buf)?;
        self.given.add(&buf[..n]);
        Ok(n)
    }
}
