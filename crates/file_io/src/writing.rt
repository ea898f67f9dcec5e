// A text as a whole.
ghost use Rattle.std.specs.Prelude.{MatchResult};
ghost use Rattle.std.specs.Io.KnownBytes.{Appends};
ghost use Rattle.file_io.specs.Faults.{HasCause, ChangedOnlyIfFailed};
ghost use Rattle.file_io.specs.Sink.{AppendsPrefix};

use crate::{Sink, WriteFault};

/// Writes all bytes. It takes no memory.
///
/// # Errors
///
/// `WriteFault` where a write failed. Some first bytes may have been written then.
pub fn write_all<O: Sink>(sink: &mut O, bytes: &[u8]) -> Result<(), WriteFault>
    ensures text { MatchResult result
        (λ _. Appends (O.written sink.old) (O.written sink.new) bytes.now)
        (λ _. AppendsPrefix (O.written sink.old) (O.written sink.new) bytes.now) }
    ensures cause { HasCause (O.faults sink.old) (O.faults sink.new) result }
    ensures told { ChangedOnlyIfFailed (O.faults sink.old) (O.faults sink.new) result }
{
    let mut written = 0;
    while written < bytes.len() {
        written += sink.write(&bytes[written..])?;
    }
    Ok(())
}
