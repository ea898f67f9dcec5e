// The lines on the sink for errors.
ghost use Rattle.std.specs.Prelude.{◌≡◌};
ghost use Rattle.pq_cli.specs.Runs.{Offers, refused_line, stop_line, failure_line};

use crate::stop::{Failure, Stop};
use arrayvec::ArrayString;
use file_io::{Sink, write_all};
use itoa::Buffer;
use row_model::Refusal;

/// Offers the line of a failure to a sink, whose faults are passed over. It takes no memory.
pub fn report<E: Sink>(failure: &Failure, err: &mut E)
    ensures { Offers (E.written err.old) (E.written err.new) (E.faults err.old) (E.faults err.new)
        (failure_line failure.now) }
{
    match failure {
        Failure::Words => offer(err, b"pq: words\n"),
        Failure::Stopped(stop) => report_stop(stop, err),
        Failure::WriteFault => offer(err, b"pq: write fault\n"),
    }
}

// Offers the line of what stood in the way of a reply.
fn report_stop<E: Sink>(stop: &Stop, err: &mut E)
    ensures { Offers (E.written err.old) (E.written err.new) (E.faults err.old) (E.faults err.new)
        (stop_line stop.now) }
{
    match stop {
        Stop::Refused(which, refusal) => {
            offer(err, refusal_line(*which, *refusal).as_str().as_bytes());
        }
        Stop::ReadFault => offer(err, b"pq: read fault\n"),
        Stop::NoMemory => offer(err, b"pq: no memory\n"),
    }
}

// Offers a line to a sink, whose faults are passed over.
fn offer<E: Sink>(err: &mut E, line: &[u8])
    ensures { Offers (E.written err.old) (E.written err.new) (E.faults err.old) (E.faults err.new)
        line.now }
{
    let _ = write_all(err, line);
}

// The line that tells of a refusal. The longest, with three numbers of 3, 3 and 10 digits, has 41 bytes.
fn refusal_line(which: u8, refusal: Refusal) -> ArrayString<48>
    ensures { result.bytes ≡ refused_line which refusal }
{
    let mut line = ArrayString::new();
    let mut number = Buffer::new();
    line.push_str("pq: refused ");
    line.push_str(number.format(which));
    line.push_str(" code ");
    line.push_str(number.format(refusal.code));
    line.push_str(" line ");
    line.push_str(number.format(refusal.line));
    line.push_str("\n");
    line
}
