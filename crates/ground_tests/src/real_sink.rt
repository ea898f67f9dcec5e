// Writes over a stream that takes few bytes, may not be flushed, or is interrupted.
use pq_io::{Failed, RealSink, Sink};
use std::io::{self, Write};

// Takes at most so many bytes in a write, and then may not be flushed. So many calls are interrupted first.
#[derive(Drop)]
struct FakeStream {
    most: usize,
    can_flush: bool,
    interruptions: u32,
}

impl FakeStream {
    fn interrupted(&mut self) -> io::Result<()> {
        if self.interruptions == 0 {
            return Ok(());
        }
        self.interruptions -= 1;
        Err(io::Error::from(io::ErrorKind::Interrupted))
    }
}

impl Write for FakeStream {
    fn write(&mut self, buf: &[u8]) -> io::Result<usize> {
        self.interrupted()?;
        Ok(buf.len().min(self.most))
    }

    fn flush(&mut self) -> io::Result<()> {
        self.interrupted()?;
        if self.can_flush {
            Ok(())
        } else {
            Err(io::Error::from(io::ErrorKind::StorageFull))
        }
    }
}

fn written(most: usize, can_flush: bool, interruptions: u32) -> Result<usize, Failed> {
    let stream = FakeStream {
        most,
        can_flush,
        interruptions,
    };
    RealSink::over(stream).write(b"abc")
}

// What a write of three bytes answers after 0, 1 and 2 interruptions.
fn answers(most: usize, can_flush: bool) -> [Result<usize, Failed>; 3] {
    [
        written(most, can_flush, 0),
        written(most, can_flush, 1),
        written(most, can_flush, 2),
    ]
}

#[test]
fn a_write_fails_where_nothing_is_taken_or_flushed(rt: HostRuntime) {
    let found = [
        answers(9, true),
        answers(2, true),
        answers(0, true),
        answers(9, false),
    ];
    assert_eq!(rt;
        found,
        [[Ok(3); 3], [Ok(2); 3], [Err(Failed); 3], [Err(Failed); 3]]
    );
}
