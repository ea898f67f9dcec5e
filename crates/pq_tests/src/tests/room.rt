// An output that finds no room or little, and a line of errors that finds none.
use crate::tests::runs::{Call, Wanted, leaves};
use pq_io::NoMemory;
use std::alloc::Global;
use std::test::Fail;

// A matrix that has an order.
const NESTED: &[u8] = b"1100\n1110\n1100\n1110\n";

// What is no matrix.
const SHORT: &[u8] = b"110\n01\n";

const FIRST: &[&str] = &["solve", "matrix", "first"];

const SECOND: &[&str] = &["solve", "matrix", "second"];

const MISSING: &[&str] = &["solve", "matrix", "missing"];

// The words, the room of the output and of the line of errors, the status, the output, and the line.
type Cramped = (
    &'static [&'static str],
    usize,
    usize,
    u8,
    &'static [u8],
    &'static [u8],
);

const CRAMPED: &[Cramped] = &[
    (FIRST, 0, 100, 5, b"", b"pq: write fault\n"),
    (FIRST, 8, 100, 5, b"pq-verdi", b"pq: write fault\n"),
    (SECOND, 1000, 0, 3, b"", b""),
    (MISSING, 1000, 0, 4, b"", b""),
];

// Whether a run leaves this in its room.
fn is_cramped(alloc: Global, row: &Cramped) -> Result<bool, NoMemory> {
    let (words, room, err_room, status, out, err) = *row;
    let call = Call {
        words,
        files: [NESTED, SHORT],
        room,
        err_room,
    };
    leaves(alloc, &call, &Wanted { status, out, err })
}

#[test]
fn sinks_without_room(rt: HostRuntime) -> Result<(), Fail> {
    for (i, row) in CRAMPED.iter().enumerate() {
        assert!(rt; is_cramped(rt.alloc(), row)?, "{i}");
    }
    Ok(())
}
