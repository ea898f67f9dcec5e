// Both runs of a solve and its check over small instances.
use check_after_solve::{Ended, solve_then_check};
use pq_io::{MemSink, NoMemory};
use std::alloc::Global;
use std::test::Fail;

// A kind, an instance, the room of the first run, how both end, and what the check writes.
type Both = (&'static str, &'static [u8], usize, Ended, &'static [u8]);

const PATH: &[u8] = b"110\n011\n";

const TRIANGLE: &[u8] = b"110\n011\n101\n";

const CLAW: &[u8] = b"4\n1 2\n1 3\n1 4\n";

const VALID: &[u8] = b"valid\n";

const BOTH: &[Both] = &[
    ("matrix", PATH, 1_000, Ended::Checked(0, 0), VALID),
    ("matrix", TRIANGLE, 1_000, Ended::Checked(1, 0), VALID),
    ("circular", TRIANGLE, 1_000, Ended::Checked(0, 0), VALID),
    ("proper", CLAW, 1_000, Ended::Checked(1, 0), VALID),
    ("matrix", b"12\n", 1_000, Ended::Unsolved(3), b""),
    ("matrix", PATH, 75, Ended::Checked(0, 0), VALID),
    ("matrix", PATH, 74, Ended::Unsolved(5), b""),
    ("matrix", PATH, 10, Ended::Unsolved(5), b""),
    ("matrices", PATH, 1_000, Ended::Unsolved(2), b""),
];

// Whether both runs end so.
fn ends(alloc: Global, both: &Both) -> Result<bool, NoMemory> {
    let (kind, instance, room, ended, text) = *both;
    let mut out = MemSink::new(alloc);
    out.reserve(10)?;
    let found = solve_then_check(alloc, kind, instance, room, &mut out)?;
    Ok(found == ended && out.bytes() == text)
}

#[test]
fn both_runs_end_so(rt: HostRuntime) -> Result<(), Fail> {
    for (i, both) in BOTH.iter().enumerate() {
        assert!(rt; ends(rt.alloc(), both)?, "{i}");
    }
    Ok(())
}

#[test]
fn an_answer_without_room_is_told(rt: HostRuntime) -> Result<(), Fail> {
    let mut out = MemSink::new(rt.alloc());
    let ended = solve_then_check(rt.alloc(), "matrix", PATH, 1_000, &mut out)?;
    assert!(rt; ended == Ended::Checked(0, 5));
    assert!(rt; out.bytes().is_empty());
    Ok(())
}
