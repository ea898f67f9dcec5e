// A few runs of each command. The built program shows many more.
use crate::tests::runs::{Call, Wanted, leaves};
use pq_io::NoMemory;
use std::alloc::Global;
use std::test::Fail;

// Two rows that overlap, and the verdict on them.
const CHAIN: &[u8] = b"110\n011\n";

const VERDICT: &[u8] =
    b"pq-verdict 2\nkind matrix\ncolumns 3\nanswer yes\ntree [1 2 3]\norder 1 2 3\nend\n";

// Three rows that have no order together, and a no on them.
const RING: &[u8] = b"110\n011\n101\n";

const NO: &[u8] =
    b"pq-verdict 1\nkind matrix\ncolumns 3\nanswer no\nside 1\ncycle 3\n1 3 row 1\n3 2 row 3\n2 1 row 2\nend\n";

// The three rows as a core.
const CORE: &[u8] =
    b"pq-core 1\nkind matrix\ncolumns 3\ncore 3\nrow 1\nwithout 1 3 2\nrow 2\nwithout 2 1 3\nrow 3\nwithout 1 2 3\ncycle 3\n1 3 row 1\n3 2 row 3\n2 1 row 2\nend\n";

// A path of four vertices, and its unit model.
const PATH: &[u8] = b"4\n1 2\n2 3\n3 4\n";

const UNIT: &[u8] =
    b"pq-unit 1\nvertices 4\nlength 4\nunit 1 3\nunit 2 6\nunit 3 9\nunit 4 12\nend\n";

const SOLVE: &[&str] = &["solve", "matrix", "first"];

const CHECK: &[&str] = &["check", "matrix", "first", "second"];

const EXTEND: &[&str] = &["extend", "matrix", "first", "second"];

const MEET: &[&str] = &["meet", "3", "first", "second"];

const CHECK_CORE: &[&str] = &["check-core", "matrix", "first", "second"];

const CHECK_UNIT: &[&str] = &["check-unit", "first", "second"];

// Words over two files, the status, and the output or the line of errors.
type Few = (
    &'static [&'static str],
    [&'static [u8]; 2],
    u8,
    &'static [u8],
);

// Runs that are answered.
const ANSWERED: &[Few] = &[
    (SOLVE, [CHAIN, b""], 0, VERDICT),
    (
        &["solve", "robinson", "first"],
        [b"3\n0 1 1\n1 0 1\n1 1 0\n", b""],
        0,
        b"pq-verdict 2\nkind robinson\ncolumns 3\nanswer yes\ntree (1 2 3)\norder 1 2 3\nend\n",
    ),
    (CHECK, [CHAIN, VERDICT], 0, b"valid\n"),
    (CHECK, [RING, NO], 0, b"valid\n"),
    (CHECK, [RING, VERDICT], 1, b"invalid order 1\n"),
    (
        &["list", "matrix", "first", "1"],
        [CHAIN, b""],
        0,
        b"pq-list 1\nkind matrix\ncolumns 3\norders 1\norder 1 2 3\nmore yes\nend\n",
    ),
    (
        MEET,
        [b"(1 (2 3))", b"((1 2) 3)"],
        0,
        b"pq-meet 1\ncolumns 3\nrows 2 2\nanswer yes\ntree [1 2 3]\norder 1 2 3\nend\n",
    ),
    (
        EXTEND,
        [CHAIN, b"1 2 3\n"],
        0,
        b"pq-extend 1\nkind matrix\ncolumns 3\n1 ok\ntree [1 2 3]\norder 1 2 3\nend\n",
    ),
    (
        &["gen", "0", "2", "3"],
        [b"", b""],
        0,
        b"pq-gen 1\ncolumns 2\nrows 3\nones 6\nanswer yes\np 1\nq 0\nend\n",
    ),
    (&["unit", "first"], [PATH, b""], 0, UNIT),
    (CHECK_UNIT, [PATH, UNIT], 0, b"valid\n"),
    (CHECK_UNIT, [PATH, b""], 1, b"invalid text\n"),
    (&["core", "matrix", "first"], [CHAIN, b""], 1, VERDICT),
    (CHECK_CORE, [RING, CORE], 0, b"valid\n"),
];

// Runs that are stopped.
const STOPPED: &[Few] = &[
    (&[], [b"", b""], 2, b"pq: words\n"),
    (
        &["solve", "matrix", "missing"],
        [CHAIN, b""],
        4,
        b"pq: read fault\n",
    ),
    (
        SOLVE,
        [b"110\n01\n", b""],
        3,
        b"pq: refused 1 code 3 line 2\n",
    ),
    (
        EXTEND,
        [CHAIN, b"1 4\n"],
        3,
        b"pq: refused 2 code 4 line 1\n",
    ),
    (
        MEET,
        [b"(1 2 3)", b"(1 2)"],
        3,
        b"pq: refused 2 code 12 line 0\n",
    ),
];

// Whether a run leaves this status, this output and this line of errors.
fn is_left(alloc: Global, row: &Few, out: &[u8], err: &[u8]) -> Result<bool, NoMemory> {
    let (words, files, status, _) = *row;
    let call = Call {
        words,
        files,
        room: 1000,
        err_room: 100,
    };
    leaves(alloc, &call, &Wanted { status, out, err })
}

#[test]
fn runs_that_are_answered(rt: HostRuntime) -> Result<(), Fail> {
    for (i, row) in ANSWERED.iter().enumerate() {
        assert!(rt; is_left(rt.alloc(), row, row.3, b"")?, "{i}");
    }
    Ok(())
}

#[test]
fn runs_that_are_stopped(rt: HostRuntime) -> Result<(), Fail> {
    for (i, row) in STOPPED.iter().enumerate() {
        assert!(rt; is_left(rt.alloc(), row, b"", row.3)?, "{i}");
    }
    Ok(())
}
