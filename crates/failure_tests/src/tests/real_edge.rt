// Runs over the shelf of the system's files, at a runtime of the tests: its files tell their bytes, and give them in
// pieces, are interrupted and fail as is listed.
use crate::tests::devices::texts_of;
use crate::tests::played::{Playing, Script, Step};
use pq_cli::run;
use pq_io::{MemSink, NoMemory, RealShelf};
use std::alloc::Global;
use std::test::Fail;

// What a run leaves: the status, the text, and the line of what stood in its way.
#[derive(Clone, Copy)]
struct Left<'a> {
    status: u8,
    out: &'a [u8],
    err: &'a [u8],
}

// What is told of a run, its words, the first file, the second and standard input, and what it leaves.
type Row<'a> = (
    &'a str,
    &'a [&'a str],
    Script<'a>,
    Script<'a>,
    Script<'a>,
    Left<'a>,
);

// Whether a row leaves what it should.
fn is_left(alloc: Global, row: &Row<'_>) -> Result<bool, NoMemory> {
    let (_, words, first, second, input, left) = *row;
    let texts = texts_of(alloc, words)?;
    let mut files = RealShelf::new(Playing {
        first,
        second,
        input,
    });
    let (mut out, mut err) = (MemSink::new(alloc), MemSink::new(alloc));
    out.reserve(1000)?;
    err.reserve(1000)?;
    let status = run(alloc, &texts, &mut files, &mut out, &mut err);
    Ok(status == left.status && out.bytes() == left.out && err.bytes() == left.err)
}

const SOLVE: &[&str] = &["solve", "matrix", "first"];

const CHECK: &[&str] = &["check", "matrix", "first", "second"];

const ANSWER: &[u8] =
    b"pq-verdict 2\nkind matrix\ncolumns 3\nanswer yes\ntree [1 2 3]\norder 1 2 3\nend\n";

const SOLVED: Left<'static> = Left {
    status: 0,
    out: ANSWER,
    err: b"",
};

const VALID: Left<'static> = Left {
    status: 0,
    out: b"valid\n",
    err: b"",
};

const UNREAD: Left<'static> = Left {
    status: 4,
    out: b"",
    err: b"pq: read fault\n",
};

const NO_MEMORY: Left<'static> = Left {
    status: 6,
    out: b"",
    err: b"pq: no memory\n",
};

const NONE: Script<'static> = Script {
    bytes: b"",
    steps: &[],
};

const CHAIN_BYTES: &[u8] = b"110\n011\n";

const CHAIN: Script<'static> = Script {
    bytes: CHAIN_BYTES,
    steps: &[],
};

// The same bytes in pieces, with interruptions before, between and behind them.
const IN_PIECES: Script<'static> = Script {
    bytes: CHAIN_BYTES,
    steps: &[
        Step::Interrupted,
        Step::UpTo(1),
        Step::Interrupted,
        Step::Interrupted,
        Step::UpTo(4),
        Step::UpTo(2),
        Step::UpTo(1),
        Step::Interrupted,
    ],
};

const VERDICT: Script<'static> = Script {
    bytes: ANSWER,
    steps: &[Step::Interrupted, Step::UpTo(9)],
};

// A file that fails at once, or behind its first two bytes.
const FAILS: Script<'static> = Script {
    bytes: ANSWER,
    steps: &[Step::Fault],
};

const BREAKS_OFF: Script<'static> = Script {
    bytes: ANSWER,
    steps: &[Step::UpTo(2), Step::Fault],
};

const ONE_FILE: &[Row<'static>] = &[
    ("a file at once", SOLVE, CHAIN, NONE, NONE, SOLVED),
    ("a file in pieces", SOLVE, IN_PIECES, NONE, NONE, SOLVED),
    (
        "standard input in pieces",
        &["solve", "matrix", "-"],
        NONE,
        NONE,
        IN_PIECES,
        SOLVED,
    ),
    (
        "nothing is read behind the end",
        SOLVE,
        Script {
            bytes: CHAIN_BYTES,
            steps: &[Step::UpTo(8), Step::UpTo(1), Step::Fault],
        },
        NONE,
        NONE,
        SOLVED,
    ),
    (
        "a refused file in pieces",
        SOLVE,
        Script {
            bytes: b"110\n02",
            steps: &[Step::UpTo(4)],
        },
        NONE,
        NONE,
        Left {
            status: 3,
            out: b"",
            err: b"pq: refused 1 code 2 line 2\n",
        },
    ),
];

const NOT_READ: &[Row<'static>] = &[
    (
        "a fault behind the last byte",
        SOLVE,
        Script {
            bytes: CHAIN_BYTES,
            steps: &[Step::UpTo(8), Step::Fault],
        },
        NONE,
        NONE,
        UNREAD,
    ),
    (
        "a fault of standard input",
        &["solve", "matrix", "-"],
        NONE,
        NONE,
        FAILS,
        UNREAD,
    ),
    (
        "no file of this name",
        &["solve", "matrix", "third"],
        CHAIN,
        CHAIN,
        CHAIN,
        UNREAD,
    ),
    (
        "no second file of this name",
        &["check", "matrix", "first", "third"],
        CHAIN,
        VERDICT,
        VERDICT,
        UNREAD,
    ),
    (
        "an opening without memory",
        &["solve", "matrix", "unopened"],
        CHAIN,
        CHAIN,
        CHAIN,
        NO_MEMORY,
    ),
    (
        "a second opening without memory",
        &["check", "matrix", "first", "unopened"],
        CHAIN,
        VERDICT,
        VERDICT,
        NO_MEMORY,
    ),
];

const TWO_FILES: &[Row<'static>] = &[
    (
        "each file by its name",
        CHECK,
        IN_PIECES,
        VERDICT,
        FAILS,
        VALID,
    ),
    (
        "the names the other way round",
        &["check", "matrix", "second", "first"],
        VERDICT,
        IN_PIECES,
        FAILS,
        VALID,
    ),
    (
        "standard input first",
        &["check", "matrix", "-", "second"],
        FAILS,
        VERDICT,
        CHAIN,
        VALID,
    ),
    (
        "standard input second",
        &["check", "matrix", "first", "-"],
        CHAIN,
        FAILS,
        VERDICT,
        VALID,
    ),
    (
        "one name twice",
        &["meet", "3", "first", "first"],
        Script {
            bytes: b"[1 2 3]\n",
            steps: &[Step::UpTo(3)],
        },
        FAILS,
        FAILS,
        Left {
            status: 0,
            out: b"pq-meet 1\ncolumns 3\nrows 3 3\nanswer yes\ntree [1 2 3]\norder 1 2 3\nend\n",
            err: b"",
        },
    ),
    (
        "a fault of a second file",
        CHECK,
        CHAIN,
        BREAKS_OFF,
        VERDICT,
        UNREAD,
    ),
    (
        "a fault of standard input as the second file",
        &["check", "matrix", "first", "-"],
        CHAIN,
        VERDICT,
        BREAKS_OFF,
        UNREAD,
    ),
    (
        "a refused second file",
        &["extend", "matrix", "first", "second"],
        CHAIN,
        Script {
            bytes: b"9",
            steps: &[],
        },
        NONE,
        Left {
            status: 3,
            out: b"",
            err: b"pq: refused 2 code 4 line 1\n",
        },
    ),
];

#[test]
fn one_file(rt: HostRuntime) -> Result<(), Fail> {
    for row in ONE_FILE {
        assert!(rt; is_left(rt.alloc(), row)?, "{}", row.0);
    }
    Ok(())
}

#[test]
fn files_that_are_not_read(rt: HostRuntime) -> Result<(), Fail> {
    for row in NOT_READ {
        assert!(rt; is_left(rt.alloc(), row)?, "{}", row.0);
    }
    Ok(())
}

#[test]
fn two_files(rt: HostRuntime) -> Result<(), Fail> {
    for row in TWO_FILES {
        assert!(rt; is_left(rt.alloc(), row)?, "{}", row.0);
    }
    Ok(())
}

// A text of one line many times and another at its end.
fn text_of(alloc: Global, line: &[u8], times: usize, last: &[u8]) -> Result<Vec<u8>, NoMemory> {
    let mut text = Vec::new(alloc);
    for _ in 0..times {
        text.extend_from_slice(line)?;
    }
    text.extend_from_slice(last)?;
    Ok(text)
}

// A buffer has 16 KiB at first, and these files have 20,000 bytes.
#[test]
fn files_of_more_than_one_buffer(rt: HostRuntime) -> Result<(), Fail> {
    let bytes = text_of(rt.alloc(), b"110\n", 4999, b"011\n")?;
    let foreign = text_of(rt.alloc(), b"110\n", 4999, b"012\n")?;
    let pieces = [Step::UpTo(7000), Step::Interrupted, Step::UpTo(9384)];
    let at_once = Script {
        bytes: &bytes,
        steps: &[],
    };
    let in_pieces = Script {
        bytes: &bytes,
        steps: &pieces,
    };
    let refused = Script {
        bytes: &foreign,
        steps: &pieces,
    };
    let told = Left {
        status: 3,
        out: b"",
        err: b"pq: refused 1 code 2 line 5000\n",
    };
    for row in [
        ("at once", SOLVE, at_once, NONE, NONE, SOLVED),
        ("in pieces", SOLVE, in_pieces, NONE, NONE, SOLVED),
        ("refused in its last line", SOLVE, refused, NONE, NONE, told),
    ] {
        assert!(rt; is_left(rt.alloc(), &row)?, "{}", row.0);
    }
    Ok(())
}

#[test]
fn files_at_the_limit_and_past_it(rt: HostRuntime) -> Result<(), Fail> {
    let solved = Left {
        status: 0,
        out: b"pq-verdict 2\nkind rows\ncolumns 1\nanswer yes\ntree 1\norder 1\nend\n",
        err: b"",
    };
    let told = Left {
        status: 3,
        out: b"",
        err: b"pq: refused 1 code 7 line 0\n",
    };
    let words: &[&str] = &["solve", "rows", "first"];
    let blank = vec![in rt.alloc(); b' '; 16_777_215]?;
    let bytes = text_of(rt.alloc(), b"1\n", 1, &blank)?;
    let at_the_limit = Script {
        bytes: bytes.get(..16_777_216).unwrap_or(b""),
        steps: &[],
    };
    let past_it = Script {
        bytes: &bytes,
        steps: &[],
    };
    for row in [
        ("at the limit", words, at_the_limit, NONE, NONE, solved),
        ("past it", words, past_it, NONE, NONE, told),
    ] {
        assert!(rt; is_left(rt.alloc(), &row)?, "{}", row.0);
    }
    Ok(())
}
