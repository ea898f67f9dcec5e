// Runs over devices of which each call fails in turn, and over devices of which none does.
use crate::tests::devices::{Case, Device, is_left, outcome_over, texts_of};
use pq_cli::run;
use pq_io::{NeverShelf, NeverSink, NoMemory};
use std::alloc::Global;
use std::test::Fail;

const READ_FAULT: &[u8] = b"pq: read fault\n";

const WRITE_FAULT: &[u8] = b"pq: write fault\n";

const CHAIN: &[u8] = b"110\n011\n";

const VERDICT: &[u8] =
    b"pq-verdict 2\nkind matrix\ncolumns 3\nanswer yes\ntree [1 2 3]\norder 1 2 3\nend\n";

const SOLVED: Case<'static> = Case {
    words: &["solve", "matrix", "matrix"],
    file: CHAIN,
    second: b"",
    status: 0,
};

const CHECKED: Case<'static> = Case {
    words: &["check", "matrix", "matrix", "verdict"],
    file: CHAIN,
    second: VERDICT,
    status: 0,
};

// Whether these calls of the files, from the first to the last, each fail with nothing written but the line.
fn are_unread(
    alloc: Global,
    case: Case<'_>,
    piece: usize,
    first: u64,
    last: u64,
) -> Result<bool, NoMemory> {
    for call in first..=last {
        let outcome = outcome_over(alloc, case, piece, Device::Files, call)?;
        if !is_left(&outcome, 4, b"", READ_FAULT) {
            return Ok(false);
        }
    }
    Ok(true)
}

// The bytes of a text that the writes before this one take.
fn taken_before(text: &[u8], piece: usize, write: u64) -> &[u8] {
    let taken = (write as usize).saturating_sub(1).saturating_mul(piece);
    text.get(..taken).unwrap_or(text)
}

// Whether the first so many writes of a text each fail, with what the writes before took, and with the line.
fn are_unwritten(
    alloc: Global,
    case: Case<'_>,
    piece: usize,
    writes: u64,
    text: &[u8],
) -> Result<bool, NoMemory> {
    for write in 1..=writes {
        let outcome = outcome_over(alloc, case, piece, Device::Output, write)?;
        if !is_left(&outcome, 5, taken_before(text, piece, write), WRITE_FAULT) {
            return Ok(false);
        }
    }
    Ok(true)
}

#[test]
fn one_byte_at_a_time(rt: HostRuntime) -> Result<(), Fail> {
    let outcome = outcome_over(rt.alloc(), SOLVED, 1, Device::Files, 0)?;
    assert!(rt; is_left(&outcome, 0, VERDICT, b""));
    Ok(())
}

// A file of 8 bytes takes a choice and nine reads, of which the last gives nothing; the choice of a second file is the
// eleventh call.
#[test]
fn reads_that_fail(rt: HostRuntime) -> Result<(), Fail> {
    assert!(rt; are_unread(rt.alloc(), SOLVED, 1, 1, 10)?);
    assert!(rt; are_unread(rt.alloc(), CHECKED, 1, 11, 11)?);
    Ok(())
}

#[test]
fn writes_that_fail(rt: HostRuntime) -> Result<(), Fail> {
    assert!(rt; are_unwritten(rt.alloc(), SOLVED, 1, 75, VERDICT)?);
    Ok(())
}

#[test]
fn a_line_of_errors_that_fails(rt: HostRuntime) -> Result<(), Fail> {
    let refused = Case {
        words: SOLVED.words,
        file: b"110\n01\n",
        second: b"",
        status: 3,
    };
    let outcome = outcome_over(rt.alloc(), refused, 1, Device::Errors, 1)?;
    assert!(rt; is_left(&outcome, 3, b"", b""));
    Ok(())
}

// How many calls read a file: its choice, a read for each piece, and one that gives nothing.
fn calls_of(file: &[u8], piece: usize) -> u64 {
    let pieces = file.len().div_ceil(piece.max(1));
    (pieces as u64).saturating_add(2)
}

// How many calls read the files of a case.
fn reads_of(case: Case<'_>, piece: usize) -> u64 {
    if case.second.is_empty() {
        return calls_of(case.file, piece);
    }
    calls_of(case.file, piece).saturating_add(calls_of(case.second, piece))
}

// Whether each choice of a file and each read fails in turn, and each write; and whether the call behind the last is
// none, and gives what whole files give.
fn fails_in_turn(alloc: Global, case: Case<'_>, piece: usize) -> Result<bool, NoMemory> {
    let whole = outcome_over(alloc, case, usize::MAX, Device::Files, 0)?;
    let text = whole.out.bytes();
    let reads = reads_of(case, piece);
    let writes = text.len().div_ceil(piece.max(1)) as u64;
    let behind = outcome_over(alloc, case, piece, Device::Files, reads.saturating_add(1))?;
    Ok(
        is_left(&behind, case.status, text, b"")
            && are_unread(alloc, case, piece, 1, reads)?
            && are_unwritten(alloc, case, piece, writes, text)?,
    )
}

// Whether a case fails in turn with pieces of 1, 2 and 7 bytes, and with whole files.
fn fails_in_pieces(alloc: Global, case: Case<'_>) -> Result<bool, NoMemory> {
    for piece in [1, 2, 7, usize::MAX] {
        if !fails_in_turn(alloc, case, piece)? {
            return Ok(false);
        }
    }
    Ok(true)
}

// Whether these cases fail in turn.
fn all_fail(alloc: Global, cases: &[Case<'_>]) -> Result<bool, NoMemory> {
    for case in cases {
        if !fails_in_pieces(alloc, *case)? {
            return Ok(false);
        }
    }
    Ok(true)
}

// A yes, a no, a check, further rows, clones, and a file of each other kind.
const CASES: &[Case<'static>] = &[
    SOLVED,
    Case {
        words: &["solve", "matrix", "matrix"],
        file: b"110\n011\n101\n",
        second: b"",
        status: 1,
    },
    CHECKED,
    Case {
        words: &["extend", "matrix", "matrix", "verdict"],
        file: CHAIN,
        second: b"1 3\n1 2 3\n",
        status: 0,
    },
    Case {
        words: &["solve", "clones", "matrix"],
        file: b"{\"probes\":[\"a\",\"b\",\"c\",\"d\",\"e\"],\"clones\":[{\"name\":\"k1\",\"probes\":[\"b\",\"a\"]},{\"name\":\"k2\",\"probes\":[\"b\",\"c\"]},{\"name\":\"k3\",\"probes\":[]},{\"name\":\"k4\",\"probes\":[\"d\"]}]}\n",
        second: b"",
        status: 0,
    },
];

const OTHER_KINDS: &[(&str, &[u8])] = &[
    ("rows", b"5\n1 2\n3 4\n2 3\n"),
    ("table", b"t,a,b,c\nx,2,X,\ny, ,0,1\n"),
    ("circular", b"110\n011\n101\n"),
    ("convex", b"2 3\n1 1\n1 3\n2 2\n2 3\n"),
    ("doubly", b"2 2\n1 1\n1 2\n2 2\n"),
    ("proper", b"4\n1 2\n2 3\n3 4\n"),
    ("robinson", b"3\n0 1 2\n1 0 1\n2 1 0\n"),
];

#[test]
fn each_call_fails_in_turn(rt: HostRuntime) -> Result<(), Fail> {
    assert!(rt; all_fail(rt.alloc(), CASES)?);
    Ok(())
}

// Whether a solve of each kind fails in turn.
fn all_solves_fail(alloc: Global, files: &[(&str, &[u8])]) -> Result<bool, NoMemory> {
    for (kind, file) in files {
        let case = Case {
            words: &["solve", kind, "matrix"],
            file,
            second: b"",
            status: 0,
        };
        if !fails_in_pieces(alloc, case)? {
            return Ok(false);
        }
    }
    Ok(true)
}

#[test]
fn each_call_on_other_kinds_fails_in_turn(rt: HostRuntime) -> Result<(), Fail> {
    assert!(rt; all_solves_fail(rt.alloc(), OTHER_KINDS)?);
    Ok(())
}

// Solves a file by its name over devices of which no call fails: the status, and how many bytes were taken.
fn solved_for_sure(alloc: Global, name: &str) -> Result<(u8, u64), NoMemory> {
    let texts = texts_of(alloc, &["solve", "matrix", name])?;
    let mut files = NeverShelf::new(alloc);
    files.add("matrix", CHAIN)?;
    let mut out = NeverSink::new();
    let mut err = NeverSink::new();
    let status = run(alloc, &texts, &mut files, &mut out, &mut err);
    Ok((status, out.taken()))
}

// A file that was never added is empty.
#[test]
fn devices_that_never_fail(rt: HostRuntime) -> Result<(), Fail> {
    let (status, taken) = solved_for_sure(rt.alloc(), "matrix")?;
    assert!(rt; status == 0 && taken == 75);
    let (status, taken) = solved_for_sure(rt.alloc(), "missing")?;
    assert!(rt; status == 3 && taken == 0);
    Ok(())
}

// The file of 300,004 bytes is read in pieces of 4,096: a choice, 74 reads, and one that gives nothing.
#[test]
fn reads_that_fail_behind_a_refused_line(rt: HostRuntime) -> Result<(), Fail> {
    let alloc = rt.alloc();
    let mut file = b"2\n3\n".to_vec(alloc)?;
    for _ in 0..100_000 {
        file.extend_from_slice(b"1 \n")?;
    }
    let refused = Case {
        words: &["solve", "rows", "matrix"],
        file: &file,
        second: b"",
        status: 3,
    };
    assert!(rt; are_unread(alloc, refused, 4096, 76, 76)?);
    let outcome = outcome_over(alloc, refused, 4096, Device::Files, 77)?;
    assert!(rt; is_left(&outcome, 3, b"", b"pq: refused 1 code 4 line 2\n"));
    Ok(())
}
