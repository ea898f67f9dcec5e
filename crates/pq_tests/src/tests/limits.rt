// Runs at the limits of bytes and of columns.
use crate::tests::runs::{Call, Wanted, leaves};
use pq_io::NoMemory;
use std::alloc::Global;
use std::test::Fail;

// Whether a check of a verdict of so many bytes, none of which a verdict has, writes this line.
fn is_said_of(alloc: Global, count: usize, line: &[u8]) -> Result<bool, NoMemory> {
    let bytes = vec![in alloc; b'x'; count]?;
    let call = Call {
        words: &["check", "matrix", "first", "second"],
        files: [b"1\n", &bytes],
        room: 100,
        err_room: 100,
    };
    let wanted = Wanted {
        status: 1,
        out: line,
        err: b"",
    };
    leaves(alloc, &call, &wanted)
}

#[test]
fn a_verdict_past_the_limit_of_bytes(rt: HostRuntime) -> Result<(), Fail> {
    assert!(rt; is_said_of(rt.alloc(), 134_217_728, b"invalid text\n")?);
    assert!(rt; is_said_of(rt.alloc(), 134_217_729, b"invalid too-long\n")?);
    Ok(())
}

// The verdict on the greatest number of columns that are bound by no row.
fn greatest_verdict(alloc: Global) -> Result<Vec<u8>, NoMemory> {
    let mut verdict = b"pq-verdict 2\nkind rows\ncolumns 2048\nanswer yes\ntree (1".to_vec(alloc)?;
    let mut order = b")\norder 1".to_vec(alloc)?;
    for column in 2..=2048 {
        let word = format!(in alloc; " {column}")?;
        verdict.extend_from_slice(word.as_bytes())?;
        order.extend_from_slice(word.as_bytes())?;
    }
    verdict.extend_from_slice(&order)?;
    verdict.extend_from_slice(b"\nend\n")?;
    Ok(verdict)
}

// Whether `solve` on a file of no rows leaves this.
fn is_solved(alloc: Global, file: &[u8], wanted: &Wanted<'_>) -> Result<bool, NoMemory> {
    let call = Call {
        words: &["solve", "rows", "first"],
        files: [file, b""],
        room: 30_000,
        err_room: 100,
    };
    leaves(alloc, &call, wanted)
}

#[test]
fn the_greatest_number_of_columns(rt: HostRuntime) -> Result<(), Fail> {
    let verdict = greatest_verdict(rt.alloc())?;
    let solved = Wanted {
        status: 0,
        out: &verdict,
        err: b"",
    };
    assert!(rt; is_solved(rt.alloc(), b"2048\n", &solved)?);
    let refused = Wanted {
        status: 3,
        out: b"",
        err: b"pq: refused 1 code 7 line 1\n",
    };
    assert!(rt; is_solved(rt.alloc(), b"2049\n", &refused)?);
    Ok(())
}
