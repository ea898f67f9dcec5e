// Runs over files at a limit of their bytes, rows, columns, items and distances, and past it.
use crate::tests::devices::{Case, Device, is_left, outcome_over};
use pq_io::NoMemory;
use std::alloc::Global;
use std::test::Fail;

// Whether a solve of a file leaves what is wanted.
fn solves_to(
    alloc: Global,
    kind: &str,
    file: &[u8],
    status: u8,
    out: &[u8],
    err: &[u8],
) -> Result<bool, NoMemory> {
    let case = Case {
        words: &["solve", kind, "matrix"],
        file,
        second: b"",
        status,
    };
    let outcome = outcome_over(alloc, case, usize::MAX, Device::Files, 0)?;
    Ok(is_left(&outcome, status, out, err))
}

// Whether one column with these further bytes is solved, and with one more of them refused.
fn is_the_limit(alloc: Global, further: &[u8], err: &[u8]) -> Result<bool, NoMemory> {
    let one = b"pq-verdict 2\nkind rows\ncolumns 1\nanswer yes\ntree 1\norder 1\nend\n";
    let mut file = b"1\n".to_vec(alloc)?;
    file.extend_from_slice(further)?;
    let is_taken = solves_to(alloc, "rows", &file, 0, one, b"")?;
    file.extend_from_slice(further.get(..1).unwrap_or(b""))?;
    Ok(is_taken && solves_to(alloc, "rows", &file, 3, b"", err)?)
}

#[test]
fn the_greatest_number_of_bytes(rt: HostRuntime) -> Result<(), Fail> {
    let spaces = vec![in rt.alloc(); b' '; 16_777_214]?;
    assert!(rt; is_the_limit(rt.alloc(), &spaces, b"pq: refused 1 code 7 line 0\n")?);
    Ok(())
}

#[test]
fn the_greatest_number_of_rows(rt: HostRuntime) -> Result<(), Fail> {
    let blank = vec![in rt.alloc(); b'\n'; 131_072]?;
    assert!(rt; is_the_limit(rt.alloc(), &blank, b"pq: refused 1 code 7 line 131074\n")?);
    Ok(())
}

// Files of distances and of columns that are past a limit, or within it and refused for another cause, with the line.
const REFUSED: &[(&str, &[u8], &[u8])] = &[
    ("robinson", b"256\n", b"pq: refused 1 code 3 line 0\n"),
    ("robinson", b"257\n", b"pq: refused 1 code 7 line 1\n"),
    (
        "robinson",
        b"1\n18446744073709551616\n",
        b"pq: refused 1 code 4 line 2\n",
    ),
    ("rows", b"2049\n", b"pq: refused 1 code 7 line 1\n"),
];

// Whether each of these files is refused so.
fn are_refused(alloc: Global, cases: &[(&str, &[u8], &[u8])]) -> Result<bool, NoMemory> {
    for (kind, file, err) in cases {
        if !solves_to(alloc, kind, file, 3, b"", err)? {
            return Ok(false);
        }
    }
    Ok(true)
}

#[test]
fn files_past_a_limit(rt: HostRuntime) -> Result<(), Fail> {
    assert!(rt; are_refused(rt.alloc(), REFUSED)?);
    Ok(())
}

#[test]
fn the_greatest_distance(rt: HostRuntime) -> Result<(), Fail> {
    let file = b"2\n0 18446744073709551615\n18446744073709551615 0\n";
    let out = b"pq-verdict 2\nkind robinson\ncolumns 2\nanswer yes\ntree (1 2)\norder 1 2\nend\n";
    assert!(rt; solves_to(rt.alloc(), "robinson", file, 0, out, b"")?);
    Ok(())
}

// A file of so many bytes, the first of which are these and the others spaces.
fn spaced(alloc: Global, front: &[u8], size: usize) -> Result<Vec<u8>, NoMemory> {
    let mut file = front.to_vec(alloc)?;
    file.resize(size, b' ')?;
    Ok(file)
}

#[test]
fn too_many_bytes_behind_a_refused_line(rt: HostRuntime) -> Result<(), Fail> {
    let alloc = rt.alloc();
    let within = spaced(alloc, b"2\n3\n1\n", 16_777_216)?;
    assert!(rt;
        solves_to(
            alloc,
            "rows",
            &within,
            3,
            b"",
            b"pq: refused 1 code 4 line 2\n"
        )?
    );
    let beyond = spaced(alloc, b"2\n3\n1\n", 16_777_217)?;
    assert!(rt;
        solves_to(
            alloc,
            "rows",
            &beyond,
            3,
            b"",
            b"pq: refused 1 code 7 line 0\n"
        )?
    );
    Ok(())
}

#[test]
fn a_line_of_many_bytes(rt: HostRuntime) -> Result<(), Fail> {
    let alloc = rt.alloc();
    let mut file = spaced(alloc, b"3\n1", 1_000_000)?;
    file.extend_from_slice(b"2\n2 3\n")?;
    let out = b"pq-verdict 2\nkind rows\ncolumns 3\nanswer yes\ntree [1 2 3]\norder 1 2 3\nend\n";
    assert!(rt; solves_to(alloc, "rows", &file, 0, out, b"")?);
    Ok(())
}
