// Files that are refused, by the code and the line of the first refusal.
use crate::tests::same::assert_same;
use crate::tests::told::{Form, assert_read};
use matrix_read::read_dense;
use row_model::{MAX_ROWS, NoMemory, Read, Refusal};
use std::alloc::Global;

const REFUSED: &[(Form, &[u8], &str)] = &[
    (Form::Dense, b"", "refused 1 in line 0"),
    (Form::Dense, b"\n \t\n", "refused 1 in line 0"),
    (Form::Dense, b"12\n", "refused 2 in line 1"),
    (Form::Dense, b"110\n01\n", "refused 3 in line 2"),
    (Form::Dense, b"\n1 0\n\n1x\n1\n", "refused 2 in line 4"),
    (Form::Dense, b"10\r\r\n", "refused 2 in line 1"),
    (Form::Dense, b"11\n1\xEF\n", "refused 2 in line 2"),
    (Form::Rows, b"", "refused 1 in line 0"),
    (Form::Rows, b"\n2\n", "refused 2 in line 1"),
    (Form::Rows, b"2 2\n", "refused 2 in line 1"),
    (Form::Rows, b"+2\n", "refused 2 in line 1"),
    (Form::Rows, b"00\n", "refused 4 in line 1"),
    (Form::Rows, b"2049\n", "refused 7 in line 1"),
    (Form::Rows, b"18446744073709551616\n", "refused 7 in line 1"),
    (Form::Rows, b"2\n3\n", "refused 4 in line 2"),
    (Form::Rows, b"2\n1 0 x\n", "refused 4 in line 2"),
    (Form::Rows, b"2\n\n2 x 0\n", "refused 2 in line 3"),
    (
        Form::Rows,
        b"2\n18446744073709551617\n",
        "refused 4 in line 2",
    ),
    (Form::Rows, b"2\n1\n1 2\n1 3\n", "refused 4 in line 4"),
    (Form::Rows, b"2\n1\n4294967297 2\n", "refused 4 in line 3"),
    (
        Form::Rows,
        b"2048\n1\n1 22 333 1004 1005 1006 1007 1008 1009 1010 1011 1012 1013 10147 1015 1016\n",
        "refused 4 in line 3",
    ),
    (
        Form::Rows,
        b"2048\n1 22 333 1004 1005 1006 1007 1008 1009 1010 1011 1012 1013 1014,1015 1016\n",
        "refused 2 in line 2",
    ),
    (Form::More, b"1 4\n", "refused 4 in line 1"),
    (Form::Table, b"\n\n", "refused 1 in line 0"),
    (Form::Table, b"t\n", "refused 1 in line 1"),
    (Form::Table, b"t,a,a\n", "refused 5 in line 1"),
    (Form::Table, b"t,a,b\nx,1\n", "refused 8 in line 0"),
    (Form::Table, b"t,a, a\t\nx,1,y\nz\n", "refused 8 in line 0"),
    (
        Form::Table,
        b"t,,\n\nr,x,x\r\rq,2x,\n",
        "refused 2 in line 3",
    ),
    // A refused edge has its line, whatever stands before.
    (Form::Bigraph, b"2 3\n1 2\n1 4\n", "refused 4 in line 3"),
    (Form::Bigraph, b"2 3\n1 2\n0 1\n", "refused 4 in line 3"),
    (
        Form::Bigraph,
        b"2 3\n1 2\n\n1\t2\n3 1\n",
        "refused 4 in line 5",
    ),
    (Form::Bigraph, b"2 3\n1 2\n1 2 3\n", "refused 2 in line 3"),
    (
        Form::Bigraph,
        b"2 3\n\n1 2\n1 4294967297\n",
        "refused 4 in line 4",
    ),
    (Form::Bigraph, b"2 3\n1 2\n1 -2\n", "refused 2 in line 3"),
    // The sides have their limits.
    (Form::Bigraph, b"131073 1\n", "refused 7 in line 1"),
    (Form::Bigraph, b"131072 2049\n", "refused 7 in line 1"),
    (
        Form::Bigraph,
        b"0 18446744073709551616\n",
        "refused 4 in line 1",
    ),
    (Form::Bigraph, b"2 3\n3 1\n", "refused 4 in line 2"),
    (Form::Graph, b"", "refused 1 in line 0"),
    (Form::Graph, b"2\n1 1\n", "refused 6 in line 2"),
    (Form::Graph, b"\n2 2\n", "refused 2 in line 2"),
    (Form::Graph, b"0\n", "refused 4 in line 1"),
    (Form::Graph, b"2049\n", "refused 7 in line 1"),
    (Form::Graph, b"2\n\n1 3\n1\n", "refused 4 in line 3"),
    (Form::Graph, b"2\n3 x\n", "refused 2 in line 2"),
    (
        Form::Distances,
        b"3\n0 1 2\n1 0 1\n2 2 0\n",
        "refused 6 in line 4",
    ),
    (Form::Distances, b"257\n", "refused 7 in line 1"),
    (Form::Distances, b"2\n0 1\n", "refused 3 in line 0"),
    (Form::Distances, b"1\n0\n\n0\n", "refused 3 in line 4"),
    (
        Form::Distances,
        b"2\n0 18446744073709551616 x\n",
        "refused 4 in line 2",
    ),
    (Form::Distances, b"2\n0 x\n", "refused 2 in line 2"),
    (Form::Distances, b"2\n1\n", "refused 3 in line 2"),
    (Form::Clones, b"{", "refused 9 in line 0"),
    (Form::Clones, b"\"\xFF\"", "refused 9 in line 0"),
    (Form::Clones, b"[]", "refused 10 in line 0"),
    (
        Form::Clones,
        b"{\"probes\":[],\"clones\":{}}",
        "refused 10 in line 0",
    ),
    (
        Form::Clones,
        b"{\"probes\":[],\"clones\":[1]}",
        "refused 1 in line 0",
    ),
];

#[test]
fn the_first_refusal_counts(rt: HostRuntime) -> Result<(), NoMemory> {
    assert_read(&rt, rt.alloc(), REFUSED)
}

// The refusal of as many rows as are allowed with this text behind them; None where they are read.
fn refusal_behind_rows(alloc: Global, last: &str) -> Result<Option<Refusal>, NoMemory> {
    let mut text = "1\n".repeat(alloc, MAX_ROWS as usize)?;
    text.push_str(last)?;
    match read_dense(alloc, text.as_bytes())? {
        Read::Ok(_) => Ok(None),
        Read::Refused(refusal) => Ok(Some(refusal)),
    }
}

#[test]
fn a_row_past_the_limit_is_refused(rt: HostRuntime) -> Result<(), NoMemory> {
    let refusal = Refusal {
        code: 7,
        line: MAX_ROWS + 1,
    };
    let within = refusal_behind_rows(rt.alloc(), "")?;
    assert_same(&rt, within, None, "as many rows as are allowed");
    let past = refusal_behind_rows(rt.alloc(), "1")?;
    assert_same(&rt, past, Some(refusal), "one row more");
    Ok(())
}
