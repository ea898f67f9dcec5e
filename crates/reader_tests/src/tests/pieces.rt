// Texts that come in pieces.
ghost use Rattle.std.specs.Prelude.{◌≤◌, length, IfOk};

use crate::tests::same::assert_same;
use crate::tests::told::{Told, read_told};
use graph_model::{Bigraph, Graph};
use graph_read::{BigraphReader, GraphReader};
use matrix_read::{DenseReader, RowsReader};
use row_model::{Matrix, NoMemory, Read};
use std::alloc::Global;
use std::process::Abort;

// A reader of a text that comes in pieces.
trait Pieces: Drop {
    type Made: Told + Drop;

    fn begin() -> Self;

    fn next(self, alloc: Global, text: &[u8]) -> Result<(Self, usize), NoMemory>
        ensures { IfOk result (λ taken. taken.1 ≤ length text.now) };

    fn last(self, alloc: Global, text: &[u8]) -> Result<Read<Self::Made>, NoMemory>;
}

impl Pieces for DenseReader {
    type Made = Matrix;

    fn begin() -> Self {
        DenseReader::new()
    }

    fn next(self, alloc: Global, text: &[u8]) -> Result<(Self, usize), NoMemory> {
        self.take(alloc, text)
    }

    fn last(self, alloc: Global, text: &[u8]) -> Result<Read<Matrix>, NoMemory> {
        self.finish(alloc, text)
    }
}

impl Pieces for RowsReader {
    type Made = Matrix;

    fn begin() -> Self {
        RowsReader::new()
    }

    fn next(self, alloc: Global, text: &[u8]) -> Result<(Self, usize), NoMemory> {
        self.take(alloc, text)
    }

    fn last(self, alloc: Global, text: &[u8]) -> Result<Read<Matrix>, NoMemory> {
        self.finish(alloc, text)
    }
}

impl Pieces for GraphReader {
    type Made = Graph;

    fn begin() -> Self {
        GraphReader::new()
    }

    fn next(self, alloc: Global, text: &[u8]) -> Result<(Self, usize), NoMemory> {
        self.take(alloc, text)
    }

    fn last(self, alloc: Global, text: &[u8]) -> Result<Read<Graph>, NoMemory> {
        self.finish(alloc, text)
    }
}

// The left side has at most three vertices.
impl Pieces for BigraphReader {
    type Made = Bigraph;

    fn begin() -> Self {
        BigraphReader::new(3)
    }

    fn next(self, alloc: Global, text: &[u8]) -> Result<(Self, usize), NoMemory> {
        self.take(alloc, text)
    }

    fn last(self, alloc: Global, text: &[u8]) -> Result<Read<Bigraph>, NoMemory> {
        self.finish(alloc, text)
    }
}

// What is read of a text that comes up to each of two places, and then up to its end. What a reader leaves comes again.
fn told_in_pieces<R: Pieces>(
    alloc: Global,
    text: &[u8],
    first: usize,
    second: usize,
) -> Result<String, NoMemory> {
    let second = second.min(text.len());
    let first = first.min(second);
    let (reader, taken) = R::begin().next(alloc, &text[..first])?;
    let (reader, more) = reader.next(alloc, &text[taken..second])?;
    read_told(alloc, reader.last(alloc, &text[taken + more..]))
}

// Asserts what is read from the text that is cut at these places.
fn assert_cut_at<R: Pieces>(
    rt: &impl Abort,
    alloc: Global,
    text: &[u8],
    wanted: &str,
    first: usize,
    second: usize,
) -> Result<(), NoMemory> {
    let told = told_in_pieces::<R>(alloc, text, first, second)?;
    assert_same(rt, told.as_str(), wanted, (text, first, second));
    Ok(())
}

// Asserts of each text what is read from it, wherever it is cut.
fn assert_cut<R: Pieces>(
    rt: &impl Abort,
    alloc: Global,
    cases: &[(&[u8], &str)],
) -> Result<(), NoMemory> {
    for (text, wanted) in cases {
        for second in 0..text.len() + 1 {
            for first in 0..second + 1 {
                assert_cut_at::<R>(rt, alloc, text, wanted, first, second)?;
            }
        }
    }
    Ok(())
}

const ROWS: &[(&[u8], &str)] = &[
    (b"5\n1 2\n3 4\n2 3\n", "5: [ 1 2 ] [ 3 4 ] [ 2 3 ]"),
    (
        b"\xEF\xBB\xBF 04\r\n3 1 3\n\n4\t02\r",
        "4: [ 1 3 ] [ ] [ 2 4 ]",
    ),
    // A mark in a later line is no mark.
    (b"2\n\xEF\xBB\xBF1\n", "refused 2 in line 2"),
    (b"3\n1\n\n\n2 4\n1\n", "refused 4 in line 5"),
    (b"\n1\n", "refused 2 in line 1"),
    (b"\xEF\xBB\xBF", "refused 1 in line 0"),
    (b"", "refused 1 in line 0"),
    (b"2\r\n\r\n1 2\r\n", "2: [ ] [ 1 2 ]"),
];

#[test]
fn rows_may_be_cut_anywhere(rt: HostRuntime) -> Result<(), NoMemory> {
    assert_cut::<RowsReader>(&rt, rt.alloc(), ROWS)
}

const DIGITS: &[(&[u8], &str)] = &[
    (b"110\n011\n", "3: [ 1 2 ] [ 2 3 ]"),
    (b"\xEF\xBB\xBF \r\n\n1 0\r\n\t\n01\r", "2: [ 1 ] [ 2 ]"),
    // Blank lines count, and a mark in a later line is no mark.
    (b"\n\n10\n\n\n102\n", "refused 2 in line 6"),
    (b"10\n\n\n1\n11\n", "refused 3 in line 4"),
    (b"\n\xEF\xBB\xBF1\n", "refused 2 in line 2"),
    (b" \n\t\r\n\n", "refused 1 in line 0"),
    (b"\xEF\xBB\xBF", "refused 1 in line 0"),
    (b"", "refused 1 in line 0"),
];

#[test]
fn digits_may_be_cut_anywhere(rt: HostRuntime) -> Result<(), NoMemory> {
    assert_cut::<DenseReader>(&rt, rt.alloc(), DIGITS)
}

const GRAPHS: &[(&[u8], &str)] = &[
    (
        b"12\n1 12\n12 1\n\n2 10\n10 11",
        "12: [ 12 ] [ 10 ] [ ] [ ] [ ] [ ] [ ] [ ] [ ] [ 2 11 ] [ 10 ] [ 1 ]",
    ),
    (
        b"\xEF\xBB\xBF\r\n \r\n03\r\n2\t1\r\n\r\n 3 2 ",
        "3: [ 2 ] [ 1 3 ] [ 2 ]",
    ),
    // A mark in a later line is no mark.
    (b"2\n\xEF\xBB\xBF1 2\n", "refused 2 in line 2"),
    // The first refusal stays, and blank lines count.
    (b"\n3\n1 2\n\n\n2 2\n1 4\n1\n", "refused 6 in line 6"),
    (b"\n0\n1 2\n", "refused 4 in line 2"),
    (b"\xEF\xBB\xBF\n \n\t", "refused 1 in line 0"),
    (b"", "refused 1 in line 0"),
];

#[test]
fn a_graph_may_be_cut_anywhere(rt: HostRuntime) -> Result<(), NoMemory> {
    assert_cut::<GraphReader>(&rt, rt.alloc(), GRAPHS)
}

const BIGRAPHS: &[(&[u8], &str)] = &[
    (
        b"3 12\n3 12\n1 10\n1 1\n3 2\n",
        "3 to 12: [ 1 10 ] [ ] [ 2 12 ]",
    ),
    (b"\xEF\xBB\xBF2 3\r\n2 03\r\n\r\n1 1", "2 to 3: [ 1 ] [ 3 ]"),
    (b"2 3\n1 3\n\r\n1 4\nx\n", "refused 4 in line 4"),
    (b"\n\n4 3\n9 9\n", "refused 7 in line 3"),
    (b"2\n", "refused 2 in line 1"),
];

#[test]
fn a_bipartite_graph_may_be_cut_anywhere(rt: HostRuntime) -> Result<(), NoMemory> {
    assert_cut::<BigraphReader>(&rt, rt.alloc(), BIGRAPHS)
}
