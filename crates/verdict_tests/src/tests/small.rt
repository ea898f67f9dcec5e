// Small instances that were worked by hand.
ghost use Rattle.std.specs.Prelude.{◌≡◌, ◌≤◌, All, IfOk, length};
ghost use Rattle.row_model.specs.Rows.{IsRow};
ghost use Rattle.instance_model.specs.Instance.{IsInstance};
ghost use Rattle.instance_model.specs.Value.{instance_value};

use graph_model::{Bigraph, Graph};
use row_model::{Kind, Matrix, NoMemory};
use std::alloc::Global;
use std::process::Abort;
use verdict_check::{Checked, Instance, check};
use verdict_text::parse;

pub const VERSION_1: &[u8] = b"pq-verdict 1\n";

pub const VERSION_2: &[u8] = b"pq-verdict 2\n";

// Lines of verdicts after the first, which tells the version.
pub const LINE: &[u8] = b"kind matrix\ncolumns 3\nanswer yes\ntree [1 2 3]\norder 1 2 3\nend\n";

pub const STAR: &[u8] = b"kind matrix\ncolumns 3\nanswer yes\ntree (1 2 3)\norder 1 2 3\nend\n";

pub const TRIANGLE: &[u8] =
    b"kind matrix\ncolumns 3\nanswer no\nside 1\ncycle 3\n1 3 row 1\n3 2 row 3\n2 1 row 2\nend\n";

// Rows, by their name.
#[derive(Clone, Copy)]
pub enum Rows {
    // One row without a column, in three columns.
    Free,
    // The row 110.
    Pair,
    // The rows 110 and 011.
    Path,
    // The rows 110, 011 and 101.
    Triangle,
    // The rows {1,2}, {2,3} and {3,4} in four columns.
    LongPath,
    // The same and {1,4}: the rows round a circle 1 2 3 4.
    Circle,
}

impl Rows {
    pub fn matrix(self, alloc: Global) -> Result<Matrix, NoMemory>
        ensures { IfOk result (λ m. (m.columns ≤ 4) × (length m.rows ≤ 4)) }
    {
        match self {
            Rows::Free => matrix(alloc, 3, &[&[]]),
            Rows::Pair => matrix(alloc, 3, &[&[1, 2]]),
            Rows::Path => matrix(alloc, 3, &[&[1, 2], &[2, 3]]),
            Rows::Triangle => matrix(alloc, 3, &[&[1, 2], &[2, 3], &[1, 3]]),
            Rows::LongPath => matrix(alloc, 4, &[&[1, 2], &[2, 3], &[3, 4]]),
            Rows::Circle => matrix(alloc, 4, &[&[1, 2], &[2, 3], &[3, 4], &[1, 4]]),
        }
    }
}

fn matrix(alloc: Global, columns: u32, rows: &[&[u32]]) -> Result<Matrix, NoMemory>
    requires columns { (1 ≤ columns) × (columns ≤ 4) }
    requires few { length rows.now ≤ 4 }
    requires rows { All (λ row. IsRow columns row.now) rows.now }
    ensures { IfOk result (λ m. (m.columns ≤ 4) × (length m.rows ≤ 4)) }
{
    let mut m = Matrix::new(alloc, columns)?;
    for row in rows {
        m.push_row(row)?;
    }
    Ok(m)
}

// An instance, by its name.
#[derive(Clone, Copy)]
pub enum Small {
    // The rows as they stand.
    Plain(Rows),
    // The rows round a circle. Cut at column 1, those of the triangle are 001, 011 and 010.
    Circular(Rows),
    // Three xs and two ys in a path: 1 has the y 1, 2 has both, and 3 has the y 2.
    Zigzag,
    // One y with three xs.
    Fork,
    // Each of three ys has the x 1 and one x of its own.
    Spider,
    // The path 1 2 3 4 as a graph.
    Chain,
}

impl Small {
    fn instance(self, alloc: Global) -> Result<Instance, NoMemory>
        ensures { IfOk result (λ i. IsInstance (instance_value i)) }
    {
        match self {
            Small::Plain(rows) => Ok(Instance::Plain(Kind::Matrix, rows.matrix(alloc)?)),
            Small::Circular(rows) => Ok(Instance::Circular(rows.matrix(alloc)?)),
            Small::Zigzag => doubly(alloc, 3, 2, &[(1, 1), (2, 1), (2, 2), (3, 2)]),
            Small::Fork => doubly(alloc, 3, 1, &[(1, 1), (2, 1), (3, 1)]),
            Small::Spider => {
                doubly(
                    alloc,
                    4,
                    3,
                    &[(1, 1), (2, 1), (1, 2), (3, 2), (1, 3), (4, 3)],
                )
            }
            Small::Chain => Ok(Instance::Proper(chain(alloc)?)),
        }
    }
}

// The graph of the edges from an x to a y.
fn doubly(alloc: Global, xs: u32, ys: u32, edges: &[(u32, u32)]) -> Result<Instance, NoMemory>
    requires xs { (1 ≤ xs) × (xs ≤ 4) }
    requires ys { (1 ≤ ys) × (ys ≤ 4) }
    requires edges { All (λ (x, y). (1 ≤ x) × (x ≤ xs) × (1 ≤ y) × (y ≤ ys)) edges.now }
    ensures { IfOk result (λ i. IsInstance (instance_value i)) }
{
    let mut g = Bigraph::new(alloc, xs, ys)?;
    for (x, y) in edges {
        g.add_edge(*x, *y)?;
    }
    Ok(Instance::Doubly(g))
}

pub fn chain(alloc: Global) -> Result<Graph, NoMemory>
    ensures { IfOk result (λ g. g.vertices ≡ 4) }
{
    let mut g = Graph::new(alloc, 4)?;
    g.add_edge(1, 2)?;
    g.add_edge(2, 3)?;
    g.add_edge(3, 4)?;
    Ok(g)
}

// What is said of the verdict with this text, if it is one.
fn judged(alloc: Global, instance: &Instance, text: &[u8]) -> Result<Option<Checked>, NoMemory>
    requires { IsInstance (instance_value instance.now) }
{
    match parse(alloc, text)? {
        None => Ok(None),
        Some(v) => Ok(Some(check(alloc, instance, &v)?)),
    }
}

fn said_of(alloc: Global, small: Small, text: &[u8]) -> Result<Option<Checked>, NoMemory> {
    judged(alloc, &small.instance(alloc)?, text)
}

// What is said of the verdict with this first line and these further lines.
fn said_of_lines(
    alloc: Global,
    small: Small,
    version: &[u8],
    lines: &[u8],
) -> Result<Option<Checked>, NoMemory> {
    said_of(alloc, small, &[version, lines].concat(alloc)?)
}

// Asserts what is said of each verdict.
pub fn assert_judged(
    rt: &impl Abort,
    alloc: Global,
    version: &[u8],
    rows: &[(Small, &[u8], Checked)],
) -> Result<(), NoMemory> {
    for i in 0..rows.len() {
        let (small, lines, wanted) = rows[i];
        let said = said_of_lines(alloc, small, version, lines)?;
        assert_eq!(rt; said, Some(wanted), "verdict {i}");
    }
    Ok(())
}
