// The incompatibility graph: its vertices are the ordered pairs of distinct columns.
ghost use Rattle.std.specs.Prelude.{◌↔◌, ◌≤◌, length, IsTrue};
ghost use Rattle.row_model.specs.Graph.{IsPair, Crosses, JoinedBy, row_at};

use crate::matrix::Matrix;

/// An ordered pair of columns. Where they are distinct it is a vertex of the incompatibility graph (McConnell, 2004).
/// Pairs are ordered by their first columns, and by their second ones where these are the same.
#[derive(Clone, Copy, Debug, PartialEq, Eq, PartialOrd, Ord)]
pub struct Pair {
    /// The first column.
    pub a: u32,
    /// The second column.
    pub b: u32,
}

/// The reason for which two pairs are joined.
#[derive(Clone, Copy, Debug, PartialEq, Eq)]
pub enum Why {
    /// The pairs are (a,b) and (b,a).
    Flip,
    /// The pairs are (a,b) and (b,d) in either order, and the row of this number, from 1, has a and d and lacks b.
    Row(u32),
}

/// A line of a walk: a pair, and the reason for which it is joined to the pair of the next line.
#[derive(Clone, Copy, Debug, PartialEq, Eq)]
pub struct Line {
    /// The pair.
    pub pair: Pair,
    /// The reason that joins it to the next pair; in the last line of a closed walk, to the first pair.
    pub why: Why,
}

/// Whether the incompatibility graph of the matrix joins the two pairs for this reason (McConnell, 2004).
///
/// False for a row 0 or past the end, for a column out of range, and for a pair of equal columns.
pub fn joined_by(m: &Matrix, v: Pair, w: Pair, why: Why) -> bool
    ensures { IsTrue result ↔ JoinedBy m.now.columns m.now.rows v w why }
{
    let columns = m.columns();
    is_pair(columns, v)
        && is_pair(columns, w)
        && match why {
            Why::Flip => v.a == w.b && v.b == w.a,
            Why::Row(k) => {
                1 <= k && k <= m.rows() && (crosses(m, k, v, w) || crosses(m, k, w, v))
            }
        }
}

/// Whether the pair has two distinct ones of the columns 1 to `c`.
pub fn is_pair(c: u32, v: Pair) -> bool
    ensures { IsTrue result ↔ IsPair c v }
{
    1 <= v.a && v.a <= c && 1 <= v.b && v.b <= c && v.a != v.b
}

// Whether v is (a,b) and w is (b,d) with a and d distinct, and row k has a and d and lacks b.
fn crosses(m: &Matrix, k: u32, v: Pair, w: Pair) -> bool
    requires { (1 ≤ k) × (k ≤ length m.now.rows) }
    ensures { IsTrue result ↔ Crosses (row_at m.now.rows k) v w }
{
    v.b == w.a && v.a != w.b && m.has(k, v.a) && m.has(k, w.b) && !m.has(k, v.b)
}
