// Ways along the open gaps of an order to the pair at which they all end.
ghost use Rattle.std.specs.Prelude.{◌≡◌, ◌+◌, ◌<◌, ◌≤◌, length, IfOk, IfSome};
ghost use Rattle.row_model.specs.Graph.{row_at};

use open_gaps::OpenGaps;
use row_model::{CountedRows, Line, NoMemory, Pair, Why, is_pair};
use std::alloc::Global;
use step_count::{Ledger, Steps};

/// A matrix, the gaps that its first rows leave open in an order, and the position of each column in the order.
#[derive(Clone, Copy)]
pub struct Front<'a> {
    /// The matrix.
    pub m: &'a CountedRows<'a>,
    /// The gaps.
    pub gaps: &'a OpenGaps,
    /// The positions, which count from 1.
    pub positions: &'a [u32],
}

/// A pair on a way, and the row by which the way comes to it.
#[derive(Clone, Copy)]
pub struct Halt {
    /// The pair.
    pub pair: Pair,
    /// The row, unless the way begins here.
    pub row: Option<u32>,
}

// The columns of a row that stand first and last in the order.
#[derive(Clone, Copy)]
struct Ends {
    first: u32,
    last: u32,
}

impl Front<'_> {
    /// The position of a column, or 0 where there is no such column.
    pub fn position_of(&self, column: u32) -> u32 {
        if column == 0 {
            return 0;
        }
        self.positions
            .get(column as usize - 1)
            .copied()
            .unwrap_or(0)
    }
}

/// The pair at which each way from a pair ends, the first column of which stands before the second. A way leads from
/// (a,b) to the first column of a row that has a and lacks b, in place of a, or to the last column of a row that has b
/// and lacks a, in place of b. It ends early where no steps are left. As many steps are counted as are taken from those
/// that are left.
pub fn end_of<L: Ledger>(front: &Front, v: Pair, left: &mut u64, steps: &mut Steps<L>) -> Pair
    requires { length front.now.gaps.now.order ≡ front.now.m.now.columns }
    ensures ticks { steps.new + left.new ≡ steps.old + left.old }
{
    let mut at = v;
    while let Some(halt) = next_halt(front, at, left, steps) {
        at = halt.pair;
    }
    at
}

/// The pairs of a way, from the first to the one at which it ends.
pub fn way_from<L: Ledger>(
    alloc: Global,
    front: &Front,
    v: Pair,
    left: &mut u64,
    steps: &mut Steps<L>,
) -> Result<Vec<Halt>, NoMemory>
    requires { length front.now.gaps.now.order ≡ front.now.m.now.columns }
    ensures ticks { steps.new + left.new ≡ steps.old + left.old }
    ensures turns { IfOk result (λ way. steps.old + length way.items ≤ steps.new + 1) }
{
    let mut way = Vec::new(alloc);
    way.push(Halt { pair: v, row: None })?;
    let mut at = v;
    while let Some(halt) = next_halt(front, at, left, steps) {
        way.push(halt)?;
        at = halt.pair;
    }
    Ok(way)
}

// The pair after a pair on a way.
fn next_halt<L: Ledger>(
    front: &Front,
    v: Pair,
    left: &mut u64,
    steps: &mut Steps<L>,
) -> Option<Halt>
    requires { length front.now.gaps.now.order ≡ front.now.m.now.columns }
    ensures ticks { steps.new + left.new ≡ steps.old + left.old }
    ensures less { IfSome result (λ halt. left.new < left.old) }
    ensures rest { left.new ≤ left.old }
    ensures costs { IfSome result (λ halt. steps.old + 1 ≤ steps.new) }
{
    if !is_pair(front.m.columns(), v) {
        return None;
    }
    let before = front.gaps.before(v);
    let is_first = before.is_some();
    let line = match before {
        Some(line) => line,
        None => front.gaps.behind(Pair { a: v.b, b: v.a })?,
    };
    let row = row_of(line)?;
    let ends = ends_of(front, row, left, steps)?;
    let pair = if is_first {
        Pair {
            a: ends.first,
            b: v.b,
        }
    } else {
        Pair {
            a: v.a,
            b: ends.last,
        }
    };
    Some(Halt {
        pair,
        row: Some(row),
    })
}

/// The row that is the line's reason.
pub fn row_of(line: Line) -> Option<u32> {
    match line.why {
        Why::Flip => None,
        Why::Row(row) => Some(row),
    }
}

// The ends of a row, if there is such a row and it can be read in the steps that are left.
fn ends_of<L: Ledger>(front: &Front, row: u32, left: &mut u64, steps: &mut Steps<L>) -> Option<Ends>
    ensures ticks { steps.new + left.new ≡ steps.old + left.old }
    ensures less { IfSome result (λ ends. left.new < left.old) }
    ensures rest { left.new ≤ left.old }
    ensures turns { IfSome result (λ ends. steps.old + 1 + length (row_at front.now.m.now.rows row) ≤ steps.new) }
{
    if row == 0 || row > front.m.rows() {
        return None;
    }
    *left = left.checked_sub(1)?;
    let count = front.m.len_counted(row, steps);
    *left = left.checked_sub(u64::from(count))?;
    let mut ends = Ends { first: 0, last: 0 };
    let mut low = u32::MAX;
    let mut high = 0;
    for i in 0..count {
        let column = front.m.member_counted(row, i + 1, steps);
        let position = front.position_of(column);
        if position < low {
            low = position;
            ends.first = column;
        }
        if position > high {
            high = position;
            ends.last = column;
        }
    }
    Some(ends)
}
