// The closed walk along the ways of a circle of links.
ghost use Rattle.std.specs.Prelude.{◌≡◌, ◌+◌, ◌*◌, ◌≤◌, length, IfOk, OnOk};

use crate::links::Link;
use crate::ways::{Front, Halt, way_from};
use row_model::{Line, NoMemory, Pair, Why};
use std::alloc::Global;
use step_count::{Ledger, Steps};

/// The closed walk round a circle of links: from the one pair of each link along its way to the pair at which the ways
/// of both end, from there back along the way of the other, and by row `k` on to the next link, the last of which leads
/// to the first.
///
/// A row joins (a,b) to (b,d), so the column that stays changes its place. The pairs are turned to fit, and where the
/// walk comes back to its first pair turned, a flip closes it. Where the circle is odd, so is the number of lines.
///
/// # Errors
///
/// `NoMemory`.
pub fn walk_around<L: Ledger>(
    alloc: Global,
    front: &Front,
    k: u32,
    links: &[Link],
    left: &mut u64,
    steps: &mut Steps<L>,
) -> Result<Vec<Line>, NoMemory>
    requires { length front.now.gaps.now.order ≡ front.now.m.now.columns }
    ensures ticks { steps.new + left.new ≡ steps.old + left.old }
    ensures turns { IfOk result (λ lines. steps.old + length lines.items ≤ steps.new + 2 * length links.now + 1) }
{
    let mut lines = Vec::new(alloc);
    for link in links {
        let one = way_from(alloc, front, link.one, left, steps)?;
        let other = way_from(alloc, front, link.other, left, steps)?;
        add_forth(&one, &mut lines)?;
        add_back(&other, k, &mut lines)?;
    }
    closed(lines)
}

// Adds the lines along a way, but for the pair at which it ends.
fn add_forth(way: &[Halt], lines: &mut Vec<Line>) -> Result<(), NoMemory>
    ensures few { OnOk result (length lines.new.items ≤ length lines.old.items + length way.now) }
{
    let mut at: Option<Pair> = None;
    for halt in way {
        if let Some(pair) = at
            && let Some(row) = halt.row
        {
            add_line(lines, pair, Why::Row(row))?;
        }
        at = Some(halt.pair);
    }
    Ok(())
}

// Adds the lines back along a way, from the pair at which it ends to the one at which it begins, from where row `k`
// leads on.
fn add_back(way: &[Halt], k: u32, lines: &mut Vec<Line>) -> Result<(), NoMemory>
    ensures few { OnOk result (length lines.new.items ≤ length lines.old.items + length way.now) }
{
    for halt in way.iter().rev() {
        add_line(lines, halt.pair, Why::Row(halt.row.unwrap_or(k)))?;
    }
    Ok(())
}

// Adds a line with the pair or the pair turned, whichever fits behind the last line. Where that is the pair of the last
// line itself, the new line takes its place.
fn add_line(lines: &mut Vec<Line>, pair: Pair, why: Why) -> Result<(), NoMemory>
    ensures few { OnOk result (length lines.new.items ≤ length lines.old.items + 1) }
{
    let mut line = Line { pair, why };
    if let Some(last) = lines.last().copied() {
        line.pair = fitted(last.pair, pair);
        if line.pair == last.pair {
            lines.pop();
        }
    }
    lines.push(line)?;
    Ok(())
}

// The walk, closed by a flip unless it is closed: the last row led to the first pair, or to that pair turned.
fn closed(mut lines: Vec<Line>) -> Result<Vec<Line>, NoMemory>
    ensures few { IfOk result (λ closed. length closed.items ≤ length lines.items + 1) }
{
    let Some(first) = lines.first().copied() else {
        return Ok(lines);
    };
    add_line(&mut lines, first.pair, Why::Flip)?;
    if let Some(last) = lines.last().copied()
        && last.pair == first.pair
    {
        lines.pop();
    }
    Ok(lines)
}

// Of a pair and the pair turned the one that a row can join to `v`, or `v` itself where the columns are the same.
fn fitted(v: Pair, pair: Pair) -> Pair {
    if pair == v || (pair.a == v.b) != (pair.b == v.a) {
        pair
    } else {
        Pair {
            a: pair.b,
            b: pair.a,
        }
    }
}
