// Odd cycles that are looked at line by line.
ghost use Rattle.std.specs.Prelude.{◌≡◌, ℕ, ◌+◌, ◌*◌, ◌<◌, ◌≤◌, take, drop, length, IfOk, IfSome, IsTrue};
ghost use Rattle.row_model.specs.declared.graph.Pair.{Pair};
ghost use Rattle.row_model.specs.declared.graph.Why.TheVariants.{Row};
ghost use Rattle.row_model.specs.Graph.{JoinedBy};
ghost use Rattle.row_model.specs.Cycles.{first_pair, IsOddWalk, IsOddCycle};
ghost use Rattle.odd_cycle.specs.Short.{flip_of, flips, IsFolded, IsShort};

use odd_cycle::{Cycle, is_folded, short_cycle_law};
use row_model::{CountedRows, Line, NoMemory, Pair, Why};
use std::alloc::Global;
use step_count::{Ledger, Steps};

/// The cycle of these lines, if they are an odd cycle of the first rows, and folded: no line but the last is a flip, and
/// no two columns come twice before it. As many steps must be left as three for each line. It takes room for each line.
pub fn checked_cycle<L: Ledger>(
    alloc: Global,
    m: &CountedRows,
    rows: u32,
    lines: Vec<Line>,
    left: &mut u64,
    steps: &mut Steps<L>,
) -> Result<Option<Cycle>, NoMemory>
    requires { rows ≤ length m.now.rows }
    ensures cycle { IfOk result (λ found. IfSome found (IsOddCycle m.now.columns (take rows m.now.rows))) }
    ensures short { IfOk result (λ found. IfSome found (IsShort m.now.columns)) }
    ensures ticks { steps.new + left.new ≤ steps.old + left.old }
    ensures less { left.new ≤ left.old }
    ensures turns { IfOk result (λ found. IfSome found (λ cycle. steps.old + 3 * length cycle ≤ steps.new + 3)) }
{
    short_cycle_law();
    if is_folded_walk(alloc, m, rows, &lines, left, steps)? {
        Ok(Some(Cycle::from_lines(lines)))
    } else {
        Ok(None)
    }
}

// Whether the lines are found to be such a cycle. The answer is no as well where too few steps are left to look.
fn is_folded_walk<L: Ledger>(
    alloc: Global,
    m: &CountedRows,
    rows: u32,
    lines: &[Line],
    left: &mut u64,
    steps: &mut Steps<L>,
) -> Result<bool, NoMemory>
    requires { rows ≤ length m.now.rows }
    ensures walk { IfOk result (λ yes. IsTrue yes → IsOddWalk m.now.columns (take rows m.now.rows) lines.now) }
    ensures folded { IfOk result (λ yes. IsTrue yes → IsFolded lines.now) }
    ensures ticks { steps.new + left.new ≤ steps.old + left.old }
    ensures less { left.new ≤ left.old }
    ensures turns { IfOk result (λ yes. IsTrue yes → steps.old + 3 * length lines.now ≤ steps.new + 3 * flips lines.now) }
{
    let count = lines.len() as u64;
    if count < 3 || count > *left / 3 {
        return Ok(false);
    }
    *left -= 3 * count;
    if !is_odd_walk(m, rows, lines, steps) {
        return Ok(false);
    }
    is_folded(alloc, lines)
}

// Whether the lines are a closed walk of odd length in the graph of the first rows.
fn is_odd_walk<L: Ledger>(m: &CountedRows, rows: u32, lines: &[Line], steps: &mut Steps<L>) -> bool
    requires { rows ≤ length m.now.rows }
    ensures walk { IsTrue result → IsOddWalk m.now.columns (take rows m.now.rows) lines.now }
    ensures ticks { steps.new ≤ steps.old + 3 * length lines.now }
    ensures turns { IsTrue result → steps.old + 3 * length lines.now ≤ steps.new + 3 * flips lines.now }
{
    for (i, line) in lines.iter().enumerate() {
        if !leads_to(m, rows, *line, pair_behind(lines, i), steps) {
            return false;
        }
    }
    lines.len() % 2 == 1
}

// Whether the line's reason is one of the first rows or a flip, and joins its pair to another.
fn leads_to<L: Ledger>(
    m: &CountedRows,
    rows: u32,
    line: Line,
    to: Pair,
    steps: &mut Steps<L>,
) -> bool
    requires { rows ≤ length m.now.rows }
    ensures joined { IsTrue result → JoinedBy m.now.columns (take rows m.now.rows) line.pair to line.why }
    ensures ticks { steps.new ≤ steps.old + 3 }
    ensures turns { IsTrue result → steps.old + 3 ≤ steps.new + 3 * flip_of line.why }
{
    is_within(line.why, rows) && m.joined_counted(line.pair, to, line.why, steps)
}

// Whether a reason is a flip or one of the first rows.
fn is_within(why: Why, rows: u32) -> bool
    ensures { IsTrue result → (k : ℕ) → why ≡ Row k → k ≤ rows }
{
    match why {
        Why::Flip => true,
        Why::Row(k) => k <= rows,
    }
}

// The pair of the line behind a line, which is that of the first line behind the last one.
fn pair_behind(lines: &[Line], i: usize) -> Pair
    requires { i < length lines.now }
    ensures { (end : Pair) → first_pair lines.now end ≡ end → result ≡ first_pair (drop (i + 1) lines.now) end }
{
    if i + 1 < lines.len() {
        lines[i + 1].pair
    } else {
        lines[0].pair
    }
}
