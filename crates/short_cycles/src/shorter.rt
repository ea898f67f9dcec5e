// A shorter odd cycle among the rows and columns that a cycle meets.
ghost use Rattle.std.specs.Prelude.{◌≡◌, ◌⊎◌, ◌+◌, ◌≤◌, Some, length, take, IfOk, IfSome};
ghost use Rattle.row_model.specs.Cycles.{IsOddCycle};
ghost use Rattle.odd_cycle.specs.Short.{IsShort};

use crate::checked::checked_cycle;
use crate::part::lines_among;
use border_ways::Met;
use odd_cycle::Cycle;
use row_model::{CountedRows, Line, NoMemory};
use std::alloc::Global;
use step_count::{Ledger, Steps};

/// The most lines of a cycle that is searched again.
const FEW_LINES: usize = 128;

/// An odd cycle of the first rows that is no longer than this one. Where this one has at most one flip and, with c
/// columns, at most c(c - 1)/2 + 1 lines, so has that one.
///
/// The rows and columns that a short cycle meets are searched once more by themselves, which mostly finds a cycle of a
/// few lines. This is tried for a cycle of at most 128 lines, where `most` steps are enough.
///
/// # Errors
///
/// `NoMemory`.
pub fn shorter_cycle<L: Ledger>(
    alloc: Global,
    m: &CountedRows,
    rows: u32,
    cycle: Cycle,
    most: u64,
    steps: &mut Steps<L>,
) -> Result<Cycle, NoMemory>
    requires rows { rows ≤ length m.now.rows }
    requires cycle { IsOddCycle m.now.columns (take rows m.now.rows) cycle }
    ensures cycle { IfOk result (IsOddCycle m.now.columns (take rows m.now.rows)) }
    ensures length { IfOk result (λ found. length found ≤ length cycle) }
    ensures short { IsShort m.now.columns cycle → IfOk result (IsShort m.now.columns) }
    ensures ticks { steps.new ≤ steps.old + most }
{
    if cycle.lines().len() > FEW_LINES {
        return Ok(cycle);
    }
    let found = cycle_among(alloc, m, rows, cycle.lines(), most, steps)?;
    Ok(shorter_of(cycle, found))
}

// This cycle or the one that was found: it has no more lines than this one.
fn shorter_of(cycle: Cycle, found: Option<Cycle>) -> Cycle
    ensures which { (result ≡ cycle) ⊎ (found ≡ Some result) }
    ensures length { length result ≤ length cycle }
{
    match found {
        Some(found) if found.lines().len() < cycle.lines().len() => found,
        _ => cycle,
    }
}

// An odd cycle of the first rows, which is looked for among the rows and columns that the lines meet.
fn cycle_among<L: Ledger>(
    alloc: Global,
    m: &CountedRows,
    rows: u32,
    lines: &[Line],
    most: u64,
    steps: &mut Steps<L>,
) -> Result<Option<Cycle>, NoMemory>
    requires rows { rows ≤ length m.now.rows }
    requires few { length lines.now ≤ 128 }
    ensures cycle { IfOk result (λ found. IfSome found (IsOddCycle m.now.columns (take rows m.now.rows))) }
    ensures short { IfOk result (λ found. IfSome found (IsShort m.now.columns)) }
    ensures ticks { steps.new ≤ steps.old + most }
{
    let mut met = Met::new(alloc);
    met.add_lines(lines)?;
    met.settle();
    let mut left = most;
    let found = lines_among(alloc, m, &met.rows, &met.columns, &mut left, steps)?;
    checked_cycle(alloc, m, rows, found, &mut left, steps)
}
