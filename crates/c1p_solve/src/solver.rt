// Rows reduced in turn, and the odd cycle after a refusal.
ghost use Rattle.std.specs.Prelude.{◌≡◌, ◌+◌, ◌-◌, ◌*◌, ◌≤◌, [], IfOk, IsTrue, length, take, sum_by};
ghost use Rattle.row_model.specs.Graph.{HasConflict};
ghost use Rattle.row_model.specs.Cycles.{IsOddCycle};
ghost use Rattle.pq_tree.specs.Amortised.{weight};
ghost use Rattle.odd_cycle.specs.Short.{IsShort};
ghost use Rattle.row_judge.specs.Blamed.{IsReason};
ghost use Rattle.tree_theory.specs.Tied.{IsTied};
ghost use Rattle.c1p_solve.specs.Answers.{IsAnswer, IsReduction, LeavesTree, IsInTurn, IsReducedInTurn};
ghost use Rattle.c1p_solve.specs.Totals.{IsTotal, IsReductionTotal, answer_steps};

use crate::Solved;
use odd_cycle::Cycle;
use row_judge::last_row_laws;
use row_model::{Matrix, NoMemory};
use short_cycles::odd_cycle_along;
use std::alloc::Global;
use step_count::{Ledger, Steps};
use tree_theory::{Reducer, Step};

/// Solves a matrix by a reducer whose tree is universal over its columns, or any other tree that is tied to no rows:
/// its frontiers are all orders of the columns.
///
/// The tree of a `Yes` is canonical and tied to all rows. The cycle of a `No` has at most one flip, and with c columns at
/// most c(c - 1)/2 + 1 lines. None of its rows comes after the first one up to which the rows have no valid order.
///
/// After `Yes` the reducer's tree is tied to all rows of the matrix. After `No` it is tied to the rows before the first
/// one up to which the rows have no valid order.
///
/// A frugal reducer whose tree weighs no more than its columns, as the universal one does, takes at most 1024 steps for
/// each column, row and one together, of the rows up to the first that is refused. After a refusal the search for the
/// cycle takes at most 8c(f + 1) steps more, with c columns and f ones in these rows. With the rows and ones of the whole
/// matrix the two together bound the steps of every answer, that of an error too.
///
/// # Errors
///
/// `NoMemory`, and then nothing is said of the reducer's tree.
pub fn solve<R: Reducer, L: Ledger>(
    alloc: Global,
    reducer: &mut R,
    m: &Matrix,
    steps: &mut Steps<L>,
) -> Result<Solved, NoMemory>
    requires columns { R.columns reducer.old ≡ m.now.columns }
    requires tied { IsTied m.now.columns [] (R.outline reducer.old) }
    ensures answer { IfOk result (IsAnswer m.now) }
    ensures in_turn { IfOk result (IsInTurn m.now) }
    ensures reducer { IfOk result (LeavesTree m.now (R.outline reducer.new)) }
    ensures columns { R.columns reducer.new ≡ R.columns reducer.old }
    ensures total { IsTrue R.frugal → weight (R.outline reducer.old) ≤ m.now.columns → IfOk result (IsTotal m.now (R.outline reducer.new) steps.old steps.new) }
    ensures most { IsTrue R.frugal → weight (R.outline reducer.old) ≤ m.now.columns → steps.new ≤ steps.old + answer_steps m.now }
{
    match reduce_all(alloc, reducer, m, steps)? {
        None => Ok(Solved::Yes(reducer.tree(alloc)?)),
        Some(cycle) => Ok(Solved::No(cycle)),
    }
}

// Reduces a tree that is tied to no rows by all rows of a matrix in turn, and answers `None`; or as far as the first
// row that is refused, and answers an odd cycle.
pub(crate) fn reduce_all<R: Reducer, L: Ledger>(
    alloc: Global,
    reducer: &mut R,
    m: &Matrix,
    steps: &mut Steps<L>,
) -> Result<Option<Cycle>, NoMemory>
    requires columns { R.columns reducer.old ≡ m.now.columns }
    requires tied { IsTied m.now.columns [] (R.outline reducer.old) }
    ensures reduction { IfOk result (IsReduction m.now (R.outline reducer.new)) }
    ensures in_turn { IfOk result (IsReducedInTurn m.now) }
    ensures columns { R.columns reducer.new ≡ R.columns reducer.old }
    ensures total { IsTrue R.frugal → weight (R.outline reducer.old) ≤ m.now.columns → IfOk result (IsReductionTotal m.now (R.outline reducer.new) steps.old steps.new) }
    ensures most { IsTrue R.frugal → weight (R.outline reducer.old) ≤ m.now.columns → steps.new ≤ steps.old + answer_steps m.now }
{
    for taken in 0..m.rows() {
        match reducer.reduce(m, taken + 1, steps)? {
            Step::Taken => {}
            Step::Refused => return Ok(Some(conflict(alloc, reducer, m, taken + 1, steps)?)),
        }
    }
    Ok(None)
}

// An odd cycle of a matrix of which the rows 1 to `k` have no valid order, by a reducer whose tree is tied to the rows
// before row `k`, which is a reason of the cycle. With c columns and f ones in the rows 1 to `k` it counts at most
// 8c(f + 1) steps.
pub(crate) fn conflict<R: Reducer, L: Ledger>(
    alloc: Global,
    reducer: &R,
    m: &Matrix,
    k: u32,
    steps: &mut Steps<L>,
) -> Result<Cycle, NoMemory>
    requires row { (1 ≤ k) × (k ≤ length m.now.rows) }
    requires columns { R.columns reducer.now ≡ m.now.columns }
    requires tied { IsTied m.now.columns (take (k - 1) m.now.rows) (R.outline reducer.now) }
    requires conflict { HasConflict m.now.columns (take k m.now.rows) }
    ensures cycle { IfOk result (IsOddCycle m.now.columns m.now.rows) }
    ensures first_rows { IfOk result (IsOddCycle m.now.columns (take k m.now.rows)) }
    ensures reason { IfOk result (IsReason k) }
    ensures short { IfOk result (IsShort m.now.columns) }
    ensures ticks { steps.new ≤ steps.old + 8 * m.now.columns * (sum_by length (take k m.now.rows) + 1) }
{
    last_row_laws();
    let tree = reducer.tree(alloc)?;
    let order = tree.frontier(alloc)?;
    odd_cycle_along(alloc, m, k, &order, steps)
}
