// Rows that are taken as they come, and not kept.
ghost use Rattle.std.specs.Prelude.{◌≡◌, ◌+◌, ◌*◌, ◌≤◌, ℕ, List, [], ◌++◌, length, take, sum_by, IfOk};
ghost use Rattle.column_order.specs.Orders.{HasValidOrder};
ghost use Rattle.c1p_solve.specs.Answers.{HasAllOrders, IsAnswer, IsInTurn};
ghost use Rattle.c1p_solve.specs.Growing.{HasRefused, HasTaken, TakesRows};
ghost use Rattle.c1p_solve.specs.Totals.{IsNoTotal, answer_steps, reduction_steps};

use crate::Solved;
use crate::chosen::Chosen;
use crate::solver::conflict;
use odd_cycle::Cycle;
use pq_tree::PqTree;
use row_model::{COLUMN_BOUND, Matrix, NoMemory};
use std::alloc::Global;
use step_count::{Ledger, Steps};
use tree_theory::{Reducer, Step, weight_law};

/// A reducer that has taken no row yet, over so many columns.
///
/// # Errors
///
/// `NoMemory`.
pub fn begin(alloc: Global, columns: u32) -> Result<Chosen, NoMemory>
    requires { (1 ≤ columns) × (columns ≤ COLUMN_BOUND) }
    ensures { IfOk result (λ r. (s : ℕ) → HasTaken columns [] r s s) }
{
    weight_law();
    Chosen::new(alloc, columns)
}

/// Takes the one row of `m` after the rows that were taken, or refuses it where there is no valid order with it. The
/// rows that were taken are needed no more.
///
/// A refusal leaves the reducer as it is. All rows that were taken, together with one that is refused, take at most 1024
/// steps for each column, row and one.
pub fn take_next<L: Ledger>(reducer: &mut Chosen, m: &Matrix, steps: &mut Steps<L>) -> Step
    requires one { length m.now.rows ≡ 1 }
    requires taken { (rows : List (List ℕ)) × (s : ℕ) × HasTaken m.now.columns rows reducer.old s steps.old }
    ensures taken { result ≡ Step.Taken → (rows : List (List ℕ)) (s : ℕ) →
        HasTaken m.now.columns rows reducer.old s steps.old →
        HasTaken m.now.columns (rows ++ m.now.rows) reducer.new s steps.new }
    ensures refused { result ≡ Step.Refused → (rows : List (List ℕ)) (s : ℕ) →
        HasTaken m.now.columns rows reducer.old s steps.old →
        HasValidOrder m.now.columns (rows ++ m.now.rows) → ⊥ }
    ensures unchanged { result ≡ Step.Refused → reducer.new ≡ reducer.old }
    ensures most { (rows : List (List ℕ)) (s : ℕ) →
        HasTaken m.now.columns rows reducer.old s steps.old →
        steps.new ≤ s + reduction_steps m.now.columns (rows ++ m.now.rows) }
{
    reducer.reduce_after(m, 1, steps)
}

/// Takes the rows of `m` in turn after the rows that were taken, up to the first with which there is no valid order. That
/// row is refused: the answer is its number, from 1. The rows that were taken are needed no more.
///
/// After a refusal the reducer stands for the rows before the refused one. [`cycle_of_refused`] tells why it was refused.
/// All rows together, with the refused one, take at most 1024 steps for each column, row and one.
pub fn take_rows<L: Ledger>(reducer: &mut Chosen, m: &Matrix, steps: &mut Steps<L>) -> Option<u32>
    requires taken { (rows : List (List ℕ)) × (s : ℕ) × HasTaken m.now.columns rows reducer.old s steps.old }
    ensures { (rows : List (List ℕ)) (s : ℕ) →
        HasTaken m.now.columns rows reducer.old s steps.old →
        TakesRows m.now.columns rows m.now.rows reducer.new s steps.new result }
{
    for taken in 0..m.rows() {
        match reducer.reduce_after(m, taken + 1, steps) {
            Step::Taken => {}
            Step::Refused => return Some(taken + 1),
        }
    }
    None
}

/// An odd cycle for a matrix of which the rows before row `k` were taken in turn and row `k` was refused, with what
/// [`answer`](crate::answer) says of its cycle. No row is reduced once more: with c columns and f ones in the rows 1 to
/// `k` the search takes at most 8c(f + 1) steps. With what the rows took these are within the steps of an answer.
///
/// # Errors
///
/// `NoMemory`.
pub fn cycle_of_refused<L: Ledger>(
    alloc: Global,
    reducer: &Chosen,
    m: &Matrix,
    k: u32,
    steps: &mut Steps<L>,
) -> Result<Cycle, NoMemory>
    requires refused { (s : ℕ) × HasRefused m.now k reducer.now s steps.old }
    ensures answer { IfOk result (λ cycle. IsAnswer m.now (Solved.No cycle)) }
    ensures in_turn { IfOk result (λ cycle. IsInTurn m.now (Solved.No cycle)) }
    ensures total { (s : ℕ) → HasRefused m.now k reducer.now s steps.old → IsNoTotal m.now s steps.new }
    ensures most { (s : ℕ) → HasRefused m.now k reducer.now s steps.old → steps.new ≤ s + answer_steps m.now }
    ensures ticks { steps.new ≤ steps.old + 8 * m.now.columns * (sum_by length (take k m.now.rows) + 1) }
{
    conflict(alloc, reducer, m, k, steps)
}

/// The canonical tree of which the frontiers are exactly the valid orders of the rows that were taken.
///
/// # Errors
///
/// `NoMemory`.
pub fn tree_so_far(alloc: Global, reducer: &Chosen) -> Result<PqTree, NoMemory>
    ensures { IfOk result (λ t. (c : ℕ) (rows : List (List ℕ)) (s n : ℕ) →
        HasTaken c rows reducer.now s n → HasAllOrders (record { columns = c; rows = rows }) t) }
{
    reducer.tree(alloc)
}
