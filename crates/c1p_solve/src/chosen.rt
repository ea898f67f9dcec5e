// The answer by the reducer that the programs use.
ghost use Rattle.std.specs.Prelude.{◌≡◌, ◌+◌, ◌≤◌, IfOk};
ghost use Rattle.arena_model.specs.NamedTree.{outline_at};
ghost use Rattle.c1p_solve.specs.Answers.{IsAnswer, LeavesTree, IsInTurn};
ghost use Rattle.c1p_solve.specs.Totals.{IsTotal, answer_steps};

use crate::Solved;
use crate::solver::solve;
use row_model::{Matrix, NoMemory};
use row_reduce::ArenaReducer;
use std::alloc::Global;
use step_count::{Ledger, Steps};
use tree_theory::weight_law;

/// The reducer by which matrices are solved.
pub type Chosen = ArenaReducer;

/// The answer on a matrix, and the reducer that found it.
#[derive(Drop)]
pub struct Answered {
    /// The tree of all valid orders, or an odd cycle.
    pub solved: Solved,
    /// The reducer. After `Yes` its tree is tied to all rows of the matrix; after `No` to the rows before the first one
    /// up to which the rows have no valid order.
    pub reducer: Chosen,
}

/// Solves a matrix.
///
/// With c columns, and of the rows up to the first that leaves no valid order, or all rows, it takes at most 1024 steps
/// for each column, row and one. Where there is no valid order it takes at most 8c(f + 1) steps more, f being the ones
/// of these rows, to find the odd cycle. With the rows and ones of the whole matrix the two together bound the steps of
/// every answer, that of an error too.
///
/// # Errors
///
/// `NoMemory`.
pub fn answer<L: Ledger>(
    alloc: Global,
    m: &Matrix,
    steps: &mut Steps<L>,
) -> Result<Answered, NoMemory>
    ensures solved { IfOk result (λ a. IsAnswer m.now a.solved) }
    ensures in_turn { IfOk result (λ a. IsInTurn m.now a.solved) }
    ensures reducer { IfOk result (λ a. LeavesTree m.now (outline_at a.reducer) a.solved) }
    ensures columns { IfOk result (λ a. a.reducer.columns ≡ m.now.columns) }
    ensures total { IfOk result (λ a. IsTotal m.now (outline_at a.reducer) steps.old steps.new a.solved) }
    ensures most { steps.new ≤ steps.old + answer_steps m.now }
{
    weight_law();
    let mut reducer = Chosen::new(alloc, m.columns())?;
    let solved = solve(alloc, &mut reducer, m, steps)?;
    Ok(Answered { solved, reducer })
}
