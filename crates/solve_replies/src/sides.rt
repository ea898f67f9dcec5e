// The answers on the sides of an instance.
ghost use Rattle.std.specs.Prelude.{IfOk};
ghost use Rattle.c1p_solve.specs.Answers.{IsAnswer, IsInTurn};
ghost use Rattle.instance_model.specs.Instance.{derived_matrix, IsInstance, IsSideOf};
ghost use Rattle.instance_model.specs.Value.{instance_value};
ghost use Rattle.solve_replies.specs.Steps.{made_status, answer_status, SolvesMatrixWithin};

use crate::NoMemory;
use crate::distances::solve_balls;
use c1p_solve::{Answered, Solved, answer};
use instance_model::{Derived, Instance};
use row_model::Matrix;
use std::alloc::Global;
use step_count::{Ledger, Steps};

/// The answer on the derived matrix of a side. A matrix that stands for itself is solved where it lies. Of a table of
/// distances the balls are taken centre after centre, and none is kept; all are made only where there is no order.
///
/// # Errors
///
/// `NoMemory`.
pub fn solve_side<L: Ledger>(
    alloc: Global,
    instance: &Instance,
    side: u8,
    steps: &mut Steps<L>,
) -> Result<Solved, NoMemory>
    requires judged { IsInstance (instance_value instance.now) }
    requires side { IsSideOf (instance_value instance.now) side }
    ensures answer { IfOk result (IsAnswer (derived_matrix (instance_value instance.now) side)) }
    ensures in_turn { IfOk result (IsInTurn (derived_matrix (instance_value instance.now) side)) }
    ensures steps { SolvesMatrixWithin (derived_matrix (instance_value instance.now) side)
        (made_status answer_status result) steps.old steps.new }
{
    match instance {
        Instance::Robinson(distances) => solve_balls(alloc, distances, steps),
        _ => {
            let derived = Derived::of(alloc, instance, side)?;
            solve_matrix(alloc, derived.matrix(), steps)
        }
    }
}

/// The answer on a matrix.
///
/// # Errors
///
/// `NoMemory`.
pub fn solve_matrix<L: Ledger>(
    alloc: Global,
    m: &Matrix,
    steps: &mut Steps<L>,
) -> Result<Solved, NoMemory>
    ensures answer { IfOk result (IsAnswer m.now) }
    ensures in_turn { IfOk result (IsInTurn m.now) }
    ensures steps { SolvesMatrixWithin m.now (made_status answer_status result) steps.old steps.new }
{
    let Answered { solved, .. } = answer(alloc, m, steps)?;
    Ok(solved)
}
