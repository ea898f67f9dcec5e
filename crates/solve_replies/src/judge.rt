// The solver of the program, as the crates that ask for one see it.
use crate::solve_matrix;
use row_judge::{Judge, Judged};
use row_model::{Matrix, NoMemory};
use std::alloc::Global;
use step_count::{Ledger, Steps};

/// The solver that the commands use.
#[derive(Clone, Copy)]
pub struct Solver;

impl Judge for Solver {
    ghost use Rattle.std.specs.Prelude.{true, Some};
    ghost use Rattle.solve_replies.specs.Steps.{solver_costs};

    ghost asked = { λ _. 0 };

    ghost in_turn = { true };

    ghost costs = { Some solver_costs };

    fn judge<L: Ledger>(
        &mut self,
        alloc: Global,
        m: &Matrix,
        steps: &mut Steps<L>,
    ) -> Result<Judged, NoMemory> {
        solve_matrix(alloc, m, steps)
    }
}
