// The answer on a table of distances, of which no ball is kept.
ghost use Rattle.std.specs.Prelude.{◌≤◌, ℕ, IfOk};
ghost use Rattle.row_model.specs.declared.TheConstants.{MAX_ITEMS};
ghost use Rattle.robinson_balls.specs.Balls.{balls_of};
ghost use Rattle.c1p_solve.specs.Answers.{IsAnswer, IsInTurn};
ghost use Rattle.c1p_solve.specs.Growing.{HasRefused};
ghost use Rattle.solve_replies.specs.Steps.{made_status, answer_status, SolvesMatrixWithin};

use crate::NoMemory;
use c1p_solve::{Chosen, Solved, begin, cycle_of_refused, take_rows, tree_so_far};
use graph_model::Distances;
use instance_model::derived_sizes_law;
use robinson_balls::{balls, balls_round};
use row_model::Matrix;
use std::alloc::Global;
use step_count::{Ledger, Steps};

// The answer on the balls of a table of distances. They are made and taken centre after centre, in the room of one centre.
pub fn solve_balls<L: Ledger>(
    alloc: Global,
    d: &Distances,
    steps: &mut Steps<L>,
) -> Result<Solved, NoMemory>
    requires { d.now.items ≤ MAX_ITEMS }
    ensures answer { IfOk result (IsAnswer (balls_of d.now)) }
    ensures in_turn { IfOk result (IsInTurn (balls_of d.now)) }
    ensures steps { SolvesMatrixWithin (balls_of d.now) (made_status answer_status result)
        steps.old steps.new }
{
    derived_sizes_law();
    let items = d.items();
    let mut reducer = begin(alloc, items)?;
    let mut round = Matrix::new(alloc, items)?;
    let mut taken = 0;
    for before in 0..items {
        balls_round(alloc, &mut round, d, before + 1)?;
        match take_rows(&mut reducer, &round, steps) {
            None => taken += round.rows(),
            Some(k) => return not_robinson(alloc, &reducer, d, taken + k, steps),
        }
    }
    let tree = tree_so_far(alloc, &reducer)?;
    Ok(Solved::Yes(tree))
}

// The answer where the balls before ball `k` were taken in turn and ball `k` was refused. The cycle is looked for in the
// matrix of all balls.
fn not_robinson<L: Ledger>(
    alloc: Global,
    reducer: &Chosen,
    d: &Distances,
    k: u32,
    steps: &mut Steps<L>,
) -> Result<Solved, NoMemory>
    requires { (s : ℕ) × HasRefused (balls_of d.now) k reducer.now s steps.old }
    ensures answer { IfOk result (IsAnswer (balls_of d.now)) }
    ensures in_turn { IfOk result (IsInTurn (balls_of d.now)) }
    ensures steps { (s : ℕ) → HasRefused (balls_of d.now) k reducer.now s steps.old →
        SolvesMatrixWithin (balls_of d.now) (made_status answer_status result) s steps.new }
{
    let all = balls(alloc, d)?;
    let cycle = cycle_of_refused(alloc, reducer, &all, k, steps)?;
    Ok(Solved::No(cycle))
}
