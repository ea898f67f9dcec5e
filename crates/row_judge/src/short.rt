// What a judge says, with a short cycle.
ghost use Rattle.std.specs.Prelude.{◌+◌, ◌≤◌, ℕ, List, IfOk, IfSome, IsTrue};
ghost use Rattle.row_model.specs.Cycles.{IsOddCycle};
ghost use Rattle.odd_cycle.specs.Short.{IsShort};
ghost use Rattle.row_judge.specs.Costs.{IsYesWithin};
ghost use Rattle.row_judge.specs.Judges.{HasShortCycle, IsJudged, IsJudgedInTurn};

use crate::{Judge, Judged};
use odd_cycle::{Cycle, is_folded, short_cycle, short_cycle_law};
use row_model::{Matrix, NoMemory};
use std::alloc::Global;
use step_count::{Ledger, Steps};

/// What a judge says of a matrix. The odd cycle of a no has at most one flip, and with c columns at most c(c - 1)/2 + 1
/// lines: where that of the judge is not folded already, it is [folded](odd_cycle::short_cycle).
/// It stays a cycle of the rows up to the first that leaves no valid order, where that of the judge is one.
///
/// # Errors
///
/// `NoMemory`, where the judge has none, or there is none for the cycle.
pub fn judged_short<J: Judge, L: Ledger>(
    alloc: Global,
    judge: &mut J,
    m: &Matrix,
    steps: &mut Steps<L>,
) -> Result<Judged, NoMemory>
    ensures judged { IfOk result (IsJudged m.now) }
    ensures short { IfOk result (HasShortCycle m.now.columns) }
    ensures in_turn { IsTrue J.in_turn → IfOk result (IsJudgedInTurn m.now) }
    ensures asked { J.asked judge.new ≤ J.asked judge.old + 1 }
    ensures yes { IfSome J.costs (λ c. IfOk result (IsYesWithin c m.now steps.old steps.new)) }
    ensures most { IfSome J.costs (λ c. steps.new ≤ steps.old + c.any m.now) }
{
    match judge.judge(alloc, m, steps)? {
        Judged::Yes(tree) => Ok(Judged::Yes(tree)),
        Judged::No(cycle) => Ok(Judged::No(shortened(alloc, m, cycle)?)),
    }
}

// The cycle itself where it is folded, and else the one into which it folds. It is a cycle of each list of rows of which
// the first one is one.
fn shortened(alloc: Global, m: &Matrix, cycle: Cycle) -> Result<Cycle, NoMemory>
    requires { IsOddCycle m.now.columns m.now.rows cycle }
    ensures cycle { (rows : List (List ℕ)) → IsOddCycle m.now.columns rows cycle → IfOk result (IsOddCycle m.now.columns rows) }
    ensures short { IfOk result (IsShort m.now.columns) }
{
    short_cycle_law();
    if is_folded(alloc, cycle.lines())? {
        return Ok(cycle);
    }
    short_cycle(alloc, m.columns(), cycle.lines())
}
