// The odd cycle that a closed walk of odd length contains.
ghost use Rattle.std.specs.Prelude.{ℕ, All, take, IfOk};
ghost use Rattle.row_model.specs.Cycles.{IsClosedWalk, IsOddCycle};
ghost use Rattle.odd_cycle.specs.Short.{IsNamedBy, IsShort};

use odd_cycle::{Cycle, Walk, short_cycle};
use row_model::{Matrix, NoMemory};
use std::alloc::Global;

/// An odd cycle of the matrix, into which a closed walk of odd length [folds](odd_cycle::short_cycle). Along a walk in
/// the graph of the first rows it is one in that graph.
///
/// It has at most one flip, and with c columns at most c(c - 1)/2 + 1 lines. Each row that it names is named by the
/// walk; some of its pairs may be those of the walk turned, that is, with their columns exchanged.
///
/// It takes 4 bytes for each ordered pair of columns, and room for as many lines as the walk has.
///
/// # Errors
///
/// `NoMemory`.
pub fn simple_cycle(alloc: Global, m: &Matrix, walk: &Walk) -> Result<Cycle, NoMemory>
    requires { IsClosedWalk m.now.columns m.now.rows walk.now }
    ensures cycle { IfOk result (IsOddCycle m.now.columns m.now.rows) }
    ensures first_rows { (n : ℕ) → IsClosedWalk m.now.columns (take n m.now.rows) walk.now
        → IfOk result (IsOddCycle m.now.columns (take n m.now.rows)) }
    ensures short { IfOk result (IsShort m.now.columns) }
    ensures named { IfOk result (All (IsNamedBy walk.now)) }
{
    short_cycle(alloc, m.columns(), walk.lines())
}
