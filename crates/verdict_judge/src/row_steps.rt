// Steps for calls that go over rows and are handed no counter.
ghost use Rattle.std.specs.Prelude.{◌≡◌, ◌+◌, ◌<◌, length, sum_by};

use row_model::Matrix;
use step_count::{Ledger, Steps};

/// Counts a step for a row and one for each of its columns, for a call that goes over it once.
pub fn count_row<L: Ledger>(row: &[u32], steps: &mut Steps<L>)
    ensures { steps.new ≡ steps.old + 1 + length row.now }
{
    steps.tick();
    for _ in row {
        steps.tick();
    }
}

/// Counts the same for each row of a matrix, for a call that goes over all of them once.
pub fn count_rows<L: Ledger>(m: &Matrix, steps: &mut Steps<L>)
    ensures { steps.new ≡ steps.old + length m.now.rows + sum_by length m.now.rows }
{
    for k in 0..m.rows() {
        count_row(m.row(k + 1), steps);
    }
}
