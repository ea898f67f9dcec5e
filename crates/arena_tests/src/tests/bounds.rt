// The steps of a pass over the universal tree.
ghost use Rattle.std.specs.Prelude.{◌+◌, ◌*◌, ◌≤◌, length};
ghost use Rattle.column_order.specs.declared.TheConstants.{COLUMN_BOUND};

use super::passes::is_row;
use bubble_pass::{Found, Work, bubble};
use pq_arena::Arena;
use row_model::{Matrix, NoMemory};
use std::alloc::Global;
use std::process::Abort;
use step_count::{Ledger, Steps};

// The pass over a row of so many columns under one P-node. Only the root and the leaves of the row meet it, so the
// bound on the steps tells nothing of the other columns.
fn ask_star<L: Ledger>(
    rt: &impl Abort,
    alloc: Global,
    columns: u32,
    row: &[u32],
    steps: &mut Steps<L>,
) -> Result<bool, NoMemory>
    requires from { 2 ≤ columns }
    requires to { columns ≤ COLUMN_BOUND }
    ensures { steps.new ≤ steps.old + 24 * (length row.now + 2) }
{
    assert!(rt; is_row(columns, row));
    assert!(rt; !row.is_empty());
    let mut arena = Arena::new(alloc, columns)?;
    let mut m = Matrix::new(alloc, columns)?;
    m.push_row(row)?;
    let mut work = Work::new(alloc, columns)?;
    assert!(rt; arena.has_two_each());
    arena.layout_law();
    let root = arena.root();
    let found = bubble(&mut arena, &m, 1, &mut work, steps);
    Ok(matches!(found, Found::Root(r) if r.index() == root.index()))
}

/// A row of two columns among 2,048.
pub fn star<L: Ledger>(
    rt: &impl Abort,
    alloc: Global,
    steps: &mut Steps<L>,
) -> Result<(), NoMemory> {
    assert!(rt; ask_star(rt, alloc, 2048, &[5, 77], steps)?);
    Ok(())
}
