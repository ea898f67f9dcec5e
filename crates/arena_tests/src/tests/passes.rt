// Passes, each after a test of its conditions.
ghost use Rattle.std.specs.Prelude.{IsTrue};
ghost use Rattle.row_model.specs.Rows.{IsRow};

use bubble_pass::{Found, Work, bubble};
use pq_arena::{Arena, NodeId};
use row_model::{COLUMN_BOUND, Matrix, NoMemory, ROW_BOUND};
use std::alloc::Global;
use std::process::Abort;
use step_count::{Ledger, Steps};

/// Whether the columns ascend from 1 on, up to the last.
pub fn is_row(columns: u32, row: &[u32]) -> bool
    ensures { IsTrue result → IsRow columns row.now }
{
    let mut low = 0;
    for column in row {
        if *column <= low || columns < *column {
            return false;
        }
        low = *column;
    }
    true
}

/// The pass over row `k`, once all its conditions were seen to hold.
pub fn pass<L: Ledger>(
    rt: &impl Abort,
    arena: &mut Arena,
    m: &Matrix,
    k: u32,
    work: &mut Work,
    steps: &mut Steps<L>,
) -> Found {
    assert!(rt; arena.is_one_tree());
    assert!(rt; arena.has_two_each());
    assert!(rt; arena.columns() == m.columns());
    assert!(rt; work.is_for(m.columns()));
    assert!(rt; 1 <= k);
    assert!(rt; k <= m.rows());
    assert!(rt; !m.row(k).is_empty());
    arena.layout_law();
    bubble(arena, m, k, work, steps)
}

/// The pass over a row.
pub fn ask<L: Ledger>(
    rt: &impl Abort,
    alloc: Global,
    arena: &mut Arena,
    row: &[u32],
    work: &mut Work,
    steps: &mut Steps<L>,
) -> Result<Found, NoMemory> {
    let columns = arena.columns();
    assert!(rt; 1 <= columns);
    assert!(rt; columns <= COLUMN_BOUND);
    assert!(rt; is_row(columns, row));
    let mut m = Matrix::new(alloc, columns)?;
    m.push_row(row)?;
    Ok(pass(rt, arena, &m, 1, work, steps))
}

/// Room for passes over the arena.
pub fn room_for(rt: &impl Abort, alloc: Global, arena: &Arena) -> Result<Work, NoMemory> {
    let columns = arena.columns();
    assert!(rt; 1 <= columns);
    assert!(rt; columns <= COLUMN_BOUND);
    Work::new(alloc, columns)
}

/// The pass found this node as the pertinent root.
pub fn assert_root(rt: &impl Abort, found: Found, root: NodeId) {
    match found {
        Found::Root(r) => assert_eq!(rt; r.index(), root.index()),
        Found::Inside | Found::Split => assert!(rt; false),
    }
}
