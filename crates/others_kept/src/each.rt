// An order judged row by row.
ghost use Rattle.std.specs.Prelude.{◌↔◌, ◌<◌, length, IsTrue, IfOk};
ghost use Rattle.row_model.specs.Rows.{IsRow};
ghost use Rattle.others_kept.specs.Others.{IsValidForOthers};

use row_model::{Matrix, NoMemory, is_kept, is_order, positions};
use std::alloc::Global;

// Whether the list is an order of the columns that keeps the numbered rows but the one at an index.
pub(crate) fn keeps_others(
    alloc: Global,
    m: &Matrix,
    rows: &[u32],
    i: usize,
    order: &[u32],
) -> Result<bool, NoMemory>
    requires rows { IsRow (length m.now.rows) rows.now }
    requires within { i < length rows.now }
    ensures { IfOk result (λ yes. IsTrue yes ↔ IsValidForOthers m.now rows.now i order.now) }
{
    if !is_order(alloc, m.columns(), order)? {
        return Ok(false);
    }
    let positions = positions(alloc, order)?;
    for (j, k) in rows.iter().enumerate() {
        if j != i && !is_kept(&positions, m.row(*k)) {
            return Ok(false);
        }
    }
    Ok(true)
}
