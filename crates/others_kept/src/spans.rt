// Where an order has the columns of the rows that it keeps.
ghost use Rattle.std.specs.Prelude.{◌≡◌, ◌<◌, ◌≤◌, ℕ, List, length, slice_index_or, IfOk};
ghost use Rattle.column_order.specs.Orders.{IsOrder, Keeps};
ghost use Rattle.row_model.specs.Positions.{ArePositions};
ghost use Rattle.row_model.specs.Rows.{IsRow};
ghost use Rattle.row_model.specs.declared.lists.Span.{Span};
ghost use Rattle.others_kept.specs.Others.{numbered};
ghost use Rattle.others_kept.specs.Counts.{IsSpanOf};

use row_model::{Matrix, NoMemory, Span, positions, span_of};
use std::alloc::Global;

// The span of each of the numbered rows, all of which the order keeps.
pub(crate) fn spans(
    alloc: Global,
    m: &Matrix,
    rows: &[u32],
    order: &[u32],
) -> Result<Vec<Span>, NoMemory>
    requires rows { IsRow (length m.now.rows) rows.now }
    requires order { IsOrder m.now.columns order.now }
    requires kept { (j : ℕ) → j < length rows.now → Keeps order.now (numbered m.now.rows rows.now j) }
    ensures len { IfOk result (λ spans. length spans.items ≡ length rows.now) }
    ensures each { IfOk result (λ spans. (j : ℕ) (d : Span) → j < length rows.now
        → IsSpanOf m.now.columns order.now (numbered m.now.rows rows.now j) (slice_index_or spans.items j d)) }
{
    let columns = m.columns();
    let positions = positions(alloc, order)?;
    let mut spans = Vec::with_capacity(alloc, rows.len())?;
    for k in rows {
        spans.push(span_in(&positions, m.row(*k)))?;
    }
    Ok(spans)
}

// The span of a row that the order of these positions keeps.
fn span_in(positions: &[u32], row: &[u32]) -> Span
    requires { IsRow (length positions.now) row.now }
    ensures { (o : List ℕ) → IsOrder (length positions.now) o → ArePositions o positions.now → Keeps o row.now
        → IsSpanOf (length positions.now) o row.now result }
{
    match span_of(positions, row) {
        None => Span { first: 1, last: 0 },
        Some(span) => span,
    }
}
