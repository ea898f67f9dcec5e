// Orders of the columns, and the rows that an order keeps.
ghost use Rattle.std.specs.Prelude.{◌≡◌, ◌≤◌, ◌↔◌, ℕ, List, [], length, IfOk, IfSome, IsTrue, MatchOption};
ghost use Rattle.column_order.specs.Orders.{IsOrder, IsWithin, Keeps};
ghost use Rattle.row_model.specs.Rows.{IsRow};
ghost use Rattle.row_model.specs.Positions.{ArePositions, IsSpan, IsSpanInOrder};

use crate::NoMemory;
use crate::lists::Span;
use column_order::COLUMN_BOUND;
use std::alloc::Global;

/// Whether a list is an order of the columns 1 to `c`: each of them stands in it exactly once,
/// and no other number does.
///
/// # Errors
///
/// `NoMemory` where there is no memory for a mark for each column.
pub fn is_order(alloc: Global, c: u32, list: &[u32]) -> Result<bool, NoMemory>
    requires { (1 ≤ c) × (c ≤ COLUMN_BOUND) }
    ensures { IfOk result (λ yes. IsTrue yes ↔ IsOrder c list.now) }
{
    if list.len() != c as usize {
        return Ok(false);
    }
    let mut seen = vec![in alloc; false; c as usize]?;
    for column in list {
        if *column < 1 || *column > c || seen[*column as usize - 1] {
            return Ok(false);
        }
        seen[*column as usize - 1] = true;
    }
    Ok(true)
}

/// The position of each column in an order, column by column. Positions count from 1.
///
/// # Errors
///
/// `NoMemory` where there is no memory for them.
pub fn positions(alloc: Global, order: &[u32]) -> Result<Vec<u32>, NoMemory>
    requires order { IsOrder (length order.now) order.now }
    requires few { length order.now ≤ COLUMN_BOUND }
    ensures { IfOk result (λ list. ArePositions order.now list.items) }
{
    let mut positions = vec![in alloc; 0; order.len()]?;
    for (i, column) in order.iter().enumerate() {
        positions[*column as usize - 1] = i as u32 + 1;
    }
    Ok(positions)
}

/// The span from the first to the last position of the row's columns in the order of these positions, or `None`
/// where the row has no column.
pub fn span_of(positions: &[u32], row: &[u32]) -> Option<Span>
    requires { IsWithin (length positions.now) row.now }
    ensures least { MatchOption result (row.now ≡ []) (λ span. IsSpan positions.now row.now span) }
    ensures spans { IfSome result (λ span.
        (o : List ℕ) →
        IsOrder (length positions.now) o →
        ArePositions o positions.now →
        IsSpanInOrder o row.now span) }
{
    let mut span = Span {
        first: u32::MAX,
        last: 0,
    };
    for column in row {
        let position = positions[*column as usize - 1];
        span.first = span.first.min(position);
        span.last = span.last.max(position);
    }
    if row.is_empty() { None } else { Some(span) }
}

/// Whether the order of these positions keeps the row: its columns stand at as many positions as there
/// are from the first to the last.
pub fn is_kept(positions: &[u32], row: &[u32]) -> bool
    requires { IsRow (length positions.now) row.now }
    ensures { (o : List ℕ) →
        IsOrder (length positions.now) o →
        ArePositions o positions.now →
        IsTrue result ↔ Keeps o row.now }
{
    match span_of(positions, row) {
        None => true,
        Some(span) => (span.last - span.first) as usize + 1 == row.len(),
    }
}
