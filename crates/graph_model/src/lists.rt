// Strictly ascending lists of neighbours, kept as the rows of a matrix.
ghost use Rattle.std.specs.Prelude.{◌≡◌, ◌<◌, ◌≤◌, ◌-◌, ◌+◌, ◌^◌, ◌++◌, false, [], length, replicate, slice_range, slice_set, slice_index_or, IfOk, OnOk};
ghost use Rattle.column_order.specs.Orders.{has};
ghost use Rattle.graph_model.specs.Graphs.{below, with_number};

use crate::LEFT_BOUND;
use row_model::{COLUMN_BOUND, Matrix, NoMemory, ROW_BOUND};
use std::alloc::Global;

/// So many lists without a neighbour.
///
/// # Errors
///
/// [`NoMemory`] where memory is refused.
pub fn empty_lists(alloc: Global, count: u32, columns: u32) -> Result<Matrix, NoMemory>
    requires count { count ≤ LEFT_BOUND }
    requires columns { (1 ≤ columns) × (columns ≤ COLUMN_BOUND) }
    ensures { IfOk result (λ m. m ≡ record { columns = columns; rows = replicate count [] }) }
{
    let mut lists = Matrix::new(alloc, columns)?;
    for _i in 0..count {
        lists.push_row(&[])?;
    }
    Ok(lists)
}

/// The lists with one neighbour more, `y`, in that of `x`.
///
/// # Errors
///
/// [`NoMemory`] where memory is refused.
pub fn with_edge(alloc: Global, old: &Matrix, x: u32, y: u32) -> Result<Matrix, NoMemory>
    requires columns { (1 ≤ old.now.columns) × (old.now.columns ≤ COLUMN_BOUND) }
    requires few { length old.now.rows ≤ LEFT_BOUND }
    requires x { (1 ≤ x) × (x ≤ length old.now.rows) }
    requires y { (1 ≤ y) × (y ≤ old.now.columns) }
    requires new { has (slice_index_or old.now.rows (x - 1) []) y ≡ false }
    ensures { IfOk result (λ m. m ≡ record { columns = old.now.columns; rows = slice_set old.now.rows (x - 1) (with_number y (slice_index_or old.now.rows (x - 1) [])) }) }
{
    let longer = with_number(alloc, old.row(x), y)?;
    let mut lists = Matrix::new(alloc, old.columns())?;
    copy_lists(&mut lists, old, 0, x - 1)?;
    lists.push_row(&longer)?;
    copy_lists(&mut lists, old, x, old.rows())?;
    Ok(lists)
}

// Adds the lists of the numbers from `from` to `to`, which count from 0, the last left out.
fn copy_lists(lists: &mut Matrix, old: &Matrix, from: u32, to: u32) -> Result<(), NoMemory>
    requires columns { lists.old.columns ≡ old.now.columns }
    requires range { (from ≤ to) × (to ≤ length old.now.rows) }
    requires room { length lists.old.rows + to ≤ ROW_BOUND }
    ensures { OnOk result (lists.new ≡ record lists.old { rows = lists.old.rows ++ slice_range old.now.rows from to }) }
{
    for k in from..to {
        lists.push_row(old.row(k + 1))?;
    }
    Ok(())
}

// A strictly ascending list with one number more.
fn with_number(alloc: Global, row: &[u32], y: u32) -> Result<Vec<u32>, NoMemory>
    requires { length row.now < 2 ^ 63 }
    ensures { IfOk result (λ longer. longer.items ≡ with_number y row.now) }
{
    let place = count_below(row, y);
    let mut longer = Vec::with_capacity(alloc, row.len() + 1)?;
    longer.extend_from_slice(&row[..place])?;
    longer.push(y)?;
    longer.extend_from_slice(&row[place..])?;
    Ok(longer)
}

/// How many numbers at the front of the list lie below `y`.
pub fn count_below(row: &[u32], y: u32) -> usize
    ensures count { result ≡ below y row.now }
    ensures within { result ≤ length row.now }
{
    for i in 0..row.len() {
        if row[i] >= y {
            return i;
        }
    }
    row.len()
}
