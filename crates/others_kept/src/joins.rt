// Pairs of neighbours of an order that lie in a row.
ghost use Rattle.std.specs.Prelude.{◌≡◌, ◌≤◌, ◌<◌, ◌-◌, ◌^◌, ℕ, length};
ghost use Rattle.std.specs.List.Sorted.{IsNonDecreasing};
ghost use Rattle.row_model.specs.Rows.{IsRow};
ghost use Rattle.others_kept.specs.Others.{numbered};
ghost use Rattle.others_kept.specs.Counts.{both, joins, most_joins};

use row_model::{Matrix, row_has};

// How many pairs of neighbours of the order the row has.
pub(crate) fn joins(order: &[u32], row: &[u32]) -> u64
    requires row { IsNonDecreasing row.now }
    ensures joins { result ≡ joins order.now row.now }
    ensures few { result ≤ length order.now }
{
    let mut count = 0;
    for i in 1..order.len() {
        count += both(row, order[i - 1], order[i]);
    }
    count
}

// 1 where the row has both columns, else 0.
fn both(row: &[u32], x: u32, y: u32) -> u64
    requires { IsNonDecreasing row.now }
    ensures { result ≡ both row.now x y }
{
    if row_has(row, x) && row_has(row, y) {
        1
    } else {
        0
    }
}

// The greatest number of pairs of neighbours that an order has in the row.
pub(crate) fn most(row: &[u32]) -> u64
    ensures { result ≡ length row.now - 1 }
{
    row.len().saturating_sub(1) as u64
}

// The greatest number that it has in the numbered rows together.
pub(crate) fn most_of_all(m: &Matrix, rows: &[u32]) -> u64
    requires { IsRow (length m.now.rows) rows.now }
    ensures most { result ≡ most_joins m.now.rows rows.now }
    ensures few { result < 2 ^ 62 }
    ensures rows { (j : ℕ) → j < length rows.now → IsRow m.now.columns (numbered m.now.rows rows.now j) }
{
    let columns = m.columns();
    let mut count = 0;
    for k in rows {
        count += most(m.row(*k));
    }
    count
}
