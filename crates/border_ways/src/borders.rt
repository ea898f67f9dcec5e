// The part of a matrix at the borders of a row in an order.
ghost use Rattle.std.specs.Prelude.{◌≡◌, ◌*◌, ◌≤◌, length, IfOk};

use crate::met::Met;
use crate::ways::{Front, row_of};
use row_model::{NoMemory, Pair, is_pair};
use std::alloc::Global;

/// The most borders that are taken.
const MOST_BORDERS: usize = 8;

/// How many columns are taken on each side of a border.
const REACH: usize = 4;

/// Columns near some borders of row `k`, which are the columns of the order that it has or lacks unlike the column
/// before, and rows that open a gap beside one of these columns for another, and row `k`. Each stands once, in rising
/// order.
///
/// # Errors
///
/// `NoMemory`.
pub fn met_at_borders(
    alloc: Global,
    front: &Front,
    k: u32,
    order: &[u32],
    borders: &[usize],
) -> Result<Met, NoMemory>
    requires { length front.now.gaps.now.order ≡ front.now.m.now.columns }
    ensures few { IfOk result (λ met. (length met.columns.items ≤ 64) × (length met.rows.items ≤ 4097)) }
{
    let columns = columns_near(alloc, order, borders)?;
    let mut rows = openers(alloc, front, &columns)?;
    rows.push(k)?;
    let mut met = Met { rows, columns };
    met.settle();
    Ok(met)
}

// The columns near up to 8 of the borders.
fn columns_near(alloc: Global, order: &[u32], borders: &[usize]) -> Result<Vec<u32>, NoMemory>
    ensures few { IfOk result (λ columns. length columns.items ≤ 64) }
{
    let mut columns = Vec::new(alloc);
    for border in borders
        .iter()
        .step_by(borders.len() / MOST_BORDERS + 1)
        .take(MOST_BORDERS)
    {
        columns.extend_from_slice(near(order, *border))?;
    }
    Ok(columns)
}

// The columns near a border.
fn near(order: &[u32], border: usize) -> &[u32]
    ensures few { length result.now ≤ 8 }
{
    let from = border.saturating_sub(REACH);
    let to = border.saturating_add(REACH).min(order.len());
    order.get(from..to).unwrap_or(&[])
}

// Rows that open the gap before one of the columns for another.
fn openers(alloc: Global, front: &Front, columns: &[u32]) -> Result<Vec<u32>, NoMemory>
    requires order { length front.now.gaps.now.order ≡ front.now.m.now.columns }
    requires few { length columns.now ≤ 64 }
    ensures few { IfOk result (λ rows. length rows.items ≤ 64 * length columns.now) }
{
    let mut rows = Vec::new(alloc);
    for a in columns {
        for b in columns {
            if let Some(row) = opener_before(front, Pair { a: *a, b: *b }) {
                rows.push(row)?;
            }
        }
    }
    Ok(rows)
}

// A row that opens the gap before the first column for the second.
fn opener_before(front: &Front, v: Pair) -> Option<u32>
    requires { length front.now.gaps.now.order ≡ front.now.m.now.columns }
{
    if !is_pair(front.m.columns(), v) {
        return None;
    }
    row_of(front.gaps.before(v)?)
}
