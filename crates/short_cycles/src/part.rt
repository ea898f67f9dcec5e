// Lines that are looked for in a small part of a matrix.
ghost use Rattle.std.specs.Prelude.{◌+◌, ◌*◌, ◌≤◌, length, sum_by, IfOk, OnOk, IsTrue};
ghost use Rattle.row_model.specs.Rows.{IsRow};

use odd_cycle::short_cycle;
use row_model::{CountedMatrix, CountedRows, Line, NoMemory, Pair, Why};
use std::alloc::Global;
use step_count::{Ledger, Steps};
use walk_search::walk_among;

/// The most columns of a part.
const MOST_COLUMNS: usize = 256;

/// The most rows of a part.
const MOST_ROWS: usize = 256;

/// The ones from which on a part is searched at half the price.
const FEW_ONES: u64 = 3;

/// The lines of an odd cycle in the part of the matrix in these rows and columns, each of which stands once, in rising
/// order. There are none where the part has no odd cycle, or is too large to be searched in the steps that are left.
pub fn lines_among<L: Ledger>(
    alloc: Global,
    m: &CountedRows,
    rows: &[u32],
    columns: &[u32],
    left: &mut u64,
    steps: &mut Steps<L>,
) -> Result<Vec<Line>, NoMemory>
    ensures ticks { steps.new + left.new ≤ steps.old + left.old }
{
    if !is_small(rows, columns) {
        return Ok(Vec::new(alloc));
    }
    let part = part_of(alloc, m, rows, columns, left, steps)?;
    if !pays(&part, left) {
        return Ok(Vec::new(alloc));
    }
    lines_in(alloc, &part.counted(), rows, columns, steps)
}

/// The same at half the price: of those that are left as many steps are taken as are surely half of what is counted.
pub fn lines_at_half<L: Ledger>(
    alloc: Global,
    m: &CountedRows,
    rows: &[u32],
    columns: &[u32],
    left: &mut u64,
    steps: &mut Steps<L>,
) -> Result<Vec<Line>, NoMemory>
    ensures ticks { steps.new + 2 * left.new ≤ steps.old + 2 * left.old }
{
    if !is_small(rows, columns) {
        return Ok(Vec::new(alloc));
    }
    let part = part_of(alloc, m, rows, columns, left, steps)?;
    if !pays_half(&part, left) {
        return Ok(Vec::new(alloc));
    }
    lines_in(alloc, &part.counted(), rows, columns, steps)
}

// Whether a part in these rows and columns is small enough to be made.
fn is_small(rows: &[u32], columns: &[u32]) -> bool
    ensures { IsTrue result → (1 ≤ length columns.now) × (length columns.now ≤ 256) × (length rows.now ≤ 256) }
{
    !columns.is_empty() && columns.len() <= MOST_COLUMNS && rows.len() <= MOST_ROWS
}

// Takes the most steps of a search in the matrix from those that are left, and tells whether they are enough.
fn pays(part: &CountedMatrix, left: &mut u64) -> bool
    ensures paid { IsTrue result → left.new + part.now.columns * (2 * sum_by length part.now.rows + part.now.columns + 3) + 1 ≤ left.old }
    ensures less { left.new ≤ left.old }
{
    let columns = u64::from(part.counted().columns());
    let Some(looks) = part.ones().checked_mul(2 * columns) else {
        return false;
    };
    let Some(price) = looks.checked_add(columns * (columns + 3) + 1) else {
        return false;
    };
    take_from(left, price)
}

// Takes half of the most steps of a search in the matrix from those that are left, and tells whether they are enough and
// the ones are. A matrix of fewer ones has no odd cycle.
fn pays_half(part: &CountedMatrix, left: &mut u64) -> bool
    ensures paid { IsTrue result → 2 * left.new + 3 * part.now.columns * (sum_by length part.now.rows + 1) + 1 ≤ 2 * left.old }
    ensures less { left.new ≤ left.old }
{
    let columns = u64::from(part.counted().columns());
    let Some(half) = part.ones().checked_mul(2 * columns + 1) else {
        return false;
    };
    take_from(left, half) && part.ones() >= FEW_ONES
}

// Takes a price from what is left, and tells whether that is enough. If not, nothing is taken.
fn take_from(left: &mut u64, price: u64) -> bool
    ensures paid { IsTrue result → left.new + price ≤ left.old }
    ensures less { left.new ≤ left.old }
{
    match left.checked_sub(price) {
        Some(rest) => {
            *left = rest;
            true
        }
        None => false,
    }
}

// The lines in a matrix of an odd cycle in a part of it, if the part has one.
fn lines_in<L: Ledger>(
    alloc: Global,
    part: &CountedRows,
    rows: &[u32],
    columns: &[u32],
    steps: &mut Steps<L>,
) -> Result<Vec<Line>, NoMemory>
    ensures few { steps.new ≤ steps.old + 3 * part.now.columns * (sum_by length part.now.rows + 1) + 1 }
    ensures square { steps.new ≤ steps.old + part.now.columns * (2 * sum_by length part.now.rows + part.now.columns + 3) + 1 }
    ensures turns { OnOk result (steps.old + part.now.columns + sum_by length part.now.rows ≤ steps.new) }
{
    match walk_among(alloc, part, part.rows(), steps)? {
        Some(walk) => {
            let cycle = short_cycle(alloc, part.columns(), walk.lines())?;
            lines_of(alloc, cycle.lines(), rows, columns)
        }
        None => Ok(Vec::new(alloc)),
    }
}

// The lines in the matrix of lines in the part.
fn lines_of(
    alloc: Global,
    lines: &[Line],
    rows: &[u32],
    columns: &[u32],
) -> Result<Vec<Line>, NoMemory> {
    let mut found = Vec::new(alloc);
    for line in lines {
        if let Some(line) = line_of(*line, rows, columns) {
            found.push(line)?;
        }
    }
    Ok(found)
}

// The part of the matrix in these rows and columns, which are numbered by their positions, from 1. It ends before the
// row for which too few steps are left.
fn part_of<L: Ledger>(
    alloc: Global,
    m: &CountedRows,
    rows: &[u32],
    columns: &[u32],
    left: &mut u64,
    steps: &mut Steps<L>,
) -> Result<CountedMatrix, NoMemory>
    requires columns { (1 ≤ length columns.now) × (length columns.now ≤ 256) }
    requires rows { length rows.now ≤ 256 }
    ensures ticks { steps.new + left.new ≤ steps.old + left.old }
    ensures less { left.new ≤ left.old }
    ensures turns { IfOk result (λ part. steps.old + length part.rows * length columns.now ≤ steps.new) }
{
    let mut part = CountedMatrix::new(alloc, columns.len() as u32)?;
    for k in rows {
        if 1 <= *k && *k <= m.rows() {
            if !take_from(left, columns.len() as u64) {
                return Ok(part);
            }
            let row = row_of(alloc, m, *k, columns, steps)?;
            part.push_row(&row)?;
        }
    }
    Ok(part)
}

// The positions, from 1, of the columns that row `k` has.
fn row_of<L: Ledger>(
    alloc: Global,
    m: &CountedRows,
    k: u32,
    columns: &[u32],
    steps: &mut Steps<L>,
) -> Result<Vec<u32>, NoMemory>
    requires row { (1 ≤ k) × (k ≤ length m.now.rows) }
    requires few { length columns.now ≤ 256 }
    ensures row { IfOk result (λ row. IsRow (length columns.now) row.items) }
    ensures ticks { steps.new ≤ steps.old + length columns.now }
    ensures turns { OnOk result (steps.old + length columns.now ≤ steps.new) }
{
    let mut row = Vec::new(alloc);
    for (i, column) in columns.iter().enumerate() {
        if m.has_counted(k, *column, steps) {
            row.push(i as u32 + 1)?;
        }
    }
    Ok(row)
}

// The line in the matrix of a line in the part.
fn line_of(line: Line, rows: &[u32], columns: &[u32]) -> Option<Line> {
    let a = item_at(columns, line.pair.a)?;
    let b = item_at(columns, line.pair.b)?;
    let why = match line.why {
        Why::Flip => Why::Flip,
        Why::Row(k) => Why::Row(item_at(rows, k)?),
    };
    Some(Line {
        pair: Pair { a, b },
        why,
    })
}

// The item at a position, from 1.
fn item_at(list: &[u32], position: u32) -> Option<u32> {
    if position == 0 {
        return None;
    }
    list.get(position as usize - 1).copied()
}
