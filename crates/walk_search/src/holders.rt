// The rows that have each column.
ghost use Rattle.std.specs.Prelude.{◌≡◌, ◌+◌, ◌-◌, ◌<◌, ◌≤◌, [], ◌∷◌, ◌++◌, drop, length, map, set, slice_index_or, sum_by, take, IfOk, OnOk};
ghost use Rattle.walk_search.specs.Holders.{AreHolders, without};

use row_model::{CountedRows, NoMemory};
use std::alloc::Global;
use step_count::{Ledger, Steps};

/// For each column the list of those of so many rows after the first ones that have it, numbered from 1 after these.
/// Each one in these rows is read once, and counted, and so is each column.
pub fn rows_by_column<L: Ledger>(
    alloc: Global,
    m: &CountedRows,
    first: u32,
    rows: u32,
    steps: &mut Steps<L>,
) -> Result<Vec<Vec<u32>>, NoMemory>
    requires { first + rows ≤ length m.now.rows }
    ensures holders { IfOk result (λ holders. AreHolders (without first m.now) rows (map (λ list. list.items) holders.items)) }
    ensures ticks { steps.new ≤ steps.old + m.now.columns + sum_by length (take rows (drop first m.now.rows)) }
    ensures turns { OnOk result (steps.old + m.now.columns + sum_by length (take rows (drop first m.now.rows)) ≤ steps.new) }
{
    let mut holders = Vec::new(alloc);
    for _ in 0..m.columns() {
        steps.tick();
        holders.push(Vec::new(alloc))?;
    }
    for k in 0..rows {
        let row = first + k + 1;
        let mut i = 0;
        while let Some(column) = m.next_counted(row, i, steps) {
            add_holder(&mut holders, column, k + 1)?;
            i += 1;
        }
    }
    Ok(holders)
}

// Adds a row to the list of a column.
fn add_holder(holders: &mut Vec<Vec<u32>>, column: u32, row: u32) -> Result<(), NoMemory>
    requires { (1 ≤ column) × (column ≤ length holders.old.items) }
    ensures { OnOk result (map (λ list. list.items) holders.new.items
        ≡ set (map (λ list. list.items) holders.old.items) (column - 1)
        (slice_index_or (map (λ list. list.items) holders.old.items) (column - 1) [] ++ row ∷ [])) }
{
    let list = &mut holders[column as usize - 1];
    list.push(row)?;
    Ok(())
}
