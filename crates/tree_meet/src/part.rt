//! A row parted by the marks of its columns.

ghost use Rattle.std.specs.Prelude.{◌≡◌, ◌<◌, ◌≤◌, ℕ, [], length, replicate, slice_index, IfOk, OnOk, IsTrue};
ghost use Rattle.column_order.specs.Orders.{has};
ghost use Rattle.tree_meet.specs.Marks.{lists_of, is_at, is_near, AddsWhere, ArePartsBy};

use row_model::NoMemory;
use std::alloc::Global;

/// For each mark below `count` the columns of the row that have it, in the order of the row.
pub fn parts_of(
    alloc: Global,
    row: &[u32],
    marks: &[usize],
    count: usize,
) -> Result<Vec<Vec<u32>>, NoMemory>
    requires { (a : ℕ) → IsTrue (has row.now a) → (a < length marks.now) × (slice_index marks.now a < count) }
    ensures { IfOk result (λ parts. ArePartsBy is_at marks.now row.now count parts.items) }
{
    let mut parts = empty_lists(alloc, count)?;
    for column in row {
        add_at(&mut parts, marks[*column as usize], *column)?;
    }
    Ok(parts)
}

/// For each mark below `count` the columns of the row that have it or the next one, in the order of the row. No mark is
/// above `count`.
pub fn pairs_of(
    alloc: Global,
    row: &[u32],
    marks: &[usize],
    count: usize,
) -> Result<Vec<Vec<u32>>, NoMemory>
    requires { (a : ℕ) → IsTrue (has row.now a) → (a < length marks.now) × (slice_index marks.now a ≤ count) }
    ensures { IfOk result (λ pairs. ArePartsBy is_near marks.now row.now count pairs.items) }
{
    let mut pairs = empty_lists(alloc, count)?;
    for column in row {
        add_near(&mut pairs, marks[*column as usize], *column)?;
    }
    Ok(pairs)
}

// So many empty lists.
fn empty_lists(alloc: Global, count: usize) -> Result<Vec<Vec<u32>>, NoMemory>
    ensures { IfOk result (λ lists. lists_of lists.items ≡ replicate count []) }
{
    let mut lists = Vec::with_capacity(alloc, count)?;
    for _ in 0..count {
        lists.push(Vec::new(alloc))?;
    }
    Ok(lists)
}

// Adds a column to the list at an index.
fn add_at(lists: &mut Vec<Vec<u32>>, at: usize, column: u32) -> Result<(), NoMemory>
    requires { at < length lists.old.items }
    ensures { OnOk result (AddsWhere (is_at at) column lists.old.items lists.new.items) }
{
    let list = &mut lists[at];
    list.push(column)?;
    Ok(())
}

// Adds a column to the list at an index and to the one before it, where there are such lists.
fn add_near(lists: &mut Vec<Vec<u32>>, at: usize, column: u32) -> Result<(), NoMemory>
    requires { at ≤ length lists.old.items }
    ensures { OnOk result (AddsWhere (is_near at) column lists.old.items lists.new.items) }
{
    if at > 0 {
        add_at(lists, at - 1, column)?;
    }
    if at < lists.len() {
        add_at(lists, at, column)?;
    }
    Ok(())
}
