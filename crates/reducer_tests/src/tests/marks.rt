// Rows and matrices by marks, and the texts of trees.
ghost use Rattle.std.specs.Prelude.{◌≡◌, ◌≤◌, length, IfOk};
ghost use Rattle.row_model.specs.Rows.{IsRow};

use column_order::COLUMN_BOUND;
use pq_tree::PqTree;
use row_model::{Matrix, NoMemory};
use std::alloc::Global;

/// The text of a tree.
pub fn text_of(alloc: Global, tree: &PqTree) -> Result<Vec<u8>, NoMemory> {
    let mut text = Vec::new(alloc);
    tree.print(&mut text)?;
    Ok(text)
}

/// Marks the columns at the ones of a text of digits. Those behind its end are not marked.
pub fn mark_ones(digits: &str, marks: &mut [bool]) {
    for mark in marks.iter_mut() {
        *mark = false;
    }
    for (mark, digit) in marks.iter_mut().zip(digits.as_bytes()) {
        *mark = *digit == b'1';
    }
}

/// Marks the columns at the ones of a number in base two, the lowest digit first.
pub fn mark_bits(number: u64, marks: &mut [bool]) {
    let mut rest = number;
    for mark in marks {
        *mark = rest % 2 == 1;
        rest /= 2;
    }
}

/// The columns that are marked, in ascending order.
pub fn marked_columns(alloc: Global, marks: &[bool]) -> Result<Vec<u32>, NoMemory>
    requires { length marks.now ≤ COLUMN_BOUND }
    ensures { IfOk result (λ row. IsRow (length marks.now) row.items) }
{
    let mut row = Vec::new(alloc);
    for (before, marked) in marks.iter().enumerate() {
        if *marked {
            row.push(before as u32 + 1)?;
        }
    }
    Ok(row)
}

/// The matrix of so many columns with these rows of digits. The columns behind the end of a row are not in it.
pub fn matrix_of(alloc: Global, columns: u32, rows: &[&str]) -> Result<Matrix, NoMemory>
    requires columns { (1 ≤ columns) × (columns ≤ COLUMN_BOUND) }
    requires rows { length rows.now ≤ 32 }
    ensures { IfOk result (λ m. m.columns ≡ columns) }
{
    let mut m = Matrix::new(alloc, columns)?;
    let mut marks = vec![in alloc; false; columns as usize]?;
    for digits in rows {
        mark_ones(digits, &mut marks);
        m.push_row(&marked_columns(alloc, &marks)?)?;
    }
    Ok(m)
}

/// The matrix of so many columns and rows whose ones are those of a number in base two, the lowest digit first.
pub fn matrix_by(alloc: Global, columns: u32, rows: u32, bits: u64) -> Result<Matrix, NoMemory>
    requires columns { (1 ≤ columns) × (columns ≤ 32) }
    requires rows { rows ≤ 32 }
    ensures { IfOk result (λ m. m.columns ≡ columns) }
{
    let mut m = Matrix::new(alloc, columns)?;
    let mut marks = vec![in alloc; false; columns as usize]?;
    let mut left = bits;
    for _ in 0..rows {
        mark_bits(left, &mut marks);
        m.push_row(&marked_columns(alloc, &marks)?)?;
        left >>= columns;
    }
    Ok(m)
}
