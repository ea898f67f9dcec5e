// The rows of a matrix, cut at column 1.
ghost use Rattle.std.specs.Prelude.{◌≡◌, IfOk, OnOk};
ghost use Rattle.row_model.specs.Rows.{IsRow};
ghost use Rattle.circular_ones.specs.Circular.{complement, cut};

use row_model::{Matrix, NoMemory};
use std::alloc::Global;

/// The matrix in which each row that holds column 1 is replaced by its complement, the columns that it lacks (Tucker,
/// 1971). The other rows stay.
///
/// Its valid orders are circular orders of the given matrix, and one of them is a rotation of each circular order, as
/// [`circular_law`](crate::circular_law) says. A row that holds column 1 takes time linear in the number of columns,
/// and any other in its length.
///
/// # Errors
///
/// `NoMemory` where there is no memory for the matrix.
pub fn cut_rows(alloc: Global, m: &Matrix) -> Result<Matrix, NoMemory>
    ensures { IfOk result (λ rows. rows ≡ cut m.now) }
{
    let mut rows = Matrix::with_room(alloc, m.columns(), m.rows() as usize, m.ones() as usize)?;
    let mut outside = Vec::new(alloc);
    for k in 0..m.rows() {
        let row = m.row(k + 1);
        let is_cut = m.has(k + 1, 1);
        if is_cut {
            list_outside(&mut outside, m.columns(), row)?;
            rows.push_row(&outside)?;
        } else {
            rows.push_row(row)?;
        }
    }
    Ok(rows)
}

// Makes the list that of the columns which the row lacks, in ascending order.
fn list_outside(outside: &mut Vec<u32>, columns: u32, row: &[u32]) -> Result<(), NoMemory>
    requires { IsRow columns row.now }
    ensures { OnOk result (outside.new.items ≡ complement columns row.now) }
{
    outside.clear();
    let mut inside = 0;
    for before in 0..columns {
        let column = before + 1;
        if inside < row.len() && row[inside] == column {
            inside += 1;
        } else {
            outside.push(column)?;
        }
    }
    Ok(())
}
