// Matrices over three columns.
ghost use Rattle.std.specs.Prelude.{◌≡◌, length, IfOk};

use row_model::{Matrix, NoMemory};
use std::alloc::Global;

// The rows 110 and 011, which overlap.
pub fn chain(alloc: Global) -> Result<Matrix, NoMemory>
    ensures { IfOk result (λ m. (m.columns ≡ 3) × (length m.rows ≡ 2)) }
{
    let mut m = Matrix::new(alloc, 3)?;
    m.push_row(&[1, 2])?;
    m.push_row(&[2, 3])?;
    Ok(m)
}

// The rows 110, 011 and 101, which ask of each two of three columns to be neighbours.
pub fn triangle(alloc: Global) -> Result<Matrix, NoMemory> {
    let mut m = chain(alloc)?;
    m.push_row(&[1, 3])?;
    Ok(m)
}
