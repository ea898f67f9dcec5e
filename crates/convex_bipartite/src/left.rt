// The neighbourhoods of the left side.
ghost use Rattle.std.specs.Prelude.{◌≡◌, IfOk};
ghost use Rattle.convex_bipartite.specs.Sides.{left_rows};

use graph_model::Bigraph;
use row_model::{Matrix, NoMemory};
use std::alloc::Global;

/// The matrix with a column for each y, in which row x is the list of the ys that x has an edge to.
///
/// # Errors
///
/// `NoMemory` where there is no memory for the matrix.
pub fn rows_of(alloc: Global, g: &Bigraph) -> Result<Matrix, NoMemory>
    ensures { IfOk result (λ m. m ≡ left_rows g.now) }
{
    let mut rows = Matrix::new(alloc, g.right())?;
    for k in 0..g.left() {
        rows.push_row(g.neighbours(k + 1))?;
    }
    Ok(rows)
}
