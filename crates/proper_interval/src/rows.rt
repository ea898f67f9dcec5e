// The closed rows of a graph.
ghost use Rattle.std.specs.Prelude.{◌≡◌, ◌≤◌, length, IfOk, OnOk};
ghost use Rattle.graph_model.specs.Graphs.{IsGraph};
ghost use Rattle.proper_interval.specs.Umbrellas.{closed_row, closed_of};

use graph_model::{Graph, count_below};
use row_model::{Matrix, NoMemory};
use std::alloc::Global;

/// The closed rows of a graph (Roberts, 1969), as a matrix whose columns are the vertices: row
/// v has v and its neighbours.
///
/// The valid orders of the rows are the umbrella orders of the graph, as [`umbrella_law`](crate::umbrella_law) says,
/// and which row is whose says [`closed_rows_law`](crate::closed_rows_law).
///
/// # Errors
///
/// `NoMemory` where there is no memory for the matrix.
pub fn closed_rows(alloc: Global, g: &Graph) -> Result<Matrix, NoMemory>
    ensures { IfOk result (λ m. m ≡ closed_of g.now) }
{
    let count = g.vertices() as usize;
    let ones = (g.lists().ones() as usize).saturating_add(count);
    let mut rows = Matrix::with_room(alloc, g.vertices(), count, ones)?;
    let mut row = Vec::new(alloc);
    for before in 0..g.vertices() {
        list_closed(&mut row, g, before + 1)?;
        rows.push_row(&row)?;
    }
    Ok(rows)
}

// Makes the row that of the neighbours and the vertex in its place among them.
fn list_closed(row: &mut Vec<u32>, g: &Graph, v: u32) -> Result<(), NoMemory>
    requires graph { IsGraph g.now }
    requires vertex { (1 ≤ v) × (v ≤ g.now.vertices) }
    ensures { OnOk result (row.new.items ≡ closed_row g.now v) }
{
    let neighbours = g.neighbours(v);
    row.clear();
    row.extend_from_slice(neighbours)?;
    row.insert(count_below(neighbours, v), v)?;
    Ok(())
}
