// Instances, by what their files hold.
ghost use Rattle.std.specs.Prelude.{◌≡◌, ◌-◌, ◌≤◌, Some, length, slice_get, IfOk};
ghost use Rattle.instance_model.specs.Instance.{instance_kind, instance_columns, derived_matrix, IsInstance, IsSideOf, IsWellFormed};
ghost use Rattle.instance_model.specs.Value.{instance_value};

use circular_ones::cut_rows;
use convex_bipartite::{columns_of, rows_of};
use graph_model::{Bigraph, Distances, Graph};
use proper_interval::closed_rows;
use robinson_balls::balls;
use row_model::{Kind, MAX_ROWS, Matrix, NoMemory};
use std::alloc::Global;

/// What a verdict is about.
#[derive(Drop)]
pub enum Instance {
    /// A matrix, of the kind `Matrix`, `Rows`, `Table` or `Clones`: has it a valid order?
    Plain(Kind, Matrix),
    /// A matrix: has it a circular order?
    Circular(Matrix),
    /// A bipartite graph: has its right side an order that keeps the neighbours of each vertex
    /// of the left side together?
    Convex(Bigraph),
    /// A bipartite graph: have both sides such an order? Side 1 orders the right side, side 2 the left side.
    Doubly(Bigraph),
    /// A graph: has it an umbrella order?
    Proper(Graph),
    /// A table of distances: has it a Robinson order?
    Robinson(Distances),
}

impl Instance {
    /// The kind.
    pub fn kind(&self) -> Kind
        ensures kind { result ≡ instance_kind (instance_value self.now) }
        ensures formed { IsWellFormed (instance_value self.now) }
    {
        self.formed();
        match self {
            Instance::Plain(kind, _) => *kind,
            Instance::Circular(_) => Kind::Circular,
            Instance::Convex(_) => Kind::Convex,
            Instance::Doubly(_) => Kind::Doubly,
            Instance::Proper(_) => Kind::Proper,
            Instance::Robinson(_) => Kind::Robinson,
        }
    }

    // What a graph or a table keeps, which a call of it tells contracts.
    fn formed(&self)
        ensures { IsWellFormed (instance_value self.now) }
    {
        match self {
            Instance::Plain(_, _) | Instance::Circular(_) => {}
            Instance::Convex(graph) | Instance::Doubly(graph) => {
                let _left = graph.left();
            }
            Instance::Proper(graph) => {
                let _vertices = graph.vertices();
            }
            Instance::Robinson(distances) => {
                let _items = distances.items();
            }
        }
    }

    /// The number of sides: 2 for `Doubly`, else 1.
    pub fn sides(&self) -> u8
        ensures { result ≡ length (instance_columns (instance_value self.now)) }
    {
        match self {
            Instance::Doubly(_) => 2,
            _ => 1,
        }
    }

    /// The number of columns of a side.
    pub fn columns(&self, side: u8) -> u32
        requires { IsSideOf (instance_value self.now) side }
        ensures { slice_get (instance_columns (instance_value self.now)) (side - 1) ≡ Some result }
    {
        match self {
            Instance::Plain(_, matrix) => matrix.columns(),
            Instance::Circular(matrix) => matrix.columns(),
            Instance::Convex(graph) => graph.right(),
            Instance::Doubly(graph) if side == 1 => graph.right(),
            Instance::Doubly(graph) => graph.left(),
            Instance::Proper(graph) => graph.vertices(),
            Instance::Robinson(distances) => distances.items(),
        }
    }

    /// The derived matrix of a side: its valid orders are the textbook orders of the side, as
    /// [`textbook_law`](crate::textbook_law) says, and it is within the limits, as
    /// [`derived_sizes_law`](crate::derived_sizes_law) says.
    ///
    /// The matrix of a plain instance is copied.
    ///
    /// # Errors
    ///
    /// `NoMemory` where there is no memory for the matrix.
    pub fn derived(&self, alloc: Global, side: u8) -> Result<Matrix, NoMemory>
        requires instance { IsInstance (instance_value self.now) }
        requires side { IsSideOf (instance_value self.now) side }
        ensures { IfOk result (λ m. m ≡ derived_matrix (instance_value self.now) side) }
    {
        match self {
            Instance::Plain(_, matrix) => copied(alloc, matrix),
            Instance::Circular(matrix) => cut_rows(alloc, matrix),
            Instance::Convex(graph) => rows_of(alloc, graph),
            Instance::Doubly(graph) if side == 1 => rows_of(alloc, graph),
            Instance::Doubly(graph) => columns_of(alloc, graph),
            Instance::Proper(graph) => closed_rows(alloc, graph),
            Instance::Robinson(distances) => balls(alloc, distances),
        }
    }
}

// A copy of a matrix within the limits.
fn copied(alloc: Global, matrix: &Matrix) -> Result<Matrix, NoMemory>
    requires { length matrix.now.rows ≤ MAX_ROWS }
    ensures { IfOk result (λ m. m ≡ matrix.now) }
{
    let mut copy = Matrix::new(alloc, matrix.columns())?;
    for k in 0..matrix.rows() {
        copy.push_row(matrix.row(k + 1))?;
    }
    Ok(copy)
}
