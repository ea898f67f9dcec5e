// The first line of a text of edges.
ghost use Rattle.std.specs.Prelude.{◌≡◌, ◌≤◌, IfOk};
ghost use Rattle.graph_read.specs.Edges.{left_of, right_of};
ghost use Rattle.graph_read.specs.Headings.{left_limit, shape_named, IsShapeOf};

use crate::edges::{Shape, sides_in, vertices_in};
use graph_model::LEFT_BOUND;
use row_model::COLUMN_BOUND;

/// What the first line of a text of edges gives.
#[derive(Clone, Copy)]
pub enum Heading {
    /// The sizes of two sides, the left one of at most so many vertices.
    Sides(u32),
    /// The number of vertices of a graph.
    Vertices,
}

/// The vertices that a first line gives, or the code of its refusal.
pub fn shape_in(heading: Heading, line: &[u8]) -> Result<Shape, u8>
    requires { left_limit heading ≤ LEFT_BOUND }
    ensures shape { result ≡ shape_named heading line.now }
    ensures left { IfOk result (λ shape. (1 ≤ left_of shape) × (left_of shape ≤ LEFT_BOUND)) }
    ensures right { IfOk result (λ shape. (1 ≤ right_of shape) × (right_of shape ≤ COLUMN_BOUND)) }
    ensures of { IfOk result (IsShapeOf heading) }
{
    match heading {
        Heading::Sides(limit) => sides_in(limit, line),
        Heading::Vertices => vertices_in(line),
    }
}
