// The edges that lines name, and the sides that they go between.
ghost use Rattle.std.specs.Prelude.{◌≡◌, ◌≤◌, Some, IfOk, IsTrue};
ghost use Rattle.text_lines.specs.Words.{words_of};
ghost use Rattle.graph_read.specs.Numbers.{is_number, one_number, two_numbers};
ghost use Rattle.graph_read.specs.Edges.{left_of, right_of, edge_named, sides_named, vertices_named};

use crate::numbers::{NumberPair, is_past, is_within, is_zero, size_in, two_numbers, value_of};
use row_model::{MAX_COLUMNS, code};

/// An edge as a line names it.
#[derive(Clone, Copy)]
pub struct Edge {
    /// The vertex that stands first.
    pub from: u32,
    /// The vertex that stands second.
    pub to: u32,
}

/// Between which vertices edges go.
#[derive(Clone, Copy)]
pub enum Shape {
    /// From a left side to a right side.
    Bipartite {
        /// The size of the left side.
        left: u32,
        /// The size of the right side.
        right: u32,
    },
    /// Between the vertices of a graph without loops.
    Plain {
        /// The number of vertices.
        vertices: u32,
    },
}

impl Shape {
    /// From how many vertices edges come.
    pub fn left(self) -> u32
        ensures { result ≡ left_of self }
    {
        match self {
            Shape::Bipartite { left, .. } => left,
            Shape::Plain { vertices } => vertices,
        }
    }

    /// To how many vertices edges go.
    pub fn right(self) -> u32
        ensures { result ≡ right_of self }
    {
        match self {
            Shape::Bipartite { right, .. } => right,
            Shape::Plain { vertices } => vertices,
        }
    }
}

/// The edge that a line names, or the code of its refusal.
pub fn edge_in(shape: Shape, line: &[u8]) -> Result<Edge, u8>
    ensures edge { result ≡ edge_named shape (two_numbers (words_of line.now)) }
    ensures from { IfOk result (λ edge. (1 ≤ edge.from) × (edge.from ≤ left_of shape)) }
    ensures to { IfOk result (λ edge. (1 ≤ edge.to) × (edge.to ≤ right_of shape)) }
{
    match two_numbers(line) {
        None => Err(code::GRAMMAR),
        Some(pair) => edge_between(shape, pair),
    }
}

/// The edge between two numbers, or the code of its refusal.
pub fn edge_between(shape: Shape, pair: NumberPair) -> Result<Edge, u8>
    requires numbers { IsTrue (is_number pair.first) × IsTrue (is_number pair.second) }
    ensures edge { result ≡ edge_named shape (Some pair) }
    ensures from { IfOk result (λ edge. (1 ≤ edge.from) × (edge.from ≤ left_of shape)) }
    ensures to { IfOk result (λ edge. (1 ≤ edge.to) × (edge.to ≤ right_of shape)) }
{
    if !is_within(shape.left(), pair.first) || !is_within(shape.right(), pair.second) {
        return Err(code::RANGE);
    }
    let edge = Edge {
        from: value_of(pair.first) as u32,
        to: value_of(pair.second) as u32,
    };
    match shape {
        Shape::Plain { .. } if edge.from == edge.to => Err(code::SYMMETRY),
        _ => Ok(edge),
    }
}

/// The two sides that a first line gives, the left one of at most `limit` vertices, or the code of its refusal.
pub fn sides_in(limit: u32, line: &[u8]) -> Result<Shape, u8>
    ensures sides { result ≡ sides_named limit (two_numbers (words_of line.now)) }
    ensures left { IfOk result (λ shape. (1 ≤ left_of shape) × (left_of shape ≤ limit)) }
    ensures right { IfOk result (λ shape. (1 ≤ right_of shape) × (right_of shape ≤ MAX_COLUMNS)) }
{
    let Some(pair) = two_numbers(line) else {
        return Err(code::GRAMMAR);
    };
    if is_zero(pair.first) || is_zero(pair.second) {
        return Err(code::RANGE);
    }
    if is_past(limit, pair.first) || is_past(MAX_COLUMNS, pair.second) {
        return Err(code::LIMIT);
    }
    Ok(Shape::Bipartite {
        left: value_of(pair.first) as u32,
        right: value_of(pair.second) as u32,
    })
}

/// The vertices that a first line gives, or the code of its refusal.
pub fn vertices_in(line: &[u8]) -> Result<Shape, u8>
    ensures vertices { result ≡ vertices_named (one_number (words_of line.now)) }
    ensures range { IfOk result (λ shape. (1 ≤ left_of shape) × (left_of shape ≤ MAX_COLUMNS)) }
    ensures square { IfOk result (λ shape. shape ≡ Shape.Plain (left_of shape)) }
{
    let vertices = size_in(MAX_COLUMNS, line)?;
    Ok(Shape::Plain { vertices })
}
