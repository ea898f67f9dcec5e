// Edges as places in a table that has a row for each vertex of the left side.
ghost use Rattle.std.specs.Prelude.{◌≡◌, ◌+◌, ◌*◌, ◌-◌, ◌<◌, ◌≤◌, ◌^◌, ◌∷◌, ◌++◌, ◌||◌, [], ℕ, List, length, drop, slice_index_or, IfOk, OnOk};
ghost use Rattle.std.specs.List.{All};
ghost use Rattle.std.specs.List.Sorted.{IsNonDecreasing};
ghost use Rattle.column_order.specs.Orders.{has};
ghost use Rattle.row_model.specs.Rows.{IsRow};
ghost use Rattle.graph_read.specs.declared.edges.Edge.{Edge};
ghost use Rattle.graph_read.specs.Edges.{left_of, right_of, ways, lists_from};
ghost use Rattle.graph_read.specs.Places.{place_of, ArePlaces};

use crate::edges::{Edge, Shape};
use graph_model::LEFT_BOUND;
use row_model::{COLUMN_BOUND, Matrix, NoMemory};
use std::alloc::Global;

/// Adds the place of an edge, and where edges go both ways that of the edge back.
///
/// # Errors
///
/// [`NoMemory`] where memory is refused.
pub fn push_edge(shape: Shape, places: &mut Vec<u32>, edge: Edge) -> Result<(), NoMemory>
    requires small { (left_of shape ≤ LEFT_BOUND) × (right_of shape ≤ COLUMN_BOUND) }
    requires from { (1 ≤ edge.from) × (edge.from ≤ left_of shape) }
    requires to { (1 ≤ edge.to) × (edge.to ≤ right_of shape) }
    ensures places { OnOk result ((edges : List Edge) → ArePlaces (left_of shape) (right_of shape) (ways shape edges) places.old.items → ArePlaces (left_of shape) (right_of shape) (ways shape (edges ++ edge ∷ [])) places.new.items) }
    ensures within { OnOk result (All (λ place. place < left_of shape * right_of shape) places.old.items → All (λ place. place < left_of shape * right_of shape) places.new.items) }
{
    places.push(place(shape.right(), edge))?;
    if let Shape::Plain { vertices } = shape {
        let back = Edge {
            from: edge.to,
            to: edge.from,
        };
        places.push(place(vertices, back))?;
    }
    Ok(())
}

// The place of an edge, where a row has so many places.
fn place(right: u32, edge: Edge) -> u32
    requires small { (edge.from ≤ LEFT_BOUND) × (right ≤ COLUMN_BOUND) }
    requires from { 1 ≤ edge.from }
    requires to { (1 ≤ edge.to) × (edge.to ≤ right) }
    ensures { result ≡ place_of right edge }
{
    (edge.from - 1) * right + (edge.to - 1)
}

/// The lists of the edges at ascending places.
///
/// # Errors
///
/// [`NoMemory`] where memory is refused.
pub fn lists_at(alloc: Global, left: u32, right: u32, places: &[u32]) -> Result<Matrix, NoMemory>
    requires left { left ≤ LEFT_BOUND }
    requires right { (1 ≤ right) × (right ≤ COLUMN_BOUND) }
    requires ascending { IsNonDecreasing places.now }
    ensures { IfOk result (λ m. (edges : List Edge) → ArePlaces left right edges places.now → m ≡ record { columns = right; rows = lists_from 1 left right edges }) }
{
    let mut lists = Matrix::with_room(alloc, right, left as usize, places.len())?;
    let mut list = Vec::new(alloc);
    let mut at = 0;
    for x in 0..left {
        at = take_row(places, at, x * right, right, &mut list)?;
        lists.push_row(&list)?;
    }
    Ok(lists)
}

// Puts the numbers of a row, whose first place is given, in place of what a list has, where the places from `from` on
// are those of this row and of later ones. The answer is where those of later rows begin.
fn take_row(
    places: &[u32],
    from: usize,
    first: u32,
    right: u32,
    list: &mut Vec<u32>,
) -> Result<usize, NoMemory>
    requires small { (first + right ≤ 2 ^ 32) × (right ≤ COLUMN_BOUND) }
    requires ascending { IsNonDecreasing places.now }
    requires from { from ≤ length places.now }
    requires above { (k : ℕ) → from ≤ k → k < length places.now → first ≤ slice_index_or places.now k 0 }
    ensures range { IfOk result (λ end. (from ≤ end) × (end ≤ length places.now)) }
    ensures further { IfOk result (λ end. (k : ℕ) → end ≤ k → k < length places.now → first + right ≤ slice_index_or places.now k 0) }
    ensures row { OnOk result (IsRow right list.new.items) }
    ensures list { IfOk result (λ end. (j : ℕ) → (has list.new.items (j + 1) || has (drop end places.now) (first + j)) ≡ has (drop from places.now) (first + j)) }
{
    list.clear();
    let mut last = 0;
    let mut at = from;
    while at < places.len() && places[at] - first < right {
        let number = places[at] - first + 1;
        if number > last {
            list.push(number)?;
            last = number;
        }
        at += 1;
    }
    Ok(at)
}
