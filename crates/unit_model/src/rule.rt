// The unit model that an umbrella order gives.
ghost use Rattle.std.specs.Prelude.{◌≡◌, ◌≤◌, ◌<◌, ◌+◌, ◌^◌, ℕ, length, slice_index, All, IfOk, IfSome, IfNone};
ghost use Rattle.row_model.specs.Positions.{ArePositions};
ghost use Rattle.graph_model.specs.Graphs.{IsGraph};
ghost use Rattle.proper_interval.specs.Umbrellas.{IsUmbrellaOrder};
ghost use Rattle.unit_model.specs.Models.{IsUnitModel, lefts_of};
ghost use Rattle.unit_model.specs.Rule.{AreLeftEnds};
ghost use Rattle.unit_model.specs.Drawing.{IsFirstBefore, HasNoneBefore};

use crate::drawing::Drawing;
use graph_model::Graph;
use row_model::{Interval, Intervals, NoMemory, positions, span_of};
use std::alloc::Global;

/// The unit model of an umbrella order, vertex by vertex (Roberts, 1969). Its length is the number n of vertices, so
/// each right end is the left end plus n, and all numbers are within 64 bits.
///
/// The components are taken in the order of their first vertices. The layer of a vertex is its distance from the first
/// vertex of its component. Each component has a list, which begins with its first vertex; then, layer after layer and
/// in each layer in the order, a vertex is put directly before its first neighbour of the layer before, behind those
/// already put there for the same neighbour. A vertex of layer t at place p of the list, from 0, has the left end b +
/// tn + p. The base b is 0 for the first component, and after a component of L layers it is (L + 1)n more. It takes
/// time in proportion to the vertices and edges.
///
/// # Errors
///
/// `NoMemory` where there is no memory for the lists and the intervals.
pub fn model(alloc: Global, g: &Graph, order: &[u32]) -> Result<Intervals, NoMemory>
    requires { IsUmbrellaOrder g.now order.now }
    ensures left_ends { IfOk result (λ list. AreLeftEnds g.now order.now (lefts_of list)) }
    ensures right_ends { IfOk result (λ list. All (λ a. a.right ≡ a.left + g.now.vertices) list) }
    ensures within { IfOk result (λ list. All (λ a. a.right < 2 ^ 64) list) }
    ensures model { IfOk result (λ list. IsUnitModel g.now g.now.vertices (lefts_of list)) }
{
    let lefts = left_ends(alloc, g, order)?;
    of_one_length(alloc, &lefts, g.vertices())
}

// The intervals of one length with these left ends.
fn of_one_length(alloc: Global, lefts: &[u64], length: u32) -> Result<Intervals, NoMemory>
    requires { All (λ left. left < 2 ^ 63) lefts.now }
    ensures lefts { IfOk result (λ list. lefts_of list ≡ lefts.now) }
    ensures rights { IfOk result (λ list. All (λ a. a.right ≡ a.left + length) list) }
    ensures within { IfOk result (λ list. All (λ a. a.right < 2 ^ 64) list) }
{
    let mut list = Intervals::with_capacity(alloc, lefts.len())?;
    for left in lefts {
        list.push(Interval {
            left: *left,
            right: *left + u64::from(length),
        })?;
    }
    Ok(list)
}

// The left ends, vertex by vertex.
fn left_ends(alloc: Global, g: &Graph, order: &[u32]) -> Result<Vec<u64>, NoMemory>
    requires { IsUmbrellaOrder g.now order.now }
    ensures ends { IfOk result (λ lefts. AreLeftEnds g.now order.now lefts.items) }
    ensures model { IfOk result (λ lefts. IsUnitModel g.now g.now.vertices lefts.items) }
    ensures low { IfOk result (λ lefts. All (λ left. left < 2 ^ 63) lefts.items) }
{
    let step = u64::from(g.vertices());
    let positions = positions(alloc, order)?;
    let mut drawing = Drawing::new(alloc, order.len())?;
    let mut start = 0;
    drawing.begin(order[0], 0);
    for i in 1..order.len() {
        match first_before(g, &positions, order, i) {
            Some(u) => drawing.put_before(order[i], u, step),
            None => {
                let level = drawing.levels[order[i - 1] as usize - 1] + 2 * step;
                drawing.number(order[start], i - start);
                drawing.begin(order[i], level);
                start = i;
            }
        }
    }
    drawing.number(order[start], order.len() - start);
    Ok(drawing.lefts)
}

// The first neighbour of the vertex at a place, from 0, if it stands before that.
fn first_before(g: &Graph, positions: &[u32], order: &[u32], i: usize) -> Option<u32>
    requires graph { IsGraph g.now }
    requires order { IsUmbrellaOrder g.now order.now }
    requires positions { ArePositions order.now positions.now }
    requires i { i < length order.now }
    ensures some { IfSome result (λ u. IsFirstBefore g.now order.now i u (slice_index order.now i)) }
    ensures none { IfNone result (HasNoneBefore g.now order.now i (slice_index order.now i)) }
{
    let span = span_of(positions, g.neighbours(order[i]))?;
    let first = span.first as usize - 1;
    if first < i { Some(order[first]) } else { None }
}
