// The intervals that an umbrella order gives.
ghost use Rattle.std.specs.Prelude.{◌≡◌, ◌≤◌, length, IfOk};
ghost use Rattle.column_order.specs.Orders.{IsWithin};
ghost use Rattle.proper_interval.specs.Umbrellas.{IsUmbrellaOrder};
ghost use Rattle.proper_interval.specs.Models.{IsProperModel};
ghost use Rattle.proper_interval.specs.Formula.{AreIntervals, interval_at};
ghost use Rattle.proper_interval.specs.Reaches.{ArePositionsOf, IsFarthest, IsIntervalBy};

use graph_model::Graph;
use row_model::{COLUMN_BOUND, Interval, Intervals, NoMemory, positions, span_of};
use std::alloc::Global;

/// The intervals of an umbrella order, vertex by vertex: a proper model of the graph (Roberts, 1969).
///
/// Among n vertices, that at position i, from 1, has the interval from (n+1)i to (n+1)r+i, where r is the
/// last position j at or after i with j = i or an edge between the vertices at i and j. It takes time in
/// proportion to the vertices and edges.
///
/// # Errors
///
/// `NoMemory` where there is no memory for the positions and the intervals.
pub fn intervals(alloc: Global, g: &Graph, order: &[u32]) -> Result<Intervals, NoMemory>
    requires { IsUmbrellaOrder g.now order.now }
    ensures formula { IfOk result (λ list. AreIntervals g.now order.now list) }
    ensures model { IfOk result (λ list. IsProperModel g.now list) }
{
    let n = g.vertices();
    let positions = positions(alloc, order)?;
    let mut list = Intervals::with_capacity(alloc, n as usize)?;
    for before in 0..n {
        list.push(interval_by(g, &positions, before + 1))?;
    }
    Ok(list)
}

// The interval of a vertex, by the positions of all vertices.
fn interval_by(g: &Graph, positions: &[u32], v: u32) -> Interval
    requires v { (1 ≤ v) × (v ≤ g.now.vertices) }
    requires positions { ArePositionsOf g.now positions.now }
    ensures { IsIntervalBy g.now positions.now v result }
{
    let n = g.vertices();
    let position = positions[v as usize - 1];
    interval(n, position, farthest(positions, g.neighbours(v), position))
}

// The greatest of a position and those of the neighbours.
fn farthest(positions: &[u32], neighbours: &[u32], position: u32) -> u32
    requires { IsWithin (length positions.now) neighbours.now }
    ensures { IsFarthest positions.now neighbours.now position result }
{
    match span_of(positions, neighbours) {
        None => position,
        Some(span) => position.max(span.last),
    }
}

// Among n vertices, the interval of that at a position, which reaches to the last.
fn interval(n: u32, position: u32, last: u32) -> Interval
    requires n { n ≤ COLUMN_BOUND }
    requires position { position ≤ n }
    requires last { last ≤ n }
    ensures { result ≡ interval_at n position last }
{
    let step = n as u64 + 1;
    Interval {
        left: step * position as u64,
        right: step * last as u64 + position as u64,
    }
}
