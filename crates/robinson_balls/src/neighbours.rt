// The items in the order of their distances from one of them.
ghost use Rattle.std.specs.Prelude.{◌<◌, ◌≤◌, length, IsTrue, IsFalse, IfOk};
ghost use Rattle.robinson_balls.specs.Neighbours.{AreNeighbours, EndsBall, GoesOn};

use graph_model::Distances;
use row_model::NoMemory;
use std::alloc::Global;

// An item, and its distance from a centre.
#[derive(Clone, Copy)]
pub struct Neighbour {
    pub item: u32,
    pub distance: u64,
}

// All items with their distances from `x`, itself included, in rising order of distance.
pub fn list_neighbours(alloc: Global, d: &Distances, x: u32) -> Result<Vec<Neighbour>, NoMemory>
    requires { (1 ≤ x) × (x ≤ d.now.items) }
    ensures { IfOk result (λ neighbours. AreNeighbours d.now x neighbours.items) }
{
    let mut neighbours = Vec::with_capacity(alloc, d.items() as usize)?;
    for before in 0..d.items() {
        neighbours.push(Neighbour {
            item: before + 1,
            distance: d.at(x, before + 1),
        })?;
    }
    // The centre goes first, so that the list is in order where all others are at one distance.
    neighbours.swap(0, x as usize - 1);
    neighbours.sort_unstable_by_key(|neighbour| neighbour.distance);
    Ok(neighbours)
}

// Whether the neighbour in place `k`, from 0, is nearer than the next, or the last.
pub fn ends_ball(neighbours: &[Neighbour], k: usize) -> bool
    requires { k < length neighbours.now }
    ensures ends { IsTrue result → EndsBall neighbours.now k }
    ensures goes_on { IsFalse result → GoesOn neighbours.now k }
{
    k + 1 == neighbours.len() || neighbours[k].distance < neighbours[k + 1].distance
}
