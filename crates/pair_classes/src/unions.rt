// Sets of places, of which two at a time become one (Galler and Fischer, 1964; Tarjan and van Leeuwen, 1984).
ghost use Rattle.std.specs.Prelude.{◌≡◌, ◌<◌, ◌≤◌, ℕ, length, slice_index, IfOk};
ghost use Rattle.pair_classes.specs.Unions.{AreParents, AreFlat, Climbs, Unites, Flattens, AreAlone};

use row_model::NoMemory;
use std::alloc::Global;

/// So many places, each in a set of its own. One place of a set is its own parent, the root of the set, and each other
/// has a parent that comes before it.
pub fn each_alone(alloc: Global, places: u32) -> Result<Vec<u32>, NoMemory>
    ensures { IfOk result (λ parents. (length parents.items ≡ places) × AreAlone parents.items) }
{
    let mut parents = Vec::with_capacity(alloc, places as usize)?;
    for place in 0..places {
        parents.push(place)?;
    }
    Ok(parents)
}

/// The root of the set of a place. Each second place on the way is given its parent's parent,
/// which makes later ways shorter.
pub fn root_of(parents: &mut [u32], place: u32) -> u32
    requires parents { AreParents parents.old }
    requires place { place < length parents.old }
    ensures climbs { Climbs parents.old parents.new place result }
    ensures root { slice_index parents.new result ≡ result }
{
    let mut here = place;
    while parents[here as usize] < here {
        let above = parents[parents[here as usize] as usize];
        parents[here as usize] = above;
        here = above;
    }
    here
}

/// Makes one set of the sets of two places.
pub fn unite(parents: &mut [u32], x: u32, y: u32)
    requires parents { AreParents parents.old }
    requires places { (x < length parents.old) × (y < length parents.old) }
    ensures { Unites parents.old parents.new x y }
{
    let from = root_of(parents, x);
    let to = root_of(parents, y);
    if from < to {
        parents[to as usize] = from;
    } else {
        parents[from as usize] = to;
    }
}

/// Makes the root of its set the parent of each place.
pub fn flatten(parents: &mut [u32])
    requires { AreParents parents.old }
    ensures { Flattens parents.old parents.new }
{
    for place in 0..parents.len() {
        parents[place] = parents[parents[place] as usize];
    }
}
