// The contigs of an order, by one sweep along it.
ghost use Rattle.std.specs.Prelude.{◌≡◌, ◌≤◌, All, IfOk};
ghost use Rattle.clone_map.specs.Runs.{IsWithinPositions, AreReaches, AreRuns};

use row_model::{NoMemory, Place, Span, Spans};
use std::alloc::Global;

/// The contigs of positions 1 to `count`, from left to right: one ends where no place that begins at or before its last
/// position ends after it.
pub fn contigs_of(alloc: Global, count: u32, places: &[Place]) -> Result<Spans, NoMemory>
    requires { All (IsWithinPositions count) places.now }
    ensures { IfOk result (AreRuns count places.now) }
{
    let reaches = reaches_of(alloc, count, places)?;
    let mut contigs = Spans::new(alloc);
    // The last position of the contigs so far, and the greatest last position of the places that begin so far.
    let mut before = 0;
    let mut reach = 0u32;
    for i in 0..count {
        let position = i + 1;
        reach = reach.max(reaches[i as usize]);
        if reach <= position {
            contigs.push(Span {
                first: before + 1,
                last: position,
            })?;
            before = position;
        }
    }
    Ok(contigs)
}

// For each position the greatest last position of the places that begin there, or 0.
fn reaches_of(alloc: Global, count: u32, places: &[Place]) -> Result<Vec<u32>, NoMemory>
    requires { All (IsWithinPositions count) places.now }
    ensures { IfOk result (λ reaches. AreReaches count places.now reaches.items) }
{
    let mut reaches = vec![in alloc; 0u32; count as usize]?;
    for place in places {
        if let Place::At { first, last } = place {
            let i = *first as usize - 1;
            reaches[i] = reaches[i].max(*last);
        }
    }
    Ok(reaches)
}
