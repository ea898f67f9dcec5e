// The columns of lines in rising order.
ghost use Rattle.std.specs.Prelude.{◌≢◌, map, AllPairs, IfOk, IsTrue};
ghost use Rattle.std.specs.List.Sorted.{IsPermutation};
ghost use Rattle.odd_cycle.specs.Short.{columns_of};

use crate::pairs::lesser_first;
use row_model::{Line, NoMemory, Pair};
use std::alloc::Global;

/// The columns of the lines, one pair for each line, with its lesser column first. It sorts them; the clause says only
/// which they are.
///
/// # Errors
///
/// `NoMemory` where there is no memory for the list.
pub fn sorted_columns(alloc: Global, lines: &[Line]) -> Result<Vec<Pair>, NoMemory>
    ensures { IfOk result (λ pairs. IsPermutation (map columns_of lines.now) pairs.items) }
{
    let mut pairs = Vec::with_capacity(alloc, lines.len())?;
    for line in lines {
        pairs.push(lesser_first(line.pair))?;
    }
    pairs.sort_unstable();
    Ok(pairs)
}

/// `true` only where no pair comes twice: where each is less than the next.
pub fn is_rising(pairs: &[Pair]) -> bool
    ensures { IsTrue result → AllPairs (λ earlier later. earlier ≢ later) pairs.now }
{
    for i in 1..pairs.len() {
        if pairs[i] <= pairs[i - 1] {
            return false;
        }
    }
    true
}
