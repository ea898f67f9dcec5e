// An order seen from its left or from its right.
ghost use Rattle.std.specs.Prelude.{◌≡◌, ◌↔◌, ℕ, ◌+◌, ◌<◌, List, length, map, IsTrue, All};
ghost use Rattle.open_gaps.specs.Gaps.{AreGaps};
ghost use Rattle.bound_tree.specs.Free.{IsRoundGap};
ghost use Rattle.bound_tree.specs.Sides.{IsOpenFrom, turned_stretch};

use crate::stretch::Stretch;
use open_gaps::OpenGaps;
use step_count::{Ledger, Steps};

/// The side of an order from which its positions are counted.
#[derive(Clone, Copy)]
pub enum Side {
    /// Position 0 is the leftmost.
    Left,
    /// Position 0 is the rightmost.
    Right,
}

/// Whether the gap between the positions `q` and `q + 1` is open for the column at the position `p`. Positions count
/// from 0 from the side. One step is counted for the look.
pub fn is_open<L: Ledger>(gaps: &OpenGaps, side: Side, q: u32, p: u32, steps: &mut Steps<L>) -> bool
    requires { (q + 1 < length gaps.now.order) × (p < length gaps.now.order) }
    ensures opens { (rows : List (List ℕ)) → AreGaps rows gaps.now.order gaps.now.gaps
        → IsTrue result ↔ IsOpenFrom side rows gaps.now.order q p }
    ensures ticks { steps.new ≡ steps.old + 1 }
{
    steps.tick();
    match side {
        Side::Left => gaps.is_open(q, p),
        Side::Right => gaps.is_open(gaps.columns() - 2 - q, gaps.columns() - 1 - p),
    }
}

/// Makes the stretches of an order of so many columns those that are seen from its other side.
pub fn turn(stretches: &mut [Stretch], columns: u32)
    requires { All (IsRoundGap columns) stretches.old }
    ensures { stretches.new ≡ map (turned_stretch columns) stretches.old }
{
    for stretch in stretches.iter_mut() {
        *stretch = turned(*stretch, columns);
    }
}

// The stretch as it is seen from the other side.
fn turned(stretch: Stretch, columns: u32) -> Stretch
    requires { IsRoundGap columns stretch }
    ensures { result ≡ turned_stretch columns stretch }
{
    Stretch {
        at: columns - stretch.at,
        from: columns - stretch.to,
        to: columns - stretch.from,
    }
}
