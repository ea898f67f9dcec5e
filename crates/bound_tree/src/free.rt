// Whether the leaves next to a gap make alike pairs with each leaf outside the gap's stretch.
ghost use Rattle.std.specs.Prelude.{◌≡◌, ◌↔◌, ℕ, ◌+◌, ◌-◌, ◌*◌, ◌<◌, ◌≤◌, List, length, sum_by, IfOk, IsTrue, All};
ghost use Rattle.std.specs.List.Sorted.{IsPermutation, IsNonDecreasingBy};
ghost use Rattle.open_gaps.specs.Gaps.{AreGaps};
ghost use Rattle.bound_tree.specs.declared.stretch.Stretch.{Stretch};
ghost use Rattle.bound_tree.specs.Free.{IsRoundGap, IsFree};
ghost use Rattle.bound_tree.specs.Sides.{IsFreeFrom, IsPassed, GoesDown, SkipsOnly};

use crate::side::{Side, is_open, turn};
use crate::skips::{each_before, nearest};
use crate::stretch::Stretch;
use open_gaps::OpenGaps;
use row_model::NoMemory;
use std::alloc::Global;
use step_count::{Ledger, Steps};

/// Whether the order is free outside each stretch. The stretches are sorted, and turned to the other side of the order.
/// For each stretch it looks at most twice for each position of the order.
pub fn are_free<L: Ledger>(
    alloc: Global,
    gaps: &OpenGaps,
    stretches: &mut [Stretch],
    steps: &mut Steps<L>,
) -> Result<bool, NoMemory>
    requires { All (IsRoundGap (length gaps.now.order)) stretches.old }
    ensures free { IfOk result (λ yes. (rows : List (List ℕ)) → AreGaps rows gaps.now.order gaps.now.gaps
        → IsTrue yes ↔ All (IsFree rows gaps.now.order) stretches.old) }
    ensures ticks { steps.new ≤ steps.old + 2 * (length stretches.old * length gaps.now.order) }
{
    sort_by_gap(stretches);
    if !are_free_from(alloc, gaps, Side::Left, stretches, steps)? {
        return Ok(false);
    }
    turn(stretches, gaps.columns());
    sort_by_gap(stretches);
    are_free_from(alloc, gaps, Side::Right, stretches, steps)
}

// Puts the stretches in the order of their gaps.
fn sort_by_gap(stretches: &mut [Stretch])
    ensures moved { IsPermutation stretches.old stretches.new }
    ensures rising { IsNonDecreasingBy (λ (s : Stretch). s.at) stretches.new }
{
    stretches.sort_unstable_by_key(|stretch| stretch.at);
}

// Whether the order is free on this side of each stretch. It takes at most two looks for each position before each.
fn are_free_from<L: Ledger>(
    alloc: Global,
    gaps: &OpenGaps,
    side: Side,
    stretches: &[Stretch],
    steps: &mut Steps<L>,
) -> Result<bool, NoMemory>
    requires round { All (IsRoundGap (length gaps.now.order)) stretches.now }
    requires rising { IsNonDecreasingBy (λ (s : Stretch). s.at) stretches.now }
    ensures free { IfOk result (λ yes. (rows : List (List ℕ)) → AreGaps rows gaps.now.order gaps.now.gaps
        → IsTrue yes ↔ All (IsFreeFrom side rows gaps.now.order) stretches.now) }
    ensures ticks { steps.new ≤ steps.old + sum_by (λ (s : Stretch). 2 * s.from) stretches.now }
{
    let mut table = each_before(alloc, gaps.columns())?;
    let before = table.as_mut_slice();
    for stretch in stretches {
        if !is_free_from(before, gaps, side, *stretch, steps) {
            return Ok(false);
        }
    }
    Ok(true)
}

// Whether the order is free on this side of the stretch.
fn is_free_from<L: Ledger>(
    before: &mut [u32],
    gaps: &OpenGaps,
    side: Side,
    stretch: Stretch,
    steps: &mut Steps<L>,
) -> bool
    requires table { (length before.old ≡ length gaps.now.order) × GoesDown before.old }
    requires round { IsRoundGap (length gaps.now.order) stretch }
    ensures table { (length before.new ≡ length gaps.now.order) × GoesDown before.new }
    ensures free { (rows : List (List ℕ)) → AreGaps rows gaps.now.order gaps.now.gaps
        → SkipsOnly (IsPassed side rows gaps.now.order stretch.at) before.old
        → IsTrue result ↔ IsFreeFrom side rows gaps.now.order stretch }
    ensures skips { (rows : List (List ℕ)) → AreGaps rows gaps.now.order gaps.now.gaps
        → SkipsOnly (IsPassed side rows gaps.now.order stretch.at) before.old
        → SkipsOnly (IsPassed side rows gaps.now.order stretch.at) before.new }
    ensures ticks { steps.new ≤ steps.old + 2 * stretch.from }
{
    if stretch.from == 0 {
        return true;
    }
    let p = nearest(before, gaps, side, stretch.at, stretch.from - 1, steps);
    is_open(gaps, side, stretch.at - 1, p, steps)
}
