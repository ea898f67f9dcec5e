// Passed positions, and ways over many of them at once.
ghost use Rattle.std.specs.Prelude.{◌≡◌, ◌↔◌, ℕ, ◌+◌, ◌-◌, ◌*◌, ◌<◌, ◌≤◌, List, length, slice_index, IfOk, IsTrue};
ghost use Rattle.open_gaps.specs.Gaps.{AreGaps};
ghost use Rattle.bound_tree.specs.Sides.{IsPassed, GoesDown, SkipsOnly};

use crate::side::{Side, is_open};
use open_gaps::OpenGaps;
use row_model::NoMemory;
use std::alloc::Global;
use step_count::{Ledger, Steps};

/// For each of so many positions the one before it, and 0 for the first.
pub fn each_before(alloc: Global, columns: u32) -> Result<Vec<u32>, NoMemory>
    ensures { IfOk result (λ before. (length before.items ≡ columns)
        × ((i : ℕ) → i < columns → slice_index before.items i ≡ i - 1)) }
{
    let mut before = Vec::with_capacity(alloc, columns as usize)?;
    for position in 0..columns {
        before.push(position.saturating_sub(1))?;
    }
    Ok(before)
}

/// The greatest position up to `from` that the gap before the position `at` does not pass. The table has for each
/// position one before it, with none but passed ones between them. It is made to lead farther on the way, so that calls
/// for one gap after another look at a logarithm of positions each, on the average (Tarjan and van Leeuwen, 1984), which
/// no clause says. No
/// call takes more than two looks for each position, and one more.
pub fn nearest<L: Ledger>(
    before: &mut [u32],
    gaps: &OpenGaps,
    side: Side,
    at: u32,
    from: u32,
    steps: &mut Steps<L>,
) -> u32
    requires table { (length before.old ≡ length gaps.now.order) × GoesDown before.old }
    requires range { (from + 1 < at) × (at ≤ length gaps.now.order) }
    ensures table { (length before.new ≡ length gaps.now.order) × GoesDown before.new }
    ensures range { result ≤ from }
    ensures passed { (rows : List (List ℕ)) → AreGaps rows gaps.now.order gaps.now.gaps
        → SkipsOnly (IsPassed side rows gaps.now.order at) before.old
        → (p : ℕ) → result < p → p ≤ from → IsPassed side rows gaps.now.order at p }
    ensures nearest { (rows : List (List ℕ)) → AreGaps rows gaps.now.order gaps.now.gaps
        → IsPassed side rows gaps.now.order at result → ⊥ }
    ensures skips { (rows : List (List ℕ)) → AreGaps rows gaps.now.order gaps.now.gaps
        → SkipsOnly (IsPassed side rows gaps.now.order at) before.old
        → SkipsOnly (IsPassed side rows gaps.now.order at) before.new }
    ensures ticks { steps.new ≤ steps.old + 2 * from + 1 }
{
    let mut p = from;
    while is_passed(gaps, side, at, p, steps) {
        p = step(before, gaps, side, at, p, steps);
    }
    p
}

// The position that the table has for `p`. If that is passed too, the table then has for `p` what it has for that.
fn step<L: Ledger>(
    before: &mut [u32],
    gaps: &OpenGaps,
    side: Side,
    at: u32,
    p: u32,
    steps: &mut Steps<L>,
) -> u32
    requires table { (length before.old ≡ length gaps.now.order) × GoesDown before.old }
    requires range { (1 ≤ p) × (p + 1 < at) × (at ≤ length gaps.now.order) }
    ensures table { (length before.new ≡ length gaps.now.order) × GoesDown before.new }
    ensures before { result ≡ slice_index before.old p }
    ensures skips { (rows : List (List ℕ)) → AreGaps rows gaps.now.order gaps.now.gaps
        → SkipsOnly (IsPassed side rows gaps.now.order at) before.old
        → SkipsOnly (IsPassed side rows gaps.now.order at) before.new }
    ensures ticks { steps.new ≤ steps.old + 1 }
{
    let q = before[p as usize];
    if is_passed(gaps, side, at, q, steps) {
        before[p as usize] = before[q as usize];
    }
    q
}

// Whether the gap before the position `at` passes the position `p`. That takes a look, or none at the first position.
fn is_passed<L: Ledger>(gaps: &OpenGaps, side: Side, at: u32, p: u32, steps: &mut Steps<L>) -> bool
    requires { (p + 1 < at) × (at ≤ length gaps.now.order) }
    ensures some { IsTrue result → 1 ≤ p }
    ensures passed { (rows : List (List ℕ)) → AreGaps rows gaps.now.order gaps.now.gaps
        → IsTrue result ↔ IsPassed side rows gaps.now.order at p }
    ensures ticks { steps.new ≤ steps.old + 1 }
{
    p > 0 && is_open(gaps, side, p - 1, at - 1, steps)
}
