// The odd cycle after a refusal.
ghost use Rattle.std.specs.Prelude.{◌≡◌, ◌+◌, ◌*◌, ◌-◌, ◌≤◌, length, take, sum_by, IfOk, IfSome};
ghost use Rattle.column_order.specs.Orders.{IsValidOrder};
ghost use Rattle.row_model.specs.Graph.{HasConflict};
ghost use Rattle.row_model.specs.Cycles.{IsOddCycle};
ghost use Rattle.odd_cycle.specs.Short.{IsShort};

use crate::checked::checked_cycle;
use crate::part::lines_at_half;
use crate::repeats::without_repeats;
use crate::shorter::shorter_cycle;
use border_ways::{Front, Sample, met_at_borders, odd_links, sample_of, walk_around};
use odd_cycle::{Cycle, short_cycle};
use open_gaps::OpenGaps;
use row_model::{CountedRows, Matrix, NoMemory, positions};
use std::alloc::Global;
use step_count::{Ledger, Steps};
use walk_search::walk_across;

/// Half of the most steps of an attempt.
const MOST_STEPS: u64 = 16_777_216;

/// A short odd cycle of a matrix of which the rows 1 to `k` have no valid order, where an order is known that is valid
/// for the rows before row `k`. Its reasons are flips and rows from 1 to `k`. It has at most one flip, and with c columns
/// at most c(c - 1)/2 + 1 lines.
///
/// It is looked for among the columns that stand near a place of the order where row `k` begins or ends, and then along
/// ways from a few columns of row `k` and a few that the row lacks, which keeps no table of each
/// pair of columns. Where none is found there, all pairs are searched as in [`odd_walk`](crate::odd_walk), but with
/// steps across the gaps that the rows before row `k` leave open in the order, so that only row `k` is read once more.
/// What is found is made [shorter](crate::shorter_cycle).
///
/// With c columns and f ones in these rows it counts at most 8c(f + 1) steps, where memory is refused too. While it
/// searches all pairs it takes 28 bytes for each ordered pair of columns, and then 4; beside these there is room for
/// each column, and for each line that is found.
///
/// # Errors
///
/// `NoMemory`.
pub fn odd_cycle_along<L: Ledger>(
    alloc: Global,
    m: &Matrix,
    k: u32,
    order: &[u32],
    steps: &mut Steps<L>,
) -> Result<Cycle, NoMemory>
    requires row { (1 ≤ k) × (k ≤ length m.now.rows) }
    requires order { IsValidOrder m.now.columns (take (k - 1) m.now.rows) order.now }
    requires refused { HasConflict m.now.columns (take k m.now.rows) }
    ensures cycle { IfOk result (IsOddCycle m.now.columns m.now.rows) }
    ensures first_rows { IfOk result (IsOddCycle m.now.columns (take k m.now.rows)) }
    ensures short { IfOk result (IsShort m.now.columns) }
    ensures ticks { steps.new ≤ steps.old + 8 * m.now.columns * (sum_by length (take k m.now.rows) + 1) }
{
    cycle_along(alloc, &CountedRows::new(m), k, order, steps)
}

// A short odd cycle, of rows whose reads are counted.
fn cycle_along<L: Ledger>(
    alloc: Global,
    m: &CountedRows,
    k: u32,
    order: &[u32],
    steps: &mut Steps<L>,
) -> Result<Cycle, NoMemory>
    requires row { (1 ≤ k) × (k ≤ length m.now.rows) }
    requires order { IsValidOrder m.now.columns (take (k - 1) m.now.rows) order.now }
    requires refused { HasConflict m.now.columns (take k m.now.rows) }
    ensures cycle { IfOk result (IsOddCycle m.now.columns m.now.rows) }
    ensures first_rows { IfOk result (IsOddCycle m.now.columns (take k m.now.rows)) }
    ensures short { IfOk result (IsShort m.now.columns) }
    ensures ticks { steps.new ≤ steps.old + 8 * m.now.columns * (sum_by length (take k m.now.rows) + 1) }
{
    let most = most_steps(m, k, steps);
    let cycle = any_cycle(alloc, m, k, order, most, steps)?;
    shorter_cycle(alloc, m, k, cycle, 4 * most, steps)
}

// An odd cycle, from an attempt in at most twice so many steps, and from a search where that finds none. It leaves room in
// its bound for a step before.
fn any_cycle<L: Ledger>(
    alloc: Global,
    m: &CountedRows,
    k: u32,
    order: &[u32],
    most: u64,
    steps: &mut Steps<L>,
) -> Result<Cycle, NoMemory>
    requires row { (1 ≤ k) × (k ≤ length m.now.rows) }
    requires order { IsValidOrder m.now.columns (take (k - 1) m.now.rows) order.now }
    requires refused { HasConflict m.now.columns (take k m.now.rows) }
    requires most { most ≤ m.now.columns * (sum_by length (take k m.now.rows) + 1) }
    ensures cycle { IfOk result (IsOddCycle m.now.columns (take k m.now.rows)) }
    ensures short { IfOk result (IsShort m.now.columns) }
    ensures ticks { steps.new + 1 ≤ steps.old + 4 * m.now.columns * (sum_by length (take k m.now.rows) + 1) }
{
    let gaps = OpenGaps::new(alloc, m, k - 1, order, steps)?;
    if let Some(cycle) = quick_cycle(alloc, m, k, &gaps, order, most, steps)? {
        return Ok(cycle);
    }
    let walk = walk_across(alloc, m, k, gaps, steps)?;
    short_cycle(alloc, m.columns(), walk.lines())
}

// Half of the most steps of an attempt.
fn most_steps<L: Ledger>(m: &CountedRows, k: u32, steps: &mut Steps<L>) -> u64
    requires { k ≤ length m.now.rows }
    ensures ones { result ≤ m.now.columns * (sum_by length (take k m.now.rows) + 1) }
    ensures few { result ≤ 16777216 }
    ensures ticks { steps.new ≡ steps.old + 1 }
{
    let each = u64::from(m.columns());
    let ones = m.ones_counted(k, steps);
    MOST_STEPS.min(each.saturating_mul(ones.saturating_add(1)))
}

// An odd cycle that is found without a search among all pairs, in at most twice so many steps, if there is one.
pub(crate) fn quick_cycle<L: Ledger>(
    alloc: Global,
    m: &CountedRows,
    k: u32,
    gaps: &OpenGaps,
    order: &[u32],
    most: u64,
    steps: &mut Steps<L>,
) -> Result<Option<Cycle>, NoMemory>
    requires row { (1 ≤ k) × (k ≤ length m.now.rows) }
    requires order { IsValidOrder m.now.columns (take (k - 1) m.now.rows) order.now }
    requires columns { length gaps.now.order ≡ m.now.columns }
    ensures found { IfOk result (λ found. IfSome found (IsOddCycle m.now.columns (take k m.now.rows))) }
    ensures short { IfOk result (λ found. IfSome found (IsShort m.now.columns)) }
    ensures ticks { steps.new ≤ steps.old + (2 * most - m.now.columns) }
{
    let Some(mut left) = most.checked_sub(u64::from(m.columns())) else {
        return Ok(None);
    };
    let positions = positions(alloc, order)?;
    let front = Front {
        m,
        gaps,
        positions: &positions,
    };
    let sample = sample_of(alloc, m, k, order, steps)?;
    if let Some(cycle) = near_cycle(alloc, &front, k, order, &sample, &mut left, steps)? {
        return Ok(Some(cycle));
    }
    far_cycle(alloc, &front, k, &sample, &mut left, steps)
}

// An odd cycle near the borders of row `k`, which has few lines.
fn near_cycle<L: Ledger>(
    alloc: Global,
    front: &Front,
    k: u32,
    order: &[u32],
    sample: &Sample,
    left: &mut u64,
    steps: &mut Steps<L>,
) -> Result<Option<Cycle>, NoMemory>
    requires row { k ≤ length front.now.m.now.rows }
    requires columns { length front.now.gaps.now.order ≡ front.now.m.now.columns }
    ensures found { IfOk result (λ found. IfSome found (IsOddCycle front.now.m.now.columns (take k front.now.m.now.rows))) }
    ensures short { IfOk result (λ found. IfSome found (IsShort front.now.m.now.columns)) }
    ensures ticks { steps.new + 2 * left.new ≤ steps.old + 2 * left.old }
{
    let met = met_at_borders(alloc, front, k, order, &sample.borders)?;
    let lines = lines_at_half(alloc, front.m, &met.rows, &met.columns, left, steps)?;
    checked_cycle(alloc, front.m, k, lines, left, steps)
}

// An odd cycle along ways, however far they lead.
fn far_cycle<L: Ledger>(
    alloc: Global,
    front: &Front,
    k: u32,
    sample: &Sample,
    left: &mut u64,
    steps: &mut Steps<L>,
) -> Result<Option<Cycle>, NoMemory>
    requires row { k ≤ length front.now.m.now.rows }
    requires columns { length front.now.gaps.now.order ≡ front.now.m.now.columns }
    requires few { (length sample.now.members.items ≤ 32) × (length sample.now.pivots.items ≤ 32) }
    ensures found { IfOk result (λ found. IfSome found (IsOddCycle front.now.m.now.columns (take k front.now.m.now.rows))) }
    ensures short { IfOk result (λ found. IfSome found (IsShort front.now.m.now.columns)) }
    ensures ticks { steps.new + left.new ≤ steps.old + left.old }
{
    let links = odd_links(alloc, front, sample, left, steps)?;
    let walk = walk_around(alloc, front, k, &links, left, steps)?;
    let lines = without_repeats(alloc, &walk)?;
    checked_cycle(alloc, front.m, k, lines, left, steps)
}
