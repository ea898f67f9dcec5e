// The search for a closed walk of odd length.
ghost use Rattle.std.specs.Prelude.{◌≡◌, ◌+◌, ◌*◌, ◌-◌, ◌<◌, ◌≤◌, ℕ, true, false, not, Some, None, length, map, take, drop, slice_get, sum_by, IsTrue, IsFalse, IfOk, IfSome, OnOk, MatchOption};
ghost use Rattle.column_order.specs.Orders.{has, IsValidOrder};
ghost use Rattle.row_model.specs.Graph.{row_at, turned, HasOddWalk, HasConflict};
ghost use Rattle.row_model.specs.Cycles.{IsOddWalk};
ghost use Rattle.walk_search.specs.declared.forest.Node.{Node};
ghost use Rattle.odd_cycle.specs.Marks.{is_marked};
ghost use Rattle.walk_search.specs.MarkedOnes.{marked_ones};
ghost use Rattle.walk_search.specs.Search.{IsReached, IsSearch, Grows, ShowsConflict, IsTaken, AreTaken, AreReachedFrom};
ghost use Rattle.walk_search.specs.Neighbours.{AreNeighbours};
ghost use Rattle.walk_search.specs.Weights.{held_for, weight, weights, most_weight, IsWeighty};
ghost use Rattle.open_gaps.specs.Gaps.{AreGaps};

use crate::closing::closed_walk;
use crate::forest::{Conflict, Forest};
use crate::holders::rows_by_column;
use crate::neighbours::{Neighbours, leave};
use odd_cycle::{Marks, Walk};
use open_gaps::{OpenGaps, gap_law};
use row_model::{CountedRows, Line, Matrix, NoMemory, Pair, Why};
use std::alloc::Global;
use step_count::{Ledger, Steps};

/// A closed walk of odd length in the incompatibility graph of the first rows, or `None` where there is none.
///
/// The pairs are taken in the order in which they are reached, and each is given one of two colours, the other than the
/// pair from which it was reached. Two joined pairs of one colour close an odd walk through the search tree; if there
/// are none, the graph is bipartite.
///
/// A pair (a,b) leads to (b,a), and by each row that has a and lacks b to the pairs (b,d) of the columns d of the row.
/// They are the same for every a, so it does to read a row once for each column that it lacks. A row that has b and
/// lacks a joins (a,b) to the pairs (d,a), and is not read once more for these: it leads from (b,a) to (a,d), and those
/// to (d,a), which are three steps in place of one and give (d,a) the same colour.
///
/// With c columns and f ones in the first rows it counts at most 3c(f + 1) + 1 steps, and so at most 8c(f + 1), where
/// memory is refused too; and at most c(2f + c + 3) + 1. Of an answer it counts at least c + f, and at least 2c + f + 1
/// where there is none. Each look at a row is a step and each column that is read of it, each pair from which a tree is
/// tried, each row that is met again, and each node that is taken for which no row is looked at. That a row ends is seen
/// without a step. It takes 28 bytes for each ordered pair of columns, a bit for each row and column, and room for each one.
///
/// # Errors
///
/// `NoMemory`.
pub fn odd_walk<L: Ledger>(
    alloc: Global,
    m: &Matrix,
    rows: u32,
    steps: &mut Steps<L>,
) -> Result<Option<Walk>, NoMemory>
    requires { rows ≤ length m.now.rows }
    ensures found { IfOk result (λ found. MatchOption found
        (¬ HasOddWalk m.now.columns (take rows m.now.rows))
        (IsOddWalk m.now.columns (take rows m.now.rows))) }
    ensures ticks { steps.new ≤ steps.old + 8 * m.now.columns * (sum_by length (take rows m.now.rows) + 1) }
    ensures few { steps.new ≤ steps.old + 3 * m.now.columns * (sum_by length (take rows m.now.rows) + 1) + 1 }
    ensures square { steps.new ≤ steps.old + m.now.columns * (2 * sum_by length (take rows m.now.rows) + m.now.columns + 3) + 1 }
    ensures reads { OnOk result (steps.old + m.now.columns + sum_by length (take rows m.now.rows) ≤ steps.new) }
    ensures turns { IfOk result (λ found. found ≡ None
        → steps.old + 2 * m.now.columns + sum_by length (take rows m.now.rows) + 1 ≤ steps.new) }
{
    walk_among(alloc, &CountedRows::new(m), rows, steps)
}

/// What [`odd_walk`] does, of rows whose reads are counted.
///
/// # Errors
///
/// `NoMemory`.
pub fn walk_among<L: Ledger>(
    alloc: Global,
    m: &CountedRows,
    rows: u32,
    steps: &mut Steps<L>,
) -> Result<Option<Walk>, NoMemory>
    requires { rows ≤ length m.now.rows }
    ensures found { IfOk result (λ found. MatchOption found
        (¬ HasOddWalk m.now.columns (take rows m.now.rows))
        (IsOddWalk m.now.columns (take rows m.now.rows))) }
    ensures ticks { steps.new ≤ steps.old + 8 * m.now.columns * (sum_by length (take rows m.now.rows) + 1) }
    ensures few { steps.new ≤ steps.old + 3 * m.now.columns * (sum_by length (take rows m.now.rows) + 1) + 1 }
    ensures square { steps.new ≤ steps.old + m.now.columns * (2 * sum_by length (take rows m.now.rows) + m.now.columns + 3) + 1 }
    ensures reads { OnOk result (steps.old + m.now.columns + sum_by length (take rows m.now.rows) ≤ steps.new) }
    ensures turns { IfOk result (λ found. found ≡ None
        → steps.old + 2 * m.now.columns + sum_by length (take rows m.now.rows) + 1 ≤ steps.new) }
{
    // A matrix has a column.
    let _columns = m.columns();
    let holders = rows_by_column(alloc, m, 0, rows, steps)?;
    let near = Neighbours {
        first: 0,
        gaps: None,
        holders,
    };
    search(alloc, m, &near, rows, steps)
}

/// A closed walk of odd length in the graph of the rows 1 to `k`, which have one, across the gaps that the rows before
/// row `k` leave open: only row `k` is looked at for each column that it lacks, so the time does not grow with the
/// number of rows once their gaps are known. It leaves room in its bound for a step for each one of these. An answer
/// costs at least a step for each column and each one of row `k`, and two more: its first column is read again, and a
/// pair is tried.
///
/// # Errors
///
/// `NoMemory`.
pub fn walk_across<L: Ledger>(
    alloc: Global,
    m: &CountedRows,
    k: u32,
    gaps: OpenGaps,
    steps: &mut Steps<L>,
) -> Result<Walk, NoMemory>
    requires row { (1 ≤ k) × (k ≤ length m.now.rows) }
    requires order { IsValidOrder m.now.columns (take (k - 1) m.now.rows) gaps.order }
    requires gaps { AreGaps (take (k - 1) m.now.rows) gaps.order gaps.gaps }
    requires refused { HasConflict m.now.columns (take k m.now.rows) }
    ensures walk { IfOk result (IsOddWalk m.now.columns (take k m.now.rows)) }
    ensures ticks { steps.new + sum_by length (take (k - 1) m.now.rows)
        ≤ steps.old + 2 * m.now.columns * (sum_by length (take k m.now.rows) + 1) + 1 }
    ensures turns { OnOk result (steps.old + m.now.columns + length (row_at m.now.rows k) + 2 ≤ steps.new) }
{
    let holders = rows_by_column(alloc, m, k - 1, 1, steps)?;
    let near = Neighbours {
        first: k - 1,
        gaps: Some(gaps),
        holders,
    };
    match search_along(alloc, m, &near, steps)? {
        Some(walk) => Ok(walk),
        None => unreachable!(),
    }
}

// Searches the graph of the further rows, where there are no first ones. The first trees begin at pairs with the last
// column, and then at pairs with each column that a row has.
fn search<L: Ledger>(
    alloc: Global,
    m: &CountedRows,
    near: &Neighbours,
    further: u32,
    steps: &mut Steps<L>,
) -> Result<Option<Walk>, NoMemory>
    requires rows { near.now.first + further ≤ length m.now.rows }
    requires near { AreNeighbours m.now further near.now }
    requires none { near.now.gaps ≡ None }
    ensures found { IfOk result (λ found. MatchOption found
        (¬ HasOddWalk m.now.columns (take (near.now.first + further) m.now.rows))
        (IsOddWalk m.now.columns (take (near.now.first + further) m.now.rows))) }
    ensures ticks { steps.new + sum_by length (take (near.now.first + further) m.now.rows)
        ≤ steps.old + 3 * (m.now.columns * sum_by length (take (near.now.first + further) m.now.rows)) + 2 * m.now.columns + 1 }
    ensures square { steps.new + sum_by length (take (near.now.first + further) m.now.rows)
        ≤ steps.old + 2 * (m.now.columns * sum_by length (take (near.now.first + further) m.now.rows)) + m.now.columns * m.now.columns + 2 * m.now.columns + 1 }
    ensures costs { OnOk result (steps.old + 1 ≤ steps.new) }
    ensures turns { IfOk result (λ found. found ≡ None → steps.old + m.now.columns + 1 ≤ steps.new) }
{
    gap_law();
    let columns = m.columns();
    let mut marks = Marks::new(alloc, further, columns)?;
    let mut forest = Forest::new(alloc, columns)?;
    for turn in 0..columns + 1 {
        steps.tick();
        let a = column_in_turn(columns, turn);
        if !near.can_join(a) {
            continue;
        }
        if let Some(conflict) = grow_from_column(m, near, &mut marks, &mut forest, a, steps)? {
            return Ok(Some(closed_walk(alloc, &forest, conflict)?));
        }
    }
    Ok(None)
}

// The columns at which trees begin: one that is given, and then each.
fn column_in_turn(begin: u32, turn: u32) -> u32
    ensures first { turn ≡ 0 → result ≡ begin }
    ensures later { 1 ≤ turn → result ≡ turn }
{
    if turn == 0 { begin } else { turn }
}

// Searches the graph of the first rows and one more, which is read for its first column. All that this row joins lies
// in trees that begin at pairs with that column, and what the first rows alone join closes no odd walk.
fn search_along<L: Ledger>(
    alloc: Global,
    m: &CountedRows,
    near: &Neighbours,
    steps: &mut Steps<L>,
) -> Result<Option<Walk>, NoMemory>
    requires rows { near.now.first + 1 ≤ length m.now.rows }
    requires near { AreNeighbours m.now 1 near.now }
    ensures found { IfOk result (λ found. MatchOption found
        (¬ HasOddWalk m.now.columns (take (near.now.first + 1) m.now.rows))
        (IsOddWalk m.now.columns (take (near.now.first + 1) m.now.rows))) }
    ensures ticks { steps.new + sum_by length (take (near.now.first + 1) m.now.rows)
        ≤ steps.old + m.now.columns * sum_by length (take (near.now.first + 1) m.now.rows)
        + m.now.columns * sum_by length (take 1 (drop near.now.first m.now.rows)) + m.now.columns + 1 }
    ensures turns { IfOk result (λ found. IfSome found (λ walk. steps.old + 2 ≤ steps.new)) }
{
    gap_law();
    let columns = m.columns();
    let mut marks = Marks::new(alloc, 1, columns)?;
    let mut forest = Forest::new(alloc, columns)?;
    let Some(a) = m.next_counted(near.first + 1, 0, steps) else {
        return Ok(None);
    };
    match grow_from_column(m, near, &mut marks, &mut forest, a, steps)? {
        None => Ok(None),
        Some(conflict) => Ok(Some(closed_walk(alloc, &forest, conflict)?)),
    }
}

// Looks from a pair (a,b) at a further row that has a. If the row lacks b, each pair (b,d) of b with a column d of the
// row is joined to (a,b). The pairs (b,d) are the same for every a, so each row is looked at once for each b; a step is
// counted where it is met again.
fn look<L: Ledger>(
    m: &CountedRows,
    near: &Neighbours,
    further: u32,
    marks: &mut Marks,
    forest: &mut Forest,
    from: u32,
    steps: &mut Steps<L>,
) -> Result<Option<Conflict>, NoMemory>
    requires search { IsSearch m.now near.now.first marks.old forest.old }
    requires from { (forest.old.root ≤ from) × (from < length forest.old.nodes.items) }
    requires row { (1 ≤ further) × (further ≤ marks.old.rows) }
    requires node { (node : Node) → slice_get forest.old.nodes.items from ≡ Some node
        → IsTrue (has (row_at (drop near.now.first m.now.rows) further) node.pair.a) × IsReached forest.old.nodes.items (turned node.pair) (not node.odd) }
    ensures found { IfOk result (λ found. MatchOption found
        (IsSearch m.now near.now.first marks.new forest.new × Grows marks.old marks.new forest.old.nodes.items forest.new.nodes.items × (forest.new.root ≡ forest.old.root)
        × ((node : Node) → slice_get forest.old.nodes.items from ≡ Some node → is_marked marks.new further node.pair.b ≡ true))
        (ShowsConflict m.now.columns (take (near.now.first + marks.old.rows) m.now.rows) forest.new)) }
    ensures sizes { (marks.new.rows ≡ marks.old.rows) × (marks.new.columns ≡ marks.old.columns) }
    ensures ticks { steps.new + marked_ones (drop near.now.first m.now.rows) marks.old ≤ steps.old + 1 + marked_ones (drop near.now.first m.now.rows) marks.new }
    ensures costs { steps.old + 1 ≤ steps.new }
    ensures turns { IfOk result (λ found. found ≡ None → (node : Node) → slice_get forest.old.nodes.items from ≡ Some node
        → is_marked marks.old further node.pair.b ≡ false → IsFalse (has (row_at (drop near.now.first m.now.rows) further) node.pair.b)
        → steps.old + 1 + length (row_at (drop near.now.first m.now.rows) further) ≤ steps.new) }
{
    let node = forest.nodes[from as usize];
    if marks.mark(further, node.pair.b) {
        steps.tick();
        return Ok(None);
    }
    let row = near.first + further;
    if m.has_counted(row, node.pair.b, steps) {
        return Ok(None);
    }
    let mut i = 0;
    while let Some(column) = m.next_counted(row, i, steps) {
        i += 1;
        if column == node.pair.a {
            continue;
        }
        let line = Line {
            pair: Pair {
                a: node.pair.b,
                b: column,
            },
            why: Why::Row(row),
        };
        if let Some(conflict) = forest.step(from, line)? {
            return Ok(Some(conflict));
        }
    }
    Ok(None)
}

// Takes a node: reaches its pair with the columns exchanged and the pairs across the open gaps, and looks at each
// further row with its first column. It costs a step where there is none.
fn expand<L: Ledger>(
    m: &CountedRows,
    near: &Neighbours,
    marks: &mut Marks,
    forest: &mut Forest,
    from: u32,
    steps: &mut Steps<L>,
) -> Result<Option<Conflict>, NoMemory>
    requires search { IsSearch m.now near.now.first marks.old forest.old }
    requires near { AreNeighbours m.now marks.old.rows near.now }
    requires from { (forest.old.root ≤ from) × (from < length forest.old.nodes.items) }
    requires weighty { IsWeighty m.now near.now forest.old.nodes.items from }
    ensures found { IfOk result (λ found. MatchOption found
        (IsSearch m.now near.now.first marks.new forest.new × Grows marks.old marks.new forest.old.nodes.items forest.new.nodes.items × (forest.new.root ≡ forest.old.root)
        × ((node : Node) → slice_get forest.old.nodes.items from ≡ Some node → IsTaken m.now near.now marks.new forest.new.nodes.items node))
        (ShowsConflict m.now.columns (take (near.now.first + marks.old.rows) m.now.rows) forest.new)) }
    ensures sizes { (marks.new.rows ≡ marks.old.rows) × (marks.new.columns ≡ marks.old.columns) }
    ensures ticks { (node : Node) → slice_get forest.old.nodes.items from ≡ Some node
        → steps.new + marked_ones (drop near.now.first m.now.rows) marks.old ≤ steps.old + weight m.now near.now node.pair.a + marked_ones (drop near.now.first m.now.rows) marks.new }
    ensures costs { OnOk result (steps.old + 1 ≤ steps.new) }
    ensures turns { IfOk result (λ found. found ≡ None → (node : Node) → slice_get forest.old.nodes.items from ≡ Some node
        → steps.old + held_for near.now node.pair.a ≤ steps.new) }
{
    let node = forest.nodes[from as usize];
    if let Some(conflict) = leave(&near.gaps, forest, from)? {
        steps.tick();
        return Ok(Some(conflict));
    }
    let rows = &near.holders[node.pair.a as usize - 1];
    tick_if_none(rows, steps);
    for row in rows {
        if let Some(conflict) = look(m, near, *row, marks, forest, from, steps)? {
            return Ok(Some(conflict));
        }
    }
    Ok(None)
}

// Counts a step where there are no rows, each of which would cost one.
fn tick_if_none<L: Ledger>(rows: &[u32], steps: &mut Steps<L>)
    ensures none { length rows.now ≡ 0 → steps.new ≡ steps.old + 1 }
    ensures some { 1 ≤ length rows.now → steps.new ≡ steps.old }
{
    if rows.is_empty() {
        steps.tick();
    }
}

// Takes each node of the last tree in turn, those that are reached meanwhile too.
fn grow<L: Ledger>(
    m: &CountedRows,
    near: &Neighbours,
    marks: &mut Marks,
    forest: &mut Forest,
    steps: &mut Steps<L>,
) -> Result<Option<Conflict>, NoMemory>
    requires search { IsSearch m.now near.now.first marks.old forest.old }
    requires near { AreNeighbours m.now marks.old.rows near.now }
    requires taken { AreTaken m.now near.now marks.old forest.old.nodes.items forest.old.root }
    requires weighty { IsWeighty m.now near.now forest.old.nodes.items forest.old.root }
    requires tree { forest.old.root < length forest.old.nodes.items }
    ensures found { IfOk result (λ found. MatchOption found
        (IsSearch m.now near.now.first marks.new forest.new × Grows marks.old marks.new forest.old.nodes.items forest.new.nodes.items
        × AreTaken m.now near.now marks.new forest.new.nodes.items (length forest.new.nodes.items))
        (ShowsConflict m.now.columns (take (near.now.first + marks.old.rows) m.now.rows) forest.new)) }
    ensures sizes { (marks.new.rows ≡ marks.old.rows) × (marks.new.columns ≡ marks.old.columns) }
    ensures ticks { steps.new + marked_ones (drop near.now.first m.now.rows) marks.old + weights m.now near.now (take forest.old.root forest.old.nodes.items)
        ≤ steps.old + marked_ones (drop near.now.first m.now.rows) marks.new + most_weight m.now near.now }
    ensures costs { OnOk result (steps.old + 1 ≤ steps.new) }
    ensures turns { IfOk result (λ found. found ≡ None
        → steps.old + length forest.new.nodes.items ≤ steps.new + forest.old.root) }
    ensures spent { IfOk result (λ found. found ≡ None
        → steps.new + marked_ones (drop near.now.first m.now.rows) marks.old + weights m.now near.now (take forest.old.root forest.old.nodes.items)
        ≤ steps.old + marked_ones (drop near.now.first m.now.rows) marks.new + weights m.now near.now forest.new.nodes.items) }
{
    let mut head = forest.root;
    while (head as usize) < forest.nodes.len() {
        if let Some(conflict) = expand(m, near, marks, forest, head, steps)? {
            return Ok(Some(conflict));
        }
        head += 1;
    }
    Ok(None)
}

// Grows trees until each pair of this first column with a column by which rows can join pairs is reached.
fn grow_from_column<L: Ledger>(
    m: &CountedRows,
    near: &Neighbours,
    marks: &mut Marks,
    forest: &mut Forest,
    a: u32,
    steps: &mut Steps<L>,
) -> Result<Option<Conflict>, NoMemory>
    requires search { IsSearch m.now near.now.first marks.old forest.old }
    requires near { AreNeighbours m.now marks.old.rows near.now }
    requires taken { AreTaken m.now near.now marks.old forest.old.nodes.items (length forest.old.nodes.items) }
    requires column { (1 ≤ a) × (a ≤ m.now.columns) }
    requires weighty { 1 ≤ weight m.now near.now a }
    ensures found { IfOk result (λ found. MatchOption found
        (IsSearch m.now near.now.first marks.new forest.new × Grows marks.old marks.new forest.old.nodes.items forest.new.nodes.items
        × AreTaken m.now near.now marks.new forest.new.nodes.items (length forest.new.nodes.items)
        × AreReachedFrom m.now near.now forest.new.nodes.items a m.now.columns)
        (ShowsConflict m.now.columns (take (near.now.first + marks.old.rows) m.now.rows) forest.new)) }
    ensures sizes { (marks.new.rows ≡ marks.old.rows) × (marks.new.columns ≡ marks.old.columns) }
    ensures ticks { steps.new + marked_ones (drop near.now.first m.now.rows) marks.old + weights m.now near.now forest.old.nodes.items
        ≤ steps.old + m.now.columns + marked_ones (drop near.now.first m.now.rows) marks.new + most_weight m.now near.now }
    ensures spent { IfOk result (λ found. found ≡ None
        → steps.new + marked_ones (drop near.now.first m.now.rows) marks.old + weights m.now near.now forest.old.nodes.items
        ≤ steps.old + m.now.columns + marked_ones (drop near.now.first m.now.rows) marks.new + weights m.now near.now forest.new.nodes.items) }
    ensures costs { OnOk result (steps.old + 1 ≤ steps.new) }
    ensures turns { IfOk result (λ found. found ≡ None → steps.old + m.now.columns ≤ steps.new) }
{
    gap_law();
    for b in 0..m.columns() {
        steps.tick();
        let pair = Pair { a, b: b + 1 };
        if pair.a == pair.b {
            continue;
        }
        if !near.can_join(pair.b) {
            continue;
        }
        if forest.numbers.get(pair) > 0 {
            continue;
        }
        forest.plant(pair)?;
        if let Some(conflict) = grow(m, near, marks, forest, steps)? {
            return Ok(Some(conflict));
        }
    }
    Ok(None)
}
