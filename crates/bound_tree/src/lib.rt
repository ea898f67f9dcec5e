//! Whether a PQ-tree stands for all valid orders of some rows.
//!
//! A tree whose frontiers keep the rows may have too few of them. It has all valid orders exactly where walks of
//! even length lead between certain pairs in the incompatibility graph of the rows (McConnell, 2004). Along the
//! tree's own leaves these walks go from neighbour to neighbour, so two looks at each pair of a gap and a column
//! decide whether there are such walks. Most of these looks are left out: what one gap passes, each later gap passes.
#![tactic(auto)]

ghost use Rattle.std.specs.Prelude.{◌≡◌, ◌↔◌, ◌+◌, ◌*◌, ◌<◌, ◌≤◌, length, sum_by, IfOk, IsTrue, All};
ghost use Rattle.column_order.specs.Orders.{Keeps};
ghost use Rattle.pq_tree.specs.Outline.{leaves};
ghost use Rattle.pq_tree.specs.PqTree.{column_count, outline};
ghost use Rattle.tree_theory.specs.Tied.{AreTogether, AreInLine};

mod free;
mod side;
mod skips;
mod stretch;

use open_gaps::OpenGaps;
use pq_tree::PqTree;
use row_model::{CountedRows, Matrix, NoMemory};
use std::alloc::Global;
use step_count::{Blank, Brand, Ledger, Steps};

/// Whether a tree whose leaves from left to right keep the rows has every valid order of the rows among its frontiers:
/// the columns of each node stay together, and the children of each Q-node stand in line.
///
/// Takes a logarithm of looks at the gaps for each column, on the average, and 52 bytes for each column. No clause says
/// so: what is proved of its looks stands at [`is_complete_counted`].
///
/// # Errors
///
/// `NoMemory` where there is no memory for the gaps and stretches of the tree.
pub fn is_complete(alloc: Global, m: &Matrix, tree: &PqTree) -> Result<bool, NoMemory>
    requires columns { column_count tree.now ≡ m.now.columns }
    requires kept { All (Keeps (leaves (outline tree.now))) m.now.rows }
    ensures { IfOk result (λ yes. IsTrue yes ↔
        (AreTogether m.now.columns m.now.rows (outline tree.now) × AreInLine m.now.columns m.now.rows (outline tree.now))) }
{
    is_complete_by::<Brand>(alloc, m, tree, Blank::new(1))
}

// The same, with a counter that begins at the blank. Nobody looks at its count.
fn is_complete_by<L: Ledger>(
    alloc: Global,
    m: &Matrix,
    tree: &PqTree,
    blank: Blank,
) -> Result<bool, NoMemory>
    requires name { blank.name ≡ L.name }
    requires parts { blank.parts ≡ L.parts }
    requires some { 0 < blank.parts }
    requires columns { column_count tree.now ≡ m.now.columns }
    requires kept { All (Keeps (leaves (outline tree.now))) m.now.rows }
    ensures { IfOk result (λ yes. IsTrue yes ↔
        (AreTogether m.now.columns m.now.rows (outline tree.now) × AreInLine m.now.columns m.now.rows (outline tree.now))) }
{
    let mut steps = Steps::<L>::new(blank);
    is_complete_counted(alloc, &CountedRows::new(m), tree, &mut steps)
}

/// The same, where each look at the rows and at the gaps between leaves is counted: one step for each one of the rows,
/// and at most 2c² looks at gaps, c being the number of columns.
///
/// # Errors
///
/// `NoMemory`, as of [`is_complete`].
pub fn is_complete_counted<L: Ledger>(
    alloc: Global,
    m: &CountedRows,
    tree: &PqTree,
    steps: &mut Steps<L>,
) -> Result<bool, NoMemory>
    requires columns { column_count tree.now ≡ m.now.columns }
    requires kept { All (Keeps (leaves (outline tree.now))) m.now.rows }
    ensures complete { IfOk result (λ yes. IsTrue yes ↔
        (AreTogether m.now.columns m.now.rows (outline tree.now) × AreInLine m.now.columns m.now.rows (outline tree.now))) }
    ensures ticks { steps.new ≤ steps.old + sum_by length m.now.rows + 2 * (m.now.columns * m.now.columns) }
{
    let order = tree.frontier(alloc)?;
    let gaps = OpenGaps::new(alloc, m, m.rows(), &order, steps)?;
    let mut stretches = stretch::of_tree(alloc, tree)?;
    free::are_free(alloc, &gaps, &mut stretches, steps)
}
