// The pass over one row of a matrix.
ghost use Rattle.std.specs.Prelude.{◌≡◌, ◌≢◌, ◌+◌, ◌*◌, ◌≤◌, ℕ, List, [], length};
ghost use Rattle.column_order.specs.Orders.{Keeps};
ghost use Rattle.row_model.specs.Graph.{row_at};
ghost use Rattle.pq_tree.specs.Outline.{IsFrontier};
ghost use Rattle.pq_tree.specs.Amortised.{nodes_met, nodes_met_below_root};
ghost use Rattle.arena_model.specs.NamedTree.{IsOneTree, HasTwoEach, outline_at};
ghost use Rattle.pq_arena.specs.RowNodes.{column_leaves};
ghost use Rattle.bubble_pass.specs.Marks.{size_of};
ghost use Rattle.bubble_pass.specs.Pass.{IsAnswer, IsHeld};

use crate::tables::Found;
use crate::work::Work;
use pq_arena::Arena;
use row_model::Matrix;
use step_count::{Ledger, Steps};

/// Finds the smallest node of the tree that holds row `k` of the matrix. After [`Found::Root`] the nodes at and below it
/// that meet the row have labels, after [`Found::Inside`] those at and below the children of the run, and after
/// [`Found::Split`] none. What the last pass left in `work` is forgotten first. The arena stays as it is.
///
/// The bounds on the steps count looks at nodes. Where the answer isn't [`Found::Split`], the second one counts the
/// nodes at and below the pertinent root alone, however far that lies below the root of the tree.
pub fn bubble<L: Ledger>(
    arena: &mut Arena,
    m: &Matrix,
    k: u32,
    work: &mut Work,
    steps: &mut Steps<L>,
) -> Found
    requires tree { IsOneTree arena.old }
    requires inner { HasTwoEach arena.old }
    requires columns { arena.old.columns ≡ m.now.columns }
    requires room { size_of work.old ≡ length arena.old.slots }
    requires row { (1 ≤ k) × (k ≤ length m.now.rows) }
    requires some { row_at m.now.rows k ≢ [] }
    ensures arena { arena.new ≡ arena.old }
    ensures room { size_of work.new ≡ size_of work.old }
    ensures answer { IsAnswer arena.old (column_leaves (row_at m.now.rows k)) work.new result }

    // Split comes only where no frontier keeps the row.
    ensures split { result ≡ Found.Split → (o : List ℕ) → IsFrontier (outline_at arena.old) o →
        Keeps o (row_at m.now.rows k) → ⊥ }
    ensures steps { steps.new ≤ steps.old + 24 * (nodes_met (row_at m.now.rows k) (outline_at arena.old) + 1) }
    ensures root_steps { IsHeld result →
        steps.new ≤ steps.old + 24 * (2 * nodes_met_below_root (row_at m.now.rows k) (outline_at arena.old) + 1) }

    // Both bounds are wide: these are the narrow ones.
    ensures few { steps.new ≤ steps.old + 5 * nodes_met (row_at m.now.rows k) (outline_at arena.old) }
    ensures root_few { IsHeld result →
        steps.new ≤ steps.old + 7 * nodes_met_below_root (row_at m.now.rows k) (outline_at arena.old) + 2 }
{
    arena.layout_law();
    work.find(arena, m.row(k), steps)
}
