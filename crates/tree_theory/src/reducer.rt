// What a reducer promises, however it keeps its tree.
ghost use Rattle.std.specs.Prelude.{◌≡◌, ◌-◌, ◌≤◌, ℕ, Bool, List, length, take, IfOk, IsTrue, OnErr};
ghost use Rattle.column_order.specs.Orders.{HasValidOrder};
ghost use Rattle.row_model.specs.Graph.{row_at, HasConflict};
ghost use Rattle.pq_tree.specs.Outline.{Outline};
ghost use Rattle.pq_tree.specs.Proper.{IsProper};
ghost use Rattle.pq_tree.specs.PqTree.{column_count, outline as tree_of};
ghost use Rattle.pq_tree.specs.Equivalent.{IsEquivalent};
ghost use Rattle.pq_tree.specs.Canonical.{IsCanonical};
ghost use Rattle.tree_theory.specs.Tied.{IsTied};
ghost use Rattle.tree_theory.specs.Reduced.{IsReduced};
ghost use Rattle.tree_theory.specs.Frugal.{IsFrugal};

use pq_tree::PqTree;
use row_model::{Matrix, NoMemory};
use std::alloc::Global;
use step_count::{Ledger, Steps};

/// What became of a row.
#[derive(Clone, Copy, Debug, PartialEq, Eq)]
pub enum Step {
    /// The tree now stands for the valid orders of the rows with this one.
    Taken,
    /// The rows with this one have no valid order. The tree is as it was.
    Refused,
}

/// Reduces a PQ-tree by the rows of a matrix, one after another (Booth and Lueker, 1976).
pub trait Reducer {
    /// The tree.
    ghost outline: { Self → Outline };

    /// The number of its columns, which are 1 to this number.
    ghost columns: { Self → ℕ };

    /// Whether it tells that it is frugal: then each row costs no more steps than its columns and the weight that it
    /// takes from the tree pay for, and all rows together a constant for each column, row and one.
    ghost frugal: { Bool };

    /// Reduces the tree by row `k` of `m`, after the rows before it. Row numbers begin at 1.
    ///
    /// After `Taken` the tree is the old one with its pertinent root, the smallest node that holds the row, replaced by
    /// the template that fits, up to the order of a P-node's children and the direction of a Q-node's. It is tied to
    /// the rows 1 to `k`: its frontiers are exactly their valid orders. `Refused` comes exactly where these rows have
    /// no valid order; then a walk of even length in their incompatibility graph leads from some pair of columns to the
    /// same pair with its columns exchanged.
    ///
    /// # Errors
    ///
    /// `NoMemory`. The tree is then unchanged, as it is after `Refused`, and a frugal reducer has taken no more steps
    /// than for a refusal.
    fn reduce<L: Ledger>(
        &mut self,
        m: &Matrix,
        k: u32,
        steps: &mut Steps<L>,
    ) -> Result<Step, NoMemory>
        requires row { (1 ≤ k) × (k ≤ length m.now.rows) }
        requires columns { columns self.old ≡ m.now.columns }
        requires tied { IsTied m.now.columns (take (k - 1) m.now.rows) (outline self.old) }
        ensures reduced { IfOk result (λ step. step ≡ Step.Taken → IsReduced (row_at m.now.rows k) (outline self.old) (outline self.new)) }
        ensures taken { IfOk result (λ step. step ≡ Step.Taken → IsTied m.now.columns (take k m.now.rows) (outline self.new)) }
        ensures order { IfOk result (λ step. step ≡ Step.Taken → HasValidOrder m.now.columns (take k m.now.rows)) }
        ensures refused { IfOk result (λ step. step ≡ Step.Refused → HasValidOrder m.now.columns (take k m.now.rows) → ⊥) }
        ensures conflict { IfOk result (λ step. step ≡ Step.Refused → HasConflict m.now.columns (take k m.now.rows)) }
        ensures unchanged { IfOk result (λ step. step ≡ Step.Refused → outline self.new ≡ outline self.old) }
        ensures err { OnErr result (outline self.new ≡ outline self.old) }
        ensures proper { IsProper (columns self.new) (outline self.new) }
        ensures columns { columns self.new ≡ columns self.old }
        ensures frugal { IsTrue frugal → IfOk result (IsFrugal (row_at m.now.rows k) (outline self.old) (outline self.new) steps.old steps.new) }
        ensures frugal_err { IsTrue frugal → OnErr result (IsFrugal (row_at m.now.rows k) (outline self.old) (outline self.new) steps.old steps.new Step.Refused) };

    /// The canonical tree with the same frontiers. It is tied to the rows to which the reducer's tree is tied.
    ///
    /// # Errors
    ///
    /// `NoMemory`.
    fn tree(&self, alloc: Global) -> Result<PqTree, NoMemory>
        ensures columns { IfOk result (λ t. column_count t ≡ columns self.now) }
        ensures equivalent { IfOk result (λ t. IsEquivalent (outline self.now) (tree_of t)) }
        ensures canonical { IfOk result (λ t. IsCanonical (tree_of t)) }
        ensures tied { IfOk result (λ t. (rows : List (List ℕ)) → IsTied (columns self.now) rows (outline self.now) → IsTied (columns self.now) rows (tree_of t)) };
}
