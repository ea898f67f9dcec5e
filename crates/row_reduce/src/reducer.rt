// The reducer that keeps its tree in an arena.
ghost use Rattle.std.specs.Prelude.{◌≡◌, true, ℕ, ◌+◌, ◌-◌, ◌*◌, ◌≤◌, List, [], ◌∷◌, ◌++◌, length, take, IfOk, IsOk};
ghost use Rattle.column_order.specs.Orders.{HasValidOrder};
ghost use Rattle.row_model.specs.Graph.{row_at, HasConflict};
ghost use Rattle.pq_tree.specs.Amortised.{nodes_met, nodes_met_below_root};
ghost use Rattle.pq_tree.specs.Proper.{universal, IsProper};
ghost use Rattle.tree_theory.specs.Tied.{IsTied};
ghost use Rattle.tree_theory.specs.Reduced.{IsReduced};
ghost use Rattle.tree_theory.specs.Frugal.{IsFrugal};
ghost use Rattle.arena_model.specs.NamedTree.{outline_at};
ghost use Rattle.arena_model.specs.RowLeaves.{column_leaves};
ghost use Rattle.full_pass.specs.Answer.{IsRowKept};
ghost use Rattle.row_reduce.specs.InPlace.{IsInPlace};

use crate::rows::reduce_arena;
use crate::template::Template;
use bubble_pass::Work;
use full_pass::FullWork;
use pq_arena::Arena;
use pq_tree::PqTree;
use row_model::{COLUMN_BOUND, Matrix, NoMemory};
use std::alloc::Global;
use std::marker::Model;
use step_count::{Ledger, Steps};
use tree_theory::{Reducer, Step, equivalent_law, reduce_law, ticks_law, universal_law};

/// A reducer whose tree stands in an arena. Each row is reduced in place, and looks at no more nodes than
/// the row meets, up to a factor. A refused row changes nothing: the templates of all nodes are chosen
/// before the first is applied.
///
/// [`new`](ArenaReducer::new) takes all memory that rows need, and [`tree`](Reducer::tree)
/// that of the tree that it gives.
pub struct ArenaReducer {
    arena: Arena,
    full: FullWork,
    work: Work,
    chosen: Vec<Template>,
}

// By hand, since a derived drop is taken apart wherever a reducer lives over a `?`, which makes the proofs above slow.
impl Drop for ArenaReducer {
    fn drop(self) {
        let ArenaReducer {
            arena: _arena,
            full: _full,
            work: _work,
            chosen: _chosen,
        } = self;
    }
}

impl Model for ArenaReducer {
    ghost use Rattle.arena_model.specs.Layout.{Layout};

    ghost Value = { Layout };

    ghost use Rattle.row_reduce.specs.Reducer.{arena_of, IsReducerKept};

    ghost view = { arena_of };

    ghost invariant = { IsReducerKept };
}

impl ArenaReducer {
    /// A reducer with the universal tree, which is tied to no rows.
    ///
    /// # Errors
    ///
    /// `NoMemory`. No row takes memory later.
    pub fn new(alloc: Global, columns: u32) -> Result<Self, NoMemory>
        requires { (1 ≤ columns) × (columns ≤ COLUMN_BOUND) }
        ensures columns { IfOk result (λ r. r.columns ≡ columns) }
        ensures tree { IfOk result (λ r. outline_at r ≡ universal columns) }
        ensures tied { IfOk result (λ r. IsTied columns [] (outline_at r)) }
    {
        let arena = Arena::new(alloc, columns)?;
        arena.layout_law();
        universal_law();
        let full = FullWork::new(alloc, columns)?;
        let work = Work::new(alloc, columns)?;
        let chosen = vec![in alloc; Template::L1; 2 * columns as usize + 4]?;
        Ok(ArenaReducer {
            arena,
            full,
            work,
            chosen,
        })
    }

    /// Reduces the tree by row `k` of `m`, after the rows before it. Row numbers begin at 1. This is
    /// [`reduce`](Reducer::reduce), which never fails here, and what [`reduce_after`](ArenaReducer::reduce_after) does
    /// after these rows.
    pub fn reduce_row<L: Ledger>(&mut self, m: &Matrix, k: u32, steps: &mut Steps<L>) -> Step
        requires row { (1 ≤ k) × (k ≤ length m.now.rows) }
        requires columns { self.old.columns ≡ m.now.columns }
        requires tied { IsTied m.now.columns (take (k - 1) m.now.rows) (outline_at self.old) }
        ensures reduced { result ≡ Step.Taken → IsReduced (row_at m.now.rows k) (outline_at self.old) (outline_at self.new) }
        ensures taken { result ≡ Step.Taken → IsTied m.now.columns (take k m.now.rows) (outline_at self.new) }
        ensures order { result ≡ Step.Taken → HasValidOrder m.now.columns (take k m.now.rows) }
        ensures refused { result ≡ Step.Refused → HasValidOrder m.now.columns (take k m.now.rows) → ⊥ }
        ensures conflict { result ≡ Step.Refused → HasConflict m.now.columns (take k m.now.rows) }
        ensures unchanged { result ≡ Step.Refused → self.new ≡ self.old }
        ensures proper { IsProper self.new.columns (outline_at self.new) }
        ensures columns { self.new.columns ≡ self.old.columns }
        ensures ticks { steps.new ≤ steps.old + 256 * (nodes_met (row_at m.now.rows k) (outline_at self.old) + 1) }
        ensures below { result ≡ Step.Taken →
            steps.new ≤ steps.old + 4 * length (row_at m.now.rows k) + 252 * (nodes_met_below_root (row_at m.now.rows k) (outline_at self.old) + 1) }
        ensures few { steps.new ≤ steps.old + 8 * length (row_at m.now.rows k) + 36 * nodes_met (row_at m.now.rows k) (outline_at self.old) + 6 }
        ensures root_few { result ≡ Step.Taken →
            steps.new ≤ steps.old + 8 * length (row_at m.now.rows k) + 38 * nodes_met_below_root (row_at m.now.rows k) (outline_at self.old) + 8 }
        ensures amortised { IsFrugal (row_at m.now.rows k) (outline_at self.old) (outline_at self.new) steps.old steps.new result }
        ensures empty { row_at m.now.rows k ≡ [] → (result ≡ Step.Taken) × (self.new ≡ self.old) × (steps.new ≡ steps.old) }
        ensures kept { IsRowKept self.old (column_leaves (row_at m.now.rows k)) → (result ≡ Step.Taken) × (self.new ≡ self.old) }
        ensures in_place { IsInPlace (column_leaves (row_at m.now.rows k)) self.old self.new }
    {
        self.reduce_after(m, k, steps)
    }

    /// Reduces the tree, whatever rows it is tied to, by row `k` of `m`. Row numbers begin at 1. The rows to which the
    /// tree is tied may be any, and needn't be in `m`.
    ///
    /// After `Taken` it is tied to them and row `k` behind them. `Refused` comes exactly where these have no valid order,
    /// and the tree is as before then.
    ///
    /// An empty row is taken at once: without a tick, and nothing changes. Nor does anything change where the leaves
    /// of the row are those at or below one node, or below neighbouring children of a Q-node, so that every order of the
    /// tree keeps it already: it is taken, and the arena is the same, not only up to turning.
    ///
    /// The row is reduced in place. Whatever node holds it, nodes that are not at or below that one keep their numbers,
    /// their shapes and their children, in their order; but another node may stand in its place.
    ///
    /// It ticks at most 256 times for each node that the row meets, and 256 times more. Where the row is taken, it
    /// ticks at most 252 times for each of these nodes at or below the smallest that holds the row, 252 times more, and
    /// four times for each column of the row. Both bounds are wide. The narrow ones are 36 for each node that the row
    /// meets, and 6 more; or, where the row is taken, 38 for each at or below the smallest that holds it, and 8 more. In
    /// both there are 8 for each column of the row besides.
    ///
    /// All rows together are linear: 256 ticks are worth one unit of the tree's weight, the number of its Q-nodes and
    /// of the children of its P-nodes (Booth and Lueker, 1976). A row that is taken pays what it ticks beyond 1024
    /// times for each of its columns, and 1024 times more, with weight that it takes from the tree. One that is refused
    /// ticks no more than that and what all weight is worth.
    pub fn reduce_after<L: Ledger>(&mut self, m: &Matrix, k: u32, steps: &mut Steps<L>) -> Step
        requires row { (1 ≤ k) × (k ≤ length m.now.rows) }
        requires columns { self.old.columns ≡ m.now.columns }
        requires tied { (rows : List (List ℕ)) × IsTied m.now.columns rows (outline_at self.old) }
        ensures reduced { result ≡ Step.Taken → IsReduced (row_at m.now.rows k) (outline_at self.old) (outline_at self.new) }
        ensures taken { result ≡ Step.Taken → (rows : List (List ℕ)) →
            IsTied m.now.columns rows (outline_at self.old) →
            IsTied m.now.columns (rows ++ row_at m.now.rows k ∷ []) (outline_at self.new) }
        ensures order { result ≡ Step.Taken → (rows : List (List ℕ)) →
            IsTied m.now.columns rows (outline_at self.old) →
            HasValidOrder m.now.columns (rows ++ row_at m.now.rows k ∷ []) }
        ensures refused { result ≡ Step.Refused → (rows : List (List ℕ)) →
            IsTied m.now.columns rows (outline_at self.old) →
            HasValidOrder m.now.columns (rows ++ row_at m.now.rows k ∷ []) → ⊥ }
        ensures conflict { result ≡ Step.Refused → (rows : List (List ℕ)) →
            IsTied m.now.columns rows (outline_at self.old) →
            HasConflict m.now.columns (rows ++ row_at m.now.rows k ∷ []) }
        ensures unchanged { result ≡ Step.Refused → self.new ≡ self.old }
        ensures proper { IsProper self.new.columns (outline_at self.new) }
        ensures columns { self.new.columns ≡ self.old.columns }
        ensures ticks { steps.new ≤ steps.old + 256 * (nodes_met (row_at m.now.rows k) (outline_at self.old) + 1) }
        ensures below { result ≡ Step.Taken →
            steps.new ≤ steps.old + 4 * length (row_at m.now.rows k) + 252 * (nodes_met_below_root (row_at m.now.rows k) (outline_at self.old) + 1) }
        ensures few { steps.new ≤ steps.old + 8 * length (row_at m.now.rows k) + 36 * nodes_met (row_at m.now.rows k) (outline_at self.old) + 6 }
        ensures root_few { result ≡ Step.Taken →
            steps.new ≤ steps.old + 8 * length (row_at m.now.rows k) + 38 * nodes_met_below_root (row_at m.now.rows k) (outline_at self.old) + 8 }
        ensures amortised { IsFrugal (row_at m.now.rows k) (outline_at self.old) (outline_at self.new) steps.old steps.new result }
        ensures empty { row_at m.now.rows k ≡ [] → (result ≡ Step.Taken) × (self.new ≡ self.old) × (steps.new ≡ steps.old) }
        ensures kept { IsRowKept self.old (column_leaves (row_at m.now.rows k)) → (result ≡ Step.Taken) × (self.new ≡ self.old) }
        ensures in_place { IsInPlace (column_leaves (row_at m.now.rows k)) self.old self.new }
    {
        ticks_law();
        reduce_law();
        self.arena.layout_law();
        let _row = m.row(k);
        let step = reduce_arena(
            &mut self.arena,
            &mut self.full,
            &mut self.work,
            &mut self.chosen,
            m,
            k,
            steps,
        );
        self.arena.layout_law();
        step
    }
}

impl Reducer for ArenaReducer {
    ghost use Rattle.arena_model.specs.Layout.{Layout};
    ghost use Rattle.arena_model.specs.NamedTree.{outline_at};

    ghost outline = { λ f. outline_at f };

    ghost columns = { λ f. f.columns };

    ghost frugal = { true };

    fn reduce<L: Ledger>(
        &mut self,
        m: &Matrix,
        k: u32,
        steps: &mut Steps<L>,
    ) -> Result<Step, NoMemory>
        requires row { (1 ≤ k) × (k ≤ length m.now.rows) }
        requires columns { self.old.columns ≡ m.now.columns }
        requires tied { IsTied m.now.columns (take (k - 1) m.now.rows) (outline_at self.old) }
        ensures reduced { IfOk result (λ step. step ≡ Step.Taken → IsReduced (row_at m.now.rows k) (outline_at self.old) (outline_at self.new)) }
        ensures taken { IfOk result (λ step. step ≡ Step.Taken → IsTied m.now.columns (take k m.now.rows) (outline_at self.new)) }
        ensures order { IfOk result (λ step. step ≡ Step.Taken → HasValidOrder m.now.columns (take k m.now.rows)) }
        ensures refused { IfOk result (λ step. step ≡ Step.Refused → HasValidOrder m.now.columns (take k m.now.rows) → ⊥) }
        ensures conflict { IfOk result (λ step. step ≡ Step.Refused → HasConflict m.now.columns (take k m.now.rows)) }
        ensures unchanged { IfOk result (λ step. step ≡ Step.Refused → outline_at self.new ≡ outline_at self.old) }
        ensures never_fails { IsOk result }
        ensures amortised { IfOk result (IsFrugal (row_at m.now.rows k) (outline_at self.old) (outline_at self.new) steps.old steps.new) }
        ensures proper { IsProper self.new.columns (outline_at self.new) }
        ensures columns { self.new.columns ≡ self.old.columns }
    {
        Ok(self.reduce_row(m, k, steps))
    }

    fn tree(&self, alloc: Global) -> Result<PqTree, NoMemory> {
        equivalent_law();
        self.arena.to_tree(alloc)
    }
}
