// A matrix that grows by the rows with which it keeps a valid order.
ghost use Rattle.std.specs.Prelude.{◌≡◌, ◌≢◌, ◌<◌, ◌≤◌, ◌+◌, ◌-◌, IfOk, OnErr, length, take};
ghost use Rattle.row_model.specs.Graph.{row_at};
ghost use Rattle.row_model.specs.Rows.{IsRow};
ghost use Rattle.column_order.specs.Orders.{HasValidOrder};
ghost use Rattle.pq_tree.specs.PqTree.{outline};
ghost use Rattle.pq_tree.specs.Proper.{IsProper};
ghost use Rattle.tree_theory.specs.Tied.{IsTied};
ghost use Rattle.arena_model.specs.NamedTree.{outline_at};
ghost use Rattle.c1p_solve.specs.Answers.{HasAllOrders};
ghost use Rattle.c1p_solve.specs.Sessions.{IsSession, with_row};
ghost use Rattle.c1p_solve.specs.Taking.{IsStart, IsDecision, StandsAfter};
ghost use Rattle.c1p_solve.specs.Totals.{answer_steps};
ghost use Rattle.c1p_solve.specs.SessionTotals.{IsStartTotal, IsRowTotal, IsRefusedWithin, row_steps, refusal_steps};

use crate::chosen::Chosen;
use crate::solver::{conflict, reduce_all};
use odd_cycle::Cycle;
use pq_tree::PqTree;
use row_model::{Matrix, NoMemory, ROW_BOUND};
use std::alloc::Global;
use std::marker::Model;
use step_count::{Ledger, Steps};
use tree_theory::{Reducer, Step, weight_law};

/// A matrix that has a valid order, and the reducer whose tree stands for all its valid orders. Further rows are
/// taken as long as they leave one.
pub struct Session {
    alloc: Global,
    matrix: Matrix,
    reducer: Chosen,
}

// By hand, since a derived drop is taken apart wherever a session lives over a `?`, which makes the proofs above slow.
impl Drop for Session {
    fn drop(self) {
        let Session {
            alloc: _alloc,
            matrix: _matrix,
            reducer: _reducer,
        } = self;
    }
}

impl Model for Session {
    ghost use Rattle.c1p_solve.specs.Sessions.{SessionValue};
    ghost use Rattle.c1p_solve.specs.Codes.{session_code};

    ghost Value = { SessionValue };

    ghost coded = { session_code };

    ghost use Rattle.c1p_solve.specs.Kept.{session_within, IsSessionKept};

    ghost view = { session_within };

    ghost invariant = { IsSessionKept };
}

/// What became of the matrix of a new session.
#[derive(Drop)]
pub enum Started {
    /// It has a valid order, and the session has it.
    Ok(Session),
    /// It has none, as this odd cycle of its incompatibility graph shows.
    No(Cycle),
}

/// What became of a further row.
#[derive(Drop)]
pub enum Taken {
    /// The session's rows have a valid order with it, and it is the last of them now.
    Ok,
    /// The session's rows have no valid order with it, and the session is as before. Where it was asked for, an odd
    /// cycle shows it; the refused row has the number after the session's last row there, and is one of its reasons.
    No(Option<Cycle>),
}

impl Session {
    /// A session of this matrix, which allocates by `alloc`, or an odd cycle where the matrix has no valid order. The
    /// bound of its steps is that of [`answer`](crate::answer).
    ///
    /// # Errors
    ///
    /// `NoMemory`. The matrix is then dropped, as it is after `No`.
    pub fn start<L: Ledger>(
        alloc: Global,
        m: Matrix,
        steps: &mut Steps<L>,
    ) -> Result<Started, NoMemory>
        ensures start { IfOk result (IsStart m) }
        ensures total { IfOk result (IsStartTotal m steps.old steps.new) }
        ensures most { steps.new ≤ steps.old + answer_steps m }
    {
        weight_law();
        let mut reducer = Chosen::new(alloc, m.columns())?;
        match reduce_all(alloc, &mut reducer, &m, steps)? {
            None => Ok(Started::Ok(Session {
                alloc,
                matrix: m,
                reducer,
            })),
            Some(cycle) => Ok(Started::No(cycle)),
        }
    }

    /// Takes a further row where the session's rows have a valid order with it, and refuses it where they have none. A
    /// refusal comes with an odd cycle exactly where `explain` asks for one.
    ///
    /// The start and all rows that are taken together take at most 1024 steps for each column, row and one. A refusal
    /// takes at most 256 steps for each node of the tree that the row meets, and 256 more; and at most 8c(f + 1) more
    /// for a cycle, with c columns and f ones in the session's rows and this one. No answer takes more than a refusal,
    /// an error included. The nodes that a row meets and one are at most 2c, so a refusal takes at most 512c steps and
    /// the search.
    ///
    /// # Errors
    ///
    /// `NoMemory`. The session is then as before, as it is after `No`.
    pub fn take_row<L: Ledger>(
        &mut self,
        row: &[u32],
        explain: bool,
        steps: &mut Steps<L>,
    ) -> Result<Taken, NoMemory>
        requires row { IsRow self.old.matrix.columns row.now }
        requires room { length self.old.matrix.rows < ROW_BOUND }
        ensures decision { IfOk result (IsDecision (with_row self.old.matrix row.now) explain) }
        ensures session { IfOk result (StandsAfter self.old row.now self.new) }
        ensures kept { IsSession self.new }
        ensures proper { IfOk result (λ t. t ≢ Taken.Ok → IsProper self.old.matrix.columns self.old.tree) }
        ensures err { OnErr result (self.new ≡ self.old) }
        ensures total { IfOk result (IsRowTotal self.old.matrix.columns (with_row self.old.matrix row.now).rows row.now self.old.tree self.new.tree steps.old steps.new) }
        ensures most { steps.new ≤ steps.old + row_steps self.old.matrix.columns (with_row self.old.matrix row.now).rows row.now self.old.tree explain }
        ensures refused { IfOk result (IsRefusedWithin self.old.matrix.columns (with_row self.old.matrix row.now).rows explain steps.old steps.new) }
        ensures failed { OnErr result (steps.new ≤ steps.old + refusal_steps self.old.matrix.columns (with_row self.old.matrix row.now).rows explain) }
    {
        self.matrix.push_row(row)?;
        let taken = reduce_last(self.alloc, &mut self.reducer, &self.matrix, explain, steps);
        if !matches!(taken, Ok(Taken::Ok)) {
            self.matrix.pop_row();
        }
        taken
    }

    /// The canonical tree of which the frontiers are exactly the valid orders of the session's rows.
    ///
    /// # Errors
    ///
    /// `NoMemory`.
    pub fn tree(&self) -> Result<PqTree, NoMemory>
        ensures all_orders { IfOk result (HasAllOrders self.now.matrix) }
        ensures tied { IfOk result (λ t. IsTied self.now.matrix.columns self.now.matrix.rows (outline t)) }
        ensures order { HasValidOrder self.now.matrix.columns self.now.matrix.rows }
    {
        self.reducer.tree(self.alloc)
    }

    /// The matrix: the rows of the start, and after them the rows that were taken. It has a valid order.
    pub fn matrix(&self) -> &Matrix
        ensures matrix { result.now ≡ self.now.matrix }
        ensures session { IsSession self.now }
    {
        &self.matrix
    }

    /// The reducer. Its tree is tied to all rows of the session.
    pub fn reducer(&self) -> &Chosen
        ensures tree { outline_at result.now ≡ self.now.tree }
        ensures columns { result.now.columns ≡ self.now.matrix.columns }
        ensures session { IsSession self.now }
    {
        &self.reducer
    }
}

// Reduces the tree of the rows before the last one by the last one. Where it is refused, an odd cycle is
// looked for if one is asked for.
fn reduce_last<L: Ledger>(
    alloc: Global,
    reducer: &mut Chosen,
    m: &Matrix,
    explain: bool,
    steps: &mut Steps<L>,
) -> Result<Taken, NoMemory>
    requires some { 0 < length m.now.rows }
    requires columns { reducer.old.columns ≡ m.now.columns }
    requires tied { IsTied m.now.columns (take (length m.now.rows - 1) m.now.rows) (outline_at reducer.old) }
    ensures decision { IfOk result (IsDecision m.now explain) }
    ensures tied { IfOk result (λ t. t ≡ Taken.Ok → IsTied m.now.columns m.now.rows (outline_at reducer.new)) }
    ensures columns { reducer.new.columns ≡ reducer.old.columns }
    ensures unchanged { IfOk result (λ t. t ≢ Taken.Ok → outline_at reducer.new ≡ outline_at reducer.old) }
    ensures proper { IfOk result (λ t. t ≢ Taken.Ok → IsProper m.now.columns (outline_at reducer.old)) }
    ensures err { OnErr result (outline_at reducer.new ≡ outline_at reducer.old) }
    ensures total { IfOk result (IsRowTotal m.now.columns m.now.rows (row_at m.now.rows (length m.now.rows)) (outline_at reducer.old) (outline_at reducer.new) steps.old steps.new) }
    ensures most { steps.new ≤ steps.old + row_steps m.now.columns m.now.rows (row_at m.now.rows (length m.now.rows)) (outline_at reducer.old) explain }
    ensures refused { IfOk result (IsRefusedWithin m.now.columns m.now.rows explain steps.old steps.new) }
    ensures failed { OnErr result (steps.new ≤ steps.old + refusal_steps m.now.columns m.now.rows explain) }
{
    match reducer.reduce_row(m, m.rows(), steps) {
        Step::Taken => Ok(Taken::Ok),
        Step::Refused if explain => {
            let cycle = conflict(alloc, reducer, m, m.rows(), steps)?;
            Ok(Taken::No(Some(cycle)))
        }
        Step::Refused => Ok(Taken::No(None)),
    }
}
