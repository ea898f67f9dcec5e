// Two reducers that are given the same rows.
ghost use Rattle.std.specs.Prelude.{◌≡◌, ◌-◌, ◌<◌, ◌≤◌, length, take, IfOk, OnOk};
ghost use Rattle.row_model.specs.Rows.{IsRow};
ghost use Rattle.tree_theory.specs.Tied.{IsTied};
ghost use Rattle.arena_model.specs.NamedTree.{outline_at};
ghost use Rattle.pq_plain.specs.Plain.{plain_columns, plain_outline};
ghost use Rattle.reducer_tests.specs.Follows.{Follows};

use super::marks::{marked_columns, text_of};
use column_order::COLUMN_BOUND;
use pq_plain::PlainReducer;
use pq_tree::PqTree;
use row_model::{Matrix, NoMemory, ROW_BOUND};
use row_reduce::ArenaReducer;
use std::alloc::Global;
use std::process::Abort;
use std::test::Fail;
use step_count::{Ledger, Steps};
use tree_theory::{Reducer, Step};

// The reducers, the rows that both took, and the text of the canonical tree of both.
#[derive(Drop)]
pub struct Both<A, B> {
    pub matrix: Matrix,
    pub first: A,
    pub second: B,
    pub text: Vec<u8>,
}

// Both reducers with their universal trees.
pub fn begin(alloc: Global, columns: u32) -> Result<Both<PlainReducer, ArenaReducer>, NoMemory>
    requires { (1 ≤ columns) × (columns ≤ COLUMN_BOUND) }
    ensures first { IfOk result (λ both. Follows both.matrix (plain_columns both.first) (plain_outline both.first)) }
    ensures second { IfOk result (λ both. Follows both.matrix both.second.columns (outline_at both.second)) }
{
    let first = PlainReducer::new(alloc, columns)?;
    let second = ArenaReducer::new(alloc, columns)?;
    let text = text_of(alloc, &first.tree(alloc)?)?;
    Ok(Both {
        matrix: Matrix::new(alloc, columns)?,
        first,
        second,
        text,
    })
}

impl<A: Reducer, B: Reducer> Both<A, B> {
    // Gives both the row of the columns that are marked, and compares what becomes of it and their trees.
    pub fn take<L: Ledger>(
        &mut self,
        rt: &impl Abort,
        alloc: Global,
        marks: &[bool],
        steps: &mut Steps<L>,
    ) -> Result<Step, Fail>
        requires first { Follows self.old.matrix (A.columns self.old.first) (A.outline self.old.first) }
        requires second { Follows self.old.matrix (B.columns self.old.second) (B.outline self.old.second) }
        ensures first { OnOk result (Follows self.new.matrix (A.columns self.new.first) (A.outline self.new.first)) }
        ensures second { OnOk result (Follows self.new.matrix (B.columns self.new.second) (B.outline self.new.second)) }
    {
        assert_eq!(rt; marks.len(), self.matrix.columns() as usize);
        let row = marked_columns(alloc, marks)?;
        let step = self.reduce(rt, &row, steps)?;
        self.compare(rt, alloc, &row, step)?;
        Ok(step)
    }

    // The trees are the same, and those from before the row where it was refused.
    fn compare(
        &mut self,
        rt: &impl Abort,
        alloc: Global,
        row: &[u32],
        step: Step,
    ) -> Result<(), NoMemory>
        requires first { Follows self.old.matrix (A.columns self.old.first) (A.outline self.old.first) }
        requires second { Follows self.old.matrix (B.columns self.old.second) (B.outline self.old.second) }
        ensures first { OnOk result (Follows self.new.matrix (A.columns self.new.first) (A.outline self.new.first)) }
        ensures second { OnOk result (Follows self.new.matrix (B.columns self.new.second) (B.outline self.new.second)) }
    {
        let text = text_of(alloc, &self.first.tree(alloc)?)?;
        assert_text(rt, alloc, &self.second.tree(alloc)?, &text, row)?;
        if step == Step::Refused {
            assert_eq!(rt; text.as_slice(), self.text.as_slice(), "after {row:?}");
        }
        self.text = text;
        Ok(())
    }

    // Reduces both by a row, which stays in the matrix where they take it.
    fn reduce<L: Ledger>(
        &mut self,
        rt: &impl Abort,
        row: &[u32],
        steps: &mut Steps<L>,
    ) -> Result<Step, Fail>
        requires row { IsRow self.old.matrix.columns row.now }
        requires first { Follows self.old.matrix (A.columns self.old.first) (A.outline self.old.first) }
        requires second { Follows self.old.matrix (B.columns self.old.second) (B.outline self.old.second) }
        ensures first { OnOk result (Follows self.new.matrix (A.columns self.new.first) (A.outline self.new.first)) }
        ensures second { OnOk result (Follows self.new.matrix (B.columns self.new.second) (B.outline self.new.second)) }
    {
        assert!(rt; self.matrix.rows() < ROW_BOUND);
        self.matrix.push_row(row)?;
        let step = reduce_last(&mut self.first, &self.matrix, steps)?;
        let other = reduce_last(&mut self.second, &self.matrix, steps)?;
        assert_eq!(rt; step, other, "at {row:?}");
        if step == Step::Refused {
            self.matrix.pop_row();
        }
        Ok(step)
    }
}

// The tree after a row has this text.
pub fn assert_text(
    rt: &impl Abort,
    alloc: Global,
    tree: &PqTree,
    wanted: &[u8],
    row: &[u32],
) -> Result<(), NoMemory> {
    let text = text_of(alloc, tree)?;
    assert_eq!(rt; text.as_slice(), wanted, "after {row:?}");
    Ok(())
}

// Reduces by the last row of a matrix.
fn reduce_last<R: Reducer, L: Ledger>(
    reducer: &mut R,
    m: &Matrix,
    steps: &mut Steps<L>,
) -> Result<Step, NoMemory>
    requires some { 0 < length m.now.rows }
    requires columns { R.columns reducer.old ≡ m.now.columns }
    requires tied { IsTied m.now.columns (take (length m.now.rows - 1) m.now.rows) (R.outline reducer.old) }
    ensures taken { IfOk result (λ step. step ≡ Step.Taken → IsTied m.now.columns m.now.rows (R.outline reducer.new)) }
    ensures refused { IfOk result (λ step. step ≡ Step.Refused → R.outline reducer.new ≡ R.outline reducer.old) }
    ensures columns { R.columns reducer.new ≡ R.columns reducer.old }
{
    reducer.reduce(m, m.rows(), steps)
}
