// A matrix of which each look at a row is counted.
ghost use Rattle.std.specs.Prelude.{◌≡◌, ◌≢◌, ◌⊎◌, ◌≤◌, ◌+◌, ◌-◌, ◌<◌, ℕ, List, [], ◌∷◌, ◌++◌, Some, length, take, sum_by, slice_get, IfOk, IfSome, OnOk, OnErr, IsTrue, MatchOption, ◌↔◌};
ghost use Rattle.column_order.specs.Orders.{has, IsOrder};
ghost use Rattle.row_model.specs.declared.graph.Why.TheVariants.{Flip, Row};
ghost use Rattle.row_model.specs.Counted.{LeadsOn, looks, MayCross};
ghost use Rattle.row_model.specs.Graph.{row_at, Crosses, JoinedBy};
ghost use Rattle.row_model.specs.Positions.{ArePositions, IsSpan, IsSpanInOrder};
ghost use Rattle.row_model.specs.Rows.{IsRow};

use crate::graph::{Pair, Why, is_pair};
use crate::lists::Span;
use crate::matrix::Matrix;
use crate::order::span_of;
use crate::{NoMemory, ROW_BOUND};
use column_order::COLUMN_BOUND;
use std::alloc::Global;
use std::marker::Model;
use step_count::{Ledger, Steps};

/// A matrix as a search reads it: each call that tells a column of a row, whether it has one, or how many it has, counts
/// a step for it. So the steps of a call that is handed this in place of the matrix bound how often it is told these.
///
/// Only that a row has no further column is told without a step, however often it is asked: a bound by columns and ones
/// alone has no step for a row without ones.
#[derive(Drop)]
pub struct CountedRows<'a> {
    matrix: &'a Matrix,
}

impl<'a> Model for CountedRows<'a> {
    ghost use Rattle.row_model.specs.Rows.{RowList};

    ghost Value = { RowList };

    ghost view = { λ counted. counted.matrix.now };
}

impl<'a> CountedRows<'a> {
    /// The rows of a matrix.
    pub fn new(matrix: &'a Matrix) -> Self
        ensures { result ≡ matrix.now }
    {
        CountedRows { matrix }
    }

    /// The number of columns, from 1 to [`COLUMN_BOUND`]. There are at most [`ROW_BOUND`](crate::ROW_BOUND) rows.
    pub fn columns(&self) -> u32
        ensures columns { result ≡ self.now.columns }
        ensures range { (1 ≤ result) × (result ≤ COLUMN_BOUND) }
        ensures few_rows { length self.now.rows ≤ ROW_BOUND }
    {
        self.matrix.columns()
    }

    /// The number of rows.
    pub fn rows(&self) -> u32
        ensures { result ≡ length self.now.rows }
    {
        self.matrix.rows()
    }

    /// The number of ones of row `k`, from 1, and one step is counted.
    pub fn len_counted<L: Ledger>(&self, k: u32, steps: &mut Steps<L>) -> u32
        requires { (1 ≤ k) × (k ≤ length self.now.rows) }
        ensures len { result ≡ length (row_at self.now.rows k) }
        ensures ticks { steps.new ≡ steps.old + 1 }
    {
        steps.tick();
        self.matrix.row_len(k)
    }

    /// Whether row `k`, from 1, has the column, and one step is counted.
    pub fn has_counted<L: Ledger>(&self, k: u32, column: u32, steps: &mut Steps<L>) -> bool
        requires { (1 ≤ k) × (k ≤ length self.now.rows) }
        ensures has { result ≡ has (row_at self.now.rows k) column }
        ensures ticks { steps.new ≡ steps.old + 1 }
    {
        self.matrix.has_counted(k, column, steps)
    }

    /// The `i`-th column of row `k`, both from 1, and one step is counted.
    pub fn member_counted<L: Ledger>(&self, k: u32, i: u32, steps: &mut Steps<L>) -> u32
        requires row { (1 ≤ k) × (k ≤ length self.now.rows) }
        requires member { (1 ≤ i) × (i ≤ length (row_at self.now.rows k)) }
        ensures member { slice_get (row_at self.now.rows k) (i - 1) ≡ Some result }
        ensures range { (1 ≤ result) × (result ≤ self.now.columns) }
        ensures ticks { steps.new ≡ steps.old + 1 }
    {
        self.matrix.member_counted(k, i, steps)
    }

    /// The column of row `k`, from 1, behind its first `done` ones, and one step is counted for it; or `None` where the
    /// row has no more.
    pub fn next_counted<L: Ledger>(&self, k: u32, done: u32, steps: &mut Steps<L>) -> Option<u32>
        requires { (1 ≤ k) × (k ≤ length self.now.rows) }
        ensures column { slice_get (row_at self.now.rows k) done ≡ result }
        ensures range { IfSome result (λ column. (1 ≤ column) × (column ≤ self.now.columns)) }
        ensures few { (length (row_at self.now.rows k) ≤ self.now.columns) × (self.now.columns ≤ COLUMN_BOUND) }
        ensures ticks { MatchOption result (steps.new ≡ steps.old) (λ column. steps.new ≡ steps.old + 1) }
    {
        let count = self.ones_of_row(k);
        if done >= count {
            return None;
        }
        Some(self.matrix.member_counted(k, done + 1, steps))
    }

    // The number of ones of a row.
    fn ones_of_row(&self, k: u32) -> u32
        requires { (1 ≤ k) × (k ≤ length self.now.rows) }
        ensures len { result ≡ length (row_at self.now.rows k) }
        ensures few { (length (row_at self.now.rows k) ≤ self.now.columns) × (self.now.columns ≤ COLUMN_BOUND) }
    {
        // A row ascends, and a matrix has few enough columns.
        let _columns = self.matrix.columns();
        let _row = self.matrix.row(k);
        self.matrix.row_len(k)
    }

    /// Whether the incompatibility graph of the matrix joins the two pairs for this reason, as
    /// [`joined_by`](crate::joined_by). Each look at the row is a step: the row is asked for the first column that it has to
    /// have, for the second where it has that, and for the column that it has to lack where it has both. So a yes by a row
    /// costs three steps, and a no by one costs one to three. A flip costs none, and nor do pairs that do not fit or a
    /// number that no row has.
    pub fn joined_counted<L: Ledger>(
        &self,
        v: Pair,
        w: Pair,
        why: Why,
        steps: &mut Steps<L>,
    ) -> bool
        ensures joined { IsTrue result ↔ JoinedBy self.now.columns self.now.rows v w why }
        ensures free { steps.new ≡ steps.old →
            (rows : List (List ℕ)) →
            length rows ≡ length self.now.rows →
            IsTrue result ↔ JoinedBy self.now.columns rows v w why }
        ensures looks { IsTrue result → (k : ℕ) → why ≡ Row k → steps.new ≡ steps.old + 3 }
        ensures forth { (k : ℕ) →
            why ≡ Row k →
            MayCross self.now.columns self.now.rows v w k →
            steps.new ≡ steps.old + looks (row_at self.now.rows k) v w }
        ensures back { (k : ℕ) →
            why ≡ Row k →
            MayCross self.now.columns self.now.rows w v k →
            steps.new ≡ steps.old + looks (row_at self.now.rows k) w v }
        ensures none { ((k : ℕ) →
            why ≡ Row k →
            MayCross self.now.columns self.now.rows v w k ⊎ MayCross self.now.columns self.now.rows w v k →
            ⊥) →
            steps.new ≡ steps.old }
        ensures flip { why ≡ Flip → steps.new ≡ steps.old }
        ensures ticks { steps.new ≤ steps.old + 3 }
    {
        let columns = self.columns();
        is_pair(columns, v)
            && is_pair(columns, w)
            && match why {
                Why::Flip => v.a == w.b && v.b == w.a,
                Why::Row(k) => 1 <= k && k <= self.rows() && self.crosses_either(k, v, w, steps),
            }
    }

    // Whether one pair is (a,b) and the other is (b,d) with a and d distinct, and row k has a and d and lacks b.
    fn crosses_either<L: Ledger>(&self, k: u32, v: Pair, w: Pair, steps: &mut Steps<L>) -> bool
        requires { (1 ≤ k) × (k ≤ length self.now.rows) }
        ensures crosses { IsTrue result ↔ (Crosses (row_at self.now.rows k) v w ⊎ Crosses (row_at self.now.rows k) w v) }
        ensures free { steps.new ≡ steps.old →
            (row : List ℕ) →
            IsTrue result ↔ (Crosses row v w ⊎ Crosses row w v) }
        ensures looks { IsTrue result → steps.new ≡ steps.old + 3 }
        ensures forth { LeadsOn v w → steps.new ≡ steps.old + looks (row_at self.now.rows k) v w }
        ensures back { LeadsOn w v → steps.new ≡ steps.old + looks (row_at self.now.rows k) w v }
        ensures none { (LeadsOn v w → ⊥) → (LeadsOn w v → ⊥) → steps.new ≡ steps.old }
        ensures ticks { steps.new ≤ steps.old + 3 }
    {
        if v.b == w.a && v.a != w.b {
            self.crosses(k, v, w, steps)
        } else if w.b == v.a && w.a != v.b {
            self.crosses(k, w, v, steps)
        } else {
            false
        }
    }

    // Whether row k has the first column of v and the second of w, and lacks the second of v. Each look is a step.
    fn crosses<L: Ledger>(&self, k: u32, v: Pair, w: Pair, steps: &mut Steps<L>) -> bool
        requires row { (1 ≤ k) × (k ≤ length self.now.rows) }
        requires pairs { (v.b ≡ w.a) × (v.a ≢ w.b) }
        ensures crosses { IsTrue result ↔ Crosses (row_at self.now.rows k) v w }
        ensures some { steps.old + 1 ≤ steps.new }
        ensures looks { IsTrue result → steps.new ≡ steps.old + 3 }
        ensures exact { steps.new ≡ steps.old + looks (row_at self.now.rows k) v w }
        ensures ticks { steps.new ≤ steps.old + 3 }
    {
        self.has_counted(k, v.a, steps)
            && self.has_counted(k, w.b, steps)
            && !self.has_counted(k, v.b, steps)
    }

    /// The span of row `k`, from 1, in the order of these positions, as [`span_of`](crate::span_of), or `None` where the
    /// row has no column. A step is counted for each of its columns.
    pub fn span_counted<L: Ledger>(
        &self,
        k: u32,
        positions: &[u32],
        steps: &mut Steps<L>,
    ) -> Option<Span>
        requires row { (1 ≤ k) × (k ≤ length self.now.rows) }
        requires positions { length positions.now ≡ self.now.columns }
        ensures least { MatchOption result (row_at self.now.rows k ≡ []) (IsSpan positions.now (row_at self.now.rows k)) }
        ensures spans { IfSome result (λ span.
            (o : List ℕ) →
            IsOrder (length positions.now) o →
            ArePositions o positions.now →
            IsSpanInOrder o (row_at self.now.rows k) span) }
        ensures ticks { steps.new ≡ steps.old + length (row_at self.now.rows k) }
    {
        let row = self.matrix.row(k);
        for _ in row {
            steps.tick();
        }
        span_of(positions, row)
    }

    /// The number of ones of the rows 1 to `k`, and one step is counted.
    pub fn ones_counted<L: Ledger>(&self, k: u32, steps: &mut Steps<L>) -> u64
        requires { k ≤ length self.now.rows }
        ensures ones { result ≡ sum_by length (take k self.now.rows) }
        ensures ticks { steps.new ≡ steps.old + 1 }
    {
        steps.tick();
        self.matrix.first_ones(k)
    }
}

/// A matrix that a search makes for itself. Of its rows it says how many ones they have, and all else as
/// [`CountedRows`] alone.
#[derive(Drop)]
pub struct CountedMatrix {
    matrix: Matrix,
}

impl Model for CountedMatrix {
    ghost use Rattle.row_model.specs.Rows.{RowList};

    ghost Value = { RowList };

    ghost view = { λ counted. counted.matrix };
}

impl CountedMatrix {
    /// A matrix of so many columns, with no row.
    ///
    /// # Errors
    ///
    /// `NoMemory` where there is no memory for it.
    pub fn new(alloc: Global, columns: u32) -> Result<Self, NoMemory>
        requires { (1 ≤ columns) × (columns ≤ COLUMN_BOUND) }
        ensures { IfOk result (λ m. m ≡ record { columns = columns; rows = [] }) }
    {
        Ok(CountedMatrix {
            matrix: Matrix::new(alloc, columns)?,
        })
    }

    /// Adds a last row. On an error the matrix is as before.
    ///
    /// # Errors
    ///
    /// `NoMemory` where there is no memory for the row.
    pub fn push_row(&mut self, row: &[u32]) -> Result<(), NoMemory>
        requires row { IsRow self.old.columns row.now }
        requires room { length self.old.rows < ROW_BOUND }
        ensures ok { OnOk result (self.new ≡ record self.old { rows = self.old.rows ++ row.now ∷ [] }) }
        ensures err { OnErr result (self.new ≡ self.old) }
    {
        self.matrix.push_row(row)?;
        Ok(())
    }

    /// The number of ones, which is the sum of the lengths of the rows. No step is counted.
    pub fn ones(&self) -> u64
        ensures { result ≡ sum_by length self.now.rows }
    {
        self.matrix.ones()
    }

    /// The rows, each look at which is counted.
    pub fn counted(&self) -> CountedRows<'_>
        ensures { result ≡ self.now }
    {
        CountedRows::new(&self.matrix)
    }
}
