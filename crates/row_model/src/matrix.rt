// A matrix by its rows, one after another in one list.
ghost use Rattle.std.specs.Prelude.{◌≡◌, ◌<◌, ◌≤◌, ◌+◌, ◌-◌, List, ℕ, [], ◌∷◌, ◌++◌, Some, length, take, IfOk, OnOk, OnErr, sum_by, slice_get, slice_index_or, IsTrue, All, ◌↔◌};
ghost use Rattle.column_order.specs.Orders.{has, IsOrder, Keeps};
ghost use Rattle.row_model.specs.Rows.{IsRow};

use crate::order::{is_kept, positions};
use crate::pieces::{piece, pop_piece, push_piece};
use crate::rows::row_has;
use crate::{NoMemory, ROW_BOUND};
use column_order::COLUMN_BOUND;
use std::alloc::Global;
use std::marker::Model;
use step_count::{Ledger, Steps};

/// A number of columns, from 1 to [`COLUMN_BOUND`], and at most [`ROW_BOUND`] rows, each the strictly ascending list of
/// the columns that it has.
///
/// The rows lie one after another in one list, so a matrix takes four bytes for each one and eight for each row.
pub struct Matrix {
    column_count: u32,
    members: Vec<u32>,
    bounds: Vec<usize>,
}

// By hand, so that a place where it is dropped proves one call and does not take its parts apart.
impl Drop for Matrix {
    fn drop(self) {
        let Matrix {
            column_count: _column_count,
            members: _members,
            bounds: _bounds,
        } = self;
    }
}

impl Model for Matrix {
    ghost use Rattle.row_model.specs.Rows.{RowList};

    ghost Value = { RowList };

    ghost use Rattle.row_model.specs.Bounds.{rows_within, IsKept};

    ghost view = { rows_within };

    ghost invariant = { IsKept };
}

impl Matrix {
    /// A matrix of so many columns, with no row.
    ///
    /// # Errors
    ///
    /// `NoMemory` where there is no memory for it.
    pub fn new(alloc: Global, columns: u32) -> Result<Self, NoMemory>
        requires { (1 ≤ columns) × (columns ≤ COLUMN_BOUND) }
        ensures { IfOk result (λ m. m ≡ record { columns = columns; rows = [] }) }
    {
        let mut bounds = Vec::new(alloc);
        bounds.push(0)?;
        Ok(Matrix {
            column_count: columns,
            members: Vec::new(alloc),
            bounds,
        })
    }

    /// A matrix of so many columns, with no row. About so many rows and ones are expected: where there is memory, the
    /// answers are the same with any numbers, and so is what may be added.
    ///
    /// # Errors
    ///
    /// `NoMemory` where there is no memory for it.
    pub fn with_room(
        alloc: Global,
        columns: u32,
        rows: usize,
        ones: usize,
    ) -> Result<Self, NoMemory>
        requires { (1 ≤ columns) × (columns ≤ COLUMN_BOUND) }
        ensures { IfOk result (λ m. m ≡ record { columns = columns; rows = [] }) }
    {
        let mut bounds = Vec::with_capacity(alloc, rows.saturating_add(1))?;
        bounds.push(0)?;
        Ok(Matrix {
            column_count: columns,
            members: Vec::with_capacity(alloc, ones)?,
            bounds,
        })
    }

    /// Adds a last row. On an error the matrix is as before.
    ///
    /// # Errors
    ///
    /// `NoMemory` where there is no memory for the row.
    pub fn push_row(&mut self, row: &[u32]) -> Result<(), NoMemory>
        requires row { IsRow self.old.columns row.now }
        requires room { length self.old.rows < ROW_BOUND }
        ensures ok { OnOk result (self.new ≡ record self.old { rows = self.old.rows ++ row.now ∷ [] }) }
        ensures err { OnErr result (self.new ≡ self.old) }
    {
        push_piece(&mut self.members, &mut self.bounds, row)?;
        Ok(())
    }

    /// Removes the last row. The room that it took stays for later rows.
    pub fn pop_row(&mut self)
        requires { 0 < length self.old.rows }
        ensures { self.new ≡ record self.old { rows = take (length self.old.rows - 1) self.old.rows } }
    {
        pop_piece(&mut self.members, &mut self.bounds);
    }

    /// The number of columns, from 1 to [`COLUMN_BOUND`]. The matrix has at most [`ROW_BOUND`] rows.
    pub fn columns(&self) -> u32
        ensures columns { result ≡ self.now.columns }
        ensures range { (1 ≤ result) × (result ≤ COLUMN_BOUND) }
        ensures few_rows { length self.now.rows ≤ ROW_BOUND }
    {
        self.column_count
    }

    /// The number of rows.
    pub fn rows(&self) -> u32
        ensures { result ≡ length self.now.rows }
    {
        (self.bounds.len() - 1) as u32
    }

    /// The number of ones, which is the sum of the lengths of the rows.
    pub fn ones(&self) -> u64
        ensures { result ≡ sum_by length self.now.rows }
    {
        self.members.len() as u64
    }

    // The number of ones of the rows 1 to `k`.
    pub(crate) fn first_ones(&self, k: u32) -> u64
        requires { k ≤ length self.now.rows }
        ensures { result ≡ sum_by length (take k self.now.rows) }
    {
        self.bounds[k as usize] as u64
    }

    /// Row `k`, from 1: its columns, strictly ascending.
    pub fn row(&self, k: u32) -> &[u32]
        requires { (1 ≤ k) × (k ≤ length self.now.rows) }
        ensures row { slice_get self.now.rows (k - 1) ≡ Some result.now }
        ensures ascending { IsRow self.now.columns result.now }
    {
        piece(&self.members, &self.bounds, k as usize - 1)
    }

    /// Whether row `k`, from 1, has the column. The search is binary.
    pub fn has(&self, k: u32, column: u32) -> bool
        requires { (1 ≤ k) × (k ≤ length self.now.rows) }
        ensures { result ≡ has (slice_index_or self.now.rows (k - 1) []) column }
    {
        row_has(self.row(k), column)
    }

    /// The number of ones of row `k`, from 1.
    pub fn row_len(&self, k: u32) -> u32
        requires { (1 ≤ k) × (k ≤ length self.now.rows) }
        ensures { result ≡ length (slice_index_or self.now.rows (k - 1) []) }
    {
        piece(&self.members, &self.bounds, k as usize - 1).len() as u32
    }

    /// As [`has`](Matrix::has), and one step is counted.
    pub fn has_counted<L: Ledger>(&self, k: u32, column: u32, steps: &mut Steps<L>) -> bool
        requires { (1 ≤ k) × (k ≤ length self.now.rows) }
        ensures has { result ≡ has (slice_index_or self.now.rows (k - 1) []) column }
        ensures ticks { steps.new ≡ steps.old + 1 }
    {
        steps.tick();
        self.has(k, column)
    }

    /// The `i`-th column of row `k`, both from 1, and one step is counted.
    pub fn member_counted<L: Ledger>(&self, k: u32, i: u32, steps: &mut Steps<L>) -> u32
        requires row { (1 ≤ k) × (k ≤ length self.now.rows) }
        requires member { (1 ≤ i) × (i ≤ length (slice_index_or self.now.rows (k - 1) [])) }
        ensures member { slice_get (slice_index_or self.now.rows (k - 1) []) (i - 1) ≡ Some result }
        ensures range { (1 ≤ result) × (result ≤ self.now.columns) }
        ensures ticks { steps.new ≡ steps.old + 1 }
    {
        steps.tick();
        self.row(k)[i as usize - 1]
    }

    /// Whether the order of the columns keeps every row: of any three positions, a row with the columns at the first
    /// and the last has the column between them.
    ///
    /// # Errors
    ///
    /// `NoMemory` where there is no memory for the positions of the columns.
    pub fn keeps(&self, order: &[u32]) -> Result<bool, NoMemory>
        requires { IsOrder self.now.columns order.now }
        ensures { IfOk result (λ yes. IsTrue yes ↔ All (Keeps order.now) self.now.rows) }
    {
        let positions = positions(*self.members.allocator(), order)?;
        for k in 0..self.rows() {
            if !is_kept(&positions, self.row(k + 1)) {
                return Ok(false);
            }
        }
        Ok(true)
    }
}
