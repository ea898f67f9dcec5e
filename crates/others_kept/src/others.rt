// Rows of which each in turn is left out.
ghost use Rattle.std.specs.Prelude.{◌↔◌, ◌<◌, ◌≤◌, length, IsTrue, IfOk};
ghost use Rattle.row_model.specs.Rows.{IsRow};
ghost use Rattle.others_kept.specs.Others.{IsValidForOthers};
ghost use Rattle.others_kept.specs.Counts.{AreOthers};

use crate::each::keeps_others;
use crate::table::Table;
use row_model::{MAX_COLUMNS, Matrix, NoMemory, is_order};
use std::alloc::Global;

/// What is known of several rows of a matrix, to judge orders that are to be valid for all of them but one.
#[derive(Drop)]
pub struct Others {
    table: Option<Table>,
}

impl Others {
    /// For the rows of these numbers, which ascend, the first of which is to have this order.
    ///
    /// It takes a look at each one of the rows, and where the rows are many a look at each two columns. No clause says so.
    ///
    /// # Errors
    ///
    /// `NoMemory`.
    pub fn new(alloc: Global, m: &Matrix, rows: &[u32], first: &[u32]) -> Result<Self, NoMemory>
        requires rows { IsRow (length m.now.rows) rows.now }
        requires some { 0 < length rows.now }
        ensures { IfOk result (AreOthers m.now rows.now) }
    {
        if !are_many(m.columns(), rows) || !keeps_others(alloc, m, rows, 0, first)? {
            return Ok(Others { table: None });
        }
        Ok(Others {
            table: Some(Table::new(alloc, m, &rows[1..], first)?),
        })
    }

    /// Whether the list is an order of the columns that keeps these rows but the one at an index.
    ///
    /// # Errors
    ///
    /// `NoMemory`.
    pub fn are_kept(
        &self,
        alloc: Global,
        m: &Matrix,
        rows: &[u32],
        i: usize,
        order: &[u32],
    ) -> Result<bool, NoMemory>
        requires others { AreOthers m.now rows.now self.now }
        requires rows { IsRow (length m.now.rows) rows.now }
        requires within { i < length rows.now }
        ensures { IfOk result (λ yes. IsTrue yes ↔ IsValidForOthers m.now rows.now i order.now) }
    {
        match &self.table {
            Some(table) if i > 0 => {
                let is_order = is_order(alloc, m.columns(), order)?;
                Ok(is_order && table.keeps_others(m, rows, i, order))
            }
            _ => keeps_others(alloc, m, rows, i, order),
        }
    }
}

// Whether the rows are so many that a look at each two columns takes less than each order at each row. Where they are
// not, these looks are about as many as pairs of columns, at most.
fn are_many(columns: u32, rows: &[u32]) -> bool
    ensures { IsTrue result → columns ≤ MAX_COLUMNS }
{
    columns <= MAX_COLUMNS && rows.len().saturating_mul(rows.len()) > columns as usize
}
