// Several rows, counted by the columns that lie together in them.
ghost use Rattle.std.specs.Prelude.{◌≡◌, ◌↔◌, ◌-◌, ◌^◌, ◌<◌, ◌≤◌, ℕ, length, drop, IsTrue, IfOk};
ghost use Rattle.column_order.specs.Orders.{IsOrder, Keeps};
ghost use Rattle.row_model.specs.Rows.{IsRow, RowList};
ghost use Rattle.others_kept.specs.Others.{numbered, IsValidForOthers};
ghost use Rattle.others_kept.specs.Counts.{rows_with, joins_of_all, AreCounts};

use crate::joins::{joins, most, most_of_all};
use crate::spans::spans;
use crate::square::{add_up, beginnings};
use row_model::{Matrix, NoMemory, positions};
use std::alloc::Global;

/// For each two columns the number of rows that have both, by the positions of the columns in an order that keeps these
/// rows, and the greatest number of pairs of neighbours that an order has in them.
#[derive(Drop)]
pub(crate) struct Table {
    positions: Vec<u32>,
    counts: Vec<u32>,
    wanted: u64,
}

impl Table {
    // The table of the numbered rows, all of which the order keeps.
    pub(crate) fn new(
        alloc: Global,
        m: &Matrix,
        rows: &[u32],
        order: &[u32],
    ) -> Result<Self, NoMemory>
        requires rows { IsRow (length m.now.rows) rows.now }
        requires order { IsOrder m.now.columns order.now }
        requires kept { (j : ℕ) → j < length rows.now → Keeps order.now (numbered m.now.rows rows.now j) }
        ensures { IfOk result (AreCounts m.now rows.now) }
    {
        let columns = m.columns();
        let spans = spans(alloc, m, rows, order)?;
        let mut counts = beginnings(alloc, columns as usize, &spans)?;
        add_up(&mut counts, columns as usize);
        let positions = positions(alloc, order)?;
        Ok(Table {
            positions,
            counts,
            wanted: most_of_all(m, rows),
        })
    }

    // Whether the order keeps the numbered rows but the one at an index, which is not the first. The table is that of the
    // rows behind the first.
    pub(crate) fn keeps_others(&self, m: &Matrix, rows: &[u32], i: usize, order: &[u32]) -> bool
        requires counts { AreCounts m.now (drop 1 rows.now) self.now }
        requires rows { IsRow (length m.now.rows) rows.now }
        requires within { (1 ≤ i) × (i < length rows.now) }
        requires order { IsOrder m.now.columns order.now }
        ensures { IsTrue result ↔ IsValidForOthers m.now rows.now i order.now }
    {
        let first = m.row(rows[0]);
        let own = m.row(rows[i]);
        let found = self.joins_of_all(m, rows, order) + most(own);
        joins(order, first) == most(first) && found == self.wanted + joins(order, own)
    }

    // How many pairs of neighbours of the order these rows have together.
    fn joins_of_all(&self, m: &Matrix, rows: &[u32], order: &[u32]) -> u64
        requires counts { AreCounts m.now (drop 1 rows.now) self.now }
        requires order { IsOrder m.now.columns order.now }
        ensures joins { result ≡ joins_of_all m.now.rows (drop 1 rows.now) order.now }
        ensures few { result < 2 ^ 62 }
    {
        let columns = m.columns();
        let mut count = 0;
        for i in 1..order.len() {
            count += self.rows_with(m, rows, order[i - 1], order[i]) as u64;
        }
        count
    }

    // How many of these rows have both columns.
    fn rows_with(&self, m: &Matrix, rows: &[u32], x: u32, y: u32) -> u32
        requires counts { AreCounts m.now (drop 1 rows.now) self.now }
        requires first { (1 ≤ x) × (x ≤ m.now.columns) }
        requires second { (1 ≤ y) × (y ≤ m.now.columns) }
        requires other { x ≡ y → ⊥ }
        ensures { result ≡ rows_with m.now.rows (drop 1 rows.now) x y }
    {
        let p = self.positions[x as usize - 1] as usize;
        let q = self.positions[y as usize - 1] as usize;
        self.counts[(p.min(q) - 1) * self.positions.len() + (p.max(q) - 1)]
    }
}
