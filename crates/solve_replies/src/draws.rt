// Matrices that are drawn from a number.
ghost use Rattle.std.specs.Prelude.{◌≡◌, ◌+◌, ◌-◌, ◌*◌, ◌<◌, ◌≤◌, [], ◌∷◌, ◌++◌, length, take, IfOk, OnOk, OnErr};
ghost use Rattle.column_order.specs.Orders.{IsOrder};
ghost use Rattle.solve_replies.specs.Generated.{next_state, drawn, shuffled, hidden, run_at, generated, GeneratedLaw};
ghost use Rattle.solve_replies.specs.Drawing.{CanDraw, drawn_row};

use crate::NoMemory;
use row_model::{MAX_COLUMNS, MAX_ROWS, Matrix, ROW_BOUND, positions};
use std::alloc::Global;

// The linear congruential generator of Knuth's MMIX, of whose 64 bits the upper 31 are drawn.
#[derive(Drop)]
struct Draws {
    state: u64,
}

impl Draws {
    // A number below m.
    fn below(&mut self, m: u32) -> u32
        requires { 0 < m }
        ensures state { self.new.state ≡ next_state self.old.state }
        ensures drawn { result ≡ drawn m self.new.state }
    {
        self.state = self
            .state
            .wrapping_mul(6_364_136_223_846_793_005)
            .wrapping_add(1_442_695_040_888_963_407);
        ((self.state >> 33) % u64::from(m)) as u32
    }
}

// The rows that a number draws, one after another.
pub struct DrawnRows {
    // What draws the ends of the next run.
    draws: Draws,
    // The hidden order, of which each row is a run.
    order: Vec<u32>,
    // The position of each column in it.
    positions: Vec<u32>,
    // Room for a row.
    row: Vec<u32>,
}

// By hand, so that a place where they are dropped proves one call and does not take their parts apart.
impl Drop for DrawnRows {
    fn drop(self) {
        let DrawnRows {
            draws: _draws,
            order: _order,
            positions: _positions,
            row: _row,
        } = self;
    }
}

impl DrawnRows {
    // The rows of this number over so many columns, of which none is drawn yet.
    pub fn new(alloc: Global, seed: u64, columns: u32) -> Result<DrawnRows, NoMemory>
        requires { (1 ≤ columns) × (columns ≤ MAX_COLUMNS) }
        ensures ready { IfOk result (λ r. CanDraw columns r.order.items r.positions.items r.row.items) }
        ensures hidden { IfOk result (λ r. record { order = r.order.items; state = r.draws.state } ≡ hidden seed columns) }
    {
        let mut draws = Draws { state: seed };
        let order = shuffled_order(alloc, columns, &mut draws)?;
        let positions = positions(alloc, &order)?;
        let row = vec![in alloc; 0; columns as usize]?;
        Ok(DrawnRows {
            draws,
            order,
            positions,
            row,
        })
    }

    // Draws the next row, behind the rows of the matrix.
    pub fn push_next(&mut self, m: &mut Matrix) -> Result<(), NoMemory>
        requires few { m.old.columns ≤ MAX_COLUMNS }
        requires room { length m.old.rows < ROW_BOUND }
        requires ready { CanDraw m.old.columns self.old.order.items self.old.positions.items self.old.row.items }
        ensures ready { CanDraw m.old.columns self.new.order.items self.new.positions.items self.new.row.items }
        ensures order { self.new.order.items ≡ self.old.order.items }
        ensures state { self.new.draws.state ≡ next_state (next_state self.old.draws.state) }
        ensures ok { OnOk result (m.new ≡ record {
          columns = m.old.columns;
          rows = m.old.rows ++ drawn_row self.old.order.items self.old.draws.state ∷ [];
        }) }
        ensures err { OnErr result (m.new ≡ m.old) }
    {
        let columns = m.columns();
        let p = self.draws.below(columns);
        let q = self.draws.below(columns);
        let count = list_run(&mut self.row, &self.positions, p.min(q) + 1, p.max(q) + 1);
        m.push_row(&self.row[..count])
    }
}

/// The matrix that a number draws: each row is a run of a hidden order of the columns, so that there is a valid order.
///
/// The order and the runs are drawn by the linear congruential generator of Knuth's MMIX (Knuth, 1997), and the same
/// number gives the same matrix. It takes time in the number of columns for each row.
///
/// # Errors
///
/// Memory is refused.
pub fn generate(alloc: Global, seed: u64, columns: u32, rows: u32) -> Result<Matrix, NoMemory>
    requires columns { (1 ≤ columns) × (columns ≤ MAX_COLUMNS) }
    requires rows { rows ≤ MAX_ROWS }
    ensures { IfOk result (λ m. m ≡ generated seed columns rows) }
{
    let mut drawn = DrawnRows::new(alloc, seed, columns)?;
    let mut matrix = Matrix::new(alloc, columns)?;
    for _k in 0..rows {
        drawn.push_next(&mut matrix)?;
    }
    Ok(matrix)
}

// An order of the columns, shuffled by Fisher and Yates.
fn shuffled_order(alloc: Global, columns: u32, draws: &mut Draws) -> Result<Vec<u32>, NoMemory>
    requires { (1 ≤ columns) × (columns ≤ MAX_COLUMNS) }
    ensures order { IfOk result (λ order. order.items ≡ (hidden draws.old.state columns).order) }
    ensures state { OnOk result (draws.new.state ≡ (hidden draws.old.state columns).state) }
    ensures whole { IfOk result (λ order. IsOrder columns order.items) }
{
    let mut order = Vec::with_capacity(alloc, columns as usize)?;
    for before in 0..columns {
        order.push(before + 1)?;
    }
    for i in (1..order.len()).rev() {
        let j = draws.below(i as u32 + 1) as usize;
        order.swap(i, j);
    }
    Ok(order)
}

// How many columns have a position from `first` to `last`. They stand at the front of `row` then, in
// ascending order. The positions count from 1. A column is written before it is known whether it is one of
// them, which costs less than a branch.
fn list_run(row: &mut [u32], positions: &[u32], first: u32, last: u32) -> usize
    requires few { length positions.now ≤ MAX_COLUMNS }
    requires room { length row.old ≡ length positions.now }
    ensures within { result ≤ length row.new }
    ensures run { take result row.new ≡ run_at positions.now first last (length positions.now) }
{
    let mut count = 0;
    for (before, position) in positions.iter().enumerate() {
        row[count] = before as u32 + 1;
        if first <= *position && *position <= last {
            count += 1;
        }
    }
    count
}

/// A generated matrix has a valid order: that of which each row is a run.
pub fn generated_law()
    ensures { GeneratedLaw }
{}
