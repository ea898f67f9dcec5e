// The rows that are asked.
ghost use Rattle.std.specs.Prelude.{◌≡◌, ◌+◌, ◌<◌, ◌≤◌, length, IfOk, OnOk};
ghost use Rattle.row_model.specs.Rows.{IsRow};

use row_model::{Matrix, NoMemory};
use std::alloc::Global;

/// The number of columns.
pub const COLUMNS: u32 = 2_048;

// The number of rows, and the fewest and the most columns of a row.
const ROWS: u32 = 100_000;

const FEWEST: u32 = 2;

const MOST: u32 = 60;

// The generator of Park and Miller, with the multiplier 48271 (Park, Miller and Stockmeyer, 1993).
#[derive(Drop)]
struct Draws {
    state: u32,
}

impl Draws {
    // A number below `m`.
    fn below(&mut self, m: u32) -> u32
        requires { 0 < m }
        ensures { result < m }
    {
        self.state = (u64::from(self.state) * 48_271 % 2_147_483_647) as u32;
        self.state % m
    }
}

/// The rows, each of neighbouring columns: it draws their number, and then the first of them.
pub fn drawn_rows(alloc: Global) -> Result<Matrix, NoMemory>
    ensures columns { IfOk result (λ m. m.columns ≡ COLUMNS) }
    ensures rows { IfOk result (λ m. length m.rows ≡ ROWS) }
{
    let mut draws = Draws { state: 1 };
    let mut m = Matrix::new(alloc, COLUMNS)?;
    let mut row = Vec::with_capacity(alloc, MOST as usize)?;
    for _ in 0..ROWS {
        let len = FEWEST + draws.below(MOST - FEWEST + 1);
        let first = 1 + draws.below(COLUMNS - len + 1);
        list_run(&mut row, first, len)?;
        m.push_row(&row)?;
    }
    Ok(m)
}

// Makes the row that of so many columns from `first` on.
fn list_run(row: &mut Vec<u32>, first: u32, len: u32) -> Result<(), NoMemory>
    requires from { 1 ≤ first }
    requires to { first + len ≤ COLUMNS + 1 }
    ensures { OnOk result (IsRow COLUMNS row.new.items) }
{
    row.clear();
    for i in 0..len {
        row.push(first + i)?;
    }
    Ok(())
}
