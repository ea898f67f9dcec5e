// A core with what shows that it is one.
ghost use Rattle.std.specs.Prelude.{◌≡◌, ◌≤◌, ◌-◌, Some, length, slice_get};
ghost use Rattle.std.specs.List.Sorted.{IsStrictlyIncreasing};

use crate::orders::Orders;
use row_model::{Line, Lines};
use std::marker::Model;

/// Rows of a matrix in strictly ascending order, an order of the columns for each, and the lines of an odd cycle.
///
/// Where they are a core, the order of a row is valid for the other rows of the core, and the reasons of the lines are
/// flips or rows of the core.
#[derive(Drop)]
pub struct Core {
    pub(crate) rows: Vec<u32>,
    pub(crate) orders: Orders,
    pub(crate) lines: Lines,
}

impl Model for Core {
    ghost use Rattle.core_text.specs.Parts.{CoreParts};

    ghost Value = { CoreParts };

    ghost use Rattle.core_text.specs.Kept.{core_within, IsCoreKept};

    ghost view = { core_within };

    ghost invariant = { IsCoreKept };
}

impl Core {
    /// A core of these parts.
    pub fn of(rows: Vec<u32>, orders: Orders, lines: Lines) -> Self
        requires ascending { IsStrictlyIncreasing rows.items }
        requires each { length orders ≡ length rows.items }
        ensures { result ≡ record { rows = rows.items; orders = orders; lines = lines } }
    {
        Core {
            rows,
            orders,
            lines,
        }
    }

    /// The rows, from 1, in strictly ascending order.
    pub fn rows(&self) -> &[u32]
        ensures rows { result.now ≡ self.now.rows }
        ensures ascending { IsStrictlyIncreasing result.now }
    {
        &self.rows
    }

    /// The order of the row of this number in the core, from 1.
    pub fn order(&self, i: u32) -> &[u32]
        requires { (1 ≤ i) × (i ≤ length self.now.rows) }
        ensures { slice_get self.now.orders (i - 1) ≡ Some result.now }
    {
        self.orders.get(i as usize - 1)
    }

    /// The lines of the cycle in their order.
    pub fn lines(&self) -> &[Line]
        ensures { result.now ≡ self.now.lines }
    {
        self.lines.as_slice()
    }
}
