// What the text of a core says.
ghost use Rattle.std.specs.Prelude.{◌≡◌, ◌≤◌, ◌-◌, Some, length, slice_get};

use crate::core_parts::Core;
use crate::orders::Orders;
use row_model::{Kind, Line, Lines};
use std::marker::Model;

/// A kind, a number of columns, and rows with an order for each and the lines of a cycle: the parts of a core, of which
/// nothing need be true.
pub struct CoreText {
    pub(crate) kind: Kind,
    pub(crate) columns: u32,
    pub(crate) rows: Vec<u32>,
    pub(crate) orders: Orders,
    pub(crate) lines: Lines,
}

// By hand, so that a place where it is dropped proves one call and does not take its parts apart.
impl Drop for CoreText {
    fn drop(self) {
        let CoreText {
            kind: _kind,
            columns: _columns,
            rows: _rows,
            orders: _orders,
            lines: _lines,
        } = self;
    }
}

impl Model for CoreText {
    ghost use Rattle.core_text.specs.Texts.{TextValue};

    ghost Value = { TextValue };

    ghost use Rattle.core_text.specs.KeptText.{text_within, HasOrders};

    ghost view = { text_within };

    ghost invariant = { HasOrders };
}

impl CoreText {
    /// The text of a core of a matrix of this kind with so many columns.
    pub fn new(kind: Kind, columns: u32, core: Core) -> Self
        ensures { result ≡ record { kind = kind; columns = columns; parts = core } }
    {
        let Core {
            rows,
            orders,
            lines,
        } = core;
        CoreText {
            kind,
            columns,
            rows,
            orders,
            lines,
        }
    }

    /// The kind of the matrix.
    pub fn kind(&self) -> Kind
        ensures { result ≡ self.now.kind }
    {
        self.kind
    }

    /// The number of its columns.
    pub fn columns(&self) -> u32
        ensures { result ≡ self.now.columns }
    {
        self.columns
    }

    /// The rows.
    pub fn rows(&self) -> &[u32]
        ensures rows { result.now ≡ self.now.parts.rows }
        ensures each { length self.now.parts.orders ≡ length self.now.parts.rows }
    {
        &self.rows
    }

    /// The order of the row of this number in the list, from 1.
    pub fn order(&self, i: u32) -> &[u32]
        requires { (1 ≤ i) × (i ≤ length self.now.parts.rows) }
        ensures { slice_get self.now.parts.orders (i - 1) ≡ Some result.now }
    {
        self.orders.get(i as usize - 1)
    }

    /// The lines of the cycle in their order.
    pub fn lines(&self) -> &[Line]
        ensures { result.now ≡ self.now.parts.lines }
    {
        self.lines.as_slice()
    }
}
