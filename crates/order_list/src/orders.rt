// Orders of the same columns, one after another in one list.
ghost use Rattle.std.specs.Prelude.{◌≡◌, ◌≤◌, ◌+◌, ◌-◌, ◌*◌, ℕ, [], ◌∷◌, ◌++◌, Some, false, nat_lt, if◌then◌else◌, length, take, drop, slice_get, OnOk};
ghost use Rattle.order_list.specs.Listed.{added};

use crate::NoMemory;
use std::alloc::Global;
use std::marker::Model;

/// Some orders of the same columns, and whether there are others.
///
/// The orders lie one after another in one list, so each takes four bytes for each of its columns.
#[derive(Drop)]
pub struct Orders {
    columns: u32,
    count: u32,
    numbers: Vec<u32>,
    more: bool,
}

impl Model for Orders {
    ghost use Rattle.order_list.specs.Listed.{OrderList};

    ghost Value = { OrderList };

    ghost use Rattle.order_list.specs.Held.{orders_within, IsOrdersKept};

    ghost view = { orders_within };

    ghost invariant = { IsOrdersKept };
}

impl Orders {
    // No order of so many columns, and no others.
    pub(crate) fn new(alloc: Global, columns: u32) -> Self
        ensures { result ≡ record { columns = columns; orders = []; more = false } }
    {
        Orders {
            columns,
            count: 0,
            numbers: Vec::new(alloc),
            more: false,
        }
    }

    // Adds a last order, or, where there are `limit` orders, tells that there are others.
    pub(crate) fn add(&mut self, order: &[u32], limit: u32) -> Result<(), NoMemory>
        requires { length order.now ≡ self.old.columns }
        ensures { OnOk result (self.new ≡ added limit order.now self.old) }
    {
        if self.count < limit {
            self.numbers.extend_from_slice(order)?;
            self.count += 1;
        } else {
            self.more = true;
        }
        Ok(())
    }

    /// The number of orders.
    pub fn len(&self) -> u32
        ensures { result ≡ length self.now.orders }
    {
        self.count
    }

    /// Order `i`, from 1.
    pub fn order(&self, i: u32) -> &[u32]
        requires { (1 ≤ i) × (i ≤ length self.now.orders) }
        ensures { slice_get self.now.orders (i - 1) ≡ Some result.now }
    {
        piece(&self.numbers, self.columns as usize, i as usize - 1)
    }

    /// Whether there are others.
    pub fn more(&self) -> bool
        ensures { result ≡ self.now.more }
    {
        self.more
    }
}

// The piece of a number, from 0, among pieces of `columns` numbers each.
#[tactic(auto, using(crate::proofs::Pieces::start_within))]
fn piece(numbers: &[u32], columns: usize, i: usize) -> &[u32]
    requires { i * columns + columns ≤ length numbers.now }
    ensures { result.now ≡ take columns (drop (i * columns) numbers.now) }
{
    let start = i * columns;
    &numbers[start..start + columns]
}
