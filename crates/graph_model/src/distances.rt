// Distances between items.
ghost use Rattle.std.specs.Prelude.{◌≡◌, ◌≤◌, ◌*◌, length, IfOk};
ghost use Rattle.graph_model.specs.Distances.{DistancesValue, distance, IsSymmetric, HasZeroDiagonal, IsDistances};
ghost use Rattle.graph_model.specs.Inside.{distances_of, DistancesAreKept};

use crate::ITEM_BOUND;
use row_model::NoMemory;
use std::alloc::Global;
use std::marker::Model;

/// The distances between 1 to [`ITEM_BOUND`] items: a symmetric table with a zero diagonal, kept row by row, eight
/// bytes a distance.
///
/// Contracts know `IsDistances` of every table, by [`items`](Distances::items).
#[derive(Drop)]
pub struct Distances {
    item_count: u32,
    values: Vec<u64>,
}

impl Model for Distances {
    ghost Value = { DistancesValue };

    ghost view = { distances_of };

    ghost invariant = { DistancesAreKept };
}

impl Distances {
    /// The table of `n` items with these values, row by row.
    ///
    /// # Errors
    ///
    /// [`NoMemory`] where memory is refused.
    pub fn new(alloc: Global, n: u32, values: &[u64]) -> Result<Self, NoMemory>
        requires n { (1 ≤ n) × (n ≤ ITEM_BOUND) }
        requires whole { length values.now ≡ n * n }
        requires symmetric { IsSymmetric n values.now }
        requires zero_diagonal { HasZeroDiagonal n values.now }
        ensures { IfOk result (λ d. d ≡ record { items = n; values = values.now }) }
    {
        Ok(Distances {
            item_count: n,
            values: Vec::from_slice(alloc, values)?,
        })
    }

    /// The table of `n` items with these values.
    pub fn of_values(n: u32, values: Vec<u64>) -> Self
        requires { IsDistances (record { items = n; values = values.items }) }
        ensures { result ≡ record { items = n; values = values.items } }
    {
        Distances {
            item_count: n,
            values,
        }
    }

    /// The number of items.
    pub fn items(&self) -> u32
        ensures items { result ≡ self.now.items }
        ensures distances { IsDistances self.now }
    {
        self.item_count
    }

    /// The distance of `x` and `y`.
    pub fn at(&self, x: u32, y: u32) -> u64
        requires x { (1 ≤ x) × (x ≤ self.now.items) }
        requires y { (1 ≤ y) × (y ≤ self.now.items) }
        ensures { result ≡ distance self.now.items self.now.values x y }
    {
        self.values[(x as usize - 1) * self.item_count as usize + (y as usize - 1)]
    }
}
