// A number for each ordered pair of columns, in one table.
ghost use Rattle.std.specs.Prelude.{◌≡◌, ◌*◌, ◌≤◌, length, IfOk};
ghost use Rattle.row_model.specs.declared.graph.Pair.{Pair};
ghost use Rattle.row_model.specs.Graph.{IsPair};
ghost use Rattle.odd_cycle.specs.Numbers.{Renumbers, number_of, place_of};

use row_model::{COLUMN_BOUND, NoMemory, Pair};
use std::alloc::Global;
use std::marker::Model;

/// A table with a number for each ordered pair of columns.
#[derive(Drop)]
pub struct PairNumbers {
    columns: u32,
    numbers: Vec<u32>,
}

impl Model for PairNumbers {
    ghost use Rattle.odd_cycle.specs.Numbers.{Numbering};

    ghost Value = { Numbering };

    ghost use Rattle.odd_cycle.specs.Tables.{numbering_within, HasEachPair};

    ghost view = { numbering_within };

    ghost invariant = { HasEachPair };
}

impl PairNumbers {
    /// The table with 0 for each pair.
    #[tactic(auto, unfolding(crate::specs::Numbers::number_of))]
    pub fn new(alloc: Global, columns: u32) -> Result<Self, NoMemory>
        requires { columns ≤ COLUMN_BOUND }
        ensures { IfOk result (λ t. (t.columns ≡ columns) × ((v : Pair) → number_of t v ≡ 0)) }
    {
        let size = columns as usize * columns as usize;
        Ok(PairNumbers {
            columns,
            numbers: vec![in alloc; 0; size]?,
        })
    }

    /// The table of these numbers, row by row: first those of the pairs that begin with column 1.
    pub fn from_entries(columns: u32, entries: Vec<u32>) -> Self
        requires few { columns ≤ COLUMN_BOUND }
        requires places { length entries.items ≡ columns * columns }
        ensures { result ≡ record { columns = columns; entries = entries.items } }
    {
        PairNumbers {
            columns,
            numbers: entries,
        }
    }

    /// The number of columns.
    pub fn columns(&self) -> u32
        ensures { result ≡ self.now.columns }
    {
        self.columns
    }

    /// The number of a pair.
    #[tactic(auto, unfolding(crate::specs::Numbers::number_of))]
    pub fn get(&self, v: Pair) -> u32
        requires { IsPair self.now.columns v }
        ensures { result ≡ number_of self.now v }
    {
        self.numbers[cell(self.columns, v)]
    }

    /// Gives a pair another number.
    #[tactic(auto, unfolding(crate::specs::Numbers::number_of))]
    pub fn set(&mut self, v: Pair, number: u32)
        requires { IsPair self.old.columns v }
        ensures { Renumbers self.old self.new v number }
    {
        let place = cell(self.columns, v);
        self.numbers[place] = number;
    }
}

// The place of a pair in a table of so many columns.
fn cell(columns: u32, v: Pair) -> usize
    requires { IsPair columns v }
    ensures { result ≡ place_of columns v }
{
    (v.a as usize - 1) * columns as usize + (v.b as usize - 1)
}
