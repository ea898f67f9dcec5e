// The classes of pairs that walks of even length join.
ghost use Rattle.std.specs.Prelude.{◌≡◌, ◌+◌, ◌*◌, ◌<◌, ◌≤◌, ℕ, List, Some, length, take, sum_by, slice_get, IsFalse, IfOk, OnOk};
ghost use Rattle.column_order.specs.Orders.{has};
ghost use Rattle.row_model.specs.Graph.{pair, row_at, IsPair};
ghost use Rattle.odd_cycle.specs.Numbers.{place_of};
ghost use Rattle.pair_classes.specs.Unions.{AreParents, AgreesInSets, AreEvenSets};
ghost use Rattle.pair_classes.specs.Classes.{TellsClasses, AgreesWith, AgreesAlong, pair_of_place};

use crate::unions::{each_alone, flatten, unite};
use odd_cycle::PairNumbers;
use row_model::{COLUMN_BOUND, CountedRows, Matrix, NoMemory, Pair};
use std::alloc::Global;
use std::marker::Model;
use step_count::{Ledger, Steps};

/// The classes of the ordered pairs of distinct columns. Those that [`even_classes`] answers tell which pairs a walk of
/// even length joins in the incompatibility graph of its rows.
#[derive(Drop)]
pub struct Classes {
    numbers: PairNumbers,
}

impl Model for Classes {
    ghost use Rattle.odd_cycle.specs.Numbers.{Numbering};

    ghost Value = { Numbering };

    ghost view = { λ classes. classes.numbers };
}

impl Classes {
    ghost use Rattle.std.specs.Prelude.{◌≡◌, ◌↔◌, ℕ, List, IsTrue};
    ghost use Rattle.row_model.specs.Graph.{IsPair, Evenly};
    ghost use Rattle.pair_classes.specs.Classes.{TellsClasses};

    /// The number of columns.
    pub fn columns(&self) -> u32
        ensures { result ≡ self.now.columns }
    {
        self.numbers.columns()
    }

    /// Whether two pairs are in one class. It takes no memory.
    pub fn same(&self, v: Pair, w: Pair) -> bool
        requires { IsPair self.now.columns v × IsPair self.now.columns w }
        ensures { (c : ℕ) (rows : List (List ℕ)) → TellsClasses c rows self.now → IsTrue result ↔ Evenly c rows v w }
    {
        self.numbers.get(v) == self.numbers.get(w)
    }
}

/// The classes of the pairs in the incompatibility graph of the first rows (McConnell, 2004): two pairs are in one
/// class exactly where a walk of even length leads from the one to the other.
///
/// For each row and each column d that it lacks, all pairs (a,d) of the columns a of the row are in one class,
/// and so are all pairs (d,a). The classes are the least that have these pairs together, so it does to read each
/// row once for each column that it lacks.
///
/// With c columns and f ones in the first rows it counts at most 3cf steps, so at most 8c(f + 1), where memory is refused
/// too: a step for each look at a row and for each column that is read of it. That a row ends is seen without one. It
/// takes 4 bytes for each ordered pair of columns.
///
/// # Errors
///
/// `NoMemory`.
pub fn even_classes<L: Ledger>(
    alloc: Global,
    m: &Matrix,
    rows: u32,
    steps: &mut Steps<L>,
) -> Result<Classes, NoMemory>
    requires { rows ≤ length m.now.rows }
    ensures classes { IfOk result (TellsClasses m.now.columns (take rows m.now.rows)) }
    ensures ticks { steps.new ≤ steps.old + 8 * m.now.columns * (sum_by length (take rows m.now.rows) + 1) }
    ensures few { steps.new ≤ steps.old + 3 * m.now.columns * sum_by length (take rows m.now.rows) }
    ensures turns { OnOk result (steps.old + sum_by length (take rows m.now.rows) ≤ steps.new) }
{
    classes_of(alloc, &CountedRows::new(m), rows, steps)
}

// The classes of the pairs in the graph of the first rows. The parents of all places are made and made roots without a
// step: that goes once over the table that is answered, whatever the rows are.
fn classes_of<L: Ledger>(
    alloc: Global,
    m: &CountedRows,
    rows: u32,
    steps: &mut Steps<L>,
) -> Result<Classes, NoMemory>
    requires { rows ≤ length m.now.rows }
    ensures classes { IfOk result (TellsClasses m.now.columns (take rows m.now.rows)) }
    ensures ticks { steps.new ≤ steps.old + 8 * m.now.columns * (sum_by length (take rows m.now.rows) + 1) }
    ensures few { steps.new ≤ steps.old + 3 * m.now.columns * sum_by length (take rows m.now.rows) }
    ensures turns { OnOk result (steps.old + sum_by length (take rows m.now.rows) ≤ steps.new) }
{
    let columns = m.columns();
    let mut parents = each_alone(alloc, columns * columns)?;
    for k in 0..rows {
        unite_along(m, k + 1, &mut parents, steps);
    }
    flatten(&mut parents);
    Ok(Classes {
        numbers: PairNumbers::from_entries(columns, parents),
    })
}

// Unites the pairs of the columns of a row with each column that it lacks.
fn unite_along<L: Ledger>(m: &CountedRows, k: u32, parents: &mut [u32], steps: &mut Steps<L>)
    requires row { (1 ≤ k) × (k ≤ length m.now.rows) }
    requires parents { AreParents parents.old }
    requires places { length parents.old ≡ m.now.columns * m.now.columns }
    ensures parents { AreParents parents.new }
    ensures labels { (label : ℕ → ℕ) → AgreesInSets label parents.new
        → AgreesInSets label parents.old × AgreesAlong m.now.columns label (row_at m.now.rows k) }
    ensures even { (rows : List (List ℕ)) → k ≤ length rows → row_at rows k ≡ row_at m.now.rows k
        → AreEvenSets m.now.columns rows (pair_of_place m.now.columns) parents.old → AreEvenSets m.now.columns rows (pair_of_place m.now.columns) parents.new }
    ensures ticks { steps.new ≤ steps.old + 3 * (m.now.columns * length (row_at m.now.rows k)) }
    ensures turns { 1 ≤ length (row_at m.now.rows k) → steps.old + 1 + m.now.columns ≤ steps.new }
    ensures reads { steps.old + length (row_at m.now.rows k) ≤ steps.new }
{
    let Some(first) = m.next_counted(k, 0, steps) else {
        return;
    };
    for d in 0..m.columns() {
        if !m.has_counted(k, d + 1, steps) {
            unite_with(m, k, first, d + 1, parents, steps);
        }
    }
}

// Unites all pairs (a,d) of the columns a of a row, and all pairs (d,a), with those of its first column.
fn unite_with<L: Ledger>(
    m: &CountedRows,
    k: u32,
    first: u32,
    d: u32,
    parents: &mut [u32],
    steps: &mut Steps<L>,
)
    requires row { (1 ≤ k) × (k ≤ length m.now.rows) }
    requires first { slice_get (row_at m.now.rows k) 0 ≡ Some first }
    requires range { (1 ≤ first) × (first ≤ m.now.columns) }
    requires column { (1 ≤ d) × (d ≤ m.now.columns) × IsFalse (has (row_at m.now.rows k) d) }
    requires parents { AreParents parents.old }
    requires places { length parents.old ≡ m.now.columns * m.now.columns }
    ensures parents { AreParents parents.new }
    ensures labels { (label : ℕ → ℕ) → AgreesInSets label parents.new
        → AgreesInSets label parents.old × AgreesWith m.now.columns label (row_at m.now.rows k) d }
    ensures even { (rows : List (List ℕ)) → k ≤ length rows → row_at rows k ≡ row_at m.now.rows k
        → AreEvenSets m.now.columns rows (pair_of_place m.now.columns) parents.old → AreEvenSets m.now.columns rows (pair_of_place m.now.columns) parents.new }
    ensures ticks { steps.new ≡ steps.old + length (row_at m.now.rows k) }
{
    let columns = m.columns();
    let mut i = 0;
    while let Some(a) = m.next_counted(k, i, steps) {
        unite(parents, place(columns, first, d), place(columns, a, d));
        unite(parents, place(columns, d, first), place(columns, d, a));
        i += 1;
    }
}

// The place of a pair in a table of so many columns.
fn place(columns: u32, a: u32, b: u32) -> u32
    requires few { columns ≤ COLUMN_BOUND }
    requires pair { IsPair columns (pair a b) }
    ensures place { result ≡ place_of columns (pair a b) }
    ensures within { result < columns * columns }
{
    (a - 1) * columns + (b - 1)
}
