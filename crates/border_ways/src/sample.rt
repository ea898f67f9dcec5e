// A few columns that a row has, and a few that it lacks.
ghost use Rattle.std.specs.Prelude.{◌≡◌, ◌+◌, ◌≤◌, length, IfOk, OnOk};

use row_model::{CountedRows, NoMemory};
use std::alloc::Global;
use step_count::{Ledger, Steps};

/// The most columns of one list that a sample takes.
const MOST: usize = 16;

/// Columns that a row has and columns that it lacks, and where in the order the one kind follows the other.
pub struct Sample {
    /// Columns that the row has.
    pub members: Vec<u32>,
    /// Columns that the row lacks.
    pub pivots: Vec<u32>,
    /// The positions, from 0, of all columns that stand behind one of the other kind.
    pub borders: Vec<usize>,
}

// By hand, so that a place where it is dropped proves one call and does not take its lists apart.
impl Drop for Sample {
    fn drop(self) {
        let Sample {
            members: _members,
            pivots: _pivots,
            borders: _borders,
        } = self;
    }
}

// Columns of one kind, in their order: all, and those that stand beside one of the other kind.
#[derive(Drop)]
struct SampleColumns {
    all: Vec<u32>,
    ends: Vec<u32>,
}

// The columns of an order by their kinds, and where the one kind follows the other.
struct Kinds {
    members: SampleColumns,
    pivots: SampleColumns,
    borders: Vec<usize>,
}

// By hand, as that of a sample.
impl Drop for Kinds {
    fn drop(self) {
        let Kinds {
            members: _members,
            pivots: _pivots,
            borders: _borders,
        } = self;
    }
}

impl Kinds {
    // Adds a column that the row has or lacks, and a border where the column before it is of the other kind.
    fn add(
        &mut self,
        place: usize,
        column: u32,
        has: bool,
        before: Option<(u32, bool)>,
    ) -> Result<(), NoMemory> {
        self.add_column(column, has)?;
        match before {
            Some((last, had)) if had != has => {
                let (member, pivot) = if has { (column, last) } else { (last, column) };
                self.add_border(place, member, pivot)
            }
            _ => Ok(()),
        }
    }

    // Adds a column that the row has or lacks.
    fn add_column(&mut self, column: u32, has: bool) -> Result<(), NoMemory> {
        let kind = if has {
            &mut self.members
        } else {
            &mut self.pivots
        };
        kind.all.push(column)?;
        Ok(())
    }

    // Adds a place where a column that the row has and one that it lacks stand side by side.
    fn add_border(&mut self, place: usize, member: u32, pivot: u32) -> Result<(), NoMemory> {
        self.members.ends.push(member)?;
        self.pivots.ends.push(pivot)?;
        self.borders.push(place)?;
        Ok(())
    }

    // A few columns of each kind.
    fn into_sample(self, alloc: Global) -> Result<Sample, NoMemory>
        ensures few { IfOk result (λ sample. (length sample.members.items ≤ 32) × (length sample.pivots.items ≤ 32)) }
    {
        let few_members = thinned(alloc, &self.members)?;
        let few_pivots = thinned(alloc, &self.pivots)?;
        let Kinds {
            members: _members,
            pivots: _pivots,
            borders,
        } = self;
        Ok(Sample {
            members: few_members,
            pivots: few_pivots,
            borders,
        })
    }
}

/// The sample of row `k` in an order: up to 16 columns of each kind that stand beside one of the other kind, and 16
/// others, evenly spread. A step is counted for each column of the order.
///
/// # Errors
///
/// `NoMemory`.
pub fn sample_of<L: Ledger>(
    alloc: Global,
    m: &CountedRows,
    k: u32,
    order: &[u32],
    steps: &mut Steps<L>,
) -> Result<Sample, NoMemory>
    requires { (1 ≤ k) × (k ≤ length m.now.rows) }
    ensures ticks { steps.new ≤ steps.old + length order.now }
    ensures turns { OnOk result (steps.old + length order.now ≤ steps.new) }
    ensures few { IfOk result (λ sample. (length sample.members.items ≤ 32) × (length sample.pivots.items ≤ 32)) }
{
    let mut kinds = Kinds {
        members: no_columns(alloc),
        pivots: no_columns(alloc),
        borders: Vec::new(alloc),
    };
    let mut before: Option<(u32, bool)> = None;
    for (i, column) in order.iter().enumerate() {
        let has = m.has_counted(k, *column, steps);
        kinds.add(i, *column, has, before)?;
        before = Some((*column, has));
    }
    kinds.into_sample(alloc)
}

// No columns of a kind.
fn no_columns(alloc: Global) -> SampleColumns {
    SampleColumns {
        all: Vec::new(alloc),
        ends: Vec::new(alloc),
    }
}

// A few columns of a kind.
fn thinned(alloc: Global, kind: &SampleColumns) -> Result<Vec<u32>, NoMemory>
    ensures few { IfOk result (λ few. length few.items ≤ 32) }
{
    let mut few = Vec::new(alloc);
    add_spread(&kind.ends, &mut few)?;
    add_spread(&kind.all, &mut few)?;
    Ok(few)
}

// Adds up to 16 of the columns, evenly spread.
fn add_spread(columns: &[u32], few: &mut Vec<u32>) -> Result<(), NoMemory>
    ensures { length few.new.items ≤ length few.old.items + 16 }
{
    for column in columns.iter().step_by(columns.len() / MOST + 1).take(MOST) {
        few.push(*column)?;
    }
    Ok(())
}
