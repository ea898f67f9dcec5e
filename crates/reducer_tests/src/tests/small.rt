// Every matrix of at most four columns and at most four rows.
ghost use Rattle.std.specs.Prelude.{◌<◌, ◌≤◌};

use super::both::begin;
use super::counted::{Check, run_counted};
use super::marks::mark_bits;
use std::alloc::Global;
use std::process::Abort;
use std::test::Fail;
use step_count::{Ledger, Steps};

// Gives the reducers rows in turn, each by the number that marks it.
fn agree_on<L: Ledger>(
    rt: &impl Abort,
    alloc: Global,
    columns: u32,
    numbers: &[u64],
    steps: &mut Steps<L>,
) -> Result<(), Fail>
    requires { (1 ≤ columns) × (columns ≤ 4) }
{
    let mut both = begin(alloc, columns)?;
    let mut marks = vec![in alloc; false; columns as usize]?;
    for number in numbers {
        mark_bits(*number, &mut marks);
        both.take(rt, alloc, &marks, steps)?;
    }
    Ok(())
}

// Each list of four rows over so many columns. The lists of fewer rows are the fronts of these.
fn agree_on_lists<L: Ledger>(
    rt: &impl Abort,
    alloc: Global,
    columns: u32,
    steps: &mut Steps<L>,
) -> Result<(), Fail>
    requires { (1 ≤ columns) × (columns ≤ 4) }
{
    let rows = 1u64 << columns;
    for a in 0..rows {
        for b in 0..rows {
            for c in 0..rows {
                for d in 0..rows {
                    agree_on(rt, alloc, columns, &[a, b, c, d], steps)?;
                }
            }
        }
    }
    Ok(())
}

// Each list of four rows over each number of columns up to 4.
struct Small;

impl Check for Small {
    fn run<L: Ledger, R: Abort>(rt: &R, alloc: Global, steps: &mut Steps<L>) -> Result<(), Fail> {
        for columns in 1..5 {
            agree_on_lists(rt, alloc, columns, steps)?;
        }
        Ok(())
    }
}

#[test]
fn every_matrix_of_at_most_four_columns_and_four_rows(rt: HostRuntime) -> Result<(), Fail> {
    run_counted::<Small, HostRuntime>(&rt, rt.alloc())
}
