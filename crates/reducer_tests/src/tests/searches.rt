// Two searches for odd walks: the one over all rows finds a walk exactly where the one along the order of the rows before
// a refused row finds one.
ghost use Rattle.std.specs.Prelude.{◌<◌, ◌≤◌};

use super::answers::{assert_cycle, assert_walk};
use super::counted::{Check, run_counted};
use super::marks::matrix_by;
use c1p_solve::{Solved, answer};
use incompat_graph::odd_walk;
use row_model::{Matrix, NoMemory};
use std::alloc::Global;
use std::process::Abort;
use std::test::Fail;
use step_count::{Ledger, Steps};

// Both searches agree on the matrix.
fn assert_alike<L: Ledger>(
    rt: &impl Abort,
    alloc: Global,
    m: &Matrix,
    steps: &mut Steps<L>,
) -> Result<(), NoMemory> {
    let walk = odd_walk(alloc, m, m.rows(), steps)?;
    let answered = answer(alloc, m, steps)?;
    match (&walk, &answered.solved) {
        (None, Solved::Yes(_)) => {}
        (Some(walk), Solved::No(cycle)) => {
            assert_walk(rt, m, walk.lines());
            assert_cycle(rt, m, cycle);
        }
        _ => assert!(rt; false),
    }
    Ok(())
}

// Both searches agree on every matrix of so many columns and rows.
fn assert_all_alike<L: Ledger>(
    rt: &impl Abort,
    alloc: Global,
    columns: u32,
    rows: u32,
    steps: &mut Steps<L>,
) -> Result<(), NoMemory>
    requires columns { (1 ≤ columns) × (columns ≤ 4) }
    requires rows { rows ≤ 4 }
{
    for bits in 0..1u64 << (columns * rows) {
        let m = matrix_by(alloc, columns, rows, bits)?;
        assert_alike(rt, alloc, &m, steps)?;
    }
    Ok(())
}

// Both searches agree on matrices of five to eight columns and six rows, which are drawn.
struct Drawn;

impl Check for Drawn {
    fn run<L: Ledger, R: Abort>(rt: &R, alloc: Global, steps: &mut Steps<L>) -> Result<(), Fail> {
        let mut state: u64 = 1;
        for k in 0..2000u32 {
            let first = state
                .wrapping_mul(6364136223846793005)
                .wrapping_add(1442695040888963407);
            state = first
                .wrapping_mul(6364136223846793005)
                .wrapping_add(1442695040888963407);
            let bits = first >> 15 & state >> 11 | first >> 23;
            let m = matrix_by(alloc, 5 + k % 4, 6, bits)?;
            assert_alike(rt, alloc, &m, steps)?;
        }
        Ok(())
    }
}

// Both searches agree on every matrix of at most four columns and four rows.
struct Small;

impl Check for Small {
    fn run<L: Ledger, R: Abort>(rt: &R, alloc: Global, steps: &mut Steps<L>) -> Result<(), Fail> {
        for columns in 1..5 {
            for rows in 0..5 {
                assert_all_alike(rt, alloc, columns, rows, steps)?;
            }
        }
        Ok(())
    }
}

#[test]
fn both_searches_agree_on_every_matrix_of_at_most_four_by_four(
    rt: HostRuntime,
) -> Result<(), Fail> {
    run_counted::<Small, HostRuntime>(&rt, rt.alloc())
}

#[test]
fn both_searches_agree_on_random_matrices(rt: HostRuntime) -> Result<(), Fail> {
    run_counted::<Drawn, HostRuntime>(&rt, rt.alloc())
}
