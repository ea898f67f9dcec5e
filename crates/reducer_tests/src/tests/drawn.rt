// Matrices of up to twelve columns that are drawn from a number.
ghost use Rattle.std.specs.Prelude.{◌≡◌, ◌<◌, ◌≤◌, length, IfOk};

use super::both::begin;
use super::counted::{Check, run_counted};
use row_model::NoMemory;
use std::alloc::Global;
use std::process::Abort;
use std::test::Fail;
use step_count::{Ledger, Steps};
use tree_theory::Step;

const MATRICES: u32 = 2000;

// The linear congruential generator of Knuth's MMIX, of whose 64 bits the upper 31 are drawn.
#[derive(Drop)]
struct Draws {
    state: u64,
}

impl Draws {
    // A number below m.
    fn below(&mut self, m: u32) -> u32
        requires { 0 < m }
        ensures { result < m }
    {
        self.state = self
            .state
            .wrapping_mul(6_364_136_223_846_793_005)
            .wrapping_add(1_442_695_040_888_963_407);
        ((self.state >> 33) % u64::from(m)) as u32
    }
}

// How many rows were taken, and how many refused.
#[derive(Clone, Copy, Drop)]
struct Tally {
    taken: u32,
    refused: u32,
}

impl Tally {
    fn add(&mut self, step: Step) {
        match step {
            Step::Taken => self.taken = self.taken.saturating_add(1),
            Step::Refused => self.refused = self.refused.saturating_add(1),
        }
    }
}

// The place of each column in a hidden order, shuffled by Fisher and Yates.
fn hidden_places(alloc: Global, columns: u32, draws: &mut Draws) -> Result<Vec<u32>, NoMemory>
    requires { columns ≤ 12 }
    ensures { IfOk result (λ places. length places.items ≡ columns) }
{
    let mut places = Vec::with_capacity(alloc, columns as usize)?;
    for place in 0..columns {
        places.push(place)?;
    }
    for i in (1..places.len()).rev() {
        let j = draws.below(i as u32 + 1) as usize;
        places.swap(i, j);
    }
    Ok(places)
}

// Marks each column by a coin.
fn mark_any(marks: &mut [bool], draws: &mut Draws) {
    for mark in marks {
        *mark = draws.below(2) == 1;
    }
}

// Marks the columns of a run of the hidden order.
fn mark_run(places: &[u32], marks: &mut [bool], draws: &mut Draws)
    requires some { 0 < length places.now }
    requires few { length places.now ≤ 12 }
{
    let p = draws.below(places.len() as u32);
    let q = draws.below(places.len() as u32);
    for (mark, place) in marks.iter_mut().zip(places) {
        *mark = p.min(q) <= *place && *place <= p.max(q);
    }
}

// Unmarks a column that is marked, or marks one that is not.
fn spoil(marks: &mut [bool], draws: &mut Draws)
    requires some { 0 < length marks.old }
    requires few { length marks.old ≤ 12 }
{
    let at = draws.below(marks.len() as u32) as usize;
    marks[at] = !marks[at];
}

// Marks a row: of ten, seven are runs of the hidden order, two are runs with one column too many or too few,
// and one is any set of columns.
fn mark_row(places: &[u32], marks: &mut [bool], draws: &mut Draws)
    requires some { 0 < length marks.old }
    requires few { length marks.old ≤ 12 }
    requires places { length places.now ≡ length marks.old }
{
    match draws.below(10) {
        0 => mark_any(marks, draws),
        1 | 2 => {
            mark_run(places, marks, draws);
            spoil(marks, draws);
        }
        _ => mark_run(places, marks, draws),
    }
}

// Gives the reducers the rows of a matrix of one to twelve columns and one to twenty rows.
fn agree_on_drawn<L: Ledger>(
    rt: &impl Abort,
    alloc: Global,
    draws: &mut Draws,
    tally: &mut Tally,
    steps: &mut Steps<L>,
) -> Result<(), Fail> {
    let columns = 1 + draws.below(12);
    let mut both = begin(alloc, columns)?;
    let places = hidden_places(alloc, columns, draws)?;
    let mut marks = vec![in alloc; false; columns as usize]?;
    for _row in 0..1 + draws.below(20) {
        mark_row(&places, &mut marks, draws);
        tally.add(both.take(rt, alloc, &marks, steps)?);
    }
    Ok(())
}

// Many rows are taken, and many are refused.
struct Drawn;

impl Check for Drawn {
    fn run<L: Ledger, R: Abort>(rt: &R, alloc: Global, steps: &mut Steps<L>) -> Result<(), Fail> {
        let mut draws = Draws { state: 7 };
        let mut tally = Tally {
            taken: 0,
            refused: 0,
        };
        for _matrix in 0..MATRICES {
            agree_on_drawn(rt, alloc, &mut draws, &mut tally, steps)?;
        }
        assert!(rt; tally.taken > 10_000, "{} rows", tally.taken);
        assert!(rt; tally.refused > 2_000, "{} rows", tally.refused);
        Ok(())
    }
}

#[test]
fn matrices_that_are_drawn(rt: HostRuntime) -> Result<(), Fail> {
    run_counted::<Drawn, HostRuntime>(&rt, rt.alloc())
}
