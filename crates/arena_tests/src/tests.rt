// Tests over trees that are built by calls.
ghost use Rattle.std.specs.Prelude.{◌≡◌, ◌<◌};

mod answers;
mod bounds;
mod calls;
mod cases;
mod fronts;
mod full;
mod passes;
mod pictures;
mod plain;
mod random;
mod splices;
mod universal;
mod walks;

use bounds::star;
use cases::{CASES, one_case};
use full::{FULL_CASES, one_full_case};
use pq_arena::Arena;
use random::random_trees;
use row_model::NoMemory;
use splices::{SPLICES, neighbours, one_splice, taken_and_given_back};
use std::alloc::Global;
use std::process::Abort;
use std::test::Fail;
use step_count::{Blank, Brand, Ledger, Steps};

// What is tested with a counter of steps.
#[derive(Clone, Copy)]
enum Part {
    RandomTrees,
    Splices,
    SpareNodes,
    Neighbours,
    Rows,
    Star,
    FullPasses,
}

// Tests this part, with a counter of its own.
fn try_part<L: Ledger>(
    rt: &impl Abort,
    alloc: Global,
    part: Part,
    blank: Blank,
) -> Result<(), NoMemory>
    requires name { blank.name ≡ L.name }
    requires parts { blank.parts ≡ L.parts }
    requires some { 0 < blank.parts }
{
    let mut steps = Steps::<L>::new(blank);
    match part {
        Part::RandomTrees => random_trees(rt, alloc, &mut steps)?,
        Part::Splices => {
            for case in SPLICES {
                one_splice(rt, alloc, case, &mut steps)?;
            }
        }
        Part::SpareNodes => {
            let mut arena = Arena::new(alloc, 3)?;
            taken_and_given_back(rt, &mut arena, &mut steps);
        }
        Part::Neighbours => neighbours(rt, alloc, &mut steps)?,
        Part::Rows => {
            for case in &CASES {
                one_case(rt, alloc, case, &mut steps)?;
            }
        }
        Part::Star => star(rt, alloc, &mut steps)?,
        Part::FullPasses => {
            for case in &FULL_CASES {
                one_full_case(rt, alloc, case, &mut steps)?;
            }
        }
    }
    Ok(())
}

#[test]
fn all_rows_of_random_trees(rt: HostRuntime) -> Result<(), Fail> {
    try_part::<Brand>(&rt, rt.alloc(), Part::RandomTrees, Blank::new(1))?;
    Ok(())
}

#[test]
fn splices_at_each_place(rt: HostRuntime) -> Result<(), Fail> {
    try_part::<Brand>(&rt, rt.alloc(), Part::Splices, Blank::new(1))?;
    Ok(())
}

#[test]
fn spare_nodes(rt: HostRuntime) -> Result<(), Fail> {
    try_part::<Brand>(&rt, rt.alloc(), Part::SpareNodes, Blank::new(1))?;
    Ok(())
}

#[test]
fn neighbours_after_each_call(rt: HostRuntime) -> Result<(), Fail> {
    try_part::<Brand>(&rt, rt.alloc(), Part::Neighbours, Blank::new(1))?;
    Ok(())
}

#[test]
fn rows_that_are_worked_out_by_hand(rt: HostRuntime) -> Result<(), Fail> {
    try_part::<Brand>(&rt, rt.alloc(), Part::Rows, Blank::new(1))?;
    Ok(())
}

#[test]
fn the_steps_of_a_row_under_one_p_node(rt: HostRuntime) -> Result<(), Fail> {
    try_part::<Brand>(&rt, rt.alloc(), Part::Star, Blank::new(1))?;
    Ok(())
}

#[test]
fn full_passes_that_are_worked_out_by_hand(rt: HostRuntime) -> Result<(), Fail> {
    try_part::<Brand>(&rt, rt.alloc(), Part::FullPasses, Blank::new(1))?;
    Ok(())
}
