// All rows of random trees over up to six columns.

use super::answers::{Asked, assert_chains, assert_labels, assert_order, wanted_labels};
use super::fronts::{frontiers, is_kept};
use super::passes::{ask, assert_root, room_for};
use super::pictures::{Seen, read, seen_at};
use super::plain::{is_run_inside, smallest, sum, tally_of};
use super::walks::Walk;
use bubble_pass::{Found, Work};
use pq_arena::Arena;
use row_model::NoMemory;
use std::alloc::Global;
use std::process::Abort;
use step_count::{Ledger, Steps};

// How often each answer came.
#[derive(Drop)]
struct Answers {
    roots: usize,
    runs: usize,
    splits: usize,
}

// A tree as the views show it, and its frontiers.
#[derive(Drop)]
struct Scene {
    columns: u32,
    tree: Vec<Seen>,
    fronts: Vec<Vec<u32>>,
}

/// Random trees, of which each is asked for all rows.
pub fn random_trees<L: Ledger>(
    rt: &impl Abort,
    alloc: Global,
    steps: &mut Steps<L>,
) -> Result<(), NoMemory> {
    let mut walk = Walk::new(alloc, 1976);
    let mut answers = Answers {
        roots: 0,
        runs: 0,
        splits: 0,
    };
    for i in 0..240u32 {
        let mut arena = Arena::new(alloc, 1 + i % 6)?;
        walk.change_often(rt, alloc, &mut arena, steps)?;
        ask_all(rt, alloc, &mut arena, &mut answers, steps)?;
    }
    // No answer is there for lack of a question.
    assert!(rt; answers.roots > 1000);
    assert!(rt; answers.runs > 50);
    assert!(rt; answers.splits > 100);
    Ok(())
}

// Asks for each row of the columns that has one or more.
fn ask_all<L: Ledger>(
    rt: &impl Abort,
    alloc: Global,
    arena: &mut Arena,
    answers: &mut Answers,
    steps: &mut Steps<L>,
) -> Result<(), NoMemory> {
    let columns = arena.columns();
    let tree = read(rt, alloc, arena, steps)?;
    assert!(rt; columns <= 40_000);
    assert_eq!(rt;
        sum(rt, tree.len(), arena.spare() as usize),
        2 * columns as usize + 4
    );
    let fronts = frontiers(rt, alloc, &tree, columns)?;
    let scene = Scene {
        columns,
        tree,
        fronts,
    };
    let mut work = room_for(rt, alloc, arena)?;
    let mut chosen = vec![in alloc; false; columns as usize]?;
    for _ in 0..64 {
        if !move_on(&mut chosen) {
            return Ok(());
        }
        let row = row_of(alloc, &chosen)?;
        ask_one(rt, alloc, &scene, &row, arena, &mut work, answers, steps)?;
    }
    Ok(())
}

// The next set of columns, if there is one: the first column counts one, and each of the others twice the one before.
fn move_on(chosen: &mut Vec<bool>) -> bool {
    for i in 0..chosen.len() {
        if !chosen[i] {
            chosen[i] = true;
            return true;
        }
        chosen[i] = false;
    }
    false
}

// The chosen columns in ascending order.
fn row_of(alloc: Global, chosen: &Vec<bool>) -> Result<Vec<u32>, NoMemory> {
    let mut row = Vec::new(alloc);
    let mut column = 0u32;
    for is_chosen in chosen {
        column = column.wrapping_add(1);
        if *is_chosen {
            row.push(column)?;
        }
    }
    Ok(row)
}

// Asks for one row, and compares the answer and the marks with the plain definition.
fn ask_one<L: Ledger>(
    rt: &impl Abort,
    alloc: Global,
    scene: &Scene,
    row: &Vec<u32>,
    arena: &mut Arena,
    work: &mut Work,
    answers: &mut Answers,
    steps: &mut Steps<L>,
) -> Result<(), NoMemory> {
    let found = ask(rt, alloc, arena, row, work, steps)?;
    let counts = tally_of(rt, alloc, &scene.tree, row)?;
    assert!(rt; row.len() <= 40_000);
    let place = smallest(rt, &counts, row.len() as u32);
    let is_run = is_run_inside(rt, &scene.tree, &counts, place);
    assert!(rt; work.inside() == matches!(found, Found::Inside));
    match found {
        Found::Split => {
            assert!(rt; !is_kept(rt, &scene.fronts, row));
            assert_eq!(rt; work.nodes().len(), 0);
            answers.splits = sum(rt, answers.splits, 1);
            return Ok(());
        }
        Found::Inside => {
            assert!(rt; is_run);
            answers.runs = sum(rt, answers.runs, 1);
        }
        Found::Root(_) => {
            assert!(rt; !is_run);
            assert_root(rt, found, seen_at(rt, &scene.tree, place).node);
            answers.roots = sum(rt, answers.roots, 1);
        }
    }
    let asked = Asked {
        columns: scene.columns,
        place,
        is_run,
    };
    let labels = wanted_labels(rt, alloc, &scene.tree, &counts, asked)?;
    assert_labels(rt, &scene.tree, &labels, scene.columns, work);
    assert_order(rt, &scene.tree, &labels, work);
    assert_chains(rt, alloc, &scene.tree, &labels, scene.columns, work)
}
