// Small matrices, with a valid order and with none.
ghost use Rattle.std.specs.Prelude.{◌≡◌, ◌+◌, ◌<◌, ◌≤◌, length, take, sum_by, IfOk, MatchOption};
ghost use Rattle.row_model.specs.Graph.{HasOddWalk};
ghost use Rattle.row_model.specs.Cycles.{IsOddWalk};

use super::three::{chain, triangle};
use incompat_graph::{Cycle, Walk, joined, odd_walk, simple_cycle};
use odd_cycle::is_folded;
use row_model::{Line, Matrix, NoMemory, Pair, Why, joined_by};
use std::alloc::Global;
use std::process::Abort;
use std::test::Fail;
use step_count::{Blank, Brand, Ledger, Steps};

fn walk_counted<L: Ledger>(
    alloc: Global,
    m: &Matrix,
    rows: u32,
    blank: Blank,
) -> Result<Option<Walk>, NoMemory>
    requires name { blank.name ≡ L.name }
    requires parts { blank.parts ≡ L.parts }
    requires some { 0 < blank.parts }
    requires rows { rows ≤ length m.now.rows }
    ensures { IfOk result (λ found. MatchOption found
        (¬ HasOddWalk m.now.columns (take rows m.now.rows))
        (IsOddWalk m.now.columns (take rows m.now.rows))) }
{
    let mut steps = Steps::<L>::new(blank);
    odd_walk(alloc, m, rows, &mut steps)
}

fn walk_of(alloc: Global, m: &Matrix, rows: u32) -> Result<Option<Walk>, NoMemory>
    requires { rows ≤ length m.now.rows }
    ensures { IfOk result (λ found. MatchOption found
        (¬ HasOddWalk m.now.columns (take rows m.now.rows))
        (IsOddWalk m.now.columns (take rows m.now.rows))) }
{
    walk_counted::<Brand>(alloc, m, rows, Blank::new(1))
}

fn cycle_of(alloc: Global, m: &Matrix) -> Result<Option<Cycle>, NoMemory> {
    match walk_of(alloc, m, m.rows())? {
        Some(walk) => Ok(Some(simple_cycle(alloc, m, &walk)?)),
        None => Ok(None),
    }
}

// Each line's reason joins its pair to the next, the last to the first; the lines are odd in
// number, and no pair comes twice. At most one line is a flip.
fn assert_cycle(rt: &impl Abort, m: &Matrix, lines: &[Line]) {
    assert!(rt; lines.len() % 2 == 1);
    assert!(rt; lines.iter().filter(|line| line.why == Why::Flip).count() <= 1);
    for i in 0..lines.len() {
        let next = if i + 1 < lines.len() { i + 1 } else { 0 };
        assert!(rt; joined_by(m, lines[i].pair, lines[next].pair, lines[i].why));
        for k in 0..i {
            assert!(rt; lines[k].pair != lines[i].pair);
        }
    }
}

// The search finds an odd cycle of the matrix.
fn assert_found(rt: &impl Abort, alloc: Global, m: &Matrix) -> Result<(), Fail> {
    let cycle = cycle_of(alloc, m)?.ok_or("no cycle")?;
    assert_cycle(rt, m, cycle.lines());
    Ok(())
}

fn pair(a: u32, b: u32) -> Pair {
    Pair { a, b }
}

#[test]
fn a_triangle(rt: HostRuntime) -> Result<(), Fail> {
    let m = triangle(rt.alloc())?;
    let reasons = [
        joined(&m, pair(1, 3), pair(3, 2)),
        joined(&m, pair(1, 3), pair(3, 1)),
        joined(&m, pair(1, 2), pair(1, 3)),
    ];
    assert_eq!(rt; reasons, [Some(Why::Row(1)), Some(Why::Flip), None]);
    assert_found(&rt, rt.alloc(), &m)
}

// The rows 110000, 001100, 000011 and 010101, which have nine ones.
fn three_blocks(alloc: Global) -> Result<Matrix, NoMemory>
    ensures { IfOk result (λ m. (m.columns ≡ 6) × (length m.rows ≡ 4) × (sum_by length (take 4 m.rows) ≡ 9)) }
{
    let mut m = Matrix::new(alloc, 6)?;
    m.push_row(&[1, 2])?;
    m.push_row(&[3, 4])?;
    m.push_row(&[5, 6])?;
    m.push_row(&[2, 4, 6])?;
    Ok(m)
}

// The bound of six columns and nine ones, in numbers.
fn within_480_steps<L: Ledger>(
    alloc: Global,
    m: &Matrix,
    steps: &mut Steps<L>,
) -> Result<Option<Walk>, NoMemory>
    requires columns { m.now.columns ≡ 6 }
    requires rows { length m.now.rows ≡ 4 }
    requires ones { sum_by length (take 4 m.now.rows) ≡ 9 }
    ensures { steps.new ≤ steps.old + 480 }
{
    let found = odd_walk(alloc, m, 4, steps)?;
    Ok(found)
}

fn walk_within_480_steps<L: Ledger>(
    alloc: Global,
    m: &Matrix,
    blank: Blank,
) -> Result<Option<Walk>, NoMemory>
    requires name { blank.name ≡ L.name }
    requires parts { blank.parts ≡ L.parts }
    requires some { 0 < blank.parts }
    requires columns { m.now.columns ≡ 6 }
    requires rows { length m.now.rows ≡ 4 }
    requires ones { sum_by length (take 4 m.now.rows) ≡ 9 }
{
    let mut steps = Steps::<L>::new(blank);
    within_480_steps(alloc, m, &mut steps)
}

#[test]
fn few_steps_on_three_blocks(rt: HostRuntime) -> Result<(), Fail> {
    let m = three_blocks(rt.alloc())?;
    let walk = walk_within_480_steps::<Brand>(rt.alloc(), &m, Blank::new(1))?;
    assert!(rt; walk.is_some());
    Ok(())
}

#[test]
fn three_blocks_and_a_row_across(rt: HostRuntime) -> Result<(), Fail> {
    let m = three_blocks(rt.alloc())?;
    assert_eq!(rt; m.rows(), 4);
    assert!(rt; walk_of(rt.alloc(), &m, 3)?.is_none());
    assert_found(&rt, rt.alloc(), &m)
}

fn line(a: u32, b: u32, why: Why) -> Line {
    Line {
        pair: pair(a, b),
        why,
    }
}

// What is folded has no flip but a last one, and no two columns twice before it.
#[test]
fn lines_that_are_folded(rt: HostRuntime) -> Result<(), Fail> {
    let folded = [
        line(1, 2, Why::Row(3)),
        line(2, 3, Why::Row(1)),
        line(2, 1, Why::Flip),
    ];
    assert!(rt; is_folded(rt.alloc(), &folded)?);
    let falling = [
        line(3, 2, Why::Row(1)),
        line(2, 1, Why::Row(3)),
        line(1, 3, Why::Flip),
    ];
    assert!(rt; is_folded(rt.alloc(), &falling)?);
    let turned = [
        line(1, 2, Why::Row(3)),
        line(2, 3, Why::Row(1)),
        line(3, 2, Why::Row(1)),
    ];
    assert!(rt; !is_folded(rt.alloc(), &turned)?);
    let flips = [
        line(1, 2, Why::Row(3)),
        line(2, 3, Why::Flip),
        line(3, 1, Why::Row(1)),
        line(2, 1, Why::Flip),
    ];
    assert!(rt; !is_folded(rt.alloc(), &flips)?);
    Ok(())
}

#[test]
fn a_matrix_with_a_valid_order(rt: HostRuntime) -> Result<(), Fail> {
    assert!(rt; cycle_of(rt.alloc(), &chain(rt.alloc())?)?.is_none());
    Ok(())
}
