// What is looked for in a small matrix, step by step.
ghost use Rattle.std.specs.Prelude.{◌≡◌, ◌<◌};

use super::*;
use crate::checked::checked_cycle;
use crate::part::lines_among;
use crate::repeats::without_repeats;
use row_model::{CountedRows, Line, Matrix, Pair, Why};
use std::alloc::Global;
use std::test::Fail;
use step_count::{Blank, Brand, Ledger, Steps};

fn pair(a: u32, b: u32) -> Pair {
    Pair { a, b }
}

// The rows 110, 011 and 101 ask of each two of three columns to be neighbours.
fn triangle(alloc: Global) -> Result<Matrix, NoMemory> {
    let mut m = Matrix::new(alloc, 3)?;
    m.push_row(&[1, 2])?;
    m.push_row(&[2, 3])?;
    m.push_row(&[1, 3])?;
    Ok(m)
}

fn line(a: u32, b: u32, row: u32) -> Line {
    Line {
        pair: pair(a, b),
        why: Why::Row(row),
    }
}

fn checked_counted<L: Ledger>(
    alloc: Global,
    m: &Matrix,
    lines: Vec<Line>,
    blank: Blank,
) -> Result<bool, NoMemory>
    requires name { blank.name ≡ L.name }
    requires parts { blank.parts ≡ L.parts }
    requires some { 0 < blank.parts }
{
    let mut steps = Steps::<L>::new(blank);
    let mut left = 27;
    let m = CountedRows::new(m);
    Ok(checked_cycle(alloc, &m, m.rows(), lines, &mut left, &mut steps)?.is_some())
}

fn is_cycle(alloc: Global, m: &Matrix, lines: Vec<Line>) -> Result<bool, NoMemory> {
    checked_counted::<Brand>(alloc, m, lines, Blank::new(1))
}

// Row 3 has 1 and 3 and lacks 2, row 1 has 2 and 1 and lacks 3, and row 2 has 3 and 2 and lacks 1.
#[test]
fn three_lines_of_a_triangle_are_a_cycle(rt: HostRuntime) -> Result<(), Fail> {
    let m = triangle(rt.alloc())?;
    let lines = vec![in rt.alloc(); line(1, 2, 3), line(2, 3, 1), line(3, 1, 2)]?;
    assert!(rt; is_cycle(rt.alloc(), &m, lines)?);
    Ok(())
}

fn lines_counted<L: Ledger>(
    alloc: Global,
    m: &Matrix,
    most: u64,
    blank: Blank,
) -> Result<Vec<Line>, NoMemory>
    requires name { blank.name ≡ L.name }
    requires parts { blank.parts ≡ L.parts }
    requires some { 0 < blank.parts }
{
    let mut steps = Steps::<L>::new(blank);
    let mut left = most;
    let m = CountedRows::new(m);
    lines_among(alloc, &m, &[1, 2, 3], &[1, 2, 3], &mut left, &mut steps)
}

fn lines_within(alloc: Global, m: &Matrix, most: u64) -> Result<Vec<Line>, NoMemory> {
    lines_counted::<Brand>(alloc, m, most, Blank::new(1))
}

// Nine looks, and at most 3 * (2 * 6 + 3 + 3) + 1 steps for a search in three columns with six ones.
#[test]
fn a_part_is_searched_where_the_steps_are_enough(rt: HostRuntime) -> Result<(), Fail> {
    let m = triangle(rt.alloc())?;
    assert!(rt; lines_within(rt.alloc(), &m, 63)?.is_empty());
    let lines = lines_within(rt.alloc(), &m, 64)?;
    assert!(rt; is_cycle(rt.alloc(), &m, lines)?);
    Ok(())
}

fn flip(a: u32, b: u32) -> Line {
    Line {
        pair: pair(a, b),
        why: Why::Flip,
    }
}

// From (1,2) by row 3 to (2,3), over to (3,2), by row 1 to (1,3), over to (3,1), and by row 2 back to (1,2). No pair comes
// twice, but two lines are flips. With the pair between these turned, the rows lead from (1,2) to (2,3) to (3,1).
#[test]
fn two_flips_are_left_out(rt: HostRuntime) -> Result<(), Fail> {
    let m = triangle(rt.alloc())?;
    let walk = vec![in rt.alloc();
        line(1, 2, 3),
        flip(2, 3),
        line(3, 2, 1),
        flip(1, 3),
        line(3, 1, 2),
    ]?;
    let lines = without_repeats(rt.alloc(), &walk)?;
    assert_eq!(rt;
        lines.as_slice(),
        [line(1, 2, 3), line(2, 3, 1), line(3, 1, 2)].as_slice()
    );
    assert!(rt; is_cycle(rt.alloc(), &m, lines)?);
    assert!(rt; !is_cycle(rt.alloc(), &m, walk)?);
    Ok(())
}

// From (1,2) over to (2,1) and back, and then round the triangle.
#[test]
fn a_pair_that_comes_twice_is_left_out(rt: HostRuntime) -> Result<(), Fail> {
    let m = triangle(rt.alloc())?;
    let walk = vec![in rt.alloc();
        flip(1, 2),
        flip(2, 1),
        line(1, 2, 3),
        line(2, 3, 1),
        line(3, 1, 2),
    ]?;
    let lines = without_repeats(rt.alloc(), &walk)?;
    assert_eq!(rt; lines.len(), 3);
    assert!(rt; is_cycle(rt.alloc(), &m, lines)?);
    Ok(())
}
