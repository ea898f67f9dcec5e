// Classes of the pairs of three columns.
ghost use Rattle.std.specs.Prelude.{◌≡◌, ◌<◌, ◌≤◌, length};

use super::three::{chain, triangle};
use incompat_graph::{Classes, even_classes};
use row_model::{Matrix, NoMemory, Pair, is_pair};
use std::alloc::Global;
use std::process::Abort;
use std::test::Fail;
use step_count::{Blank, Brand, Ledger, Steps};

fn classes_counted<L: Ledger>(
    alloc: Global,
    m: &Matrix,
    rows: u32,
    blank: Blank,
) -> Result<Classes, NoMemory>
    requires name { blank.name ≡ L.name }
    requires parts { blank.parts ≡ L.parts }
    requires some { 0 < blank.parts }
    requires rows { rows ≤ length m.now.rows }
{
    let mut steps = Steps::<L>::new(blank);
    even_classes(alloc, m, rows, &mut steps)
}

fn classes_of(alloc: Global, m: &Matrix) -> Result<Classes, NoMemory> {
    classes_counted::<Brand>(alloc, m, m.rows(), Blank::new(1))
}

// The pairs of three columns.
const PAIRS: [Pair; 6] = [
    Pair { a: 1, b: 2 },
    Pair { a: 1, b: 3 },
    Pair { a: 2, b: 3 },
    Pair { a: 2, b: 1 },
    Pair { a: 3, b: 1 },
    Pair { a: 3, b: 2 },
];

// Two of the pairs of three columns are in one class exactly where they have one number here.
fn assert_classes(rt: &impl Abort, classes: &Classes, numbers: [u32; 6]) {
    assert_eq!(rt; classes.columns(), 3);
    for i in 0..6 {
        for k in 0..6 {
            let v = PAIRS[i];
            let w = PAIRS[k];
            assert!(rt; is_pair(3, v) && is_pair(3, w));
            assert_eq!(rt; classes.same(v, w), numbers[i] == numbers[k]);
        }
    }
}

// The row 110 lacks column 3, so (1,3) and (2,3) are in one class, and (3,1) and (3,2). The row 011 lacks column 1,
// so (2,1) and (3,1) are, and (1,2) and (1,3).
#[test]
fn two_rows_make_two_classes(rt: HostRuntime) -> Result<(), Fail> {
    let classes = classes_of(rt.alloc(), &chain(rt.alloc())?)?;
    assert_classes(&rt, &classes, [1, 1, 1, 2, 2, 2]);
    Ok(())
}

fn one_row(alloc: Global) -> Result<Matrix, NoMemory> {
    let mut m = Matrix::new(alloc, 3)?;
    m.push_row(&[1, 2])?;
    Ok(m)
}

// Only (1,3) and (2,3) are in one class, and (3,1) and (3,2).
#[test]
fn one_row_leaves_two_pairs_alone(rt: HostRuntime) -> Result<(), Fail> {
    let classes = classes_of(rt.alloc(), &one_row(rt.alloc())?)?;
    assert_classes(&rt, &classes, [1, 2, 2, 3, 4, 4]);
    Ok(())
}

#[test]
fn without_rows_each_pair_is_alone(rt: HostRuntime) -> Result<(), Fail> {
    let classes = classes_of(rt.alloc(), &Matrix::new(rt.alloc(), 3)?)?;
    assert_classes(&rt, &classes, [1, 2, 3, 4, 5, 6]);
    Ok(())
}

// The row 101 lacks column 2, so (1,2) and (3,2) are in one class: the two classes of the rows 110 and 011 are one.
#[test]
fn three_rows_without_an_order_make_one_class(rt: HostRuntime) -> Result<(), Fail> {
    let classes = classes_of(rt.alloc(), &triangle(rt.alloc())?)?;
    assert_classes(&rt, &classes, [1, 1, 1, 1, 1, 1]);
    Ok(())
}
