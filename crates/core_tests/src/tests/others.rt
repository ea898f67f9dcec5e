// Orders judged for all rows but one.
use others_kept::Others;
use row_model::{Matrix, NoMemory};
use std::alloc::Global;
use std::process::Abort;
use std::test::Fail;

// The order that the first of three rows is to have, the index of a row, an order of the columns, and whether this keeps the
// two other rows.
type Case = (&'static [u32], usize, &'static [u32], bool);

// Whether an order of the columns keeps the three rows but the one at an index; None where there are not three rows,
// or no such index.
fn is_kept(
    alloc: Global,
    m: &Matrix,
    first: &[u32],
    i: usize,
    order: &[u32],
) -> Result<Option<bool>, NoMemory> {
    if m.rows() != 3 || i >= 3 {
        return Ok(None);
    }
    let rows = [1, 2, 3];
    let others = Others::new(alloc, m, &rows, first)?;
    Ok(Some(others.are_kept(alloc, m, &rows, i, order)?))
}

fn assert_kept(rt: &impl Abort, alloc: Global, m: &Matrix, cases: &[Case]) -> Result<(), Fail> {
    for (first, i, order, kept) in cases {
        assert_eq!(rt;
            is_kept(alloc, m, first, *i, order)?,
            Some(*kept),
            "{first:?} {i} {order:?}"
        );
    }
    Ok(())
}

fn three_pairs(alloc: Global) -> Result<Matrix, NoMemory> {
    let mut m = Matrix::new(alloc, 3)?;
    m.push_row(&[1, 2])?;
    m.push_row(&[1, 3])?;
    m.push_row(&[2, 3])?;
    Ok(m)
}

#[test]
fn three_pairs_of_three_columns(rt: HostRuntime) -> Result<(), Fail> {
    let cases: [Case; 9] = [
        (&[1, 3, 2], 0, &[2, 3, 1], true),
        (&[1, 3, 2], 0, &[1, 2, 3], false),
        (&[1, 3, 2], 1, &[1, 2, 3], true),
        (&[1, 3, 2], 1, &[1, 3, 2], false),
        (&[1, 3, 2], 1, &[2, 1, 3], false),
        (&[1, 3, 2], 2, &[2, 1, 3], true),
        (&[1, 3, 2], 2, &[1, 3, 2], false),
        (&[1, 3, 2], 2, &[2, 1], false),
        (&[1, 2, 3], 2, &[2, 1, 3], true),
    ];
    assert_kept(&rt, rt.alloc(), &three_pairs(rt.alloc())?, &cases)
}

fn an_empty_row_and_a_long_one(alloc: Global) -> Result<Matrix, NoMemory> {
    let mut m = Matrix::new(alloc, 4)?;
    m.push_row(&[1, 4])?;
    m.push_row(&[])?;
    m.push_row(&[1, 2, 3])?;
    Ok(m)
}

#[test]
fn a_row_with_no_column_and_a_long_one(rt: HostRuntime) -> Result<(), Fail> {
    let cases: [Case; 6] = [
        (&[1, 2, 3, 4], 1, &[4, 1, 2, 3], true),
        (&[1, 2, 3, 4], 1, &[4, 2, 1, 3], false),
        (&[1, 2, 3, 4], 1, &[3, 2, 4, 1], false),
        (&[1, 2, 3, 4], 2, &[2, 1, 4, 3], true),
        (&[1, 2, 3, 4], 2, &[1, 2, 3, 4], false),
        (&[1, 2, 3, 4], 2, &[1, 1, 4, 3], false),
    ];
    assert_kept(
        &rt,
        rt.alloc(),
        &an_empty_row_and_a_long_one(rt.alloc())?,
        &cases,
    )
}
