// Trees that have all valid orders of some rows among their frontiers, and trees that have too few.
ghost use Rattle.std.specs.Prelude.{◌≡◌};
ghost use Rattle.pq_tree.specs.PqTree.{column_count};

use bound_tree::is_complete;
use pq_tree::PqTree;
use row_model::{Matrix, NoMemory};
use std::alloc::Global;
use std::process::Abort;
use std::test::Fail;

// Whether the tree with this text is complete for the rows; None where no tree has the text, or its leaves don't keep
// the rows.
fn bound_of(alloc: Global, m: &Matrix, text: &str) -> Result<Option<bool>, NoMemory> {
    match PqTree::parse(alloc, text.as_bytes(), m.columns())? {
        None => Ok(None),
        Some(tree) => bound_where_kept(alloc, m, &tree),
    }
}

fn bound_where_kept(alloc: Global, m: &Matrix, tree: &PqTree) -> Result<Option<bool>, NoMemory>
    requires { column_count tree.now ≡ m.now.columns }
{
    let kept = m.keeps(&tree.frontier(alloc)?)?;
    if !kept {
        return Ok(None);
    }
    Ok(Some(is_complete(alloc, m, tree)?))
}

// Asserts of each tree whether it is complete for the rows, which its leaves keep.
fn assert_bounds(
    rt: &impl Abort,
    alloc: Global,
    m: &Matrix,
    cases: &[(&str, bool)],
) -> Result<(), Fail> {
    for (text, bound) in cases {
        assert_eq!(rt; bound_of(alloc, m, text)?, Some(*bound), "{text}");
    }
    Ok(())
}

#[test]
fn no_row_leaves_all_orders(rt: HostRuntime) -> Result<(), Fail> {
    let m = Matrix::new(rt.alloc(), 3)?;
    let cases = [
        ("(1 2 3)", true),
        ("(3 1 2)", true),
        ("[1 2 3]", false),
        ("((1 2) 3)", false),
    ];
    assert_bounds(&rt, rt.alloc(), &m, &cases)
}

#[test]
fn one_column_has_one_order(rt: HostRuntime) -> Result<(), Fail> {
    let m = Matrix::new(rt.alloc(), 1)?;
    assert_bounds(&rt, rt.alloc(), &m, &[("1", true)])
}

fn one_pair(alloc: Global) -> Result<Matrix, NoMemory> {
    let mut m = Matrix::new(alloc, 3)?;
    m.push_row(&[1, 2])?;
    Ok(m)
}

#[test]
fn one_pair_stays_together(rt: HostRuntime) -> Result<(), Fail> {
    let cases = [
        ("((1 2) 3)", true),
        ("(3 (2 1))", true),
        ("[1 2 3]", false),
        ("[3 2 1]", false),
    ];
    assert_bounds(&rt, rt.alloc(), &one_pair(rt.alloc())?, &cases)
}

fn two_pairs(alloc: Global) -> Result<Matrix, NoMemory> {
    let mut m = Matrix::new(alloc, 3)?;
    m.push_row(&[1, 2])?;
    m.push_row(&[2, 3])?;
    Ok(m)
}

#[test]
fn two_pairs_in_a_path_make_a_line(rt: HostRuntime) -> Result<(), Fail> {
    let cases = [("[1 2 3]", true), ("[3 2 1]", true)];
    assert_bounds(&rt, rt.alloc(), &two_pairs(rt.alloc())?, &cases)
}

fn one_block(alloc: Global) -> Result<Matrix, NoMemory> {
    let mut m = Matrix::new(alloc, 5)?;
    m.push_row(&[1, 2, 3])?;
    Ok(m)
}

#[test]
fn a_block_within_a_p_node(rt: HostRuntime) -> Result<(), Fail> {
    let cases = [
        ("((1 2 3) 4 5)", true),
        ("([1 2 3] 4 5)", false),
        ("((1 2 3) (4 5))", false),
    ];
    assert_bounds(&rt, rt.alloc(), &one_block(rt.alloc())?, &cases)
}

fn one_line(alloc: Global) -> Result<Matrix, NoMemory> {
    let mut m = Matrix::new(alloc, 5)?;
    m.push_row(&[1, 2, 3])?;
    m.push_row(&[1, 2])?;
    m.push_row(&[2, 3])?;
    Ok(m)
}

#[test]
fn a_line_within_a_p_node(rt: HostRuntime) -> Result<(), Fail> {
    let cases = [
        ("([1 2 3] 4 5)", true),
        ("(4 [3 2 1] 5)", true),
        ("[4 [3 2 1] 5]", false),
    ];
    assert_bounds(&rt, rt.alloc(), &one_line(rt.alloc())?, &cases)
}

fn nested(alloc: Global) -> Result<Matrix, NoMemory> {
    let mut m = Matrix::new(alloc, 6)?;
    m.push_row(&[1, 2])?;
    m.push_row(&[1, 2, 3])?;
    m.push_row(&[1, 2, 3, 4])?;
    m.push_row(&[1, 2, 3, 4, 5])?;
    Ok(m)
}

#[test]
fn stretches_within_stretches(rt: HostRuntime) -> Result<(), Fail> {
    let cases = [
        ("(((((1 2) 3) 4) 5) 6)", true),
        ("(6 (5 (4 (3 (2 1)))))", true),
        ("(6 (4 (3 (1 2)) 5))", true),
        ("((((1 2) (3 4)) 5) 6)", false),
        ("((((1 2) 3) (4 5)) 6)", false),
        ("[(((1 2) 3) 4) 5 6]", false),
    ];
    assert_bounds(&rt, rt.alloc(), &nested(rt.alloc())?, &cases)
}

fn sliding(alloc: Global) -> Result<Matrix, NoMemory> {
    let mut m = Matrix::new(alloc, 8)?;
    m.push_row(&[1, 2, 3, 4, 5])?;
    m.push_row(&[2, 3, 4, 5, 6])?;
    m.push_row(&[3, 4, 5, 6, 7])?;
    m.push_row(&[4, 5, 6, 7, 8])?;
    Ok(m)
}

#[test]
fn many_positions_are_passed(rt: HostRuntime) -> Result<(), Fail> {
    let cases = [
        ("[1 2 3 (4 5) 6 7 8]", true),
        ("[8 7 6 (5 4) 3 2 1]", true),
        ("[1 2 3 4 5 6 7 8]", false),
        ("[1 2 (3 4 5) 6 7 8]", true),
        ("[1 2 3 [4 5 6] 7 8]", false),
    ];
    assert_bounds(&rt, rt.alloc(), &sliding(rt.alloc())?, &cases)
}
