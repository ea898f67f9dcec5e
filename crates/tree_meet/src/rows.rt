//! The rows of a tree, written in one walk.
//!
//! A node is handed the row of its leaves. It parts this row among its children, so each column is looked at once for
//! each row that has it, and no row is sorted.

ghost use Rattle.std.specs.Prelude.{◌≡◌, ◌+◌, ◌≤◌, ◌++◌, ℕ, length, map, IfOk, OnOk};
ghost use Rattle.std.specs.List.{AllByRecursion};
ghost use Rattle.column_order.specs.Orders.{occurs, IsWithin};
ghost use Rattle.row_model.specs.Rows.{IsRow};
ghost use Rattle.pq_tree.specs.Outline.{leaves, leaves_of};
ghost use Rattle.pq_tree.specs.PqTree.{column_count, outline};
ghost use Rattle.pq_tree.specs.Proper.{outline_of, forest};
ghost use Rattle.tree_meet.specs.TreeRows.{groups, groups_of, row_of_group, rows_of_tree};
ghost use Rattle.tree_meet.specs.Marks.{lists_of};

use crate::mark::mark_trees;
use crate::part::{pairs_of, parts_of};
use pq_tree::{PqTree, Tree};
use row_model::{COLUMN_BOUND, Matrix, NoMemory, ROW_BOUND};
use std::alloc::Global;

/// The matrix of the rows of a tree: from the root on, each node before its children and the children from left to
/// right, a node that is no leaf gives the row of its leaves, and a Q-node gives next the rows of the leaves of each
/// two neighbouring children.
///
/// The time is linear in the sum of the lengths of the rows.
///
/// # Errors
///
/// `NoMemory` where there is no memory for the rows.
pub fn tree_rows(alloc: Global, tree: &PqTree) -> Result<Matrix, NoMemory>
    requires { column_count tree.now ≤ COLUMN_BOUND }
    ensures { IfOk result (λ m. m ≡ record {
      columns = column_count tree.now;
      rows = rows_of_tree (column_count tree.now) (outline tree.now);
    }) }
{
    let mut m = Matrix::new(alloc, tree.columns())?;
    push_rows(alloc, tree, &mut m)?;
    Ok(m)
}

/// Adds the rows of a tree behind those of a matrix over its columns.
///
/// # Errors
///
/// `NoMemory` where there is no memory for the rows.
pub fn push_rows(alloc: Global, tree: &PqTree, m: &mut Matrix) -> Result<(), NoMemory>
    requires columns { m.old.columns ≡ column_count tree.now }
    requires room { length m.old.rows + (column_count tree.now + column_count tree.now) ≤ ROW_BOUND }
    ensures { OnOk result (m.new ≡ record m.old {
      rows = m.old.rows ++ rows_of_tree (column_count tree.now) (outline tree.now);
    }) }
{
    let columns = all_columns(alloc, tree)?;
    let mut marks = vec![in alloc; 0; columns.len() + 1]?;
    push_tree(alloc, tree.root(), &columns, &mut marks, m)
}

// All columns of a tree, which are the row of its leaves.
fn all_columns(alloc: Global, tree: &PqTree) -> Result<Vec<u32>, NoMemory>
    ensures row { IfOk result (λ row. row.items ≡ row_of_group (column_count tree.now) (leaves (outline tree.now))) }
    ensures count { IfOk result (λ row. length row.items ≡ column_count tree.now) }
{
    let mut columns = Vec::with_capacity(alloc, tree.columns() as usize)?;
    for i in 0..tree.columns() {
        columns.push(i + 1)?;
    }
    Ok(columns)
}

// Adds the rows of a tree, of whose leaves the row is given. The marks are for the walk's own use.
#[cycle(walk)]
fn push_tree(
    alloc: Global,
    tree: &Tree,
    row: &[u32],
    marks: &mut [usize],
    m: &mut Matrix,
) -> Result<(), NoMemory>
    requires row { row.now ≡ row_of_group m.old.columns (leaves (outline_of tree.now)) }
    requires within { IsWithin m.old.columns (leaves (outline_of tree.now)) }
    requires once { (a : ℕ) → occurs (leaves (outline_of tree.now)) a ≤ 1 }
    requires marks { length marks.old ≡ m.old.columns + 1 }
    requires room { length m.old.rows + length (groups (outline_of tree.now)) ≤ ROW_BOUND }
    ensures { OnOk result (m.new ≡ record m.old {
      rows = m.old.rows ++ rows_of_tree m.old.columns (outline_of tree.now);
    }) }
{
    match tree {
        Tree::Leaf(_) => Ok(()),
        Tree::P(children) => {
            m.push_row(row)?;
            mark_trees(children, marks);
            let parts = parts_of(alloc, row, marks, children.len())?;
            push_trees(alloc, children, &parts, marks, m)
        }
        Tree::Q(children) => {
            m.push_row(row)?;
            mark_trees(children, marks);
            push_lists(
                &pairs_of(alloc, row, marks, children.len().saturating_sub(1))?,
                m,
            )?;
            let parts = parts_of(alloc, row, marks, children.len())?;
            push_trees(alloc, children, &parts, marks, m)
        }
    }
}

// Adds the rows of some trees, one tree after another. The row of the leaves of each tree is given.
#[cycle(walk)]
fn push_trees(
    alloc: Global,
    trees: &[Tree],
    rows: &[Vec<u32>],
    marks: &mut [usize],
    m: &mut Matrix,
) -> Result<(), NoMemory>
    requires rows { lists_of rows.now ≡ map (λ t. row_of_group m.old.columns (leaves t)) (map outline_of trees.now) }
    requires within { IsWithin m.old.columns (leaves_of (forest (map outline_of trees.now))) }
    requires once { (a : ℕ) → occurs (leaves_of (forest (map outline_of trees.now))) a ≤ 1 }
    requires marks { length marks.old ≡ m.old.columns + 1 }
    requires room { length m.old.rows + length (groups_of (forest (map outline_of trees.now))) ≤ ROW_BOUND }
    ensures { OnOk result (m.new ≡ record m.old {
      rows = m.old.rows ++ map (row_of_group m.old.columns) (groups_of (forest (map outline_of trees.now)));
    }) }
{
    for (i, tree) in trees.iter().enumerate() {
        push_tree(alloc, tree, &rows[i], marks, m)?;
    }
    Ok(())
}

// Adds rows that are given.
fn push_lists(rows: &[Vec<u32>], m: &mut Matrix) -> Result<(), NoMemory>
    requires rows { AllByRecursion (IsRow m.old.columns) (lists_of rows.now) }
    requires room { length m.old.rows + length rows.now ≤ ROW_BOUND }
    ensures { OnOk result (m.new ≡ record m.old { rows = m.old.rows ++ lists_of rows.now }) }
{
    for row in rows {
        m.push_row(row)?;
    }
    Ok(())
}
