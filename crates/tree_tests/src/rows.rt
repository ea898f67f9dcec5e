// The rows of trees, in the order in which their nodes give them.
ghost use Rattle.std.specs.Prelude.{◌≤◌};
ghost use Rattle.column_order.specs.declared.TheConstants.{COLUMN_BOUND};
ghost use Rattle.pq_tree.specs.PqTree.{column_count};

use crate::same::assert_same;
use crate::trees::tree_of;
use pq_tree::PqTree;
use row_model::NoMemory;
use std::alloc::Global;
use std::process::Abort;
use tree_meet::{row_count, tree_rows};

// The text of a tree over so many columns, and its rows.
#[derive(Clone, Copy, Drop)]
struct Case {
    text: &'static str,
    columns: u32,
    rows: &'static [&'static [u32]],
}

const CASES: [Case; 3] = [
    // A node comes before its children.
    Case {
        text: "((2 (4 1)) 3)",
        columns: 4,
        rows: &[&[1, 2, 3, 4], &[1, 2, 4], &[1, 4]],
    },
    // A Q-node gives its neighbours before its children.
    Case {
        text: "[4 (3 1) 2]",
        columns: 4,
        rows: &[&[1, 2, 3, 4], &[1, 3, 4], &[1, 2, 3], &[1, 3]],
    },
    // A leaf has no row.
    Case {
        text: "1",
        columns: 1,
        rows: &[],
    },
];

// The tree has exactly these rows.
fn assert_rows(rt: &impl Abort, alloc: Global, tree: &PqTree, case: &Case) -> Result<(), NoMemory>
    requires { column_count tree.now ≤ COLUMN_BOUND }
{
    let m = tree_rows(alloc, tree)?;
    let sizes = (m.columns(), m.rows() as usize, row_count(tree) as usize);
    let count = case.rows.len();
    assert_same(rt, sizes, (case.columns, count, count), case.text);
    for k in 0..m.rows() {
        let listed = case.rows.get(k as usize).copied();
        assert_same(rt, Some(m.row(k + 1)), listed, case.text);
    }
    Ok(())
}

#[test]
fn rows_that_are_listed_by_hand(rt: HostRuntime) -> Result<(), NoMemory> {
    let alloc = rt.alloc();
    for case in &CASES {
        let tree = tree_of(&rt, alloc, case.text, case.columns)?;
        assert_rows(&rt, alloc, &tree, case)?;
    }
    Ok(())
}
