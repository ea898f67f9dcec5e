// Rows that every frontier of a tree keeps, and rows that some frontier does not.
ghost use Rattle.std.specs.Prelude.{◌≤◌};
ghost use Rattle.row_model.specs.Rows.{IsRow};

use pq_tree::PqTree;
use row_model::COLUMN_BOUND;
use std::alloc::Global;
use std::test::Fail;
use verdict_check::tree_holds;

// Whether every frontier of the tree with this text keeps the row.
fn holds(alloc: Global, text: &[u8], c: u32, row: &[u32]) -> Result<bool, Fail>
    requires columns { (1 ≤ c) × (c ≤ COLUMN_BOUND) }
    requires row { IsRow c row.now }
{
    let tree = PqTree::parse(alloc, text, c)?.ok_or("a tree")?;
    Ok(tree_holds(&tree, row))
}

#[test]
fn a_run_of_a_q_node_holds_and_a_pair_of_a_p_node_does_not(rt: HostRuntime) -> Result<(), Fail> {
    let answers = [
        holds(rt.alloc(), b"[1 2 3]", 3, &[1, 2])?,
        holds(rt.alloc(), b"[1 2 3]", 3, &[1, 3])?,
        holds(rt.alloc(), b"(1 2 3)", 3, &[1, 2])?,
        holds(rt.alloc(), b"([1 2 3] 4)", 4, &[2, 3])?,
        holds(rt.alloc(), b"([1 2 3] 4)", 4, &[3, 4])?,
    ];
    assert_eq!(rt; answers, [true, false, false, true, false]);
    Ok(())
}
