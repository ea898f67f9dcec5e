//! The number of rows of a tree.

ghost use Rattle.std.specs.Prelude.{◌≡◌, ◌+◌, ◌<◌, ◌^◌, length, map};
ghost use Rattle.pq_tree.specs.PqTree.{column_count, outline};
ghost use Rattle.pq_tree.specs.Proper.{outline_of, forest, HasArities, HaveArities};
ghost use Rattle.tree_meet.specs.TreeRows.{groups, groups_of, rows_of_tree};

use pq_tree::{PqTree, Tree};

/// The number of rows of a tree: one for each P-node, and for each Q-node as many as it has children.
pub fn row_count(tree: &PqTree) -> u32
    requires { column_count tree.now < 2 ^ 31 }
    ensures { result ≡ length (rows_of_tree (column_count tree.now) (outline tree.now)) }
{
    count_tree(tree.root())
}

// The number of groups of a tree.
#[cycle(counts)]
fn count_tree(tree: &Tree) -> u32
    requires arities { HasArities (outline_of tree.now) }
    requires few { length (groups (outline_of tree.now)) < 2 ^ 32 }
    ensures { result ≡ length (groups (outline_of tree.now)) }
{
    match tree {
        Tree::Leaf(_) => 0,
        Tree::P(children) => 1 + count_trees(children),
        Tree::Q(children) => children.len() as u32 + count_trees(children),
    }
}

// The number of groups of some trees together.
#[cycle(counts)]
fn count_trees(trees: &[Tree]) -> u32
    requires arities { HaveArities (forest (map outline_of trees.now)) }
    requires few { length (groups_of (forest (map outline_of trees.now))) < 2 ^ 32 }
    ensures { result ≡ length (groups_of (forest (map outline_of trees.now))) }
{
    let mut count = 0;
    for tree in trees {
        count += count_tree(tree);
    }
    count
}
