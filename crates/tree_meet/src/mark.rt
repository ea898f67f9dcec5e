//! Marks at the columns of some trees that tell which of the trees has the column.

ghost use Rattle.std.specs.Prelude.{◌≡◌, ◌<◌, ◌≤◌, ℕ, length, map, slice_index, IsTrue, IsFalse};
ghost use Rattle.column_order.specs.Orders.{has, occurs};
ghost use Rattle.pq_tree.specs.Outline.{leaves, leaves_of};
ghost use Rattle.pq_tree.specs.Proper.{outline_of, forest};
ghost use Rattle.tree_meet.specs.Marks.{AreMarkedByTree};

use pq_tree::Tree;

/// Marks each column of the trees with the index of its tree, from 0.
pub fn mark_trees(trees: &[Tree], marks: &mut [usize])
    requires within { (a : ℕ) → IsTrue (has (leaves_of (forest (map outline_of trees.now))) a) → a < length marks.old }
    requires once { (a : ℕ) → occurs (leaves_of (forest (map outline_of trees.now))) a ≤ 1 }
    ensures { AreMarkedByTree marks.new 0 (forest (map outline_of trees.now)) }
{
    for (i, tree) in trees.iter().enumerate() {
        mark_tree(tree, i, marks);
    }
}

// Marks each column of a tree, and no other.
fn mark_tree(tree: &Tree, mark: usize, marks: &mut [usize])
    requires { (a : ℕ) → IsTrue (has (leaves (outline_of tree.now)) a) → a < length marks.old }
    ensures own { (a : ℕ) → IsTrue (has (leaves (outline_of tree.now)) a) → slice_index marks.new a ≡ mark }
    ensures others { (a : ℕ) → IsFalse (has (leaves (outline_of tree.now)) a)
        → slice_index marks.new a ≡ slice_index marks.old a }
{
    match tree {
        Tree::Leaf(column) => marks[*column as usize] = mark,
        Tree::P(children) | Tree::Q(children) => {
            for child in children {
                mark_tree(child, mark, marks);
            }
        }
    }
}
