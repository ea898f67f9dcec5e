// Copies of trees.
ghost use Rattle.std.specs.Prelude.{◌≡◌, map, IfOk};
ghost use Rattle.pq_tree.specs.Proper.{outline_of};

use pq_tree::Tree;
use row_model::NoMemory;
use std::alloc::Global;

// A copy of a tree.
#[cycle(copy)]
pub fn copied(alloc: Global, tree: &Tree) -> Result<Tree, NoMemory>
    ensures { IfOk result (λ t. outline_of t ≡ outline_of tree.now) }
{
    match tree {
        Tree::Leaf(column) => Ok(Tree::Leaf(*column)),
        Tree::P(children) => {
            let copies = all_copied(alloc, children)?;
            Ok(Tree::P(copies))
        }
        Tree::Q(children) => {
            let copies = all_copied(alloc, children)?;
            Ok(Tree::Q(copies))
        }
    }
}

// A copy of each tree, in the same order.
#[cycle(copy)]
pub fn all_copied(alloc: Global, trees: &[Tree]) -> Result<Vec<Tree>, NoMemory>
    ensures { IfOk result (λ v. map outline_of v.items ≡ map outline_of trees.now) }
{
    let mut copies = Vec::new(alloc);
    for tree in trees {
        copies.push(copied(alloc, tree)?)?;
    }
    Ok(copies)
}
