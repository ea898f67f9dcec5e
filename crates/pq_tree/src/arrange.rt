//! Leaves and P-nodes in canonical form, and the walk that gives a tree its canonical form.

ghost use Rattle.std.specs.Prelude.{◌≡◌, map, IfOk, IsPermutation};
ghost use Rattle.std.specs.List.Sorted.{IsStrictlyIncreasing};
ghost use Rattle.pq_tree.specs.Outline.{leaf, p_node};
ghost use Rattle.pq_tree.specs.Forests.{forest};
ghost use Rattle.pq_tree.specs.Proper.{outline_of, AreTrees};
ghost use Rattle.pq_tree.specs.Equivalent.{IsEquivalent, AreEquivalent};
ghost use Rattle.pq_tree.specs.Canonical.{leasts, least_of};
ghost use Rattle.pq_tree.specs.Arranged.{outline_in, children_in};

use crate::arranged::Arranged;
use crate::q_children::QChildren;
use crate::{NoMemory, Tree};
use std::alloc::Global;

impl Arranged {
    /// The leaf of a column.
    pub fn leaf(column: u32) -> Arranged
        ensures { outline_in result ≡ leaf column }
    {
        Arranged {
            tree: Tree::Leaf(column),
            least_column: column,
        }
    }

    /// The P-node over these trees, in canonical form: they are put in rising order of their least columns.
    ///
    /// # Errors
    ///
    /// `NoMemory` where the allocator has no room for the new list.
    pub fn p(alloc: Global, mut children: Vec<Arranged>) -> Result<Arranged, NoMemory>
        ensures { IfOk result (λ a. IsEquivalent (p_node (forest (map outline_in children.items))) (outline_in a)) }
    {
        sort_by_least(&mut children);
        arranged_p(alloc, children)
    }
}

/// The tree in its canonical form. Each subtree's least column comes back with it, so each node is looked at once.
#[cycle(arrange)]
pub fn arranged_tree(alloc: Global, tree: &Tree) -> Result<Arranged, NoMemory>
    ensures { IfOk result (λ a. IsEquivalent (outline_of tree.now) (outline_in a)) }
{
    match tree {
        Tree::Leaf(column) => Ok(Arranged::leaf(*column)),
        Tree::P(children) => Arranged::p(alloc, arranged_trees(alloc, children)?),
        Tree::Q(children) => Ok(arranged_children(alloc, children)?.into_q()),
    }
}

// Each tree in its canonical form.
#[cycle(arrange)]
fn arranged_trees(alloc: Global, trees: &[Tree]) -> Result<Vec<Arranged>, NoMemory>
    ensures { IfOk result (λ v. AreEquivalent (forest (map outline_of trees.now)) (map outline_in v.items)) }
{
    let mut all = Vec::with_capacity(alloc, trees.len())?;
    for tree in trees {
        all.push(arranged_tree(alloc, tree)?)?;
    }
    Ok(all)
}

// The same as the children of a Q-node.
#[cycle(arrange)]
fn arranged_children(alloc: Global, trees: &[Tree]) -> Result<QChildren, NoMemory>
    ensures { IfOk result (λ q. AreEquivalent (forest (map outline_of trees.now)) (children_in q)) }
{
    let mut all = QChildren::with_capacity(alloc, trees.len())?;
    for tree in trees {
        all.push(arranged_tree(alloc, tree)?)?;
    }
    Ok(all)
}

// Puts the trees in rising order of their least columns.
fn sort_by_least(trees: &mut Vec<Arranged>)
    ensures moved { IsPermutation trees.old.items trees.new.items }
    ensures rising { let ts = forest (map outline_in trees.new.items) in AreTrees ts → IsStrictlyIncreasing (leasts ts) }
{
    trees.sort_unstable_by_key(|tree| tree.least_column);
}

// The P-node over trees that stand in rising order.
fn arranged_p(alloc: Global, children: Vec<Arranged>) -> Result<Arranged, NoMemory>
    requires { let ts = forest (map outline_in children.items) in AreTrees ts → IsStrictlyIncreasing (leasts ts) }
    ensures { IfOk result (λ a. outline_in a ≡ p_node (forest (map outline_in children.items))) }
{
    let least_column = least_of_all(&children);
    let tree = Tree::P(bare_trees(alloc, children)?);
    Ok(Arranged { tree, least_column })
}

// The least column of these trees, 0 where there is none.
fn least_of_all(all: &[Arranged]) -> u32
    ensures { result ≡ least_of (forest (map outline_in all.now)) }
{
    let Some((first, others)) = all.split_first() else {
        return 0;
    };
    let mut least = first.least_column;
    for other in others {
        least = least.min(other.least_column);
    }
    least
}

// The trees alone.
fn bare_trees(alloc: Global, all: Vec<Arranged>) -> Result<Vec<Tree>, NoMemory>
    ensures { IfOk result (λ v. map outline_of v.items ≡ map outline_in all.items) }
{
    let mut trees = Vec::with_capacity(alloc, all.len())?;
    for one in all {
        trees.push(one.tree)?;
    }
    Ok(trees)
}
