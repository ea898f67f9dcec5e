// A tree turned so that each part begins with the least column with which it can.
ghost use Rattle.std.specs.Prelude.{◌≡◌, ◌⊎◌, map, reverse, IfOk, IsPermutation};
ghost use Rattle.pq_tree.specs.Outline.{leaf, p_node, q_node};
ghost use Rattle.pq_tree.specs.Proper.{outline_of, forest};
ghost use Rattle.pq_tree.specs.Equivalent.{IsEquivalent, AreEquivalent};
ghost use Rattle.order_list.specs.Low.{first_column, first_of, FirstsRise, EndsLow, StandsLow};
ghost use Rattle.order_list.specs.LowTrees.{outline_low};

use crate::NoMemory;
use crate::low::Low;
use pq_tree::{Tree, View};
use std::alloc::Global;

/// The tree with the same frontiers in which each part begins with the least column with which it can. Each subtree's
/// first column comes back with it, so each node is looked at once.
#[cycle(turn)]
pub fn low_tree(alloc: Global, tree: &Tree) -> Result<Low, NoMemory>
    ensures { IfOk result (λ low. IsEquivalent (outline_of tree.now) (outline_low low)) }
{
    match tree.view() {
        View::Leaf(column) => Ok(low_leaf(column)),
        View::P(children) => {
            let mut children = low_trees(alloc, children)?;
            sort_by_first(&mut children);
            low_p(alloc, children)
        }
        View::Q(children) => {
            let mut children = low_trees(alloc, children)?;
            turn_low(&mut children);
            low_q(alloc, children)
        }
    }
}

// Each of the trees so.
#[cycle(turn)]
fn low_trees(alloc: Global, trees: &[Tree]) -> Result<Vec<Low>, NoMemory>
    ensures { IfOk result (λ all. AreEquivalent (forest (map outline_of trees.now)) (map outline_low all.items)) }
{
    let mut all = Vec::with_capacity(alloc, trees.len())?;
    for tree in trees {
        all.push(low_tree(alloc, tree)?)?;
    }
    Ok(all)
}

// Puts the trees in rising order of their first columns.
fn sort_by_first(trees: &mut Vec<Low>)
    ensures moved { IsPermutation trees.old.items trees.new.items }
    ensures rise { FirstsRise (forest (map outline_low trees.new.items)) }
{
    trees.sort_unstable_by_key(|tree| tree.first);
}

// Reverses the trees where the first column of the last is below that of the first.
fn turn_low(trees: &mut Vec<Low>)
    ensures turned { (trees.new.items ≡ trees.old.items) ⊎ (trees.new.items ≡ reverse trees.old.items) }
    ensures rise { EndsLow (forest (map outline_low trees.new.items)) }
{
    let count = trees.len();
    if count > 1 && trees[count - 1].first < trees[0].first {
        trees.reverse();
    }
}

// The leaf of a column.
fn low_leaf(column: u32) -> Low
    ensures { outline_low result ≡ leaf column }
{
    with_first(Tree::leaf(column), column)
}

// The P-node over trees whose first columns rise.
fn low_p(alloc: Global, children: Vec<Low>) -> Result<Low, NoMemory>
    requires { FirstsRise (forest (map outline_low children.items)) }
    ensures { IfOk result (λ low. outline_low low ≡ p_node (forest (map outline_low children.items))) }
{
    let (trees, first) = trees_and_first(alloc, children)?;
    Ok(with_first(Tree::p(trees), first))
}

// The Q-node over trees of which the two ends rise.
fn low_q(alloc: Global, children: Vec<Low>) -> Result<Low, NoMemory>
    requires { EndsLow (forest (map outline_low children.items)) }
    ensures { IfOk result (λ low. outline_low low ≡ q_node (forest (map outline_low children.items))) }
{
    let (trees, first) = trees_and_first(alloc, children)?;
    Ok(with_first(Tree::q(trees), first))
}

// Such a tree, with its first column.
fn with_first(tree: Tree, first: u32) -> Low
    requires { StandsLow (outline_of tree) × (first ≡ first_column (outline_of tree)) }
    ensures { outline_low result ≡ outline_of tree }
{
    Low { tree, first }
}

// The trees alone, and the first column of the first tree, 0 where there is none.
fn trees_and_first(alloc: Global, all: Vec<Low>) -> Result<(Vec<Tree>, u32), NoMemory>
    ensures trees { IfOk result (λ bare. map outline_of bare.0.items ≡ map outline_low all.items) }
    ensures first { IfOk result (λ bare. bare.1 ≡ first_of (forest (map outline_low all.items))) }
{
    let first = first_of_all(&all);
    let mut trees = Vec::with_capacity(alloc, all.len())?;
    for one in all {
        trees.push(one.tree)?;
    }
    Ok((trees, first))
}

// The first column of the first tree, 0 where there is none.
fn first_of_all(all: &[Low]) -> u32
    ensures { result ≡ first_of (forest (map outline_low all.now)) }
{
    match all.split_first() {
        None => 0,
        Some((tree, _)) => tree.first,
    }
}
