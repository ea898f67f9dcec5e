//! Whether a tree stands for every order of some rows, by the classes of pairs of columns in
//! their incompatibility graph.
//!
//! The columns of a node stay together where those of each child do, and each two neighbours of them that stand in
//! different children are alike towards each column outside the node: the pairs of the two with that column are in one
//! class. The children of a Q-node stand in line where all pairs of columns of two of them, the one of the earlier
//! child first, are in one class. With c columns that takes fewer than 2c² comparisons of classes.

ghost use Rattle.std.specs.Prelude.{◌≡◌, ◌↔◌, ◌⊎◌, ◌≤◌, ◌<◌, ◌-◌, ◌+◌, ◌^◌, ℕ, List, length, map, IfOk, IsTrue};
ghost use Rattle.column_order.specs.Orders.{IsOrder};
ghost use Rattle.pq_tree.specs.Outline.{leaves, leaves_of};
ghost use Rattle.pq_tree.specs.Proper.{outline_of, forest, HasArities, HaveArities};
ghost use Rattle.pq_tree.specs.PqTree.{column_count, outline};
ghost use Rattle.tree_theory.specs.Tied.{AreTogether, AreInLine, IsClosed, IsInLine};
ghost use Rattle.pair_classes.specs.Classes.{TellsClasses};
ghost use Rattle.verdict_check.specs.Complete.{InRows, IsComplete, AreComplete, RunsFrom, IsOutside, pair_at};

use pair_classes::Classes;
use pq_tree::{PqTree, Tree};
use row_model::{NoMemory, Pair};
use std::alloc::Global;

/// Whether the columns of each node of the tree stay together, and the children of each of its Q-nodes stand in line,
/// in the rows of which the classes are.
///
/// Where each frontier of the tree keeps these rows too, the tree is tied to them: its frontiers
/// are exactly their valid orders.
///
/// # Errors
///
/// `NoMemory`.
pub fn complete(alloc: Global, tree: &PqTree, classes: &Classes) -> Result<bool, NoMemory>
    requires { column_count tree.now ≡ classes.now.columns }
    ensures { IfOk result (λ yes. (c : ℕ) (rows : List (List ℕ)) →
        TellsClasses c rows classes.now →
        IsTrue yes ↔ (AreTogether c rows (outline tree.now) × AreInLine c rows (outline tree.now))) }
{
    let line = tree.frontier(alloc)?;
    Ok(is_complete_at(tree.root(), &line, 0, classes))
}

/// Whether the tree is complete, whose columns stand in the line from `start` on.
#[cycle(complete)]
fn is_complete_at(tree: &Tree, line: &[u32], start: usize, classes: &Classes) -> bool
    requires proper { HasArities (outline_of tree.now) }
    requires line { IsOrder classes.now.columns line.now }
    requires place { RunsFrom line.now start (leaves (outline_of tree.now)) }
    ensures { InRows classes.now (λ R. IsTrue result ↔ IsComplete R line.now (outline_of tree.now)) }
{
    match tree {
        Tree::Leaf(_) => true,
        Tree::P(children) => are_together_at(children, line, start, classes),
        Tree::Q(children) => {
            are_together_at(children, line, start, classes)
                && are_in_line_at(children, line, start, classes)
        }
    }
}

/// Whether children of one node are complete, and their columns stay together.
#[cycle(complete)]
fn are_together_at(children: &[Tree], line: &[u32], start: usize, classes: &Classes) -> bool
    requires proper { HaveArities (forest (map outline_of children.now)) }
    requires line { IsOrder classes.now.columns line.now }
    requires place { RunsFrom line.now start (leaves_of (forest (map outline_of children.now))) }
    ensures { InRows classes.now (λ R. IsTrue result ↔
        (AreComplete R line.now (forest (map outline_of children.now)) × IsClosed R line.now (leaves_of (forest (map outline_of children.now))))) }
{
    let end = start + leaf_counts(children);
    let mut at = start;
    for child in children {
        if !is_joined_at(line, at, start, end, classes) {
            return false;
        }
        if !is_complete_at(child, line, at, classes) {
            return false;
        }
        at += leaf_count(child);
    }
    true
}

/// Whether the children of one node stand in line.
fn are_in_line_at(children: &[Tree], line: &[u32], start: usize, classes: &Classes) -> bool
    requires line { IsOrder classes.now.columns line.now }
    requires place { RunsFrom line.now start (leaves_of (forest (map outline_of children.now))) }
    ensures { InRows classes.now (λ R. IsTrue result ↔ IsInLine R (forest (map outline_of children.now))) }
{
    let end = start + leaf_counts(children);
    let mut at = start;
    for child in children {
        let next = at + leaf_count(child);
        if !go_forward(line, start, at, next, end, classes) {
            return false;
        }
        at = next;
    }
    true
}

/// The number of leaves of the tree.
#[cycle(counts)]
fn leaf_count(tree: &Tree) -> usize
    requires { length (leaves (outline_of tree.now)) < 2 ^ 64 }
    ensures { result ≡ length (leaves (outline_of tree.now)) }
{
    match tree {
        Tree::Leaf(_) => 1,
        Tree::P(children) | Tree::Q(children) => leaf_counts(children),
    }
}

/// The number of leaves of all these trees.
#[cycle(counts)]
fn leaf_counts(trees: &[Tree]) -> usize
    requires { length (leaves_of (forest (map outline_of trees.now))) < 2 ^ 64 }
    ensures { result ≡ length (leaves_of (forest (map outline_of trees.now))) }
{
    let mut count = 0;
    for tree in trees {
        count += leaf_count(tree);
    }
    count
}

/// Whether the columns at this index and at the one before, both of the node from `start` to before `end`, are alike
/// towards each column outside the node. None stands before the first of the node.
fn is_joined_at(line: &[u32], at: usize, start: usize, end: usize, classes: &Classes) -> bool
    requires line { IsOrder classes.now.columns line.now }
    requires place { (start ≤ at) × (at < end) × (end ≤ length line.now) }
    ensures { InRows classes.now (λ R. IsTrue result ↔
        (start < at → (i : ℕ) → i < length line.now → IsOutside start end i → R (pair_at line.now (at - 1) i) (pair_at line.now at i))) }
{
    at == start
        || are_alike(line, at, 0, start, classes) && are_alike(line, at, end, line.len(), classes)
}

/// Whether the columns at this index and at the one before are alike towards those from `from` to before `to`.
fn are_alike(line: &[u32], at: usize, from: usize, to: usize, classes: &Classes) -> bool
    requires line { IsOrder classes.now.columns line.now }
    requires place { (1 ≤ at) × (at < length line.now) × (to ≤ length line.now) }
    requires apart { (to < at) ⊎ (at < from) }
    ensures { InRows classes.now (λ R. IsTrue result ↔
        ((i : ℕ) → from ≤ i → i < to → R (pair_at line.now (at - 1) i) (pair_at line.now at i))) }
{
    for i in from..to {
        if !classes.same(pair(line, at - 1, i), pair(line, at, i)) {
            return false;
        }
    }
    true
}

/// Whether the pairs of a column from `at` to before `next` and one from `next` to before `end` are all in one class
/// with that of the columns at `start` and before `end`.
fn go_forward(
    line: &[u32],
    start: usize,
    at: usize,
    next: usize,
    end: usize,
    classes: &Classes,
) -> bool
    requires line { IsOrder classes.now.columns line.now }
    requires place { (start ≤ at) × (next ≤ end) × (end ≤ length line.now) }
    ensures { InRows classes.now (λ R. IsTrue result ↔
        ((x : ℕ) → at ≤ x → x < next → (y : ℕ) → next ≤ y → y < end → R (pair_at line.now start (end - 1)) (pair_at line.now x y))) }
{
    for x in at..next {
        if !goes_forward(line, start, x, next, end, classes) {
            return false;
        }
    }
    true
}

/// Whether the pairs of the column at `x` and one from `next` to before `end` are all in one class with that of the
/// columns at `start` and before `end`.
fn goes_forward(
    line: &[u32],
    start: usize,
    x: usize,
    next: usize,
    end: usize,
    classes: &Classes,
) -> bool
    requires line { IsOrder classes.now.columns line.now }
    requires place { (start ≤ x) × (x < next) × (end ≤ length line.now) }
    ensures { InRows classes.now (λ R. IsTrue result ↔
        ((y : ℕ) → next ≤ y → y < end → R (pair_at line.now start (end - 1)) (pair_at line.now x y))) }
{
    for y in next..end {
        if !classes.same(pair(line, start, end - 1), pair(line, x, y)) {
            return false;
        }
    }
    true
}

/// The pair of the columns at two indices.
fn pair(line: &[u32], x: usize, y: usize) -> Pair
    requires { (x < length line.now) × (y < length line.now) }
    ensures { result ≡ pair_at line.now x y }
{
    Pair {
        a: line[x],
        b: line[y],
    }
}
