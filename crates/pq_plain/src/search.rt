// The search for the pertinent root: one walk over the tree, each child before its node.
ghost use Rattle.std.specs.Prelude.{◌≡◌, ◌<◌, [], ◌∷◌, length, IfOk, OnErr};
ghost use Rattle.std.specs.List.Sorted.{IsNonDecreasing};
ghost use Rattle.pq_tree.specs.Proper.{outline_of, IsTree, AreTrees};
ghost use Rattle.pq_plain.specs.Seen.{outlines};
ghost use Rattle.pq_plain.specs.Found.{hits, IsSought, IsRootStep, IsFound, IsFoundBelow, IsFoundIn};
ghost use Rattle.tree_theory.specs.Outcomes.{IsLowest};

use crate::at_root::{Outcome, reduce_root};
use pq_tree::Tree;
use row_model::{NoMemory, row_has};
use std::alloc::Global;
use std::mem;
use tree_theory::Step;

// What a search for the pertinent root found in a tree.
#[derive(Drop)]
pub enum Found {
    // The root isn't there. So many columns of the row are.
    Columns(usize),
    // The root is there, and this became of it.
    Root(Step),
}

// Reduces the tree at its pertinent root, if a node holds the whole row. The tree is unchanged where it has no such
// node, where the row is refused, and on an error.
#[cycle(search)]
pub fn reduce_tree(alloc: Global, row: &[u32], tree: &mut Tree) -> Result<Found, NoMemory>
    requires row { IsSought row.now }
    requires tree { IsTree (outline_of tree.old) }
    ensures found { IfOk result (IsFound row.now (outline_of tree.old) (outline_of tree.new)) }
    ensures err { OnErr result (outline_of tree.new ≡ outline_of tree.old) }
{
    match reduce_below(alloc, row, tree)? {
        Found::Root(step) => Ok(Found::Root(step)),
        Found::Columns(count) => {
            if count < row.len() {
                return Ok(Found::Columns(count));
            }
            let step = reduce_here(alloc, row, tree)?;
            Ok(Found::Root(step))
        }
    }
}

// Searches the children of the tree, or counts its column where it has none.
#[cycle(search)]
fn reduce_below(alloc: Global, row: &[u32], tree: &mut Tree) -> Result<Found, NoMemory>
    requires row { IsSought row.now }
    requires tree { IsTree (outline_of tree.old) }
    ensures found { IfOk result (IsFoundBelow row.now (outline_of tree.old) (outline_of tree.new)) }
    ensures err { OnErr result (outline_of tree.new ≡ outline_of tree.old) }
{
    match mem::replace(tree, Tree::Leaf(0)) {
        Tree::Leaf(column) => {
            *tree = Tree::Leaf(column);
            Ok(Found::Columns(count_leaf(row, column)))
        }
        Tree::P(mut children) => {
            let found = reduce_children(alloc, row, &mut children);
            *tree = Tree::P(children);
            found
        }
        Tree::Q(mut children) => {
            let found = reduce_children(alloc, row, &mut children);
            *tree = Tree::Q(children);
            found
        }
    }
}

// Searches the trees from left to right, up to the first that holds the whole row.
#[cycle(search)]
fn reduce_children(alloc: Global, row: &[u32], children: &mut [Tree]) -> Result<Found, NoMemory>
    requires row { IsSought row.now }
    requires trees { AreTrees (outlines children.old) }
    ensures found { IfOk result (IsFoundIn row.now (outlines children.old) (outlines children.new)) }
    ensures err { OnErr result (outlines children.new ≡ outlines children.old) }
{
    let mut count = 0;
    for i in 0..children.len() {
        match reduce_tree(alloc, row, &mut children[i])? {
            Found::Root(step) => return Ok(Found::Root(step)),
            Found::Columns(columns) => count += columns,
        }
    }
    Ok(Found::Columns(count))
}

// One if the row has the column, else zero.
fn count_leaf(row: &[u32], column: u32) -> usize
    requires { IsNonDecreasing row.now }
    ensures { result ≡ hits row.now (column ∷ []) }
{
    if row_has(row, column) { 1 } else { 0 }
}

// Applies the templates to a tree whose root is the pertinent root.
fn reduce_here(alloc: Global, row: &[u32], tree: &mut Tree) -> Result<Step, NoMemory>
    requires ascending { IsNonDecreasing row.now }
    requires some { 0 < length row.now }
    requires tree { IsTree (outline_of tree.old) }
    requires lowest { IsLowest row.now (outline_of tree.old) }
    ensures step { IfOk result (IsRootStep row.now (outline_of tree.old) (outline_of tree.new)) }
    ensures err { OnErr result (outline_of tree.new ≡ outline_of tree.old) }
{
    match reduce_root(alloc, row, tree)? {
        Outcome::Unchanged => Ok(Step::Taken),
        Outcome::Replaced(reduced) => {
            *tree = reduced;
            Ok(Step::Taken)
        }
        Outcome::NoTemplate => Ok(Step::Refused),
    }
}
