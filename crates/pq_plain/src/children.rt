// The children of a node by their labels.
ghost use Rattle.std.specs.Prelude.{◌≡◌, map, length, IfOk};
ghost use Rattle.tree_theory.specs.Templates.{star};
ghost use Rattle.pq_tree.specs.Forests.{back};
ghost use Rattle.tree_theory.specs.Labels.{partials};
ghost use Rattle.pq_plain.specs.Seen.{outlines, halves_seen, label_seen, whole_trees};

use crate::copy::{all_copied, copied};
use crate::label::{Halves, Label, Whole};
use pq_tree::Tree;
use row_model::NoMemory;
use std::alloc::Global;

// Copies of the children with this label.
pub fn whole_children(
    alloc: Global,
    children: &[Tree],
    labels: &[Label],
    wanted: Whole,
) -> Result<Vec<Tree>, NoMemory>
    requires { length labels.now ≡ length children.now }
    ensures { IfOk result (λ v. outlines v.items ≡ whole_trees wanted (outlines children.now) (map label_seen labels.now)) }
{
    let mut copies = Vec::new(alloc);
    for i in 0..children.len() {
        if wanted.is(&labels[i]) {
            copies.push(copied(alloc, &children[i])?)?;
        }
    }
    Ok(copies)
}

// The partials among the labels, in the same order.
pub fn partial_children(alloc: Global, labels: Vec<Label>) -> Result<Vec<Halves>, NoMemory>
    ensures { IfOk result (λ v. map halves_seen v.items ≡ partials (map label_seen labels.items)) }
{
    let mut halves = Vec::new(alloc);
    for label in labels {
        match label {
            Label::Partial(half) => halves.push(half)?,
            Label::Empty | Label::Full => {}
        }
    }
    Ok(halves)
}

// `P*(X)`: nothing for no tree, the tree itself for one, and a P-node over two or more.
pub fn star_of(alloc: Global, trees: Vec<Tree>) -> Result<Vec<Tree>, NoMemory>
    ensures { IfOk result (λ v. outlines v.items ≡ star (outlines trees.items)) }
{
    if trees.len() < 2 {
        return Ok(trees);
    }
    let mut node = Vec::new(alloc);
    node.push(Tree::P(trees))?;
    Ok(node)
}

// Copies of the trees, from the last to the first.
pub fn back_copied(alloc: Global, trees: &[Tree]) -> Result<Vec<Tree>, NoMemory>
    ensures { IfOk result (λ v. outlines v.items ≡ back (outlines trees.now)) }
{
    let mut copies = all_copied(alloc, trees)?;
    copies.reverse();
    Ok(copies)
}
