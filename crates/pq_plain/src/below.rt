// The label of a tree below the pertinent root, and the templates there.
ghost use Rattle.std.specs.Prelude.{◌≡◌, ◌≤◌, map, length, reverse, IfOk, option_map, Some};
ghost use Rattle.std.specs.List.Sorted.{IsNonDecreasing};
ghost use Rattle.pq_tree.specs.Proper.{outline_of};
ghost use Rattle.tree_theory.specs.Templates.{p3, p5, q2};
ghost use Rattle.pq_tree.specs.Forests.{back};
ghost use Rattle.tree_theory.specs.Reduced.{IsLabelOfLeaf};
ghost use Rattle.tree_theory.specs.Outcomes.{IsLabelFound, AreLabelsFound};
ghost use Rattle.tree_theory.specs.Labels.{partials, first_of};
ghost use Rattle.tree_theory.specs.Chosen.{IsLabelOfP, IsLabelOfQ};
ghost use Rattle.pq_plain.specs.Cuts.{run_label, IsLabelFromEnd};
ghost use Rattle.tree_theory.specs.Outcomes.{FindsAny};
ghost use Rattle.pq_plain.specs.Seen.{outlines, halves_seen, label_seen, labels_seen};

use crate::children::{back_copied, partial_children, star_of, whole_children};
use crate::copy::all_copied;
use crate::label::{Halves, Label, Whole, count_kinds, find_run};
use pq_tree::Tree;
use row_model::{NoMemory, row_has};
use std::alloc::Global;

// The label of a tree below the pertinent root, `None` where at some node no template fits.
#[cycle(label)]
pub fn label_tree(alloc: Global, row: &[u32], tree: &Tree) -> Result<Option<Label>, NoMemory>
    requires { IsNonDecreasing row.now }
    ensures { IfOk result (λ r. IsLabelFound row.now (outline_of tree.now) (option_map label_seen r)) }
{
    match tree {
        Tree::Leaf(column) => Ok(Some(label_leaf(row, *column))),
        Tree::P(children) => match label_trees(alloc, row, children)? {
            None => Ok(None),
            Some(labels) => label_p(alloc, children, labels),
        },
        Tree::Q(children) => match label_trees(alloc, row, children)? {
            None => Ok(None),
            Some(labels) => label_q(alloc, children, labels),
        },
    }
}

// The label of each tree, `None` where one has none.
#[cycle(label)]
pub fn label_trees(
    alloc: Global,
    row: &[u32],
    trees: &[Tree],
) -> Result<Option<Vec<Label>>, NoMemory>
    requires { IsNonDecreasing row.now }
    ensures { IfOk result (λ r. AreLabelsFound row.now (outlines trees.now) (option_map labels_seen r)) }
{
    let mut labels = Vec::new(alloc);
    for tree in trees {
        match label_tree(alloc, row, tree)? {
            None => return Ok(None),
            Some(label) => labels.push(label)?,
        }
    }
    Ok(Some(labels))
}

// L1: a leaf in the row is full.
fn label_leaf(row: &[u32], column: u32) -> Label
    requires { IsNonDecreasing row.now }
    ensures { IsLabelOfLeaf row.now column (label_seen result) }
{
    if row_has(row, column) {
        Label::Full
    } else {
        Label::Empty
    }
}

// P3: empty children E and full children F become the partial `[P*(E) P*(F)]`.
fn template_p3(alloc: Global, empty: Vec<Tree>, full: Vec<Tree>) -> Result<Halves, NoMemory>
    ensures { IfOk result (λ h. halves_seen h ≡ p3 (outlines empty.items) (outlines full.items)) }
{
    let empty = star_of(alloc, empty)?;
    let full = star_of(alloc, full)?;
    Ok(Halves { empty, full })
}

// P5: empty children E, full children F and one partial `[e f]` become the partial `[P*(E) e f P*(F)]`.
fn template_p5(
    alloc: Global,
    mut partial: Halves,
    empty: Vec<Tree>,
    full: Vec<Tree>,
) -> Result<Halves, NoMemory>
    ensures { IfOk result (λ h. halves_seen h ≡ p5 (outlines empty.items) (halves_seen partial) (outlines full.items)) }
{
    let mut all_empty = star_of(alloc, empty)?;
    all_empty.append(&mut partial.empty)?;
    let mut end = star_of(alloc, full)?;
    partial.full.append(&mut end)?;
    Ok(Halves {
        empty: all_empty,
        full: partial.full,
    })
}

// P1, P3 and P5, `None` where none fits.
fn label_p(alloc: Global, children: &[Tree], labels: Vec<Label>) -> Result<Option<Label>, NoMemory>
    requires { length labels.items ≡ length children.now }
    ensures { IfOk result (λ r. FindsAny (IsLabelOfP (outlines children.now) (labels_seen labels)) (option_map label_seen r)) }
{
    let kinds = count_kinds(&labels);
    match (kinds.partial, kinds.empty, kinds.full) {
        (0, 0, _) => Ok(Some(Label::Full)),
        (0, _, 0) => Ok(Some(Label::Empty)),
        (0, _, _) => {
            let empty = whole_children(alloc, children, &labels, Whole::Empty)?;
            let full = whole_children(alloc, children, &labels, Whole::Full)?;
            let halves = template_p3(alloc, empty, full)?;
            Ok(Some(Label::Partial(halves)))
        }
        (1, _, _) => {
            let empty = whole_children(alloc, children, &labels, Whole::Empty)?;
            let full = whole_children(alloc, children, &labels, Whole::Full)?;
            let mut partials = partial_children(alloc, labels)?;
            match partials.pop() {
                None => unreachable!(),
                Some(partial) => {
                    let halves = template_p5(alloc, partial, empty, full)?;
                    Ok(Some(Label::Partial(halves)))
                }
            }
        }
        _ => Ok(None),
    }
}

// Q2: the partial `[e f]` between empty children and full ones becomes the partial `[E e f F]`.
fn template_q2(
    mut partial: Halves,
    mut empty: Vec<Tree>,
    mut full: Vec<Tree>,
) -> Result<Halves, NoMemory>
    ensures { IfOk result (λ h. halves_seen h ≡ q2 (outlines empty.items) (Some (halves_seen partial)) (outlines full.items)) }
{
    empty.append(&mut partial.empty)?;
    partial.full.append(&mut full)?;
    Ok(Halves {
        empty,
        full: partial.full,
    })
}

// Q1 and Q2 for children that read empty, at most one partial, full.
fn label_run(
    alloc: Global,
    labels: Vec<Label>,
    empty: Vec<Tree>,
    full: Vec<Tree>,
) -> Result<Label, NoMemory>
    requires { length (partials (labels_seen labels)) ≤ 1 }
    ensures { IfOk result (λ l. label_seen l ≡ run_label (outlines empty.items) (first_of (partials (labels_seen labels))) (outlines full.items)) }
{
    let mut partials = partial_children(alloc, labels)?;
    match partials.pop() {
        None if empty.is_empty() => Ok(Label::Full),
        None if full.is_empty() => Ok(Label::Empty),
        None => Ok(Label::Partial(Halves { empty, full })),
        Some(partial) => {
            let halves = template_q2(partial, empty, full)?;
            Ok(Label::Partial(halves))
        }
    }
}

// Q1 and Q2, `None` where neither fits.
fn label_q(alloc: Global, children: &[Tree], labels: Vec<Label>) -> Result<Option<Label>, NoMemory>
    requires { length labels.items ≡ length children.now }
    ensures { IfOk result (λ r. FindsAny (IsLabelOfQ (outlines children.now) (labels_seen labels)) (option_map label_seen r)) }
{
    let kinds = count_kinds(&labels);
    match (kinds.partial, kinds.empty, kinds.full) {
        (0, 0, _) => Ok(Some(Label::Full)),
        (0, _, 0) => Ok(Some(Label::Empty)),
        _ => match find_run(&labels) {
            None => label_turned(alloc, children, labels),
            Some(run) => {
                let empty = all_copied(alloc, &children[..run.before])?;
                let full = all_copied(alloc, &children[run.behind..])?;
                let label = label_run(alloc, labels, empty, full)?;
                Ok(Some(label))
            }
        },
    }
}

// Q1 and Q2 for the children from the last to the first, `None` where neither fits.
fn label_turned(
    alloc: Global,
    children: &[Tree],
    mut labels: Vec<Label>,
) -> Result<Option<Label>, NoMemory>
    requires { length labels.items ≡ length children.now }
    ensures { IfOk result (λ r. IsLabelFromEnd (outlines children.now) (labels_seen labels) (option_map label_seen r)) }
{
    labels.reverse();
    match find_run(&labels) {
        None => Ok(None),
        Some(run) => {
            let count = children.len();
            let empty = back_copied(alloc, &children[count - run.before..])?;
            let full = back_copied(alloc, &children[..count - run.behind])?;
            let label = label_run(alloc, labels, empty, full)?;
            Ok(Some(label))
        }
    }
}
