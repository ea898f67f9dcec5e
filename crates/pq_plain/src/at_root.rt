// The templates at the pertinent root, the smallest node that holds the whole row.
ghost use Rattle.std.specs.Prelude.{◌≡◌, ◌↔◌, ◌≤◌, ◌<◌, ◌++◌, map, length, IfOk, IfSome, IsSome, List, option_map};
ghost use Rattle.std.specs.List.Sorted.{IsNonDecreasing};
ghost use Rattle.std.specs.Option.{option_to_list};
ghost use Rattle.pq_tree.specs.Outline.{Outline, p_node, q_node};
ghost use Rattle.pq_tree.specs.Proper.{outline_of, IsTree};
ghost use Rattle.tree_theory.specs.Templates.{p2, p4, p6, q3, line, line_if, under};
ghost use Rattle.tree_theory.specs.Labels.{empty_trees, full_trees, partials};
ghost use Rattle.tree_theory.specs.Chosen.{IsRootOfP, IsRootOfQ};
ghost use Rattle.pq_plain.specs.Cuts.{IsSpanCut};
ghost use Rattle.tree_theory.specs.Outcomes.{FindsAny};
ghost use Rattle.tree_theory.specs.Outcomes.{IsLowest, HasRootLabels, IsRootFound};
ghost use Rattle.pq_plain.specs.Seen.{outlines, halves_seen, label_seen, labels_seen};
ghost use Rattle.pq_plain.specs.AtRoot.{outcome_seen, p_made, q_made, PartialsAt};

use crate::below::label_trees;
use crate::children::{partial_children, star_of, whole_children};
use crate::copy::all_copied;
use crate::label::{Halves, Label, Whole, count_kinds, leading, leading_partial};
use pq_tree::Tree;
use row_model::NoMemory;
use std::alloc::Global;

// What the templates make of the pertinent root.
#[derive(Drop)]
pub enum Outcome {
    // The root stays as it is.
    Unchanged,
    // This tree takes the place of the root.
    Replaced(Tree),
    // At some node no template fits.
    NoTemplate,
}

// Applies the template that fits at the pertinent root, after those below it.
pub fn reduce_root(alloc: Global, row: &[u32], root: &Tree) -> Result<Outcome, NoMemory>
    requires ascending { IsNonDecreasing row.now }
    requires some { 0 < length row.now }
    requires tree { IsTree (outline_of root.now) }
    requires lowest { IsLowest row.now (outline_of root.now) }
    ensures { IfOk result (λ o. IsRootFound row.now (outline_of root.now) (outcome_seen (outline_of root.now) o)) }
{
    match root {
        Tree::Leaf(_) => Ok(Outcome::Unchanged),
        Tree::P(children) => match label_trees(alloc, row, children)? {
            None => Ok(Outcome::NoTemplate),
            Some(labels) => root_p(alloc, children, labels),
        },
        Tree::Q(children) => match label_trees(alloc, row, children)? {
            None => Ok(Outcome::NoTemplate),
            Some(labels) => root_q(alloc, children, labels),
        },
    }
}

// P1, P2, P4 and P6 at the pertinent root.
fn root_p(alloc: Global, children: &[Tree], labels: Vec<Label>) -> Result<Outcome, NoMemory>
    requires length { length labels.items ≡ length children.now }
    requires root { HasRootLabels (p_node (outlines children.now)) (labels_seen labels) }
    ensures { IfOk result (λ o. FindsAny (IsRootOfP (outlines children.now) (labels_seen labels)) (outcome_seen (p_node (outlines children.now)) o)) }
{
    let kinds = count_kinds(&labels);
    match (kinds.partial, kinds.empty, kinds.full) {
        (0, 0, _) => Ok(Outcome::Unchanged),
        (0, _, 0) => Ok(Outcome::NoTemplate),
        (0, _, _) => {
            let tree = replaced_p(alloc, children, labels)?;
            Ok(Outcome::Replaced(tree))
        }
        (1, _, 0) => Ok(Outcome::NoTemplate),
        (1, _, _) => {
            let tree = replaced_p(alloc, children, labels)?;
            Ok(Outcome::Replaced(tree))
        }
        (2, _, _) => {
            let tree = replaced_p(alloc, children, labels)?;
            Ok(Outcome::Replaced(tree))
        }
        _ => Ok(Outcome::NoTemplate),
    }
}

// P2, P4 or P6, by the number of partial children.
fn replaced_p(alloc: Global, children: &[Tree], labels: Vec<Label>) -> Result<Tree, NoMemory>
    requires length { length labels.items ≡ length children.now }
    requires few { length (partials (labels_seen labels)) ≤ 2 }
    ensures { IfOk result (λ t. outline_of t ≡ p_made (partials (labels_seen labels)) (empty_trees (outlines children.now) (labels_seen labels)) (full_trees (outlines children.now) (labels_seen labels))) }
{
    let empty = whole_children(alloc, children, &labels, Whole::Empty)?;
    let full = whole_children(alloc, children, &labels, Whole::Full)?;
    let mut partials = partial_children(alloc, labels)?;
    match partials.pop() {
        None => {
            let tree = template_p2(alloc, empty, full)?;
            Ok(tree)
        }
        Some(last) => match partials.pop() {
            None => {
                let tree = template_p4(alloc, last, empty, full)?;
                Ok(tree)
            }
            Some(first) => {
                let tree = template_p6(alloc, first, last, empty, full)?;
                Ok(tree)
            }
        },
    }
}

// P2: empty children E and full children F become P over `P*(F)` and E.
fn template_p2(alloc: Global, mut empty: Vec<Tree>, full: Vec<Tree>) -> Result<Tree, NoMemory>
    ensures { IfOk result (λ t. outline_of t ≡ p2 (outlines empty.items) (outlines full.items)) }
{
    let mut children = star_of(alloc, full)?;
    children.append(&mut empty)?;
    Ok(Tree::P(children))
}

// P4: empty children E, full children F and one partial `[e f]` become P over `[e f P*(F)]` and E; where E is empty,
// that Q-node alone.
fn template_p4(
    alloc: Global,
    partial: Halves,
    empty: Vec<Tree>,
    full: Vec<Tree>,
) -> Result<Tree, NoMemory>
    ensures { IfOk result (λ t. outline_of t ≡ p4 (outlines empty.items) (halves_seen partial) (outlines full.items)) }
{
    let mut line = in_line(partial)?;
    let mut end = star_of(alloc, full)?;
    line.append(&mut end)?;
    let tree = under_p(alloc, empty, Tree::Q(line))?;
    Ok(tree)
}

// P6: empty children E, full children F and two partials `[e f]` and `[e2 f2]` become P over `[e f P*(F) f2 e2]`, the
// second turned, and E; where E is empty, that Q-node alone.
fn template_p6(
    alloc: Global,
    first: Halves,
    second: Halves,
    empty: Vec<Tree>,
    full: Vec<Tree>,
) -> Result<Tree, NoMemory>
    ensures { IfOk result (λ t. outline_of t ≡ p6 (outlines empty.items) (halves_seen first) (outlines full.items) (halves_seen second)) }
{
    let mut line = in_line(first)?;
    let mut middle = star_of(alloc, full)?;
    line.append(&mut middle)?;
    let mut end = in_line(second)?;
    end.reverse();
    line.append(&mut end)?;
    let tree = under_p(alloc, empty, Tree::Q(line))?;
    Ok(tree)
}

// The trees of the partial `[e f]` from left to right.
fn in_line(partial: Halves) -> Result<Vec<Tree>, NoMemory>
    ensures { IfOk result (λ v. outlines v.items ≡ line (halves_seen partial)) }
{
    let Halves {
        empty: mut line,
        mut full,
    } = partial;
    line.append(&mut full)?;
    Ok(line)
}

// P over the tree and the others, or the tree alone where there are no others.
fn under_p(alloc: Global, mut others: Vec<Tree>, tree: Tree) -> Result<Tree, NoMemory>
    ensures { IfOk result (λ t. outline_of t ≡ under (outlines others.items) (outline_of tree)) }
{
    if others.is_empty() {
        return Ok(tree);
    }
    let mut children = Vec::new(alloc);
    children.push(tree)?;
    children.append(&mut others)?;
    Ok(Tree::P(children))
}

// Where the children of a Q-node that read empty, at most one partial, full, at most one partial, empty are cut.
#[derive(Clone, Copy)]
struct Span {
    // How many empty children come first.
    before: usize,
    // How many children stand before the full ones.
    full_from: usize,
    // How many children stand before the end of the full ones.
    full_to: usize,
    // How many children stand before the last empty ones.
    behind: usize,
}

// Where the labels read empty, at most one partial, full, at most one partial, empty, if they do.
fn find_span(labels: &[Label]) -> Option<Span>
    ensures cut { (ts : List Outline) → length ts ≡ length labels.now → IsSpanCut ts (map label_seen labels.now) result }
    ensures within { IfSome result (λ s. (s.before ≤ s.full_from) × (s.full_from ≤ s.full_to) × (s.full_to ≤ s.behind) × (s.behind ≤ length labels.now)) }
    ensures partials { IfSome result (PartialsAt (map label_seen labels.now)) }
{
    let before = leading(labels, Whole::Empty);
    let full_from = before + leading_partial(&labels[before..]);
    let full_to = full_from + leading(&labels[full_from..], Whole::Full);
    let behind = full_to + leading_partial(&labels[full_to..]);
    if behind + leading(&labels[behind..], Whole::Empty) == labels.len() {
        Some(Span {
            before,
            full_from,
            full_to,
            behind,
        })
    } else {
        None
    }
}

// Q1, Q2 and Q3 at the pertinent root.
fn root_q(alloc: Global, children: &[Tree], labels: Vec<Label>) -> Result<Outcome, NoMemory>
    requires length { length labels.items ≡ length children.now }
    requires root { HasRootLabels (q_node (outlines children.now)) (labels_seen labels) }
    ensures { IfOk result (λ o. FindsAny (IsRootOfQ (outlines children.now) (labels_seen labels)) (outcome_seen (q_node (outlines children.now)) o)) }
{
    match find_span(&labels) {
        None => Ok(Outcome::NoTemplate),
        Some(span) => {
            let partials = (span.full_from - span.before) + (span.behind - span.full_to);
            match (partials, span.full_to - span.full_from) {
                (0, _) => Ok(Outcome::Unchanged),
                (1, 0) => Ok(Outcome::NoTemplate),
                _ => {
                    let tree = replaced_q(alloc, children, labels, span)?;
                    Ok(Outcome::Replaced(tree))
                }
            }
        }
    }
}

// Q2 or Q3, by the partials on both sides of the full children.
fn replaced_q(
    alloc: Global,
    children: &[Tree],
    labels: Vec<Label>,
    span: Span,
) -> Result<Tree, NoMemory>
    requires within { (span.before ≤ span.full_from) × (span.full_from ≤ span.full_to) × (span.full_to ≤ span.behind) × (span.behind ≤ length children.now) }
    requires partials { PartialsAt (labels_seen labels) span }
    ensures { IfOk result (λ t. outline_of t ≡ q_made (map outline_of children.now) (labels_seen labels) span) }
{
    let before = all_copied(alloc, &children[..span.before])?;
    let full = all_copied(alloc, &children[span.full_from..span.full_to])?;
    let behind = all_copied(alloc, &children[span.behind..])?;
    let mut partials = partial_children(alloc, labels)?;
    let second = last_if(&mut partials, span.behind - span.full_to);
    let first = last_if(&mut partials, span.full_from - span.before);
    let tree = template_q3(alloc, before, first, full, second, behind)?;
    Ok(tree)
}

// The last partial, if the count isn't zero.
fn last_if(partials: &mut Vec<Halves>, count: usize) -> Option<Halves>
    requires { count ≤ length partials.old.items }
    ensures items { partials.old.items ≡ partials.new.items ++ option_to_list result }
    ensures some { IsSome result ↔ (0 < count) }
{
    if count == 0 { None } else { partials.pop() }
}

// Q3, and Q2 where one of the partials is missing: the partials `[e f]` and `[e2 f2]` round the full children F, and
// the empty children E and G round them, become `[E e f F f2 e2 G]`.
fn template_q3(
    alloc: Global,
    before: Vec<Tree>,
    first: Option<Halves>,
    mut full: Vec<Tree>,
    second: Option<Halves>,
    mut behind: Vec<Tree>,
) -> Result<Tree, NoMemory>
    ensures { IfOk result (λ t. outline_of t ≡ q_node (q3 (outlines before.items) (option_map halves_seen first) (outlines full.items) (option_map halves_seen second) (outlines behind.items))) }
{
    let mut line = before;
    let mut left = in_line_if(alloc, first)?;
    line.append(&mut left)?;
    line.append(&mut full)?;
    let mut right = in_line_if(alloc, second)?;
    right.reverse();
    line.append(&mut right)?;
    line.append(&mut behind)?;
    Ok(Tree::Q(line))
}

// The trees of the partial, if there is one, from left to right.
fn in_line_if(alloc: Global, partial: Option<Halves>) -> Result<Vec<Tree>, NoMemory>
    ensures { IfOk result (λ v. outlines v.items ≡ line_if (option_map halves_seen partial)) }
{
    match partial {
        None => Ok(Vec::new(alloc)),
        Some(halves) => {
            let line = in_line(halves)?;
            Ok(line)
        }
    }
}
