//! Whether every frontier of a tree keeps a row, by the gaps between the tree's neighbouring leaves.
//!
//! Two neighbouring leaves part at a node. Every frontier keeps a row exactly where its columns stand side by side as
//! the tree stands, and where they part at deeper nodes than the leaves at the two ends part from those outside, or at
//! a Q-node at least as deep. So one walk over the tree serves all rows, and each row costs a walk over its columns.

ghost use Rattle.std.specs.Prelude.{◌≡◌, ◌↔◌, ◌≤◌, ◌<◌, ◌+◌, ◌-◌, ◌*◌, ◌^◌, ◌++◌, ℕ, length, map, IfOk, OnOk, IsTrue, EachIndex};
ghost use Rattle.pq_tree.specs.Outline.{Outline, leaves, leaves_of};
ghost use Rattle.pq_tree.specs.Proper.{outline_of, forest, HasArities, HaveArities};
ghost use Rattle.pq_tree.specs.PqTree.{column_count, outline};
ghost use Rattle.row_model.specs.Rows.{IsRow};
ghost use Rattle.verdict_judge.specs.Gaps.{gaps, gaps_of, depth, LiesWithin, IsWithinBoth, AreWithin, AreGaps, gap_at};
ghost use Rattle.verdict_judge.specs.YesTests.{AllKeep};

use crate::row_steps::count_row;
use pq_tree::{PqTree, Tree};
use row_model::{COLUMN_BOUND, NoMemory, Span, positions, span_of};
use std::alloc::Global;
use step_count::{Ledger, Steps};

/// Where two neighbouring leaves part: the depth of the node, whose root has depth 1, and its kind.
#[derive(Clone, Copy)]
enum LeafGap {
    /// They part at a P-node.
    P(u32),
    /// They part at a Q-node.
    Q(u32),
}

/// The leaves of a tree from left to right, and the gaps between them.
#[derive(Drop)]
pub struct Gaps {
    /// The position of each column, from 1.
    positions: Vec<u32>,
    /// The gap before each leaf, and the one after the last. The two at the ends lie at depth 0.
    gaps: Vec<LeafGap>,
}

impl LeafGap {
    /// The depth of the node.
    fn depth(self) -> u32
        ensures { result ≡ depth self }
    {
        match self {
            LeafGap::P(depth) | LeafGap::Q(depth) => depth,
        }
    }

    /// Whether the gap lies deeper than this, or is at a Q-node at least as deep.
    fn lies_within(self, outer: u32) -> bool
        ensures { IsTrue result ↔ LiesWithin outer self }
    {
        match self {
            LeafGap::P(depth) => outer < depth,
            LeafGap::Q(depth) => outer <= depth,
        }
    }
}

impl Gaps {
    /// The gaps of a tree, in one walk.
    pub fn new(alloc: Global, tree: &PqTree) -> Result<Gaps, NoMemory>
        requires { column_count tree.now ≤ COLUMN_BOUND }
        ensures { IfOk result (λ g. AreGaps (outline tree.now) g) }
    {
        let order = tree.frontier(alloc)?;
        let mut gaps = Vec::with_capacity(alloc, order.len() + 1)?;
        push_gaps(tree.root(), LeafGap::P(0), 1, &mut gaps)?;
        gaps.push(LeafGap::P(0))?;
        Ok(Gaps {
            positions: positions(alloc, &order)?,
            gaps,
        })
    }

    /// Whether every frontier of the tree keeps the row: in none of them a column that the row misses stands
    /// between two that it has.
    ///
    /// Takes at most two steps for each column of the row and one more, and no memory.
    pub fn holds<L: Ledger>(&self, row: &[u32], steps: &mut Steps<L>) -> bool
        requires tree { (t : Outline) × AreGaps t self.now }
        requires row { IsRow (length self.now.positions.items) row.now }
        ensures holds { (t : Outline) → AreGaps t self.now → (IsTrue result ↔ AllKeep t row.now) }
        ensures ticks { steps.new ≤ steps.old + 1 + 2 * length row.now }
        ensures turns { steps.old + 1 + length row.now ≤ steps.new }
        ensures each { IsTrue result → steps.old + 2 * length row.now ≤ steps.new }
    {
        count_row(row, steps);
        match span_of(&self.positions, row) {
            None => true,
            Some(Span { first, last }) => {
                (last - first) as usize + 1 == row.len()
                    && are_within(&self.gaps, first as usize, last as usize, steps)
            }
        }
    }
}

/// Whether the gaps from `first` to before `last` lie within the gap before them and within the gap after them.
/// Each one up to the first that does not is a step.
fn are_within<L: Ledger>(gaps: &[LeafGap], first: usize, last: usize, steps: &mut Steps<L>) -> bool
    requires { (1 ≤ first) × (first ≤ last) × (last < length gaps.now) }
    ensures within { IsTrue result ↔ AreWithin gaps.now first last }
    ensures ticks { steps.new ≤ steps.old + (last - first) }
    ensures turns { steps.old ≤ steps.new }
    ensures each { IsTrue result → steps.old + (last - first) ≤ steps.new }
    ensures looks { (k : ℕ) → first ≤ k → k < last →
        ((i : ℕ) → first ≤ i → i < k → IsWithinBoth gaps.now first last i) → steps.old + (k + 1 - first) ≤ steps.new }
{
    let outer = gaps[first - 1].depth().max(gaps[last].depth());
    all_within(&gaps[first..last], outer, steps)
}

/// Whether all these gaps lie deeper than this, or are at a Q-node at least as deep. Each one up to the first that does
/// not is a step.
fn all_within<L: Ledger>(gaps: &[LeafGap], outer: u32, steps: &mut Steps<L>) -> bool
    ensures within { IsTrue result ↔ EachIndex gaps.now (λ i. LiesWithin outer (gap_at gaps.now i)) }
    ensures ticks { steps.new ≤ steps.old + length gaps.now }
    ensures turns { steps.old ≤ steps.new }
    ensures each { IsTrue result → steps.old + length gaps.now ≤ steps.new }
    ensures looks { (k : ℕ) → k < length gaps.now →
        ((i : ℕ) → i < k → LiesWithin outer (gap_at gaps.now i)) → steps.old + (k + 1) ≤ steps.new }
{
    for gap in gaps {
        steps.tick();
        if !gap.lies_within(outer) {
            return false;
        }
    }
    true
}

/// Appends the gap before each leaf of the tree, which lies at this depth. The gap before its first leaf is `first`.
#[cycle(gaps)]
fn push_gaps(
    tree: &Tree,
    first: LeafGap,
    depth: u32,
    all: &mut Vec<LeafGap>,
) -> Result<(), NoMemory>
    requires proper { HasArities (outline_of tree.now) }
    requires shallow { depth + length (leaves (outline_of tree.now)) < 2 ^ 32 }
    ensures { OnOk result (all.new.items ≡ all.old.items ++ gaps first depth (outline_of tree.now)) }
{
    match tree {
        Tree::Leaf(_) => {
            all.push(first)?;
            Ok(())
        }
        Tree::P(children) => push_all_gaps(children, first, LeafGap::P(depth), depth + 1, all),
        Tree::Q(children) => push_all_gaps(children, first, LeafGap::Q(depth), depth + 1, all),
    }
}

/// Appends the gaps of children of one node, which lie at this depth. Two of them part at the gap `between`.
#[cycle(gaps)]
fn push_all_gaps(
    children: &[Tree],
    first: LeafGap,
    between: LeafGap,
    depth: u32,
    all: &mut Vec<LeafGap>,
) -> Result<(), NoMemory>
    requires many { 2 ≤ length children.now }
    requires proper { HaveArities (forest (map outline_of children.now)) }
    requires shallow { depth + length (leaves_of (forest (map outline_of children.now))) ≤ 2 ^ 32 }
    ensures { OnOk result (all.new.items ≡ all.old.items ++ gaps_of first between depth (forest (map outline_of children.now))) }
{
    let mut gap = first;
    for child in children {
        push_gaps(child, gap, depth, all)?;
        gap = between;
    }
    Ok(())
}
