// Parts of a matrix, and what a judge says of them.
ghost use Rattle.std.specs.Prelude.{◌≡◌, ◌+◌, ◌-◌, ◌<◌, ◌≤◌, [], ◌∷◌, ◌++◌, length, take, drop, IfOk, IsTrue, OnOk};
ghost use Rattle.pq_tree.specs.Outline.{IsFrontier, leaves};
ghost use Rattle.pq_tree.specs.PqTree.{outline};
ghost use Rattle.core_text.specs.Cores.{AreRowNumbers};
ghost use Rattle.row_judge.specs.Costs.{AreJudgements};
ghost use Rattle.row_core.specs.Blamed.{AreEachWithin, part_at, rotated, AreNeeded, IsFinding, IsNeededFinding};

use crate::blamed::{Blamed, blame};
use core_text::Orders;
use pq_tree::PqTree;
use row_judge::{Judge, Judged, judged_short};
use row_model::{Matrix, NoMemory};
use std::alloc::Global;
use step_count::{Ledger, Steps};

/// What is found of the rows of a list.
#[derive(Drop)]
pub enum Finding {
    /// They have a valid order, and the tree stands for all of them.
    Ordered(PqTree),
    /// They have none. These of them are to blame.
    Refused(Blamed),
}

/// What a judge says of the rows of a list, in their order. The first `needed` of them are needed.
pub fn judged<J: Judge, L: Ledger>(
    alloc: Global,
    judge: &mut J,
    m: &Matrix,
    list: &[u32],
    needed: usize,
    steps: &mut Steps<L>,
) -> Result<Finding, NoMemory>
    requires needed { needed ≤ length list.now }
    requires rows { AreRowNumbers (length m.now.rows) (rotated needed list.now) }
    ensures finding { IfOk result (IsFinding m.now (rotated needed list.now) needed) }
    ensures in_turn { IsTrue J.in_turn
        → AreNeeded m.now (rotated needed list.now) (length list.now - needed)
        → IfOk result (IsNeededFinding m.now) }
    ensures asked { J.asked judge.new ≤ J.asked judge.old + 1 }
    ensures judgements { AreJudgements J.costs m.now 1 steps.old steps.new }
{
    let part = part_of(alloc, m, list)?;
    match judged_short(alloc, judge, &part, steps)? {
        Judged::Yes(tree) => Ok(Finding::Ordered(tree)),
        Judged::No(cycle) => Ok(Finding::Refused(blame(alloc, list, needed, &cycle)?)),
    }
}

/// Adds the order that has the leaves of a tree from left to right.
pub fn push_leaves(alloc: Global, orders: &mut Orders, tree: PqTree) -> Result<(), NoMemory>
    ensures ok { OnOk result (orders.new ≡ orders.old ++ leaves (outline tree) ∷ []) }
    ensures frontier { OnOk result (IsFrontier (outline tree) (leaves (outline tree))) }
{
    orders.push(&tree.frontier(alloc)?)
}

// The part of the matrix in the rows of a list.
fn part_of(alloc: Global, m: &Matrix, list: &[u32]) -> Result<Matrix, NoMemory>
    requires within { AreEachWithin (length m.now.rows) list.now }
    requires few { length list.now ≤ length m.now.rows }
    ensures { IfOk result (λ part. part ≡ part_at m.now list.now) }
{
    let mut part = Matrix::new(alloc, m.columns())?;
    for k in list {
        part.push_row(m.row(*k))?;
    }
    Ok(part)
}

/// The list without the number at an index.
pub fn without(alloc: Global, list: &[u32], i: usize) -> Result<Vec<u32>, NoMemory>
    requires { i < length list.now }
    ensures { IfOk result (λ rest. rest.items ≡ take i list.now ++ drop (i + 1) list.now) }
{
    let mut rest = Vec::with_capacity(alloc, list.len() - 1)?;
    rest.extend_from_slice(&list[..i])?;
    rest.extend_from_slice(&list[i + 1..])?;
    Ok(rest)
}

/// The numbers of the list after an index, and then those before it.
pub fn rotated_without(alloc: Global, list: &[u32], i: usize) -> Result<Vec<u32>, NoMemory>
    requires { i < length list.now }
    ensures { IfOk result (λ rest. rest.items ≡ drop (i + 1) list.now ++ take i list.now) }
{
    let mut rest = Vec::with_capacity(alloc, list.len() - 1)?;
    rest.extend_from_slice(&list[i + 1..])?;
    rest.extend_from_slice(&list[..i])?;
    Ok(rest)
}
