//! What two trees share.

ghost use Rattle.std.specs.Prelude.{◌≡◌, ◌+◌, ◌≤◌, IfOk, IfSome};
ghost use Rattle.pq_tree.specs.PqTree.{column_count, outline};
ghost use Rattle.tree_meet.specs.Meets.{IsMet, IsMetWithin, joint_matrix};

use crate::rows::{push_rows, tree_rows};
use odd_cycle::Cycle;
use pq_tree::PqTree;
use row_judge::{Judge, Judged, judged_short};
use row_model::{MAX_COLUMNS, NoMemory};
use std::alloc::Global;
use step_count::{Ledger, Steps};

/// What two trees share.
#[derive(Drop)]
pub enum Met {
    /// The canonical tree whose frontiers are exactly the common frontiers, of which there is one.
    Tree(PqTree),
    /// No frontier is common, as an odd cycle shows in the incompatibility graph (McConnell, 2004) of the rows of the
    /// first tree followed by those of the second. It has at most one flip, and with c columns at most c(c - 1)/2 + 1
    /// lines.
    Apart(Cycle),
}

/// All orders that both trees stand for: a tree of them, or why there is none.
///
/// By its own count the judge is asked once at most. Where it tells its costs, the steps are at most those of one judgement of the matrix
/// of the rows of both trees.
///
/// # Errors
///
/// `NoMemory` where there is no memory for the rows of the trees or for the judge.
pub fn meet<J: Judge, L: Ledger>(
    alloc: Global,
    judge: &mut J,
    first: &PqTree,
    second: &PqTree,
    steps: &mut Steps<L>,
) -> Result<Met, NoMemory>
    requires same { column_count second.now ≡ column_count first.now }
    requires few { column_count first.now ≤ MAX_COLUMNS }
    ensures met { IfOk result (IsMet (column_count first.now) (outline first.now) (outline second.now)) }
    ensures asked { J.asked judge.new ≤ J.asked judge.old + 1 }
    ensures yes { IfSome J.costs (λ c.
        IfOk result (IsMetWithin c (joint_matrix (column_count first.now) (outline first.now) (outline second.now)) steps.old steps.new)) }
    ensures most { IfSome J.costs (λ c.
        steps.new ≤ steps.old + c.any (joint_matrix (column_count first.now) (outline first.now) (outline second.now))) }
{
    let mut m = tree_rows(alloc, first)?;
    push_rows(alloc, second, &mut m)?;
    match judged_short(alloc, judge, &m, steps)? {
        Judged::Yes(tree) => Ok(Met::Tree(tree)),
        Judged::No(cycle) => Ok(Met::Apart(cycle)),
    }
}
