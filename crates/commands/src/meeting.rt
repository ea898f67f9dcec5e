// The reply on two trees.
ghost use Rattle.std.specs.Prelude.{◌≡◌, ◌⊎◌, ◌+◌, ◌≤◌, ◌++◌, ℕ, List, length, IfOk, IfSome, OnOk};
ghost use Rattle.row_model.specs.declared.TheConstants.{MAX_COLUMNS};
ghost use Rattle.row_model.specs.Cycles.{IsOddCycle};
ghost use Rattle.pq_tree.specs.PqTree.{column_count, outline};
ghost use Rattle.odd_cycle.specs.Short.{IsShort};
ghost use Rattle.tree_meet.specs.Meets.{IsCommon, IsMeet, joint_rows, joint_matrix};
ghost use Rattle.commands.specs.Meetings.{meet_head, TellsCommon, TellsApart, IsMeetingReply};

use crate::{NoMemory, Reply};
use odd_cycle::Cycle;
use pq_tree::PqTree;
use row_judge::Judge;
use std::alloc::Global;
use step_count::{Ledger, Steps};
use tree_meet::{Met, meet, row_count};
use verdict_text::{print_cycle, print_side};

/// The reply with what two trees share, as a judge of matrices finds it. Where the judge tells its costs, the steps are
/// at most those of one judgement of the matrix of the rows of both trees.
///
/// # Errors
///
/// Memory is refused.
pub fn meeting_reply<J: Judge, L: Ledger>(
    alloc: Global,
    judge: &mut J,
    first: &PqTree,
    second: &PqTree,
    steps: &mut Steps<L>,
) -> Result<Reply, NoMemory>
    requires same { column_count second.now ≡ column_count first.now }
    requires few { column_count first.now ≤ MAX_COLUMNS }
    ensures reply { IfOk result (λ reply.
        IsMeetingReply (column_count first.now) (outline first.now) (outline second.now)
        reply.status reply.text.items) }
    ensures status { IfOk result (λ reply. (reply.status ≡ 0) ⊎ (reply.status ≡ 1)) }
    ensures asked { J.asked judge.new ≤ J.asked judge.old + 1 }
    ensures yes { IfSome J.costs (λ c. IfOk result (λ reply. reply.status ≡ 0
        → steps.new ≤ steps.old + c.yes (joint_matrix (column_count first.now) (outline first.now) (outline second.now)))) }
    ensures most { IfSome J.costs (λ c.
        steps.new ≤ steps.old + c.any (joint_matrix (column_count first.now) (outline first.now) (outline second.now))) }
{
    match meet(alloc, judge, first, second, steps)? {
        Met::Tree(tree) => common_reply(alloc, first, second, &tree),
        Met::Apart(cycle) => apart_reply(alloc, first, second, &cycle),
    }
}

// The reply that tells the tree of the common frontiers, and an order.
fn common_reply(
    alloc: Global,
    first: &PqTree,
    second: &PqTree,
    tree: &PqTree,
) -> Result<Reply, NoMemory>
    requires same { column_count second.now ≡ column_count first.now }
    requires few { column_count first.now ≤ MAX_COLUMNS }
    requires common { IsMeet (column_count first.now) (outline first.now) (outline second.now) tree.now }
    requires some { (o : List ℕ) × IsCommon (outline first.now) (outline second.now) o }
    ensures { IfOk result (λ reply. (reply.status ≡ 0)
        × TellsCommon (column_count first.now) (outline first.now) (outline second.now) reply.text.items) }
{
    let order = tree.frontier(alloc)?;
    let mut text = Vec::with_capacity(alloc, 96 + 12 * tree.columns() as usize)?;
    print_head(alloc, first, second, &mut text)?;
    text.extend_from_slice(b"answer yes\n")?;
    print_side(tree, &order, &mut text)?;
    text.extend_from_slice(b"end\n")?;
    Ok(Reply { status: 0, text })
}

// The reply that tells that no frontier is common, as an odd cycle shows.
fn apart_reply(
    alloc: Global,
    first: &PqTree,
    second: &PqTree,
    cycle: &Cycle,
) -> Result<Reply, NoMemory>
    requires same { column_count second.now ≡ column_count first.now }
    requires few { column_count first.now ≤ MAX_COLUMNS }
    requires cycle { IsOddCycle (column_count first.now)
        (joint_rows (column_count first.now) (outline first.now) (outline second.now)) cycle.now }
    requires short { IsShort (column_count first.now) cycle.now }
    requires none { (o : List ℕ) → IsCommon (outline first.now) (outline second.now) o → ⊥ }
    ensures { IfOk result (λ reply. (reply.status ≡ 1)
        × TellsApart (column_count first.now) (outline first.now) (outline second.now) reply.text.items) }
{
    let mut text = Vec::new(alloc);
    print_head(alloc, first, second, &mut text)?;
    text.extend_from_slice(b"answer no\n")?;
    print_cycle(cycle.lines(), &mut text)?;
    text.extend_from_slice(b"end\n")?;
    Ok(Reply { status: 1, text })
}

// The first three lines.
fn print_head(
    alloc: Global,
    first: &PqTree,
    second: &PqTree,
    text: &mut Vec<u8>,
) -> Result<(), NoMemory>
    requires same { column_count second.now ≡ column_count first.now }
    requires few { column_count first.now ≤ MAX_COLUMNS }
    ensures { OnOk result (text.new.items
        ≡ text.old.items ++ meet_head (column_count first.now) (outline first.now) (outline second.now)) }
{
    let columns = first.columns();
    let rows = row_count(first);
    let others = row_count(second);
    let head = format!(in alloc; "pq-meet 1\ncolumns {columns}\nrows {rows} {others}\n")?;
    text.extend_from_slice(head.as_bytes())
}
