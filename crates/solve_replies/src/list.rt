// The reply with the first valid orders of a matrix.
ghost use Rattle.std.specs.Prelude.{◌≡◌, ◌⊎◌, ◌≤◌, IfOk};
ghost use Rattle.c1p_solve.specs.Answers.{HasAllOrders};
ghost use Rattle.instance_model.specs.Instance.{plain, IsInstance};
ghost use Rattle.order_list.specs.declared.TheConstants.{MAX_ORDERS};
ghost use Rattle.row_model.specs.Rows.{RowList};
ghost use Rattle.solve_replies.specs.Lists.{IsListText, IsListReply};
ghost use Rattle.solve_replies.specs.Steps.{made_status, SolvesMatrixWithin};

use crate::list_text::printed_list;
use crate::{NoMemory, solve_matrix};
use c1p_solve::Solved;
use order_list::first;
use pq_tree::PqTree;
use row_model::{Kind, Matrix};
use std::alloc::Global;
use step_count::{Ledger, Steps};
use verdict_replies::{Reply, no_reply};

/// The reply on a matrix: its first valid orders. Where it has none, it is the reply of `solve`.
///
/// # Errors
///
/// `NoMemory`.
pub fn list_reply<L: Ledger>(
    alloc: Global,
    kind: Kind,
    matrix: &Matrix,
    count: u32,
    steps: &mut Steps<L>,
) -> Result<Reply, NoMemory>
    requires instance { IsInstance (plain kind matrix.now) }
    requires count { (1 ≤ count) × (count ≤ MAX_ORDERS) }
    ensures reply { IfOk result (λ reply.
        IsListReply kind matrix.now count reply.status reply.text.items) }
    ensures status { IfOk result (λ reply. (reply.status ≡ 0) ⊎ (reply.status ≡ 1)) }
    ensures steps { SolvesMatrixWithin matrix.now (made_status (λ reply. reply.status) result)
        steps.old steps.new }
{
    match solve_matrix(alloc, matrix, steps)? {
        Solved::Yes(tree) => orders_reply(alloc, kind, &tree, count),
        Solved::No(cycle) => no_reply(alloc, kind, matrix.columns(), cycle),
    }
}

// The reply on the tree of all valid orders of a matrix.
fn orders_reply(alloc: Global, kind: Kind, tree: &PqTree, count: u32) -> Result<Reply, NoMemory>
    requires { (1 ≤ count) × (count ≤ MAX_ORDERS) }
    ensures reply { IfOk result (λ reply.
        (m : RowList) → HasAllOrders m tree.now → IsListText kind m count reply.text.items) }
    ensures status { IfOk result (λ reply. reply.status ≡ 0) }
{
    let found = first(alloc, tree, count)?;
    let text = printed_list(alloc, kind, tree.columns(), &found)?;
    Ok(Reply { status: 0, text })
}
