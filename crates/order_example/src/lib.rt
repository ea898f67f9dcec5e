//! An example of the solver as a library: the tree of all valid orders of a matrix, or `None` where it has none.
#![tactic(auto)]

ghost use Rattle.std.specs.Prelude.{◌≡◌, ◌<◌, IfOk};
ghost use Rattle.order_example.specs.Orders.{TellsAllOrders};

use c1p_solve::{Answered, Solved, answer};
use pq_tree::PqTree;
use row_model::{Matrix, NoMemory};
use std::alloc::Global;
use step_count::{Blank, Brand, Ledger, Steps};

/// The tree whose frontiers are exactly the valid orders of the matrix, or `None` where it has no valid order.
///
/// # Errors
///
/// `NoMemory`.
pub fn all_orders(alloc: Global, m: &Matrix) -> Result<Option<PqTree>, NoMemory>
    ensures orders { IfOk result (TellsAllOrders m.now) }
{
    all_orders_by::<Brand>(alloc, m, Blank::new(1))
}

// The same with a counter of steps that begins at the blank. The solver counts its steps, and this caller doesn't look
// at the count.
fn all_orders_by<L: Ledger>(
    alloc: Global,
    m: &Matrix,
    blank: Blank,
) -> Result<Option<PqTree>, NoMemory>
    requires name { blank.name ≡ L.name }
    requires parts { blank.parts ≡ L.parts }
    requires some { 0 < blank.parts }
    ensures orders { IfOk result (TellsAllOrders m.now) }
{
    let mut steps = Steps::<L>::new(blank);
    let Answered { solved, .. } = answer(alloc, m, &mut steps)?;
    Ok(match solved {
        Solved::Yes(tree) => Some(tree),
        Solved::No(_cycle) => None,
    })
}
