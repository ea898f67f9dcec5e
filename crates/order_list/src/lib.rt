//! The first orders among the frontiers of a PQ-tree, in lexicographic order.
//!
//! The orders are found one after another, from the least on. What can still be read behind given columns is
//! read from a list of trees; each column that can come next leaves another such list, and no list is a dead
//! end. So no order is begun in vain. The tree is turned first so that each part begins with its least column. So what
//! comes next is mostly what stands next.
#![tactic(auto)]

ghost use Rattle.std.specs.Prelude.{◌≡◌, ◌↔◌, ◌≤◌, IfOk, IsTrue};
ghost use Rattle.pq_tree.specs.Outline.{IsFrontier};
ghost use Rattle.pq_tree.specs.PqTree.{outline};
ghost use Rattle.order_list.specs.Laws.{FirstOrdersLaw};
ghost use Rattle.order_list.specs.First.{AreFirst, HasOther};

mod low;
mod orders;
mod search;
mod turn;
mod walk;

pub use orders::Orders;
use pq_tree::PqTree;
pub use std::alloc::AllocError as NoMemory;
use std::alloc::Global;
use turn::low_tree;
use walk::{Bag, Coming, read_on};

/// The greatest number of orders that may be asked for.
pub const MAX_ORDERS: u32 = 10_000;

/// The value of the constant of this crate, by its numeral. A call stands for the clause alone.
pub fn values_law()
    ensures { MAX_ORDERS ≡ 10000 }
{}

/// Rows have one list of their first valid orders.
pub fn first_orders_law()
    ensures { FirstOrdersLaw }
{}

/// The first `count` frontiers of the tree, compared as lists of numbers, or all of them where there are fewer.
///
/// No order is written out but those that are found, and one more, by which it is seen that there are others.
///
/// # Errors
///
/// `NoMemory` where there is no memory for the orders.
pub fn first(alloc: Global, tree: &PqTree, count: u32) -> Result<Orders, NoMemory>
    requires { (1 ≤ count) × (count ≤ MAX_ORDERS) }
    ensures first { IfOk result (λ found.
        AreFirst (IsFrontier (outline tree.now)) count found.orders) }
    ensures more { IfOk result (λ found.
        IsTrue found.more ↔ HasOther (IsFrontier (outline tree.now)) found.orders) }
{
    let mut found = Orders::new(alloc, tree.columns());
    let mut columns = Vec::with_capacity(alloc, tree.columns() as usize)?;
    let low = low_tree(alloc, tree.root())?;
    let root = [&low.tree];
    let all = Coming::InAnyOrder(Bag { trees: &root }, &Coming::Nothing);
    read_on(alloc, &all, &mut columns, count, &mut found)?;
    Ok(found)
}
