// Rotations of an order.
ghost use Rattle.std.specs.Prelude.{IfOk, length};
ghost use Rattle.column_order.specs.Orders.{IsOrder};
ghost use Rattle.circular_ones.specs.Circular.{IsTurned};

use row_model::NoMemory;
use std::alloc::Global;

/// The rotation of an order that begins with column 1: the columns from 1 on, and then those
/// before it. The time is linear.
///
/// The order is circular exactly where this rotation is a valid order of the [cut
/// rows](crate::cut_rows) (Tucker, 1971).
///
/// # Errors
///
/// `NoMemory` where there is no memory for the list.
pub fn turned(alloc: Global, order: &[u32]) -> Result<Vec<u32>, NoMemory>
    requires { IsOrder (length order.now) order.now }
    ensures { IfOk result (λ turned. IsTurned order.now turned.items) }
{
    let mut turned = Vec::from_slice(alloc, order)?;
    if let Some(before) = order.iter().position(|column| *column == 1) {
        turned.rotate_left(before);
    }
    Ok(turned)
}
