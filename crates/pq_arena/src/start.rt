// The nodes of a new arena: the leaves, a P-node that is to hold them, and spare nodes.
ghost use Rattle.std.specs.Prelude.{◌≡◌, ◌≤◌, ◌<◌, map, IfOk};
ghost use Rattle.column_order.specs.declared.TheConstants.{COLUMN_BOUND};
ghost use Rattle.pq_arena.specs.Start.{numbers, size, first_shape, next_spare, first_head};
ghost use Rattle.pq_arena.specs.Wiring.{links, heads, no_link, kind_of};

use crate::node::{Head, NO_LINK, NONE, Node, NodeKind};
use pq_tree::NoMemory;
use std::alloc::Global;

// All nodes for c columns, none with a child, of which the first `used` are in use and the others hang together.
pub fn bare_nodes(alloc: Global, c: u32, used: u32) -> Result<Vec<Node>, NoMemory>
    requires few { c ≤ COLUMN_BOUND }
    ensures links { IfOk result (λ v. links v.items ≡ map (λ i. no_link) (numbers (size c))) }
    ensures heads { IfOk result (λ v. heads v.items ≡ map (first_head c used) (numbers (size c))) }
{
    let count = 2 * c + 4;
    let mut nodes = Vec::with_capacity(alloc, count as usize)?;
    for i in 0..count {
        nodes.push(Node {
            head: head_of(c, used, i),
            link: NO_LINK,
        })?;
    }
    Ok(nodes)
}

// What the node `i` holds of itself.
fn head_of(c: u32, used: u32, i: u32) -> Head
    requires few { c ≤ COLUMN_BOUND }
    requires inside { i < size c }
    ensures { result ≡ first_head c used i }
{
    Head {
        kind: first_kind(c, used, i),
        first: spare_behind(c, used, i),
        last: NONE,
        count: 0,
    }
}

// The kind of the node `i`: a leaf, the P-node, or spare.
fn first_kind(c: u32, used: u32, i: u32) -> NodeKind
    requires few { c ≤ COLUMN_BOUND }
    ensures { result ≡ kind_of (first_shape c used i) }
{
    if i < c {
        NodeKind::Column(i + 1)
    } else if i < used {
        NodeKind::Permuted
    } else {
        NodeKind::Spare
    }
}

// The spare node behind the node `i`.
fn spare_behind(c: u32, used: u32, i: u32) -> u32
    requires few { c ≤ COLUMN_BOUND }
    requires inside { i < size c }
    ensures { result ≡ next_spare c used i }
{
    if i < used || i + 1 == 2 * c + 4 {
        NONE
    } else {
        i + 1
    }
}
