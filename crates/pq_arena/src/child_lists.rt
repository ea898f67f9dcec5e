// The children of a node, read from the nodes.
ghost use Rattle.std.specs.Prelude.{◌≡◌, ◌≤◌, ◌<◌, ℕ, length, IfOk};
ghost use Rattle.column_order.specs.Orders.{occurs};
ghost use Rattle.arena_model.specs.ChildLists.{none};
ghost use Rattle.pq_arena.specs.StandsFor.{ring_read, run_read};
ghost use Rattle.pq_arena.specs.Wiring.{links};

use crate::node::{NONE, Node, link_at, other_side};
use pq_tree::NoMemory;
use std::alloc::Global;

// The children of a P-node of which `first` is the first, `count` in all.
pub fn ring_children(
    alloc: Global,
    nodes: &Vec<Node>,
    first: u32,
    count: u32,
) -> Result<Vec<u32>, NoMemory>
    requires { (x : ℕ) → 1 ≤ occurs (ring_read (links nodes.now.items) count first) x → x < length nodes.now.items }
    ensures { IfOk result (λ v. v.items ≡ ring_read (links nodes.now.items) count first) }
{
    let mut children = Vec::with_capacity(alloc, count as usize)?;
    let mut child = first;
    for _ in 0..count {
        children.push(child)?;
        child = link_at(nodes, child).near0;
    }
    Ok(children)
}

// The children of a Q-node of which `first` is the first.
pub fn run_children(alloc: Global, nodes: &Vec<Node>, first: u32) -> Result<Vec<u32>, NoMemory>
    requires { (x : ℕ) → 1 ≤ occurs (run_read (links nodes.now.items) (length nodes.now.items) none first) x → x < length nodes.now.items }
    ensures { IfOk result (λ v. v.items ≡ run_read (links nodes.now.items) (length nodes.now.items) none first) }
{
    let mut children = Vec::new(alloc);
    let mut before = NONE;
    let mut child = first;
    for _ in 0..nodes.len() {
        if child == NONE {
            break;
        }
        children.push(child)?;
        let next = other_side(link_at(nodes, child), before);
        before = child;
        child = next;
    }
    Ok(children)
}
