// The orders of a few columns, all listed, and which of them keep rows or can be read from a tree.
use pq_tree::Tree;
use row_model::{Matrix, NoMemory};
use std::alloc::Global;

// All orders of the columns 1 to c. Each column is put at each place of each order of those before it.
pub fn all_orders(alloc: Global, columns: u32) -> Result<Vec<Vec<u32>>, NoMemory> {
    let mut orders = vec![in alloc; Vec::new(alloc)]?;
    for column in 1..=columns {
        let mut longer = Vec::new(alloc);
        for order in &orders {
            for place in 0..=order.len() {
                let mut next = order.clone()?;
                next.insert(place, column)?;
                longer.push(next)?;
            }
        }
        orders = longer;
    }
    Ok(orders)
}

// Whether the members stand together in the order, with no other column between two of them.
fn stand_together<F: Fn(u32) -> bool>(order: &[u32], is_member: F) -> bool
    requires { F.IsAlwaysCallable is_member }
{
    let mut begun = false;
    let mut ended = false;
    for column in order {
        let member = is_member(*column);
        if member && ended {
            return false;
        }
        ended = begun && !member;
        begun = begun || member;
    }
    true
}

// Whether the columns of each row stand together in the order.
pub fn keeps_rows(order: &[u32], m: &Matrix) -> bool {
    for before in 0..m.rows() {
        let row = m.row(before + 1);
        if !stand_together(order, |column| row.contains(&column)) {
            return false;
        }
    }
    true
}

// Whether the order can be read from the tree: the leaves of each node stand together, and those of the children of a
// Q-node stand as the children do, from left to right or from right to left.
#[cycle(read)]
pub fn is_read_from(order: &[u32], tree: &Tree) -> bool {
    if !stand_together(order, |column| has_leaf(tree, column)) {
        return false;
    }
    match tree {
        Tree::Leaf(_) => true,
        Tree::P(children) => is_read_from_each(order, children),
        Tree::Q(children) => is_read_from_each(order, children) && stand_in_line(order, children),
    }
}

#[cycle(read)]
fn is_read_from_each(order: &[u32], trees: &[Tree]) -> bool {
    for tree in trees {
        if !is_read_from(order, tree) {
            return false;
        }
    }
    true
}

// Whether the leaves of earlier trees stand before those of later ones, or behind them.
fn stand_in_line(order: &[u32], trees: &[Tree]) -> bool {
    let mut rising = true;
    let mut falling = true;
    let mut last = None;
    for column in order {
        let Some(here) = tree_with(trees, *column) else {
            continue;
        };
        if let Some(before) = last {
            rising &= before <= here;
            falling &= here <= before;
        }
        last = Some(here);
    }
    rising || falling
}

// Whether the column is a leaf of the tree.
#[cycle(leaf)]
fn has_leaf(tree: &Tree, column: u32) -> bool {
    match tree {
        Tree::Leaf(own) => *own == column,
        Tree::P(children) | Tree::Q(children) => tree_with(children, column).is_some(),
    }
}

// The place of the tree that has the leaf.
#[cycle(leaf)]
fn tree_with(trees: &[Tree], column: u32) -> Option<usize> {
    for (i, tree) in trees.iter().enumerate() {
        if has_leaf(tree, column) {
            return Some(i);
        }
    }
    None
}
