// Every tree over a few columns.
ghost use Rattle.std.specs.Prelude.{◌≤◌};

use crate::tests::plain::is_read_from;
use pq_tree::PqTree;
use row_model::NoMemory;
use std::alloc::Global;
use std::test::Fail;

// A tree, and of each order in a list whether it can be read from the tree.
#[derive(Drop)]
pub struct Listed {
    pub tree: PqTree,
    pub frontiers: Vec<bool>,
}

// Each arrangement of brackets round so many leaves, in which the leaves stand in rising order.
fn shapes(columns: u32) -> &'static [&'static str] {
    match columns {
        1 => &["1"],
        2 => &["(1 2)"],
        3 => &["(1 2 3)", "[1 2 3]", "((1 2) 3)", "(1 (2 3))"],
        _ => &[
            "(1 2 3 4)",
            "[1 2 3 4]",
            "((1 2) 3 4)",
            "(1 (2 3) 4)",
            "(1 2 (3 4))",
            "[(1 2) 3 4]",
            "[1 (2 3) 4]",
            "[1 2 (3 4)]",
            "((1 2) (3 4))",
            "((1 2 3) 4)",
            "([1 2 3] 4)",
            "(((1 2) 3) 4)",
            "((1 (2 3)) 4)",
            "(1 (2 3 4))",
            "(1 [2 3 4])",
            "(1 ((2 3) 4))",
            "(1 (2 (3 4)))",
        ],
    }
}

// The text of a shape whose leaves are the columns of an order.
fn text_of(alloc: Global, shape: &str, order: &[u32]) -> Result<Vec<u8>, NoMemory> {
    let mut text = Vec::new(alloc);
    for byte in shape.as_bytes() {
        let place = byte.wrapping_sub(b'1');
        match order.get(place as usize) {
            Some(column) => text.push(b'0' + (*column % 10) as u8)?,
            None => text.push(*byte)?,
        }
    }
    Ok(text)
}

// Of each order whether it can be read from the tree.
fn readable(alloc: Global, tree: &PqTree, orders: &[Vec<u32>]) -> Result<Vec<bool>, NoMemory> {
    let mut found = Vec::new(alloc);
    for order in orders {
        found.push(is_read_from(order, tree.root()))?;
    }
    Ok(found)
}

fn tree_with_text(
    alloc: Global,
    text: &[u8],
    columns: u32,
    orders: &[Vec<u32>],
) -> Result<Listed, Fail>
    requires { (1 ≤ columns) × (columns ≤ 4) }
{
    let tree = PqTree::parse(alloc, text, columns)?.ok_or("a tree")?;
    let frontiers = readable(alloc, &tree, orders)?;
    Ok(Listed { tree, frontiers })
}

// Each shape with its leaves in each order.
pub fn every_tree(alloc: Global, columns: u32, orders: &[Vec<u32>]) -> Result<Vec<Listed>, Fail>
    requires { (1 ≤ columns) × (columns ≤ 4) }
{
    let mut trees = Vec::new(alloc);
    for shape in shapes(columns) {
        for order in orders {
            let text = text_of(alloc, shape, order)?;
            trees.push(tree_with_text(alloc, &text, columns, orders)?)?;
        }
    }
    Ok(trees)
}
