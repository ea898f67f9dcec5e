// Small trees, whose orders are listed by hand.
use crate::same::assert_same;
use crate::trees::tree_of;
use order_list::{MAX_ORDERS, NoMemory, Orders, first};
use std::alloc::Global;
use std::process::Abort;

// The text of a tree over so many columns, its first orders where so many are asked for, and whether there are others.
#[derive(Clone, Copy, Drop)]
struct Case {
    text: &'static str,
    columns: u32,
    count: u32,
    orders: &'static [&'static [u32]],
    more: bool,
}

const CASES: [Case; 6] = [
    Case {
        text: "([1 2 3 4] 5)",
        columns: 5,
        count: 3,
        orders: &[&[1, 2, 3, 4, 5], &[4, 3, 2, 1, 5], &[5, 1, 2, 3, 4]],
        more: true,
    },
    Case {
        text: "((1 3) 2)",
        columns: 3,
        count: 4,
        orders: &[&[1, 3, 2], &[2, 1, 3], &[2, 3, 1], &[3, 1, 2]],
        more: false,
    },
    Case {
        text: "((1 3) 2)",
        columns: 3,
        count: 10,
        orders: &[&[1, 3, 2], &[2, 1, 3], &[2, 3, 1], &[3, 1, 2]],
        more: false,
    },
    Case {
        text: "1",
        columns: 1,
        count: 1,
        orders: &[&[1]],
        more: false,
    },
    // The children of a P-node take turns.
    Case {
        text: "((1 4) (2 3))",
        columns: 4,
        count: 5,
        orders: &[
            &[1, 4, 2, 3],
            &[1, 4, 3, 2],
            &[2, 3, 1, 4],
            &[2, 3, 4, 1],
            &[3, 2, 1, 4],
        ],
        more: true,
    },
    // A line begins at the end with the lower column.
    Case {
        text: "[(2 3) 1 4]",
        columns: 4,
        count: 3,
        orders: &[&[2, 3, 1, 4], &[3, 2, 1, 4], &[4, 1, 2, 3]],
        more: true,
    },
];

// The first orders of the tree of the case, as many as it asks for.
fn found_orders(rt: &impl Abort, alloc: Global, case: &Case) -> Result<Orders, NoMemory> {
    assert!(rt; 1 <= case.count && case.count <= MAX_ORDERS);
    let tree = tree_of(rt, alloc, case.text, case.columns)?;
    first(alloc, &tree, case.count)
}

// The orders are those that are listed.
fn assert_listed(rt: &impl Abort, found: &Orders, case: &Case) {
    let counted = (found.len() as usize, found.more());
    assert_same(rt, counted, (case.orders.len(), case.more), case.text);
    for place in 0..found.len() {
        let listed = case.orders.get(place as usize).copied();
        assert_same(rt, Some(found.order(place + 1)), listed, case.text);
    }
}

#[test]
fn orders_that_are_listed_by_hand(rt: HostRuntime) -> Result<(), NoMemory> {
    for case in &CASES {
        assert_listed(&rt, &found_orders(&rt, rt.alloc(), case)?, case);
    }
    Ok(())
}
