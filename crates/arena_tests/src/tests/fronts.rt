// All frontiers of a small tree, each as the list of the positions of its columns.
use super::pictures::Seen;
use super::plain::{add_at, at};
use pq_arena::Shape;
use row_model::NoMemory;
use std::alloc::Global;
use std::process::Abort;

/// The orders of so many columns, at most six, in which the leaves at or below each node stand together, and the
/// children of each Q-node in their order or in the reverse.
pub fn frontiers(
    rt: &impl Abort,
    alloc: Global,
    tree: &Vec<Seen>,
    columns: u32,
) -> Result<Vec<Vec<u32>>, NoMemory> {
    let mut fronts = Vec::new(alloc);
    let mut order = Vec::new(alloc);
    for column in 0..columns {
        order.push(column)?;
    }
    for _ in 0..720 {
        let positions = order.clone()?;
        let leaves = leaf_reach(rt, alloc, tree, &positions)?;
        let reach = node_reach(rt, tree, leaves);
        if is_front(rt, tree, &reach) {
            fronts.push(positions)?;
        }
        if !move_on(rt, &mut order) {
            return Ok(fronts);
        }
    }
    Ok(fronts)
}

// The next list of these numbers, if there is one, as in a dictionary.
fn move_on(rt: &impl Abort, order: &mut Vec<u32>) -> bool {
    let mut rise = 0;
    for i in 1..order.len() {
        if order[i - 1] < order[i] {
            rise = i;
        }
    }
    if rise == 0 {
        return false;
    }
    let low = at(rt, order, rise - 1);
    let mut next = rise;
    for i in rise..order.len() {
        if at(rt, order, i) > low {
            next = i;
        }
    }
    let high = at(rt, order, next);
    set_at(rt, order, rise - 1, high);
    set_at(rt, order, next, low);
    reverse_from(rt, order, rise);
    true
}

// Puts a number at this place.
fn set_at(rt: &impl Abort, numbers: &mut Vec<u32>, place: usize, to: u32) {
    assert!(rt; place < numbers.len());
    numbers[place] = to;
}

// Turns round what stands from this place on.
fn reverse_from(rt: &impl Abort, numbers: &mut Vec<u32>, from: usize) {
    assert!(rt; from <= numbers.len());
    let count = numbers.len() - from;
    for i in 0..count / 2 {
        numbers.swap(from + i, from + count - 1 - i);
    }
}

// For the node at each place the first and the last position of a leaf at or below it, and how many there are.
#[derive(Drop)]
struct Reach {
    low: Vec<u32>,
    high: Vec<u32>,
    count: Vec<u32>,
}

// The reach of each node by that of the leaves. Each node comes after the one above it.
fn node_reach(rt: &impl Abort, tree: &Vec<Seen>, leaves: Reach) -> Reach {
    let mut reach = leaves;
    for place in (1..tree.len()).rev() {
        let above = tree[place].above;
        let low = at(rt, &reach.low, place).min(at(rt, &reach.low, above));
        set_at(rt, &mut reach.low, above, low);
        let high = at(rt, &reach.high, place).max(at(rt, &reach.high, above));
        set_at(rt, &mut reach.high, above, high);
        let count = at(rt, &reach.count, place);
        add_at(rt, &mut reach.count, above, count);
    }
    reach
}

// The reach of each leaf by itself, where the columns have these positions; that of an inner node is still empty.
fn leaf_reach(
    rt: &impl Abort,
    alloc: Global,
    tree: &Vec<Seen>,
    positions: &Vec<u32>,
) -> Result<Reach, NoMemory> {
    let mut low = Vec::new(alloc);
    let mut high = Vec::new(alloc);
    let mut count = Vec::new(alloc);
    for seen in tree {
        match seen.shape {
            Shape::Leaf(column) => {
                assert!(rt; 1 <= column);
                let position = at(rt, positions, column as usize - 1);
                low.push(position)?;
                high.push(position)?;
                count.push(1)?;
            }
            Shape::P | Shape::Q => {
                low.push(u32::MAX)?;
                high.push(0)?;
                count.push(0)?;
            }
        }
    }
    Ok(Reach { low, high, count })
}

// Whether the positions of the columns, with this reach of each node, are those of a frontier of the tree.
fn is_front(rt: &impl Abort, tree: &Vec<Seen>, reach: &Reach) -> bool {
    for place in 0..tree.len() {
        if !is_whole(rt, reach, place) {
            return false;
        }
        if matches!(tree[place].shape, Shape::Q) && !is_in_line(rt, reach, tree[place]) {
            return false;
        }
    }
    true
}

// Whether the leaves at or below the node at this place stand together.
fn is_whole(rt: &impl Abort, reach: &Reach, place: usize) -> bool {
    let low = at(rt, &reach.low, place);
    let high = at(rt, &reach.high, place);
    low <= high && high - low == at(rt, &reach.count, place).wrapping_sub(1)
}

// Whether the children of a node stand in their order or in the reverse.
fn is_in_line(rt: &impl Abort, reach: &Reach, seen: Seen) -> bool {
    let mut rises = true;
    let mut falls = true;
    assert!(rt; seen.first < seen.end);
    let mut before = at(rt, &reach.low, seen.first);
    for child in seen.first + 1..seen.end {
        let low = at(rt, &reach.low, child);
        rises = rises && before < low;
        falls = falls && low < before;
        before = low;
    }
    rises || falls
}

/// Whether the columns of a row stand together.
pub fn keeps(rt: &impl Abort, positions: &Vec<u32>, row: &[u32]) -> bool {
    let mut low = u32::MAX;
    let mut high = 0;
    for column in row {
        assert!(rt; 1 <= *column);
        let position = at(rt, positions, *column as usize - 1);
        low = low.min(position);
        high = high.max(position);
    }
    low <= high && (high - low) as usize == row.len().wrapping_sub(1)
}

/// Whether some of these frontiers keeps the row.
pub fn is_kept(rt: &impl Abort, fronts: &Vec<Vec<u32>>, row: &[u32]) -> bool {
    for positions in fronts {
        if keeps(rt, positions, row) {
            return true;
        }
    }
    false
}
