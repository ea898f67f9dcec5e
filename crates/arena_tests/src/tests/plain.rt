// What a pass has to find, by counts of leaves and by the list of all frontiers.
use super::pictures::{Seen, seen_at};
use bubble_pass::Label;
use pq_arena::Shape;
use row_model::NoMemory;
use std::alloc::Global;
use std::process::Abort;

// For the node at each place, how many leaves at or below it are in the row, and how many there are.
#[derive(Drop)]
pub struct Tally {
    pub met: Vec<u32>,
    pub all: Vec<u32>,
}

/// The number at this place.
pub fn at(rt: &impl Abort, numbers: &Vec<u32>, place: usize) -> u32 {
    assert!(rt; place < numbers.len());
    numbers[place]
}

/// Adds to the number at this place; both are at most a million.
pub fn add_at(rt: &impl Abort, numbers: &mut Vec<u32>, place: usize, more: u32) {
    assert!(rt; place < numbers.len());
    assert!(rt; numbers[place] <= 1_000_000);
    assert!(rt; more <= 1_000_000);
    numbers[place] += more;
}

/// Counts the leaves, from the last place to the first.
pub fn tally_of(
    rt: &impl Abort,
    alloc: Global,
    tree: &Vec<Seen>,
    row: &[u32],
) -> Result<Tally, NoMemory> {
    let mut met = Vec::new(alloc);
    let mut all = Vec::new(alloc);
    for seen in tree {
        let (is_met, is_leaf) = match seen.shape {
            Shape::Leaf(column) => (row.contains(&column), true),
            Shape::P | Shape::Q => (false, false),
        };
        met.push(u32::from(is_met))?;
        all.push(u32::from(is_leaf))?;
    }
    for place in (1..tree.len()).rev() {
        let above = tree[place].above;
        let more = at(rt, &met, place);
        add_at(rt, &mut met, above, more);
        let more = at(rt, &all, place);
        add_at(rt, &mut all, above, more);
    }
    Ok(Tally { met, all })
}

/// How much of the node at this place is in the row.
pub fn label_at(rt: &impl Abort, tally: &Tally, place: usize) -> Label {
    let met = at(rt, &tally.met, place);
    if met == 0 {
        Label::Empty
    } else if met == at(rt, &tally.all, place) {
        Label::Full
    } else {
        Label::Partial
    }
}

/// The place of the smallest node that holds a row of this many columns: the last one that does, since those that do
/// stand one above another.
pub fn smallest(rt: &impl Abort, tally: &Tally, size: u32) -> usize {
    let mut best = 0;
    for place in 0..tally.met.len() {
        if at(rt, &tally.met, place) == size {
            best = place;
        }
    }
    best
}

/// Whether the node at this place is a Q-node of which inner children alone meet the row, in one run.
pub fn is_run_inside(rt: &impl Abort, tree: &Vec<Seen>, tally: &Tally, place: usize) -> bool {
    let seen = seen_at(rt, tree, place);
    if !matches!(seen.shape, Shape::Q) {
        return false;
    }
    let mut first = seen.end;
    let mut last = seen.first;
    let mut count = 0;
    for child in seen.first..seen.end {
        if at(rt, &tally.met, child) > 0 {
            if count == 0 {
                first = child;
            }
            last = child;
            count = sum(rt, count, 1);
        }
    }
    count >= 2
        && seen.first < first
        && sum(rt, last, 1) < seen.end
        && sum(rt, first, count) == sum(rt, last, 1)
}

/// The sum of two small numbers.
pub fn sum(rt: &impl Abort, a: usize, b: usize) -> usize {
    assert!(rt; a <= 1_000_000);
    assert!(rt; b <= 1_000_000);
    a + b
}
