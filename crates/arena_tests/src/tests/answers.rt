// What a pass left against what it has to leave.
ghost use Rattle.std.specs.Prelude.{◌<◌};
ghost use Rattle.bubble_pass.specs.Marks.{size_of};

use super::pictures::{Seen, place_of, seen_at};
use super::plain::{Tally, label_at, sum};
use bubble_pass::{Counts, Label, Work};
use pq_arena::NodeId;
use row_model::{COLUMN_BOUND, NoMemory};
use std::alloc::Global;
use std::process::Abort;

// A pass over a tree of so many columns.
#[derive(Clone, Copy)]
pub struct Asked {
    pub columns: u32,
    // The place of the smallest node that holds the row.
    pub place: usize,
    // Whether a run of inner children of this node holds it, so that the node itself has no label.
    pub is_run: bool,
}

/// The label that is wanted at each place: none but at and below the smallest node that holds the row.
pub fn wanted_labels(
    rt: &impl Abort,
    alloc: Global,
    tree: &Vec<Seen>,
    tally: &Tally,
    asked: Asked,
) -> Result<Vec<Label>, NoMemory> {
    let mut below = Vec::new(alloc);
    let mut labels = Vec::new(alloc);
    for place in 0..tree.len() {
        let is_below = place == asked.place
            || (place > 0 && flag_at(rt, &below, tree[place].above));
        below.push(is_below)?;
        if is_below && !(asked.is_run && place == asked.place) {
            labels.push(label_at(rt, tally, place))?;
        } else {
            labels.push(Label::Empty)?;
        }
    }
    Ok(labels)
}

// The flag at this place.
fn flag_at(rt: &impl Abort, flags: &Vec<bool>, place: usize) -> bool {
    assert!(rt; place < flags.len());
    flags[place]
}

// The label that is wanted at this place.
fn wanted_at(rt: &impl Abort, labels: &Vec<Label>, place: usize) -> Label {
    assert!(rt; place < labels.len());
    labels[place]
}

// The room has a place for the node.
fn assert_room(rt: &impl Abort, work: &Work, columns: u32, n: NodeId)
    ensures { n.index < size_of work.now }
{
    assert!(rt; columns <= COLUMN_BOUND);
    assert!(rt; work.is_for(columns));
    assert!(rt; n.index() < 2 * columns + 4);
}

/// The label that the pass left.
pub fn label_of(rt: &impl Abort, work: &Work, columns: u32, n: NodeId) -> Label {
    assert_room(rt, work, columns, n);
    work.label(n)
}

/// The numbers of full and of partial children that the pass left.
pub fn counts_of(rt: &impl Abort, work: &Work, columns: u32, n: NodeId) -> Counts {
    assert_room(rt, work, columns, n);
    work.counts(n)
}

/// Each node has the label that is wanted, and each labelled one the counts of its children.
pub fn assert_labels(
    rt: &impl Abort,
    tree: &Vec<Seen>,
    labels: &Vec<Label>,
    columns: u32,
    work: &Work,
) {
    for place in 0..tree.len() {
        let node = tree[place].node;
        let wanted = wanted_at(rt, labels, place);
        assert!(rt; label_of(rt, work, columns, node) == wanted);
        if wanted != Label::Empty {
            let counts = counts_of(rt, work, columns, node);
            assert_eq!(rt;
                counts.full as usize,
                count_of(rt, tree, labels, place, Label::Full)
            );
            assert_eq!(rt;
                counts.partial as usize,
                count_of(rt, tree, labels, place, Label::Partial)
            );
        }
    }
}

// How many children of the node at this place are to have this label.
fn count_of(
    rt: &impl Abort,
    tree: &Vec<Seen>,
    labels: &Vec<Label>,
    place: usize,
    label: Label,
) -> usize {
    let seen = seen_at(rt, tree, place);
    let mut count = 0;
    for child in seen.first..seen.end {
        if wanted_at(rt, labels, child) == label {
            count = sum(rt, count, 1);
        }
    }
    count
}

/// The labelled nodes are listed once each, after their children.
pub fn assert_order(rt: &impl Abort, tree: &Vec<Seen>, labels: &Vec<Label>, work: &Work) {
    let nodes = work.nodes();
    let mut count = 0;
    for place in 0..tree.len() {
        if wanted_at(rt, labels, place) != Label::Empty {
            count = sum(rt, count, 1);
            let turn = turn_of(rt, nodes, tree[place].node);
            let above = tree[place].above;
            if place > 0 && wanted_at(rt, labels, above) != Label::Empty {
                assert!(rt; turn < turn_of(rt, nodes, seen_at(rt, tree, above).node));
            }
        }
    }
    assert_eq!(rt; nodes.len(), count);
}

// Where the node is listed.
fn turn_of(rt: &impl Abort, nodes: &[NodeId], node: NodeId) -> usize {
    for turn in 0..nodes.len() {
        if nodes[turn].index() == node.index() {
            return turn;
        }
    }
    assert!(rt; false);
    0
}

/// Each chain has each labelled child of its node once, and no other node.
pub fn assert_chains(
    rt: &impl Abort,
    alloc: Global,
    tree: &Vec<Seen>,
    labels: &Vec<Label>,
    columns: u32,
    work: &Work,
) -> Result<(), NoMemory> {
    let mut hung = vec![in alloc; false; tree.len()]?;
    for place in 0..tree.len() {
        if wanted_at(rt, labels, place) != Label::Empty {
            follow(rt, tree, columns, work, place, &mut hung);
        }
    }
    for place in 0..tree.len() {
        let is_child = place > 0 && wanted_at(rt, labels, tree[place].above) != Label::Empty;
        let is_labelled = wanted_at(rt, labels, place) != Label::Empty;
        assert!(rt; flag_at(rt, &hung, place) == (is_child && is_labelled));
    }
    Ok(())
}

// Notes the children in the chain of the node at this place.
fn follow(
    rt: &impl Abort,
    tree: &Vec<Seen>,
    columns: u32,
    work: &Work,
    place: usize,
    hung: &mut Vec<bool>,
) {
    let node = seen_at(rt, tree, place).node;
    assert_room(rt, work, columns, node);
    let mut next = work.first_child(node);
    for _ in 0..tree.len() {
        if let Some(child) = next {
            let below = place_of(rt, tree, child);
            assert_eq!(rt; seen_at(rt, tree, below).above, place);
            assert!(rt; !flag_at(rt, hung, below));
            assert!(rt; below < hung.len());
            hung[below] = true;
            assert_room(rt, work, columns, child);
            next = work.next_child(child);
        }
    }
    assert!(rt; next.is_none());
}
