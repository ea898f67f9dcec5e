// The tree of an arena as its views show it, with a test of all links.
use super::calls::{is_same, view_of};
use pq_arena::{Arena, NodeId, NodeView, Shape};
use row_model::NoMemory;
use std::alloc::Global;
use std::process::Abort;
use step_count::{Ledger, Steps};

// A node that the views show. It has a place in the list of all nodes, where each stands behind the one above it and
// the children of one stand together, from left to right.
#[derive(Clone, Copy)]
pub struct Seen {
    pub node: NodeId,
    pub shape: Shape,
    // The place of the node above it; the root has its own.
    pub above: usize,
    // The places of its children begin here, and end before `end`.
    pub first: usize,
    pub end: usize,
}

/// The node at this place, which is one of the tree's.
pub fn seen_at(rt: &impl Abort, tree: &Vec<Seen>, place: usize) -> Seen {
    assert!(rt; place < tree.len());
    tree[place]
}

/// The children of the node at this place.
pub fn children_of<'a>(rt: &impl Abort, tree: &'a Vec<Seen>, place: usize) -> &'a [Seen] {
    let seen = seen_at(rt, tree, place);
    assert!(rt; seen.first <= seen.end);
    assert!(rt; seen.end <= tree.len());
    &tree[seen.first..seen.end]
}

/// The place of a node.
pub fn place_of(rt: &impl Abort, tree: &Vec<Seen>, node: NodeId) -> usize {
    for place in 0..tree.len() {
        if tree[place].node.index() == node.index() {
            return place;
        }
    }
    assert!(rt; false);
    0
}

/// The tree at the root.
pub fn read<L: Ledger>(
    rt: &impl Abort,
    alloc: Global,
    arena: &Arena,
    steps: &mut Steps<L>,
) -> Result<Vec<Seen>, NoMemory> {
    let mut tree = Vec::new(alloc);
    let root = arena.root();
    let view = view_of(rt, arena, root, steps);
    assert!(rt; is_same(view.parent, None));
    assert!(rt; is_same(view.near[0], None));
    assert!(rt; is_same(view.near[1], None));
    push_seen(root, view.shape, 0, &mut tree)?;
    assert!(rt; arena.columns() <= 40_000);
    for place in 0..2 * arena.columns() as usize {
        if place < tree.len() {
            push_children(rt, arena, place, &mut tree, steps)?;
        }
    }
    Ok(tree)
}

// Adds a node below the one at the place `above`. Its children are not listed yet.
fn push_seen(
    node: NodeId,
    shape: Shape,
    above: usize,
    tree: &mut Vec<Seen>,
) -> Result<(), NoMemory> {
    let seen = Seen {
        node,
        shape,
        above,
        first: 0,
        end: 0,
    };
    tree.push(seen)?;
    Ok(())
}

// Adds the children of the node at this place.
fn push_children<L: Ledger>(
    rt: &impl Abort,
    arena: &Arena,
    place: usize,
    tree: &mut Vec<Seen>,
    steps: &mut Steps<L>,
) -> Result<(), NoMemory> {
    let first = tree.len();
    let node = seen_at(rt, tree, place).node;
    let view = view_of(rt, arena, node, steps);
    let mut before = None;
    let mut next = view.ends[0];
    for _ in 0..arena.columns() {
        if let Some(child) = next {
            let child_view = view_of(rt, arena, child, steps);
            push_seen(child, child_view.shape, place, tree)?;
            next = match view.shape {
                Shape::P => next_in_ring(rt, arena, node, &view, child, steps),
                _ => next_in_run(rt, node, before, &child_view),
            };
            before = Some(child);
        }
    }
    assert!(rt; next.is_none());
    let end = tree.len();
    assert!(rt; first <= end);
    match view.shape {
        Shape::Leaf(_) => assert!(rt; before.is_none()),
        Shape::P => assert_eq!(rt; end - first, view.children as usize),
        Shape::Q => assert!(rt; is_same(before, view.ends[1])),
    }
    assert!(rt; place < end);
    tree[place].first = first;
    tree[place].end = end;
    Ok(())
}

// The child behind this one of a P-node, but for the first child. Each knows the node, and each is the one before the
// one behind it.
fn next_in_ring<L: Ledger>(
    rt: &impl Abort,
    arena: &Arena,
    node: NodeId,
    view: &NodeView,
    child: NodeId,
    steps: &mut Steps<L>,
) -> Option<NodeId> {
    let child_view = view_of(rt, arena, child, steps);
    assert!(rt; is_same(child_view.parent, Some(node)));
    let Some(behind) = child_view.near[0] else {
        assert!(rt; false);
        return None;
    };
    let behind_view = view_of(rt, arena, behind, steps);
    assert!(rt; is_same(behind_view.near[1], Some(child)));
    if is_same(Some(behind), view.ends[0]) {
        None
    } else {
        Some(behind)
    }
}

// The child of a Q-node that is beside this one and not `before`. An end child knows the node, and no other child does.
fn next_in_run(
    rt: &impl Abort,
    node: NodeId,
    before: Option<NodeId>,
    child_view: &NodeView,
) -> Option<NodeId> {
    let next = other_near(rt, child_view, before);
    let is_end = before.is_none() || next.is_none();
    assert!(rt; is_same(child_view.parent, if is_end { Some(node) } else { None }));
    next
}

// The neighbour on the other side of `before`.
fn other_near(rt: &impl Abort, view: &NodeView, before: Option<NodeId>) -> Option<NodeId> {
    if is_same(view.near[0], before) {
        return view.near[1];
    }
    assert!(rt; is_same(view.near[1], before));
    view.near[0]
}
