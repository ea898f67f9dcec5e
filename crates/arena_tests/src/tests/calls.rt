// The calls of an arena, each after a test of its conditions.
ghost use Rattle.std.specs.Prelude.{◌≡◌, ◌≢◌, ◌↔◌, ◌⊎◌, ℕ, List, [], IsTrue, Some, None, slice_index_or};
ghost use Rattle.arena_model.specs.declared.Shape.TheVariants.{Q};
ghost use Rattle.arena_model.specs.Layout.{shape_at, children_at, IsAtOrAbove, IsSpliceAt};
ghost use Rattle.pq_arena.specs.Looks.{ShowsNode, IsBeside};

use pq_arena::{Arena, NodeId, NodeView, Shape};
use std::process::Abort;
use step_count::{Ledger, Steps};

/// What there is to see at a node in use.
pub fn view_of<L: Ledger>(
    rt: &impl Abort,
    arena: &Arena,
    n: NodeId,
    steps: &mut Steps<L>,
) -> NodeView
    ensures { ShowsNode arena.now n.index result }
{
    assert!(rt; arena.is_in_use(n, steps));
    arena.look(n, steps)
}

/// The shape of a node in use.
pub fn shape_of<L: Ledger>(rt: &impl Abort, arena: &Arena, n: NodeId, steps: &mut Steps<L>) -> Shape
    ensures { shape_at arena.now n.index ≡ Some result }
{
    view_of(rt, arena, n, steps).shape
}

/// The leaf of a column of the arena.
pub fn leaf(rt: &impl Abort, arena: &Arena, column: u32) -> NodeId {
    assert!(rt; 1 <= column);
    assert!(rt; column <= arena.columns());
    arena.leaf(column)
}

/// Takes a Q-node where `line` holds, else a P-node.
pub fn take<L: Ledger>(
    rt: &impl Abort,
    arena: &mut Arena,
    line: bool,
    steps: &mut Steps<L>,
) -> NodeId {
    assert!(rt; arena.spare() > 0);
    if line {
        arena.take(Shape::Q, steps)
    } else {
        arena.take(Shape::P, steps)
    }
}

/// Takes a child of a P-node from its parent.
pub fn detach<L: Ledger>(rt: &impl Abort, arena: &mut Arena, n: NodeId, steps: &mut Steps<L>) {
    assert!(rt; arena.is_child_of_p(n, steps));
    arena.detach(n, steps);
}

/// Whether the node has no child.
pub fn is_childless<L: Ledger>(
    rt: &impl Abort,
    arena: &Arena,
    n: NodeId,
    steps: &mut Steps<L>,
) -> bool
    ensures { IsTrue result → children_at arena.now n.index ≡ [] }
{
    arena.layout_law();
    let view = view_of(rt, arena, n, steps);
    match view.shape {
        Shape::Leaf(_) => true,
        Shape::P => view.children == 0,
        Shape::Q => is_same(view.ends[0], None),
    }
}

// Whether it is plain that `n` is neither `p` nor above `p`: nothing is above `p`, or nothing below `n`.
fn is_apart<L: Ledger>(
    rt: &impl Abort,
    arena: &Arena,
    n: NodeId,
    p: NodeId,
    steps: &mut Steps<L>,
) -> bool
    ensures { IsTrue result → IsAtOrAbove arena.now.slots n.index p.index → ⊥ }
{
    if n.index() == p.index() {
        return false;
    }
    if arena.is_top(p, steps) {
        return true;
    }
    is_childless(rt, arena, n, steps)
}

/// Puts a node that stands alone in front of the children of a P-node, or at this end of those of a Q-node.
pub fn put_under<L: Ledger>(
    rt: &impl Abort,
    arena: &mut Arena,
    p: NodeId,
    end: usize,
    n: NodeId,
    steps: &mut Steps<L>,
) {
    assert!(rt; end <= 1);
    assert!(rt; arena.stands_alone(n, steps));
    assert!(rt; is_apart(rt, arena, n, p, steps));
    match shape_of(rt, arena, p, steps) {
        Shape::P => arena.attach(p, n, steps),
        Shape::Q => arena.put_end(p, end, n, steps),
        Shape::Leaf(_) => assert!(rt; false),
    }
}

/// Puts `new`, which stands alone, in the place of `old`.
pub fn replace<L: Ledger>(
    rt: &impl Abort,
    arena: &mut Arena,
    old: NodeId,
    new: NodeId,
    steps: &mut Steps<L>,
) {
    assert!(rt; arena.is_in_use(old, steps));
    assert!(rt; arena.stands_alone(new, steps));
    assert!(rt; is_apart(rt, arena, new, old, steps));
    arena.replace(old, new, steps);
}

/// Gives back a P-node or a Q-node that stands alone without children.
pub fn give_back<L: Ledger>(rt: &impl Abort, arena: &mut Arena, n: NodeId, steps: &mut Steps<L>) {
    assert!(rt; arena.stands_alone(n, steps));
    assert!(rt; is_childless(rt, arena, n, steps));
    match shape_of(rt, arena, n, steps) {
        Shape::P | Shape::Q => arena.give_back(n, steps),
        Shape::Leaf(_) => assert!(rt; false),
    }
}

/// Whether these name one node, or none both.
pub fn is_same(a: Option<NodeId>, b: Option<NodeId>) -> bool
    ensures { IsTrue result ↔ (a ≡ b) }
{
    match (a, b) {
        (Some(x), Some(y)) => x.index() == y.index(),
        (None, None) => true,
        (Some(_), None) | (None, Some(_)) => false,
    }
}

// Whether the view shows a Q-node with two end children, and `near` beside it.
fn is_spliceable(view: &NodeView, near: Option<NodeId>) -> bool
    ensures shape { IsTrue result → view.now.shape ≡ Q }
    ensures two { IsTrue result → slice_index_or view.now.ends 0 None ≢ slice_index_or view.now.ends 1 None }
    ensures near { IsTrue result → (near ≡ slice_index_or view.now.near 0 None) ⊎ (near ≡ slice_index_or view.now.near 1 None) }
{
    if !matches!(view.shape, Shape::Q) || is_same(view.ends[0], view.ends[1]) {
        return false;
    }
    if is_same(near, view.near[0]) {
        return true;
    }
    is_same(near, view.near[1])
}

// Whether `child` is a Q-node with two children or more, a child of a Q-node, and `near` stands beside it there.
fn can_splice<L: Ledger>(
    rt: &impl Abort,
    arena: &Arena,
    child: NodeId,
    near: Option<NodeId>,
    steps: &mut Steps<L>,
) -> bool
    ensures { IsTrue result → (q : ℕ) × (us : List ℕ) × (vs : List ℕ) × IsSpliceAt arena.now q child.index us vs × IsBeside near us vs }
{
    arena.layout_law();
    let view = view_of(rt, arena, child, steps);
    if arena.is_top(child, steps) {
        return false;
    }
    if arena.is_child_of_p(child, steps) {
        return false;
    }
    is_spliceable(&view, near)
}

/// Puts the children of `child` in its place, its end `first` towards `near`.
pub fn splice<L: Ledger>(
    rt: &impl Abort,
    arena: &mut Arena,
    child: NodeId,
    first: usize,
    near: Option<NodeId>,
    steps: &mut Steps<L>,
) {
    assert!(rt; first <= 1);
    assert!(rt; can_splice(rt, arena, child, near, steps));
    arena.splice(child, first, near, steps);
}
