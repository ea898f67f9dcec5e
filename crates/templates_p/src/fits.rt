// Whether a template fits at a node, by the labels of its children.
ghost use Rattle.std.specs.Prelude.{◌≡◌, ◌↔◌, ◌+◌, IsTrue};
ghost use Rattle.template_model.specs.Standing.{IsReady, Tells};
ghost use Rattle.templates_p.specs.Fits.{FitsL1, FitsP1, FitsP2, FitsP3, FitsP4, FitsP5, FitsP6};

use crate::sight::{at_root, below_root, has_partials, is_all_full, is_full_and_empty, survey};
use bubble_pass::Work;
use pq_arena::{Arena, NodeId, Shape};
use step_count::{Ledger, Steps};

/// Whether L1 fits at `node`: a leaf that is full. The place of `node` does not matter.
///
/// It ticks once.
pub fn fits_l1<L: Ledger>(
    arena: &Arena,
    work: &Work,
    node: NodeId,
    _root: bool,
    steps: &mut Steps<L>,
) -> bool
    requires { IsReady arena.now work.now node.index }
    ensures fits { IsTrue result ↔ FitsL1 arena.now work.now node.index }
    ensures ticks { steps.new ≡ steps.old + 1 }
{
    match arena.look(node, steps).shape {
        Shape::Leaf(_) => work.label(node) == bubble_pass::Label::Full,
        Shape::P | Shape::Q => false,
    }
}

/// Whether P1 fits at `node`: a P-node whose children are all full. The place of `node` does not matter.
///
/// It ticks once.
pub fn fits_p1<L: Ledger>(
    arena: &Arena,
    work: &Work,
    node: NodeId,
    _root: bool,
    steps: &mut Steps<L>,
) -> bool
    requires { IsReady arena.now work.now node.index }
    ensures fits { Tells arena.now work.now node.index (FitsP1 arena.now node.index) result }
    ensures ticks { steps.new ≡ steps.old + 1 }
{
    let seen = survey(arena, work, node, steps);
    is_all_full(seen)
}

/// Whether P2 fits at `node`: the pertinent root, a P-node with full and empty children and no partial one.
///
/// It ticks once. `root` tells whether `node` is the pertinent root.
pub fn fits_p2<L: Ledger>(
    arena: &Arena,
    work: &Work,
    node: NodeId,
    root: bool,
    steps: &mut Steps<L>,
) -> bool
    requires { IsReady arena.now work.now node.index }
    ensures fits { Tells arena.now work.now node.index (FitsP2 arena.now node.index root) result }
    ensures ticks { steps.new ≡ steps.old + 1 }
{
    let seen = survey(arena, work, node, steps);
    at_root(root, is_full_and_empty(seen))
}

/// Whether P3 fits at `node`: a P-node below the pertinent root with full and empty children and no partial one.
///
/// It ticks once. `root` tells whether `node` is the pertinent root.
pub fn fits_p3<L: Ledger>(
    arena: &Arena,
    work: &Work,
    node: NodeId,
    root: bool,
    steps: &mut Steps<L>,
) -> bool
    requires { IsReady arena.now work.now node.index }
    ensures fits { Tells arena.now work.now node.index (FitsP3 arena.now node.index root) result }
    ensures ticks { steps.new ≡ steps.old + 1 }
{
    let seen = survey(arena, work, node, steps);
    below_root(root, is_full_and_empty(seen))
}

/// Whether P4 fits at `node`: the pertinent root, a P-node with one partial child.
///
/// It ticks once. `root` tells whether `node` is the pertinent root.
pub fn fits_p4<L: Ledger>(
    arena: &Arena,
    work: &Work,
    node: NodeId,
    root: bool,
    steps: &mut Steps<L>,
) -> bool
    requires { IsReady arena.now work.now node.index }
    ensures fits { Tells arena.now work.now node.index (FitsP4 arena.now node.index root) result }
    ensures ticks { steps.new ≡ steps.old + 1 }
{
    let seen = survey(arena, work, node, steps);
    at_root(root, has_partials(seen, 1))
}

/// Whether P5 fits at `node`: a P-node below the pertinent root with one partial child.
///
/// It ticks once. `root` tells whether `node` is the pertinent root.
pub fn fits_p5<L: Ledger>(
    arena: &Arena,
    work: &Work,
    node: NodeId,
    root: bool,
    steps: &mut Steps<L>,
) -> bool
    requires { IsReady arena.now work.now node.index }
    ensures fits { Tells arena.now work.now node.index (FitsP5 arena.now node.index root) result }
    ensures ticks { steps.new ≡ steps.old + 1 }
{
    let seen = survey(arena, work, node, steps);
    below_root(root, has_partials(seen, 1))
}

/// Whether P6 fits at `node`: the pertinent root, a P-node with two partial children.
///
/// It ticks once. `root` tells whether `node` is the pertinent root.
pub fn fits_p6<L: Ledger>(
    arena: &Arena,
    work: &Work,
    node: NodeId,
    root: bool,
    steps: &mut Steps<L>,
) -> bool
    requires { IsReady arena.now work.now node.index }
    ensures fits { Tells arena.now work.now node.index (FitsP6 arena.now node.index root) result }
    ensures ticks { steps.new ≡ steps.old + 1 }
{
    let seen = survey(arena, work, node, steps);
    at_root(root, has_partials(seen, 2))
}
