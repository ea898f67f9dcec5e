// Q1.
ghost use Rattle.std.specs.Prelude.{◌≡◌, ◌+◌, ◌*◌, ◌≤◌};
ghost use Rattle.bubble_pass.specs.Marks.{fulls_at, partials_at};
ghost use Rattle.template_model.specs.Standing.{IsReady, Tells};
ghost use Rattle.templates_q.specs.Fits.{FitsQ1};

use crate::walk::{ChildGap, Wanted, pass};
use bubble_pass::Work;
use pq_arena::{Arena, NodeId, Shape};
use step_count::{Ledger, Steps};

/// Whether Q1 fits at `node`: it is a Q-node, and all its children are full.
///
/// It ticks at most 4 times for each labelled child, and 4 times more. That is wide: once for each, and once more, is
/// the narrow bound.
pub fn fits_q1<L: Ledger>(
    arena: &Arena,
    work: &Work,
    node: NodeId,
    root: bool,
    steps: &mut Steps<L>,
) -> bool
    requires { IsReady arena.now work.now node.index }
    ensures fits { Tells arena.now work.now node.index (FitsQ1 arena.now node.index) result }
    ensures ticks { steps.new ≤ steps.old + 4 * (fulls_at work.now node.index + partials_at work.now node.index + 1) }
    ensures few { steps.new ≤ steps.old + fulls_at work.now node.index + partials_at work.now node.index + 1 }
{
    let _anywhere = root;
    arena.layout_law();
    let view = arena.look(node, steps);
    match view.shape {
        Shape::Q => {
            let start = ChildGap {
                before: None,
                next: view.ends[0],
            };
            pass(arena, work, Wanted::Fulls, start, steps)
                .gap
                .next
                .is_none()
        }
        Shape::Leaf(_) | Shape::P => false,
    }
}

/// Applies Q1, which leaves the arena and the labels as they are. It doesn't tick.
pub fn apply_q1<L: Ledger>(
    arena: &mut Arena,
    work: &mut Work,
    node: NodeId,
    steps: &mut Steps<L>,
) -> NodeId
    requires { IsReady arena.old work.old node.index }
    ensures arena { arena.new ≡ arena.old }
    ensures work { work.new ≡ work.old }
    ensures node { result ≡ node }
    ensures ticks { steps.new ≡ steps.old }
{
    node
}
