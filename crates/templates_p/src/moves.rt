// Some children of a P-node, as one.
ghost use Rattle.std.specs.Prelude.{◌≡◌, ◌+◌, ◌*◌, ◌≤◌, length};
ghost use Rattle.arena_model.specs.Layout.{IsAtOrAbove};
ghost use Rattle.pq_arena.specs.RowNodes.{indices};
ghost use Rattle.templates_p.specs.Members.{AreMembers};
ghost use Rattle.templates_p.specs.Steps.{Moved};

use pq_arena::{Arena, NodeId, Shape};
use step_count::{Ledger, Steps};

// Moves the members, two children of the P-node `node` or more and not all, to a new P-node, which stands alone.
pub fn move_under<L: Ledger>(
    arena: &mut Arena,
    node: NodeId,
    members: &[NodeId],
    steps: &mut Steps<L>,
) -> NodeId
    requires members { AreMembers arena.old node.index (indices members.now) }
    requires above { IsAtOrAbove arena.old.slots arena.old.root node.index }
    requires some { 1 ≤ length arena.old.spares }
    ensures moved { Moved arena.old arena.new node.index result.index (indices members.now) }
    ensures ticks { steps.new ≡ steps.old + 2 * length members.now + 1 }
{
    arena.layout_law();
    let group = arena.take(Shape::P, steps);
    for member in members {
        arena.layout_law();
        arena.detach(*member, steps);
        arena.attach(group, *member, steps);
    }
    group
}
