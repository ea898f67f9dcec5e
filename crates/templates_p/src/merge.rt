// Two partial children become one Q-node.
ghost use Rattle.std.specs.Prelude.{◌≡◌, ℕ, ◌+◌, ◌-◌, ◌≤◌};
ghost use Rattle.arena_model.specs.ChildLists.{oriented};
ghost use Rattle.arena_model.specs.Layout.{children_at};
ghost use Rattle.template_model.specs.Treated.{IsTreated};
ghost use Rattle.templates_p.specs.Merging.{put_in_if, CanPutInIf, laid_on, CanMerge, IsMerged};

use crate::line::{put_at_end, settle};
use bubble_pass::Work;
use pq_arena::{Arena, NodeId};
use step_count::{Ledger, Steps};

// A partial child, and the end at which its full children stand: 0 where they come first, 1 where they come last.
#[derive(Clone, Copy)]
pub struct PartialChild {
    pub node: NodeId,
    pub full_end: usize,
}

// Puts the child `child` of the P-node `node`, where there is one, at the full end of its partial child `line`.
pub fn lengthen<L: Ledger>(
    arena: &mut Arena,
    node: NodeId,
    line: PartialChild,
    child: Option<NodeId>,
    steps: &mut Steps<L>,
)
    requires can { CanPutInIf arena.old node.index line.node.index child }
    requires end { line.full_end ≤ 1 }
    ensures put { arena.new ≡ put_in_if arena.old node.index line.node.index line.full_end child }
    ensures ticks { steps.new ≤ steps.old + 2 }
{
    if let Some(child) = child {
        put_at_end(arena, node, line.node, line.full_end, child, steps);
    }
}

// Puts the children of `other` at the full end of `line`, the full ones innermost, and gives `other` back. Both are
// partial children of the P-node `node`; where it has no other child, `line` takes its place. The answer is what stands
// there.
pub fn merge<L: Ledger>(
    arena: &mut Arena,
    work: &mut Work,
    node: NodeId,
    line: PartialChild,
    other: PartialChild,
    steps: &mut Steps<L>,
) -> NodeId
    requires can { CanMerge arena.old work.old node.index line.node.index other.node.index }
    requires end { line.full_end ≤ 1 }
    requires other_end { other.full_end ≤ 1 }
    ensures treated { IsTreated arena.old arena.new work.old work.new node.index result.index }
    ensures merged { IsMerged arena.old work.old arena.new work.new node.index line.node.index other.node.index result.index
        (laid_on line.full_end (oriented (1 - other.full_end) (children_at arena.old other.node.index)) (children_at arena.old line.node.index)) }
    ensures ticks { steps.new ≤ steps.old + 7 }
{
    arena.layout_law();
    put_at_end(arena, node, line.node, line.full_end, other.node, steps);
    arena.splice(other.node, 1 - other.full_end, None, steps);
    let top = settle(arena, work, node, line.node, steps);
    arena.layout_law();
    top
}
