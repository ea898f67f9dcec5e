// A P-node that is a child of a Q-node becomes two of its children.
ghost use Rattle.std.specs.Prelude.{◌≡◌, ℕ, ◌+◌, ◌*◌, ◌≤◌, length, List, ◌∷◌, ◌++◌, Some};
ghost use Rattle.arena_model.specs.declared.Shape.TheVariants.{Q};
ghost use Rattle.arena_model.specs.Layout.{shape_at, children_at, IsAtOrAbove};
ghost use Rattle.arena_model.specs.NamedTree.{IsOneTree, HasTwoEach};
ghost use Rattle.pq_arena.specs.RowNodes.{indices};
ghost use Rattle.templates_p.specs.Dividing.{AreSome, CanDivide, IsDivided, IsPartedOff};

use crate::moves::move_under;
use crate::parted::one_left;
use pq_arena::{Arena, NodeId, Shape};
use step_count::{Ledger, Steps};

/// Divides `node`, a P-node beside the child `beside` of a Q-node: in its place stand two children of that Q-node, its
/// `members`, as one node, beside `beside`, and its other children, as one node, on the far side. Both are known without
/// labels; the members are one child or more, and not all.
///
/// It ticks at most twice for each member, and twelve times more.
pub fn divide<L: Ledger>(
    arena: &mut Arena,
    node: NodeId,
    members: &[NodeId],
    beside: NodeId,
    steps: &mut Steps<L>,
)
    requires one { IsOneTree arena.old }
    requires two { HasTwoEach arena.old }
    requires members { AreSome arena.old node.index (indices members.now) }
    requires place { CanDivide arena.old node.index beside.index }
    ensures before { (q : ℕ) (us vs : List ℕ) → shape_at arena.old q ≡ Some Q → children_at arena.old q ≡ us ++ (node.index ∷ (beside.index ∷ vs)) →
        IsDivided arena.old arena.new q node.index (indices members.now) (λ rest group. us ++ (rest ∷ (group ∷ (beside.index ∷ vs)))) }
    ensures behind { (q : ℕ) (us vs : List ℕ) → shape_at arena.old q ≡ Some Q → children_at arena.old q ≡ us ++ (beside.index ∷ (node.index ∷ vs)) →
        IsDivided arena.old arena.new q node.index (indices members.now) (λ rest group. us ++ (beside.index ∷ (group ∷ (rest ∷ vs)))) }
    ensures ticks { steps.new ≤ steps.old + 2 * length members.now + 12 }
{
    arena.layout_law();
    let line = arena.take(Shape::Q, steps);
    arena.layout_law();
    let group = part_off(arena, node, members, steps);
    arena.layout_law();
    arena.replace(node, line, steps);
    arena.layout_law();
    let rest = one_left(arena, node, steps);
    arena.layout_law();
    arena.put_end(line, 1, rest, steps);
    arena.layout_law();
    arena.put_end(line, 1, group, steps);
    arena.layout_law();
    arena.splice(line, 1, Some(beside), steps);
    arena.layout_law();
}

// Takes the members from the P-node `node`, some of its children and not all, and makes them one node that stands alone.
fn part_off<L: Ledger>(
    arena: &mut Arena,
    node: NodeId,
    members: &[NodeId],
    steps: &mut Steps<L>,
) -> NodeId
    requires members { AreSome arena.old node.index (indices members.now) }
    requires above { IsAtOrAbove arena.old.slots arena.old.root node.index }
    requires some { 1 ≤ length arena.old.spares }
    ensures off { (fresh : List ℕ) × IsPartedOff arena.old arena.new node.index result.index (indices members.now) fresh }
    ensures ticks { steps.new ≤ steps.old + 2 * length members.now + 1 }
{
    arena.layout_law();
    if members.len() > 1 {
        return move_under(arena, node, members, steps);
    }
    let only = members[0];
    arena.detach(only, steps);
    only
}
