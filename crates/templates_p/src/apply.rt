// The templates applied at leaves and at P-nodes.
ghost use Rattle.std.specs.Prelude.{◌≡◌, ◌+◌, ◌*◌, ◌≤◌, length, true, false};
ghost use Rattle.pq_tree.specs.Outline.{Outline};
ghost use Rattle.arena_model.specs.Layout.{children_at};
ghost use Rattle.arena_model.specs.NamedTree.{IsOneTree, HasTwoEach};
ghost use Rattle.pq_arena.specs.RowNodes.{indices};
ghost use Rattle.bubble_pass.specs.Marks.{fulls_at, partials_at};
ghost use Rattle.tree_theory.specs.Templates.{IsP2, IsP3, IsP4, IsP5, IsP6};
ghost use Rattle.template_model.specs.Standing.{IsReady, child_trees};
ghost use Rattle.template_model.specs.Treated.{IsTreated, IsReplacedAt, StandsForTree, BecomesTree, BecomesPartial};
ghost use Rattle.templates_p.specs.Fits.{FitsL1, StandsP1, StandsP2, StandsP3, StandsP4, StandsP5, StandsP6};
ghost use Rattle.templates_p.specs.Members.{AreMembers, member_labels};

use crate::group::{child_with, gather};
use crate::line::{absorb, full_end};
use crate::merge::{PartialChild, lengthen, merge};
use crate::moves::move_under;
use crate::parted::{fill_line, lift_line, start_line};
use bubble_pass::{Label, Work};
use pq_arena::{Arena, NodeId};
use step_count::{Ledger, Steps};

/// Applies L1 at `node`, a full leaf: nothing changes, and the answer is `node`. It doesn't tick.
pub fn apply_l1<L: Ledger>(
    arena: &mut Arena,
    work: &mut Work,
    node: NodeId,
    steps: &mut Steps<L>,
) -> NodeId
    requires ready { IsReady arena.old work.old node.index }
    requires stands { FitsL1 arena.old work.old node.index }
    ensures arena { arena.new ≡ arena.old }
    ensures work { work.new ≡ work.old }
    ensures answer { result ≡ node }
    ensures ticks { steps.new ≤ steps.old + 64 * (fulls_at work.old node.index + partials_at work.old node.index + 1) }
    ensures few { steps.new ≡ steps.old }
{
    node
}

/// Applies P1 at `node`, a P-node whose children are all full: nothing changes, and the answer is `node`. It doesn't
/// tick.
pub fn apply_p1<L: Ledger>(
    arena: &mut Arena,
    work: &mut Work,
    node: NodeId,
    steps: &mut Steps<L>,
) -> NodeId
    requires ready { IsReady arena.old work.old node.index }
    requires stands { StandsP1 arena.old work.old node.index }
    ensures arena { arena.new ≡ arena.old }
    ensures work { work.new ≡ work.old }
    ensures answer { result ≡ node }
    ensures ticks { steps.new ≤ steps.old + 64 * (fulls_at work.old node.index + partials_at work.old node.index + 1) }
    ensures few { steps.new ≡ steps.old }
{
    node
}

/// Applies P2 at `node`, the pertinent root: where two children or more are full, they become the children of a new
/// P-node, a full child of `node`. The answer is `node`.
///
/// It ticks at most 64 times for each labelled child, and 64 times more. That is wide: twice for each,
/// and twice more, is the narrow bound.
pub fn apply_p2<L: Ledger>(
    arena: &mut Arena,
    work: &mut Work,
    node: NodeId,
    steps: &mut Steps<L>,
) -> NodeId
    requires ready { IsReady arena.old work.old node.index }
    requires stands { StandsP2 arena.old work.old node.index }
    ensures treated { IsTreated arena.old arena.new work.old work.new node.index result.index }
    ensures becomes { BecomesTree arena.old arena.new work.old node.index result.index (IsP2 true (child_trees arena.old node.index)) }
    ensures answer { result ≡ node }
    ensures ticks { steps.new ≤ steps.old + 64 * (fulls_at work.old node.index + partials_at work.old node.index + 1) }
    ensures few { steps.new ≤ steps.old + 2 * (fulls_at work.old node.index + partials_at work.old node.index) + 2 }
{
    let _group = gather(arena, work, node, steps);
    arena.layout_law();
    node
}

/// Applies P2 at `node`, the pertinent root, where its full children are known without labels: the `members`, two or
/// more and not all. They become the children of a new P-node, a child of `node`. No child may be partial.
///
/// It ticks twice for each member, and twice more.
pub fn apply_p2_to<L: Ledger>(
    arena: &mut Arena,
    node: NodeId,
    members: &[NodeId],
    steps: &mut Steps<L>,
)
    requires one { IsOneTree arena.old }
    requires two { HasTwoEach arena.old }
    requires members { AreMembers arena.old node.index (indices members.now) }
    ensures replaced { IsReplacedAt arena.old arena.new node.index node.index }
    ensures becomes { (u : Outline) × IsP2 true (child_trees arena.old node.index) (member_labels (indices members.now) (children_at arena.old node.index)) u ×
        StandsForTree arena.new node.index u }
    ensures ticks { steps.new ≡ steps.old + 2 * length members.now + 2 }
{
    arena.layout_law();
    let group = move_under(arena, node, members, steps);
    arena.layout_law();
    arena.attach(node, group, steps);
    arena.layout_law();
}

/// Applies P3 at `node`, which is not the pertinent root: the answer is a new Q-node in its place and with its label,
/// over the empty children, as one node, at one end and the full children, as one node, at the other.
///
/// It ticks at most 64 times for each labelled child, and 64 times more. That is wide: twice for each,
/// and 11 times more, is the narrow bound.
pub fn apply_p3<L: Ledger>(
    arena: &mut Arena,
    work: &mut Work,
    node: NodeId,
    steps: &mut Steps<L>,
) -> NodeId
    requires ready { IsReady arena.old work.old node.index }
    requires stands { StandsP3 arena.old work.old node.index }
    ensures treated { IsTreated arena.old arena.new work.old work.new node.index result.index }
    ensures becomes { BecomesPartial arena.old arena.new work.old work.new node.index result.index (IsP3 false (child_trees arena.old node.index)) }
    ensures ticks { steps.new ≤ steps.old + 64 * (fulls_at work.old node.index + partials_at work.old node.index + 1) }
    ensures few { steps.new ≤ steps.old + 2 * (fulls_at work.old node.index + partials_at work.old node.index) + 11 }
{
    arena.layout_law();
    let Some(full) = gather(arena, work, node, steps) else {
        unreachable!()
    };
    arena.layout_law();
    let line = start_line(arena, node, full, steps);
    arena.layout_law();
    lift_line(arena, work, node, line, 0, steps);
    arena.layout_law();
    line
}

/// Applies P4 at `node`, the pertinent root: the full children become one, at the full end of the partial child. Where
/// there is no empty child, the partial child takes the place of `node`. The answer is what stands there.
///
/// It ticks at most 64 times for each labelled child, and 64 times more. That is wide: twice for each,
/// and 9 times more, is the narrow bound.
pub fn apply_p4<L: Ledger>(
    arena: &mut Arena,
    work: &mut Work,
    node: NodeId,
    steps: &mut Steps<L>,
) -> NodeId
    requires ready { IsReady arena.old work.old node.index }
    requires stands { StandsP4 arena.old work.old node.index }
    ensures treated { IsTreated arena.old arena.new work.old work.new node.index result.index }
    ensures becomes { BecomesTree arena.old arena.new work.old node.index result.index (IsP4 true (child_trees arena.old node.index)) }
    ensures ticks { steps.new ≤ steps.old + 64 * (fulls_at work.old node.index + partials_at work.old node.index + 1) }
    ensures few { steps.new ≤ steps.old + 2 * (fulls_at work.old node.index + partials_at work.old node.index) + 9 }
{
    arena.layout_law();
    let line = child_with(arena, work, node, Label::Partial, node);
    match gather(arena, work, node, steps) {
        Some(full) => {
            arena.layout_law();
            let end = full_end(arena, work, line, steps);
            let top = absorb(arena, work, node, line, full, end, steps);
            arena.layout_law();
            top
        }
        None => node,
    }
}

/// Applies P5 at `node`, which is not the pertinent root: the partial child takes its place, with the empty
/// children, as one node, at its empty end and the full children, as one node, at its full end. The answer is the node
/// in the place of `node`, with its label.
///
/// It ticks at most 64 times for each labelled child, and 64 times more. That is wide: twice for each,
/// and 15 times more, is the narrow bound.
pub fn apply_p5<L: Ledger>(
    arena: &mut Arena,
    work: &mut Work,
    node: NodeId,
    steps: &mut Steps<L>,
) -> NodeId
    requires ready { IsReady arena.old work.old node.index }
    requires stands { StandsP5 arena.old work.old node.index }
    ensures treated { IsTreated arena.old arena.new work.old work.new node.index result.index }
    ensures becomes { BecomesPartial arena.old arena.new work.old work.new node.index result.index (IsP5 false (child_trees arena.old node.index)) }
    ensures ticks { steps.new ≤ steps.old + 64 * (fulls_at work.old node.index + partials_at work.old node.index + 1) }
    ensures few { steps.new ≤ steps.old + 2 * (fulls_at work.old node.index + partials_at work.old node.index) + 15 }
{
    arena.layout_law();
    let line = child_with(arena, work, node, Label::Partial, node);
    let group = gather(arena, work, node, steps);
    arena.layout_law();
    let end = full_end(arena, work, line, steps);
    let top = fill_line(arena, work, node, line, group, end, steps);
    arena.layout_law();
    if top.index() == line.index() {
        return top;
    }
    lift_line(arena, work, node, line, 1 - end, steps);
    arena.layout_law();
    line
}

/// Applies P6 at `node`, the pertinent root: the full children become one, at the full end of one partial child, and
/// behind it come the children of the other, which is given back. Where there is no empty child, the Q-node that is
/// left takes the place of `node`. The answer is what stands there.
///
/// It ticks at most 64 times for each labelled child, and 64 times more. That is wide: twice for each,
/// and 13 times more, is the narrow bound.
pub fn apply_p6<L: Ledger>(
    arena: &mut Arena,
    work: &mut Work,
    node: NodeId,
    steps: &mut Steps<L>,
) -> NodeId
    requires ready { IsReady arena.old work.old node.index }
    requires stands { StandsP6 arena.old work.old node.index }
    ensures treated { IsTreated arena.old arena.new work.old work.new node.index result.index }
    ensures becomes { BecomesTree arena.old arena.new work.old node.index result.index (IsP6 true (child_trees arena.old node.index)) }
    ensures ticks { steps.new ≤ steps.old + 64 * (fulls_at work.old node.index + partials_at work.old node.index + 1) }
    ensures few { steps.new ≤ steps.old + 2 * (fulls_at work.old node.index + partials_at work.old node.index) + 13 }
{
    arena.layout_law();
    let first = child_with(arena, work, node, Label::Partial, node);
    let second = child_with(arena, work, node, Label::Partial, first);
    let group = gather(arena, work, node, steps);
    arena.layout_law();
    let end = full_end(arena, work, first, steps);
    let line = PartialChild {
        node: first,
        full_end: end,
    };
    lengthen(arena, node, line, group, steps);
    arena.layout_law();
    let other_end = full_end(arena, work, second, steps);
    let other = PartialChild {
        node: second,
        full_end: other_end,
    };
    let top = merge(arena, work, node, line, other, steps);
    arena.layout_law();
    top
}
