// The full children of a P-node become one child.
ghost use Rattle.std.specs.Prelude.{◌≡◌, ◌≢◌, ◌↔◌, ℕ, IsTrue, ◌+◌, ◌*◌, ◌≤◌, ◌<◌};
ghost use Rattle.column_order.specs.Orders.{occurs};
ghost use Rattle.arena_model.specs.Layout.{children_at};
ghost use Rattle.bubble_pass.specs.declared.labels.Label.TheVariants.{Full};
ghost use Rattle.bubble_pass.specs.Marks.{label_at, fulls_at, partials_at, size_of};
ghost use Rattle.template_model.specs.Treated.{IsTreated};
ghost use Rattle.templates_p.specs.Steps.{HasChildWith, CanMove, moved_under, CanGather, HasGroup, IsGathered};

use bubble_pass::{Label, Work};
use pq_arena::{Arena, NodeId, Shape};
use step_count::{Ledger, Steps};

// The first child of the node in its chain that has this label and is not `skip`.
pub fn child_with(arena: &Arena, work: &Work, node: NodeId, label: Label, skip: NodeId) -> NodeId
    requires { HasChildWith arena.now work.now node.index label skip.index }
    ensures child { 1 ≤ occurs (children_at arena.now node.index) result.index }
    ensures labelled { label_at work.now result.index ≡ label }
    ensures other { result.index ≢ skip.index }
{
    arena.layout_law();
    let counts = work.counts(node);
    let mut left = counts.full + counts.partial;
    let mut next = work.first_child(node);
    while left > 0 {
        let Some(child) = next else { unreachable!() };
        let wanted = is_wanted(work, child, label, skip);
        if wanted {
            return child;
        }
        next = work.next_child(child);
        left -= 1;
    }
    unreachable!()
}

// Whether the child has this label and is not `skip`.
fn is_wanted(work: &Work, child: NodeId, label: Label, skip: NodeId) -> bool
    requires { child.index < size_of work.now }
    ensures { IsTrue result ↔ ((label_at work.now child.index ≡ label) × (child.index ≢ skip.index)) }
{
    work.label(child) == label && child.index() != skip.index()
}

// Moves a full child from the P-node `node` to the P-node `group`; another child stays.
fn take_in<L: Ledger>(
    arena: &mut Arena,
    work: &Work,
    node: NodeId,
    group: NodeId,
    child: NodeId,
    steps: &mut Steps<L>,
)
    requires moves { CanMove arena.old node.index group.index child.index }
    requires room { child.index < size_of work.now }
    ensures full { label_at work.now child.index ≡ Full → arena.new ≡ moved_under arena.old node.index group.index child.index }
    ensures other { label_at work.now child.index ≢ Full → arena.new ≡ arena.old }
    ensures ticks { steps.new ≤ steps.old + 2 }
{
    if work.label(child) == Label::Full {
        arena.layout_law();
        arena.detach(child, steps);
        arena.attach(group, child, steps);
    }
}

// Puts the full children of the node, two or more, under a new P-node, which is a child of the node then.
fn group_full<L: Ledger>(
    arena: &mut Arena,
    work: &mut Work,
    node: NodeId,
    steps: &mut Steps<L>,
) -> NodeId
    requires can { CanGather arena.old work.old node.index }
    requires many { 2 ≤ fulls_at work.old node.index }
    ensures treated { IsTreated arena.old arena.new work.old work.new node.index node.index }
    ensures made { HasGroup arena.old work.old arena.new work.new node.index result.index }
    ensures ticks { steps.new ≤ steps.old + 2 * (fulls_at work.old node.index + partials_at work.old node.index) + 2 }
{
    arena.layout_law();
    let counts = work.counts(node);
    let mut left = counts.full + counts.partial;
    let mut next = work.first_child(node);
    let group = arena.take(Shape::P, steps);
    while left > 0 {
        let Some(child) = next else { unreachable!() };
        arena.layout_law();
        take_in(arena, work, node, group, child, steps);
        next = work.next_child(child);
        left -= 1;
    }
    arena.layout_law();
    arena.attach(node, group, steps);
    arena.layout_law();
    work.mark(group, Label::Full);
    group
}

// What the full children of a P-node become, where some child is not full: nothing where there is none, the one
// child, or a new P-node over them, which is a child of the node then.
pub fn gather<L: Ledger>(
    arena: &mut Arena,
    work: &mut Work,
    node: NodeId,
    steps: &mut Steps<L>,
) -> Option<NodeId>
    requires { CanGather arena.old work.old node.index }
    ensures treated { IsTreated arena.old arena.new work.old work.new node.index node.index }
    ensures gathered { IsGathered arena.old work.old arena.new work.new node.index result }
    ensures ticks { steps.new ≤ steps.old + 2 * (fulls_at work.old node.index + partials_at work.old node.index) + 2 }
{
    arena.layout_law();
    match work.counts(node).full {
        0 => None,
        1 => Some(child_with(arena, work, node, Label::Full, node)),
        _ => Some(group_full(arena, work, node, steps)),
    }
}
