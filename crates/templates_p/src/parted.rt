// A line takes the place of its node, and what is left of the node stands at its empty end.
ghost use Rattle.std.specs.Prelude.{◌≡◌, ◌+◌, ◌≤◌, ◌<◌, length, Some};
ghost use Rattle.arena_model.specs.declared.Shape.TheVariants.{P};
ghost use Rattle.arena_model.specs.ChildLists.{without};
ghost use Rattle.arena_model.specs.Layout.{shape_at, children_at, StandsAlone, IsInUse};
ghost use Rattle.arena_model.specs.NamedTree.{IsOneTree, HasTwoEach};
ghost use Rattle.bubble_pass.specs.Marks.{size_of};
ghost use Rattle.template_model.specs.Treated.{IsTreated};
ghost use Rattle.templates_p.specs.Dividing.{IsOneLeft};
ghost use Rattle.templates_p.specs.Lines.{CanHandOver};
ghost use Rattle.templates_p.specs.Parts.{IsLeftPart, CanLift, IsParted, IsStarted, CanFill, IsFilled};

use crate::line::{absorb, hand_over};
use bubble_pass::{Label, Work};
use pq_arena::{Arena, NodeId, Shape};
use step_count::{Ledger, Steps};

// What is left of the P-node `node`, which stands alone, as one node that stands alone: its only child, and `node` is
// given back then, or `node` itself.
pub fn one_left<L: Ledger>(arena: &mut Arena, node: NodeId, steps: &mut Steps<L>) -> NodeId
    requires alone { StandsAlone arena.old node.index }
    requires is_p { shape_at arena.old node.index ≡ Some P }
    requires some { 1 ≤ length (children_at arena.old node.index) }
    ensures left { IsOneLeft arena.old arena.new node.index result.index }
    ensures ticks { steps.new ≤ steps.old + 3 }
{
    arena.layout_law();
    let view = arena.look(node, steps);
    let stays = view.children > 1;
    if stays {
        return node;
    }
    let Some(child) = view.ends[0] else {
        unreachable!()
    };
    arena.detach(child, steps);
    arena.give_back(node, steps);
    child
}

// So too, and marked as empty where it is `node` itself.
fn empty_part<L: Ledger>(
    arena: &mut Arena,
    work: &mut Work,
    node: NodeId,
    steps: &mut Steps<L>,
) -> NodeId
    requires alone { StandsAlone arena.old node.index }
    requires is_p { shape_at arena.old node.index ≡ Some P }
    requires some { 1 ≤ length (children_at arena.old node.index) }
    requires room { node.index < size_of work.old }
    ensures part { IsLeftPart arena.old arena.new work.old work.new node.index result.index }
    ensures ticks { steps.new ≤ steps.old + 3 }
{
    arena.layout_law();
    let part = one_left(arena, node, steps);
    if part.index() == node.index() {
        work.mark(node, Label::Empty);
        return node;
    }
    part
}

// Puts the child `line` of the P-node `node` in its place, and the other children of `node`, which are empty,
// as one node at this end of it.
pub fn lift_line<L: Ledger>(
    arena: &mut Arena,
    work: &mut Work,
    node: NodeId,
    line: NodeId,
    end: usize,
    steps: &mut Steps<L>,
)
    requires can { CanLift arena.old work.old node.index line.index }
    requires end { end ≤ 1 }
    ensures parted { IsParted arena.old arena.new work.old work.new node.index line.index end
        (without (children_at arena.old node.index) line.index) (children_at arena.old line.index) }
    ensures ticks { steps.new ≤ steps.old + 6 }
{
    arena.layout_law();
    hand_over(arena, node, line, steps);
    arena.layout_law();
    let label = work.label(node);
    work.put(node, line, label);
    let part = empty_part(arena, work, node, steps);
    arena.layout_law();
    arena.put_end(line, end, part, steps);
}

// A new Q-node takes the place of the child `full` of the P-node `node`, and has it as its only child.
pub fn start_line<L: Ledger>(
    arena: &mut Arena,
    node: NodeId,
    full: NodeId,
    steps: &mut Steps<L>,
) -> NodeId
    requires child { CanHandOver arena.old node.index full.index }
    requires some { 1 ≤ length arena.old.spares }
    ensures started { IsStarted arena.old arena.new node.index full.index result.index }
    ensures ticks { steps.new ≡ steps.old + 3 }
{
    arena.layout_law();
    let line = arena.take(Shape::Q, steps);
    arena.layout_law();
    arena.replace(full, line, steps);
    arena.layout_law();
    arena.put_end(line, 1, full, steps);
    line
}

// Puts what the full children of the P-node `node` became at this end of its partial child `line`, which takes the
// place of `node` where there is no other child. The answer is what stands there.
pub fn fill_line<L: Ledger>(
    arena: &mut Arena,
    work: &mut Work,
    node: NodeId,
    line: NodeId,
    group: Option<NodeId>,
    end: usize,
    steps: &mut Steps<L>,
) -> NodeId
    requires one { IsOneTree arena.old }
    requires two { HasTwoEach arena.old }
    requires used { IsInUse arena.old node.index }
    requires can { CanFill arena.old work.old node.index line.index group }
    requires end { end ≤ 1 }
    ensures treated { IsTreated arena.old arena.new work.old work.new node.index result.index }
    ensures filled { IsFilled arena.old work.old arena.new work.new node.index line.index end result.index group }
    ensures ticks { steps.new ≤ steps.old + 6 }
{
    arena.layout_law();
    match group {
        Some(full) => absorb(arena, work, node, line, full, end, steps),
        None => node,
    }
}
