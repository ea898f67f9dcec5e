// The steps at the Q-node that a partial child is.
ghost use Rattle.std.specs.Prelude.{◌≡◌, ◌↔◌, IsTrue, ◌+◌, ◌≤◌, ◌<◌, length};
ghost use Rattle.bubble_pass.specs.declared.labels.Label.TheVariants.{Full};
ghost use Rattle.bubble_pass.specs.Marks.{label_at, size_of};
ghost use Rattle.tree_theory.specs.Templates.{Partial};
ghost use Rattle.template_model.specs.Standing.{IsShapeAt};
ghost use Rattle.template_model.specs.Treated.{IsTreated};
ghost use Rattle.templates_p.specs.Lines.{IsShapeTo, CanHandOver, IsHandedOver, IsSettled, put_in, CanPutIn, CanAbsorb, IsAbsorbed};

use bubble_pass::{Label, Work};
use pq_arena::{Arena, NodeId};
use step_count::{Ledger, Steps};

// The end of the Q-shape `line` at which its full children stand: 0 where they come first, 1 where they come last.
pub fn full_end<L: Ledger>(arena: &Arena, work: &Work, line: NodeId, steps: &mut Steps<L>) -> usize
    requires room { size_of work.now ≡ length arena.now.slots }
    requires shape { (h : Partial) × IsShapeAt arena.now work.now line.index h }
    ensures end { (h : Partial) → IsShapeAt arena.now work.now line.index h → IsShapeTo arena.now work.now line.index h result }
    ensures small { result ≤ 1 }
    ensures ticks { steps.new ≡ steps.old + 1 }
{
    arena.layout_law();
    let view = arena.look(line, steps);
    let Some(first) = view.ends[0] else {
        unreachable!()
    };
    let full = is_full(work, first);
    if full { 0 } else { 1 }
}

// Whether the node is full.
fn is_full(work: &Work, n: NodeId) -> bool
    requires { n.index < size_of work.now }
    ensures { IsTrue result ↔ (label_at work.now n.index ≡ Full) }
{
    work.label(n) == Label::Full
}

// Puts the child `line` of the P-node `node` in its place, which stands alone then.
pub fn hand_over<L: Ledger>(arena: &mut Arena, node: NodeId, line: NodeId, steps: &mut Steps<L>)
    requires { CanHandOver arena.old node.index line.index }
    ensures handed { IsHandedOver arena.old arena.new node.index line.index }
    ensures ticks { steps.new ≡ steps.old + 2 }
{
    arena.layout_law();
    arena.detach(line, steps);
    arena.replace(node, line, steps);
}

// Puts the child `child` of the P-node `node` at this end of its child `line`, a Q-node.
pub fn put_at_end<L: Ledger>(
    arena: &mut Arena,
    node: NodeId,
    line: NodeId,
    end: usize,
    child: NodeId,
    steps: &mut Steps<L>,
)
    requires can { CanPutIn arena.old node.index line.index child.index }
    requires end { end ≤ 1 }
    ensures put { arena.new ≡ put_in arena.old node.index line.index end child.index }
    ensures ticks { steps.new ≡ steps.old + 2 }
{
    arena.layout_law();
    arena.detach(child, steps);
    arena.put_end(line, end, child, steps);
}

// Where the P-node `node` has the child `line` alone, that child takes its place. The answer is what stands there.
pub fn settle<L: Ledger>(
    arena: &mut Arena,
    work: &mut Work,
    node: NodeId,
    line: NodeId,
    steps: &mut Steps<L>,
) -> NodeId
    requires hand { CanHandOver arena.old node.index line.index }
    requires room { size_of work.old ≡ length arena.old.slots }
    ensures settled { IsSettled arena.old arena.new work.old work.new node.index line.index result.index }
    ensures ticks { steps.new ≤ steps.old + 4 }
{
    arena.layout_law();
    let view = arena.look(node, steps);
    if view.children > 1 {
        return node;
    }
    hand_over(arena, node, line, steps);
    arena.give_back(node, steps);
    let label = work.label(node);
    work.put(node, line, label);
    line
}

// Puts the full child `child` of the P-node `node` at this end of its partial child `line`, which takes the place of
// `node` where there is no other child. The answer is what stands there.
pub fn absorb<L: Ledger>(
    arena: &mut Arena,
    work: &mut Work,
    node: NodeId,
    line: NodeId,
    child: NodeId,
    end: usize,
    steps: &mut Steps<L>,
) -> NodeId
    requires can { CanAbsorb arena.old work.old node.index line.index child.index }
    requires end { end ≤ 1 }
    ensures treated { IsTreated arena.old arena.new work.old work.new node.index result.index }
    ensures absorbed { IsAbsorbed arena.old work.old arena.new work.new node.index line.index child.index end result.index }
    ensures ticks { steps.new ≤ steps.old + 6 }
{
    arena.layout_law();
    put_at_end(arena, node, line, end, child, steps);
    let top = settle(arena, work, node, line, steps);
    arena.layout_law();
    top
}
