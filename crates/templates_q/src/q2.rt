// Q2.
ghost use Rattle.std.specs.Prelude.{◌≡◌, ℕ, ◌+◌, ◌*◌, ◌≤◌, ◌↔◌, IsTrue, List, [], length, None};
ghost use Rattle.bubble_pass.specs.Marks.{fulls_at, partials_at, size_of};
ghost use Rattle.tree_theory.specs.Templates.{Label, IsQ2};
ghost use Rattle.template_model.specs.Standing.{IsReady, AreMarkedAs, Tells, child_trees};
ghost use Rattle.template_model.specs.Treated.{IsTreated, BecomesPartial};
ghost use Rattle.templates_q.specs.Walk.{IsChildGap};
ghost use Rattle.templates_q.specs.Lines.{AreCounted, IsRunFrom};
ghost use Rattle.templates_q.specs.Fits.{FitsQ2, StandsQ2};
ghost use Rattle.templates_q.specs.Span.{HasNoPartial};
ghost use Rattle.templates_q.specs.Splicing.{IsPartialLine};
ghost use Rattle.pq_arena.specs.Looks.{ShowsNode};
ghost use Rattle.arena_model.specs.declared.Shape.TheVariants.{Q};

use crate::splice::splice_in;
use crate::walk::{ChildGap, Wanted, pass, past_partial};
use bubble_pass::{Counts, Work};
use pq_arena::{Arena, NodeId, NodeView, Shape};
use step_count::{Ledger, Steps};

// Whether so many are full, and so many partial.
pub fn are_counts(counts: Counts, full: u32, partial: u32) -> bool
    ensures { IsTrue result ↔ ((counts.full ≡ full) × (counts.partial ≡ partial)) }
{
    counts.full == full && counts.partial == partial
}

// Whether the children from this place on, of which so many are full and partial, are full ones, at most one partial
// one and empty ones, and not all are full.
fn is_run_from<L: Ledger>(
    arena: &Arena,
    work: &Work,
    from: ChildGap,
    counts: Counts,
    steps: &mut Steps<L>,
) -> bool
    requires room { size_of work.now ≡ length arena.now.slots }
    requires place { (q : ℕ) × (ks : List ℕ) × IsChildGap arena.now q [] ks from × AreCounted work.now ks counts.full counts.partial }
    ensures run { (q : ℕ) (ks : List ℕ) → IsChildGap arena.now q [] ks from → AreCounted work.now ks counts.full counts.partial → (IsTrue result ↔ IsRunFrom work.now ks) }
    ensures ticks { steps.new ≤ steps.old + counts.full + counts.partial }
{
    arena.layout_law();
    let fulls = pass(arena, work, Wanted::Fulls, from, steps);
    let partial = past_partial(arena, work, fulls.gap, steps);
    match fulls.gap.next {
        Some(_) => are_counts(counts, fulls.count, partial.count),
        None => false,
    }
}

// Whether Q2 fits at the Q-node that is in view.
pub fn has_q2<L: Ledger>(
    arena: &Arena,
    work: &Work,
    node: NodeId,
    view: &NodeView,
    steps: &mut Steps<L>,
) -> bool
    requires ready { IsReady arena.now work.now node.index }
    requires shown { ShowsNode arena.now node.index view.now }
    requires q { view.now.shape ≡ Q }
    ensures fits { Tells arena.now work.now node.index (FitsQ2 arena.now node.index) result }
    ensures ticks { steps.new ≤ steps.old + 2 * (fulls_at work.now node.index + partials_at work.now node.index) }
{
    arena.layout_law();
    let counts = work.counts(node);
    if are_counts(counts, 0, 0) {
        return false;
    }
    let front = ChildGap {
        before: None,
        next: view.ends[0],
    };
    if is_run_from(arena, work, front, counts, steps) {
        return true;
    }
    let back = ChildGap {
        before: None,
        next: view.ends[1],
    };
    is_run_from(arena, work, back, counts, steps)
}

/// Whether Q2 fits at `node`: it is a Q-node with, from one end, empty children, at most one partial child and full
/// children, which are not all full, nor all empty.
///
/// It ticks at most 4 times for each labelled child, and 4 times more. That is wide: twice for each, and once more, is
/// the narrow bound.
pub fn fits_q2<L: Ledger>(
    arena: &Arena,
    work: &Work,
    node: NodeId,
    root: bool,
    steps: &mut Steps<L>,
) -> bool
    requires { IsReady arena.now work.now node.index }
    ensures fits { Tells arena.now work.now node.index (FitsQ2 arena.now node.index) result }
    ensures ticks { steps.new ≤ steps.old + 4 * (fulls_at work.now node.index + partials_at work.now node.index + 1) }
    ensures few { steps.new ≤ steps.old + 2 * (fulls_at work.now node.index + partials_at work.now node.index) + 1 }
{
    let _anywhere = root;
    let view = arena.look(node, steps);
    match view.shape {
        Shape::Q => has_q2(arena, work, node, &view, steps),
        Shape::Leaf(_) | Shape::P => false,
    }
}

// A partial child, and its neighbour on the side of the full children: none where there is no full child.
#[derive(Clone, Copy)]
pub struct PartialLine {
    pub child: NodeId,
    pub towards: Option<NodeId>,
}

// The end of the Q-node in view from which its full children come first.
fn full_side<L: Ledger>(
    arena: &Arena,
    work: &Work,
    node: NodeId,
    view: &NodeView,
    steps: &mut Steps<L>,
) -> ChildGap
    requires ready { IsReady arena.now work.now node.index }
    requires shown { ShowsNode arena.now node.index view.now }
    requires fits { (ps : List Label) × AreMarkedAs arena.now work.now node.index ps × FitsQ2 arena.now node.index ps }
    ensures side { (ks : List ℕ) × IsChildGap arena.now node.index [] ks result × IsRunFrom work.now ks }
    ensures ticks { steps.new ≤ steps.old + fulls_at work.now node.index + partials_at work.now node.index }
{
    let counts = work.counts(node);
    let front = ChildGap {
        before: None,
        next: view.ends[0],
    };
    if is_run_from(arena, work, front, counts, steps) {
        return front;
    }
    ChildGap {
        before: None,
        next: view.ends[1],
    }
}

// The partial child of `node`, where Q2 fits and there is one.
fn find_line<L: Ledger>(
    arena: &Arena,
    work: &Work,
    node: NodeId,
    steps: &mut Steps<L>,
) -> PartialLine
    requires ready { IsReady arena.now work.now node.index }
    requires fits { (ps : List Label) × AreMarkedAs arena.now work.now node.index ps × FitsQ2 arena.now node.index ps }
    requires some { 1 ≤ partials_at work.now node.index }
    ensures line { IsPartialLine arena.now work.now node.index result }
    ensures ticks { steps.new ≤ steps.old + 2 * (fulls_at work.now node.index + partials_at work.now node.index) + 1 }
{
    arena.layout_law();
    let view = arena.look(node, steps);
    let side = full_side(arena, work, node, &view, steps);
    let place = pass(arena, work, Wanted::Fulls, side, steps).gap;
    let Some(child) = place.next else {
        unreachable!()
    };
    PartialLine {
        child,
        towards: place.before,
    }
}

/// Applies Q2 at `node`: the children of its partial child stand in that child's place, the empty ones on the side of
/// the empty children. Where there is no partial child, nothing changes. The answer is `node`.
///
/// It ticks at most 64 times for each labelled child, and 64 times more. That is wide: twice for each, and 3 times more,
/// is the narrow bound.
pub fn apply_q2<L: Ledger>(
    arena: &mut Arena,
    work: &mut Work,
    node: NodeId,
    steps: &mut Steps<L>,
) -> NodeId
    requires ready { IsReady arena.old work.old node.index }
    requires stands { StandsQ2 arena.old work.old node.index }
    ensures treated { IsTreated arena.old arena.new work.old work.new node.index result.index }
    ensures becomes { BecomesPartial arena.old arena.new work.old work.new node.index result.index (IsQ2 (child_trees arena.old node.index)) }
    ensures answer { result ≡ node }
    ensures unchanged { HasNoPartial arena.old work.old node.index → arena.new ≡ arena.old }
    ensures work { work.new ≡ work.old }
    ensures ticks { steps.new ≤ steps.old + 64 * (fulls_at work.old node.index + partials_at work.old node.index + 1) }
    ensures few { steps.new ≤ steps.old + 2 * (fulls_at work.old node.index + partials_at work.old node.index) + 3 }
{
    arena.layout_law();
    if work.counts(node).partial == 0 {
        return node;
    }
    let line = find_line(arena, work, node, steps);
    splice_in(arena, work, line.child, line.towards, steps);
    arena.layout_law();
    node
}
