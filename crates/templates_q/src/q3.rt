// Q3.
ghost use Rattle.std.specs.Prelude.{◌≡◌, ℕ, ◌+◌, ◌*◌, ◌≤◌, List, ◌++◌, length, true};
ghost use Rattle.column_order.specs.Orders.{occurs};
ghost use Rattle.arena_model.specs.Layout.{children_at};
ghost use Rattle.arena_model.specs.NamedTree.{HasTwoEach, IsOneTree};
ghost use Rattle.arena_model.specs.declared.Shape.TheVariants.{Q};
ghost use Rattle.bubble_pass.specs.Marks.{fulls_at, partials_at, size_of};
ghost use Rattle.pq_arena.specs.Looks.{ShowsNode};
ghost use Rattle.tree_theory.specs.Templates.{Partial};
ghost use Rattle.template_model.specs.Standing.{IsReady, IsReadyInside, IsInMarkedRun, IsShapeAt, Tells};
ghost use Rattle.template_model.specs.Treated.{IsTreated, IsReplacedAt};
ghost use Rattle.templates_q.specs.Fits.{FitsQ3};
ghost use Rattle.templates_q.specs.Opening.{AreOpened, AreShaped, CanOpen, CanOpenCounted, IsOpenedAt};
ghost use Rattle.templates_q.specs.Span.{AreKeptBelow, BecomesQ3, CanApplyQ3, CanAskQ3, HasNoPartial, IsRunMeant, IsStretch, StandsQ3, labelled_in};
ghost use Rattle.templates_q.specs.Splicing.{IsSplicedIn};
ghost use Rattle.templates_q.specs.Walk.{IsFirst, IsChildGap};

use crate::q2::{are_counts, has_q2};
use crate::splice::splice_in;
use crate::stretch::{PassedSpan, stretch_around};
use crate::walk::{ChildGap, Wanted, past, wanted_at};
use bubble_pass::Work;
use pq_arena::{Arena, NodeId, NodeView, Shape};
use step_count::{Ledger, Steps};

// Whether Q3 fits at the Q-node that is in view, the pertinent root.
fn has_q3<L: Ledger>(
    arena: &Arena,
    work: &Work,
    node: NodeId,
    view: &NodeView,
    steps: &mut Steps<L>,
) -> bool
    requires ready { IsReady arena.now work.now node.index }
    requires shown { ShowsNode arena.now node.index view.now }
    requires q { view.now.shape ≡ Q }
    ensures fits { Tells arena.now work.now node.index (FitsQ3 arena.now node.index true) result }
    ensures ticks { steps.new ≤ steps.old + 4 * (fulls_at work.now node.index + partials_at work.now node.index) }
{
    arena.layout_law();
    match work.first_child(node) {
        Some(x) => {
            let seen = stretch_around(arena, work, x, steps);
            let counts = work.counts(node);
            let spans = are_counts(counts, seen.fulls.count, seen.first.count + seen.last.count);
            spans && !has_q2(arena, work, node, view, steps)
        }
        None => true,
    }
}

// Whether Q3 fits at the Q-node that has `node` in its run.
fn has_q3_around<L: Ledger>(arena: &Arena, work: &Work, node: NodeId, steps: &mut Steps<L>) -> bool
    requires { IsReadyInside arena.now work.now node.index }
    ensures fits { (q : ℕ) → IsInMarkedRun arena.now work.now q node.index → Tells arena.now work.now q (FitsQ3 arena.now q true) result }
    ensures ticks { (q : ℕ) → IsInMarkedRun arena.now work.now q node.index → steps.new ≤ steps.old + 2 * labelled_in work.now (children_at arena.now q) }
{
    arena.layout_law();
    let seen = stretch_around(arena, work, node, steps);
    wanted_at(work, Wanted::Labelled, seen.last.gap.next).is_none()
}

/// Whether Q3 fits at `node`: the pertinent root, a Q-node with empty children, at most one partial child, full
/// children, at most one partial child and empty children, where Q2 does not fit.
///
/// Where the pass ended inside a Q-node and `root` is true, `node` is one of the run, and the answer is that for its
/// Q-node, which need not be known. It ticks at most 4 times for each labelled child of that node, and 4 times more. The
/// narrow bounds are 4 times for each and once more, and for a run twice for each.
pub fn fits_q3<L: Ledger>(
    arena: &Arena,
    work: &Work,
    node: NodeId,
    root: bool,
    steps: &mut Steps<L>,
) -> bool
    requires { CanAskQ3 arena.now work.now node.index root }
    ensures fits { (IsRunMeant work.now root → ⊥) → Tells arena.now work.now node.index (FitsQ3 arena.now node.index root) result }
    ensures run { IsRunMeant work.now root → (q : ℕ) → IsInMarkedRun arena.now work.now q node.index → Tells arena.now work.now q (FitsQ3 arena.now q true) result }
    ensures ticks { (IsRunMeant work.now root → ⊥) → steps.new ≤ steps.old + 4 * (fulls_at work.now node.index + partials_at work.now node.index + 1) }
    ensures run_ticks { IsRunMeant work.now root → (q : ℕ) → IsInMarkedRun arena.now work.now q node.index →
        steps.new ≤ steps.old + 4 * (labelled_in work.now (children_at arena.now q) + 1) }
    ensures few { (IsRunMeant work.now root → ⊥) → steps.new ≤ steps.old + 4 * (fulls_at work.now node.index + partials_at work.now node.index) + 1 }
    ensures run_few { IsRunMeant work.now root → (q : ℕ) → IsInMarkedRun arena.now work.now q node.index →
        steps.new ≤ steps.old + 2 * labelled_in work.now (children_at arena.now q) }
{
    if !root {
        return false;
    }
    if work.inside() {
        return has_q3_around(arena, work, node, steps);
    }
    let view = arena.look(node, steps);
    match view.shape {
        Shape::Q => has_q3(arena, work, node, &view, steps),
        Shape::Leaf(_) | Shape::P => false,
    }
}

// Puts the children of the Q-shape `x`, the next child at this place, in its place, the empty ones first.
fn open_next<L: Ledger>(
    arena: &mut Arena,
    work: &Work,
    from: ChildGap,
    x: NodeId,
    steps: &mut Steps<L>,
)
    requires { CanOpen arena.old work.now from x.index }
    ensures opened { (q : ℕ) (us vs : List ℕ) (h : Partial) → IsFirst arena.old q us x.index vs from → (s : IsShapeAt arena.old work.now x.index h) →
        IsSplicedIn arena.old arena.new q x.index us (s.es ++ s.fs) vs }
    ensures ticks { steps.new ≡ steps.old + 3 }
{
    arena.layout_law();
    let towards = past(arena, from, x, steps).next;
    splice_in(arena, work, x, towards, steps);
}

// So where `count` is 1. Where it is 0, nothing changes, and the place may be gone.
fn open_counted<L: Ledger>(
    arena: &mut Arena,
    work: &Work,
    from: ChildGap,
    count: u32,
    steps: &mut Steps<L>,
)
    requires { CanOpenCounted arena.old work.now from count }
    ensures opened { (q : ℕ) (us xs vs : List ℕ) → (1 ≤ length xs → IsChildGap arena.old q us (xs ++ vs) from) → length xs ≡ count → IsOpenedAt arena.old arena.new work.now q from xs }
    ensures ticks { steps.new ≤ steps.old + 3 }
{
    arena.layout_law();
    if count == 0 {
        return;
    }
    let Some(x) = from.next else { unreachable!() };
    open_next(arena, work, from, x, steps);
}

// Puts the children of the partial ones at both ends of these labelled children in their places, the full ones towards
// the middle.
fn open_ends<L: Ledger>(arena: &mut Arena, work: &Work, seen: PassedSpan, steps: &mut Steps<L>)
    requires one { IsOneTree arena.old }
    requires two { HasTwoEach arena.old }
    requires room { size_of work.now ≡ length arena.old.slots }
    requires stretch { (q : ℕ) × IsStretch arena.old work.now q seen × AreShaped arena.old work.now q }
    ensures opened { (q : ℕ) (r : IsStretch arena.old work.now q seen) → AreShaped arena.old work.now q → AreOpened arena.old arena.new work.now q seen r }
    ensures ticks { steps.new ≤ steps.old + 6 }
{
    arena.layout_law();
    open_counted(arena, work, seen.from, seen.first.count, steps);
    arena.layout_law();
    let back = ChildGap {
        before: seen.last.gap.next,
        next: seen.last.gap.before,
    };
    open_counted(arena, work, back, seen.last.count, steps);
}

// Applies Q3 at `node`.
fn apply_at<L: Ledger>(arena: &mut Arena, work: &Work, node: NodeId, steps: &mut Steps<L>)
    requires ready { IsReady arena.old work.now node.index }
    requires stands { StandsQ3 arena.old work.now node.index }
    ensures treated { IsTreated arena.old arena.new work.now work.now node.index node.index }
    ensures becomes { BecomesQ3 arena.old arena.new work.now node.index node.index }
    ensures unchanged { HasNoPartial arena.old work.now node.index → arena.new ≡ arena.old }
    ensures ticks { steps.new ≤ steps.old + 2 * (fulls_at work.now node.index + partials_at work.now node.index) + 6 }
{
    arena.layout_law();
    if let Some(x) = work.first_child(node) {
        let seen = stretch_around(arena, work, x, steps);
        open_ends(arena, work, seen, steps);
        arena.layout_law();
    }
}

// Applies Q3 at the Q-node that has `node` in its run, and answers the child of it in front of the run.
fn apply_around<L: Ledger>(
    arena: &mut Arena,
    work: &Work,
    node: NodeId,
    steps: &mut Steps<L>,
) -> NodeId
    requires ready { IsReadyInside arena.old work.now node.index }
    requires stands { (q : ℕ) × IsInMarkedRun arena.old work.now q node.index × StandsQ3 arena.old work.now q }
    ensures replaced { (q : ℕ) → IsInMarkedRun arena.old work.now q node.index → IsReplacedAt arena.old arena.new q q }
    ensures kept { (q : ℕ) → IsInMarkedRun arena.old work.now q node.index → AreKeptBelow arena.old arena.new work.now work.now q }
    ensures child { (q : ℕ) → IsInMarkedRun arena.old work.now q node.index → 1 ≤ occurs (children_at arena.new q) result.index }
    ensures becomes { (q : ℕ) → IsInMarkedRun arena.old work.now q node.index → BecomesQ3 arena.old arena.new work.now q q }
    ensures unchanged { (q : ℕ) → IsInMarkedRun arena.old work.now q node.index → HasNoPartial arena.old work.now q → arena.new ≡ arena.old }
    ensures ticks { (q : ℕ) → IsInMarkedRun arena.old work.now q node.index → steps.new ≤ steps.old + 2 * labelled_in work.now (children_at arena.old q) + 6 }
{
    arena.layout_law();
    let seen = stretch_around(arena, work, node, steps);
    open_ends(arena, work, seen, steps);
    arena.layout_law();
    let Some(beside) = seen.from.before else {
        unreachable!()
    };
    beside
}

/// Applies Q3 at `node`, the pertinent root: the children of each partial child stand in its place, the full ones
/// towards the middle. Where there is no partial child, nothing changes. The answer is `node`.
///
/// Where the pass ended inside a Q-node, `node` is one of the run, and this is done at its Q-node, which need
/// not be known. The answer is then a child of that Q-node. It ticks at most 64 times for each labelled child of
/// that node, and 64 times more. That is wide: twice for each, and 6 times more, is the narrow bound.
pub fn apply_q3<L: Ledger>(
    arena: &mut Arena,
    work: &mut Work,
    node: NodeId,
    steps: &mut Steps<L>,
) -> NodeId
    requires ready { CanAskQ3 arena.old work.old node.index true }
    requires stands { CanApplyQ3 arena.old work.old node.index }
    ensures work { work.new ≡ work.old }
    ensures treated { (IsRunMeant work.old true → ⊥) → IsTreated arena.old arena.new work.old work.new node.index result.index }
    ensures becomes { (IsRunMeant work.old true → ⊥) → BecomesQ3 arena.old arena.new work.old node.index result.index }
    ensures answer { (IsRunMeant work.old true → ⊥) → result ≡ node }
    ensures replaced { IsRunMeant work.old true → (q : ℕ) → IsInMarkedRun arena.old work.old q node.index → IsReplacedAt arena.old arena.new q q }
    ensures kept { IsRunMeant work.old true → (q : ℕ) → IsInMarkedRun arena.old work.old q node.index → AreKeptBelow arena.old arena.new work.old work.new q }
    ensures child { IsRunMeant work.old true → (q : ℕ) → IsInMarkedRun arena.old work.old q node.index → 1 ≤ occurs (children_at arena.new q) result.index }
    ensures run_becomes { IsRunMeant work.old true → (q : ℕ) → IsInMarkedRun arena.old work.old q node.index → BecomesQ3 arena.old arena.new work.old q q }
    ensures unchanged { (IsRunMeant work.old true → ⊥) → HasNoPartial arena.old work.old node.index → arena.new ≡ arena.old }
    ensures run_unchanged { IsRunMeant work.old true → (q : ℕ) → IsInMarkedRun arena.old work.old q node.index → HasNoPartial arena.old work.old q → arena.new ≡ arena.old }
    ensures ticks { (IsRunMeant work.old true → ⊥) → steps.new ≤ steps.old + 64 * (fulls_at work.old node.index + partials_at work.old node.index + 1) }
    ensures run_ticks { IsRunMeant work.old true → (q : ℕ) → IsInMarkedRun arena.old work.old q node.index →
        steps.new ≤ steps.old + 64 * (labelled_in work.old (children_at arena.old q) + 1) }
    ensures few { (IsRunMeant work.old true → ⊥) → steps.new ≤ steps.old + 2 * (fulls_at work.old node.index + partials_at work.old node.index) + 6 }
    ensures run_few { IsRunMeant work.old true → (q : ℕ) → IsInMarkedRun arena.old work.old q node.index →
        steps.new ≤ steps.old + 2 * labelled_in work.old (children_at arena.old q) + 6 }
{
    if work.inside() {
        return apply_around(arena, work, node, steps);
    }
    apply_at(arena, work, node, steps);
    node
}
