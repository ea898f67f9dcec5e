// The labelled children that stand together around one of them.
ghost use Rattle.std.specs.Prelude.{◌≡◌, ℕ, ◌+◌, ◌*◌, ◌≤◌, List, length};
ghost use Rattle.arena_model.specs.Layout.{children_at};
ghost use Rattle.bubble_pass.specs.Marks.{size_of};
ghost use Rattle.templates_q.specs.Walk.{IsChildGap};
ghost use Rattle.templates_q.specs.Span.{IsMarkedChild, IsSpanPassed, IsStart, IsStretch, labelled_in};

use crate::walk::{ChildGap, Passed, Wanted, pass, past_partial};
use bubble_pass::Work;
use pq_arena::{Arena, NodeId};
use step_count::{Ledger, Steps};

// What a walk passed that began in front of labelled children: a partial child, if it comes first, the full ones behind
// it, and a partial one behind these.
#[derive(Clone, Copy)]
pub struct PassedSpan {
    pub from: ChildGap,
    pub first: Passed,
    pub fulls: Passed,
    pub last: Passed,
}

// The place in front of the labelled children around `x`, as a walk over them comes to it.
fn start_of<L: Ledger>(arena: &Arena, work: &Work, x: NodeId, steps: &mut Steps<L>) -> ChildGap
    requires room { size_of work.now ≡ length arena.now.slots }
    requires child { (q : ℕ) × IsMarkedChild arena.now work.now q x.index }
    ensures start { (q : ℕ) → IsMarkedChild arena.now work.now q x.index → IsStart arena.now work.now q result }
    ensures ticks { (q : ℕ) → IsMarkedChild arena.now work.now q x.index → steps.new ≤ steps.old + labelled_in work.now (children_at arena.now q) }
{
    arena.layout_law();
    let view = arena.look(x, steps);
    let aside = ChildGap {
        before: Some(x),
        next: view.near[0],
    };
    let end = pass(arena, work, Wanted::Labelled, aside, steps).gap;
    ChildGap {
        before: end.next,
        next: end.before,
    }
}

// Passes a partial child, full ones and a partial one, as far as they come next.
fn past_span<L: Ledger>(
    arena: &Arena,
    work: &Work,
    from: ChildGap,
    steps: &mut Steps<L>,
) -> PassedSpan
    requires room { size_of work.now ≡ length arena.now.slots }
    requires place { (q : ℕ) × (us : List ℕ) × (vs : List ℕ) × IsChildGap arena.now q us vs from }
    ensures passed { (q : ℕ) (us vs : List ℕ) → IsChildGap arena.now q us vs from → IsSpanPassed arena.now work.now q us vs result }
    ensures few { result.first.count + result.last.count ≤ 2 }
    ensures ticks { steps.new ≡ steps.old + result.first.count + result.fulls.count + result.last.count }
{
    let first = past_partial(arena, work, from, steps);
    let fulls = pass(arena, work, Wanted::Fulls, first.gap, steps);
    let last = past_partial(arena, work, fulls.gap, steps);
    PassedSpan {
        from,
        first,
        fulls,
        last,
    }
}

// The labelled children around `x`, as far as they stand as in a pattern of Q3.
pub fn stretch_around<L: Ledger>(
    arena: &Arena,
    work: &Work,
    x: NodeId,
    steps: &mut Steps<L>,
) -> PassedSpan
    requires room { size_of work.now ≡ length arena.now.slots }
    requires child { (q : ℕ) × IsMarkedChild arena.now work.now q x.index }
    ensures stretch { (q : ℕ) → IsMarkedChild arena.now work.now q x.index → IsStretch arena.now work.now q result }
    ensures few { result.first.count + result.last.count ≤ 2 }
    ensures ticks { (q : ℕ) → IsMarkedChild arena.now work.now q x.index → steps.new ≤ steps.old + 2 * labelled_in work.now (children_at arena.now q) }
{
    let from = start_of(arena, work, x, steps);
    past_span(arena, work, from, steps)
}
