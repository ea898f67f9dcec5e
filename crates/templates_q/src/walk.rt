// Walks along the children of a Q-node.
ghost use Rattle.std.specs.Prelude.{◌≡◌, ◌≢◌, ℕ, ◌+◌, ◌≤◌, ◌<◌, List, [], ◌∷◌, ◌++◌, length, slice_index_or, None};
ghost use Rattle.arena_model.specs.Layout.{IsInUse};
ghost use Rattle.bubble_pass.specs.Marks.{size_of};
ghost use Rattle.bubble_pass.specs.declared.labels.Label.TheVariants.{Partial};
ghost use Rattle.templates_q.specs.Walk.{IsChildGap, IsPassed, IsFirst, IsWanted, wants, wanted_one, IsInRoom, EndsBefore, EndsWithout};

use bubble_pass::{Label, Work};
use pq_arena::{Arena, NodeId, NodeView};
use step_count::{Ledger, Steps};

// A place between two neighbouring children of a Q-node, as a walk in one direction comes to it: the child that was
// passed last, and the next one. At an end of the run one of the two is missing.
#[derive(Clone, Copy)]
pub struct ChildGap {
    pub before: Option<NodeId>,
    pub next: Option<NodeId>,
}

// How many children a walk passed, and where it came to.
#[derive(Clone, Copy)]
pub struct Passed {
    pub count: u32,
    pub gap: ChildGap,
}

// Which children a walk passes.
#[derive(Clone, Copy)]
pub enum Wanted {
    Fulls,
    Partials,
    // Those that have a label.
    Labelled,
}

// Whether a child with this label is wanted.
fn is_wanted(wanted: Wanted, label: Label) -> bool
    ensures { result ≡ wants wanted label }
{
    match wanted {
        Wanted::Fulls => matches!(label, Label::Full),
        Wanted::Partials => matches!(label, Label::Partial),
        Wanted::Labelled => matches!(label, Label::Full | Label::Partial),
    }
}

// This node, if it is wanted.
pub fn wanted_at(work: &Work, wanted: Wanted, n: Option<NodeId>) -> Option<NodeId>
    requires { IsInRoom work.now n }
    ensures { result ≡ wanted_one wanted work.now n }
{
    match n {
        Some(x) if is_wanted(wanted, work.label(x)) => Some(x),
        _ => None,
    }
}

// The neighbour that is not the one before.
fn beyond(view: &NodeView, before: Option<NodeId>) -> Option<NodeId>
    ensures back { slice_index_or view.now.near 0 None ≡ before → result ≡ slice_index_or view.now.near 1 None }
    ensures on { slice_index_or view.now.near 0 None ≢ before → result ≡ slice_index_or view.now.near 0 None }
{
    if view.near[0] == before {
        view.near[1]
    } else {
        view.near[0]
    }
}

// The place behind the child `x`, which is next.
pub fn past<L: Ledger>(arena: &Arena, from: ChildGap, x: NodeId, steps: &mut Steps<L>) -> ChildGap
    requires { IsInUse arena.now x.index }
    ensures passed { (q : ℕ) (us vs : List ℕ) → IsFirst arena.now q us x.index vs from → IsChildGap arena.now q (us ++ x.index ∷ []) vs result }
    ensures ticks { steps.new ≡ steps.old + 1 }
{
    arena.layout_law();
    let view = arena.look(x, steps);
    ChildGap {
        before: Some(x),
        next: beyond(&view, from.before),
    }
}

// Passes the children that come next, as far as they are wanted.
pub fn pass<L: Ledger>(
    arena: &Arena,
    work: &Work,
    wanted: Wanted,
    from: ChildGap,
    steps: &mut Steps<L>,
) -> Passed
    requires room { size_of work.now ≡ length arena.now.slots }
    requires place { (q : ℕ) × (us : List ℕ) × (vs : List ℕ) × IsChildGap arena.now q us vs from }
    ensures passed { (q : ℕ) (us vs : List ℕ) → IsChildGap arena.now q us vs from → IsPassed wanted arena.now work.now q us vs result }
    ensures stops { (q : ℕ) (us vs : List ℕ) → IsChildGap arena.now q us vs result.gap → EndsBefore (IsWanted wanted) work.now vs }
    ensures ticks { steps.new ≡ steps.old + result.count }
{
    arena.layout_law();
    let mut gap = from;
    let mut count = 0;
    while let Some(x) = wanted_at(work, wanted, gap.next) {
        gap = past(arena, gap, x, steps);
        count += 1;
    }
    Passed { count, gap }
}

// Passes the partial child that comes next, if there is one.
pub fn past_partial<L: Ledger>(
    arena: &Arena,
    work: &Work,
    from: ChildGap,
    steps: &mut Steps<L>,
) -> Passed
    requires room { size_of work.now ≡ length arena.now.slots }
    requires place { (q : ℕ) × (us : List ℕ) × (vs : List ℕ) × IsChildGap arena.now q us vs from }
    ensures passed { (q : ℕ) (us vs : List ℕ) → IsChildGap arena.now q us vs from → IsPassed Wanted.Partials arena.now work.now q us vs result }
    ensures stops { (q : ℕ) (us vs : List ℕ) → result.count ≡ 0 → IsChildGap arena.now q us vs result.gap → EndsWithout Partial work.now vs }
    ensures one { result.count ≤ 1 }
    ensures ticks { steps.new ≡ steps.old + result.count }
{
    arena.layout_law();
    match wanted_at(work, Wanted::Partials, from.next) {
        Some(x) => Passed {
            count: 1,
            gap: past(arena, from, x, steps),
        },
        None => Passed {
            count: 0,
            gap: from,
        },
    }
}
