// The children of a partial child in its place.
ghost use Rattle.std.specs.Prelude.{◌≡◌, ℕ, ◌+◌, ◌≤◌, List, ◌++◌, reverse, length, Option, Some, None};
ghost use Rattle.arena_model.specs.ChildLists.{oriented};
ghost use Rattle.arena_model.specs.Layout.{children_at};
ghost use Rattle.bubble_pass.specs.Marks.{size_of};
ghost use Rattle.tree_theory.specs.Templates.{Partial};
ghost use Rattle.template_model.specs.Standing.{IsShapeAt};
ghost use Rattle.templates_q.specs.Splicing.{IsLineIn, CanSpliceIn, IsSplicedIn};

use crate::walk::{Wanted, wanted_at};
use bubble_pass::Work;
use pq_arena::{Arena, NodeId};
use step_count::{Ledger, Steps};

// The end of the Q-shape `line` at which its full children stand: 0 where they come first, 1 where they come last.
fn full_end<L: Ledger>(arena: &Arena, work: &Work, line: NodeId, steps: &mut Steps<L>) -> usize
    requires room { size_of work.now ≡ length arena.now.slots }
    requires shape { (h : Partial) × IsShapeAt arena.now work.now line.index h }
    ensures end { (h : Partial) (s : IsShapeAt arena.now work.now line.index h) → oriented result (children_at arena.now line.index) ≡ reverse (s.es ++ s.fs) }
    ensures small { result ≤ 1 }
    ensures ticks { steps.new ≡ steps.old + 1 }
{
    arena.layout_law();
    let view = arena.look(line, steps);
    match wanted_at(work, Wanted::Fulls, view.ends[0]) {
        Some(_) => 0,
        None => 1,
    }
}

// Puts the children of the Q-shape `line`, a child of a Q-node, in its place, the full ones on the side of its
// neighbour `towards`. That is none where `line` is the end child on this side.
pub fn splice_in<L: Ledger>(
    arena: &mut Arena,
    work: &Work,
    line: NodeId,
    towards: Option<NodeId>,
    steps: &mut Steps<L>,
)
    requires { CanSpliceIn arena.old work.now line.index towards }
    ensures spliced { (q : ℕ) (us vs : List ℕ) (h : Partial) → IsLineIn arena.old q line.index us vs towards → (s : IsShapeAt arena.old work.now line.index h) →
        IsSplicedIn arena.old arena.new q line.index us (s.es ++ s.fs) vs }
    ensures ticks { steps.new ≡ steps.old + 2 }
{
    let end = full_end(arena, work, line, steps);
    arena.splice(line, end, towards, steps);
}
