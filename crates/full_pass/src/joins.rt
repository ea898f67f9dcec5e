// The labelling of one full node in a pass that keeps runs.
ghost use Rattle.std.specs.Prelude.{◌≡◌, ℕ, ◌+◌, ◌*◌, ◌≤◌, List, ◌∷◌, None, get_or};
ghost use Rattle.full_pass.specs.Entries.{is_full, hits};
ghost use Rattle.full_pass.specs.Passing.{run_as, place_shown, AreLinked, Pass, CanJoin, IsJoined, CanRise, IsRisen};

use crate::added::{Added, Next, after, judged};
use crate::entries::Entries;
use crate::settled::Settled;
use pq_arena::{Arena, NodeId, NodeView};
use step_count::{Ledger, Steps};

// Where a node stands.
#[derive(Clone, Copy)]
pub enum Place {
    // No node is above it.
    Top,
    // It is a child of a Q-node.
    Run,
    // It is a child of this P-node.
    Ring(NodeId),
}

// What a node did that was labelled in a pass that keeps runs.
#[derive(Clone, Copy)]
pub enum Joined {
    // What it does in any pass.
    Plain(Added),
    // It is a child of this Q-node, all of whose children are labelled, beside so many.
    Wide(usize, NodeId),
}

// Where a node stands that shows this.
pub fn place_of(view: &NodeView) -> Place
    ensures { result ≡ place_shown view.now.parent (get_or view.now.near 0 None) (get_or view.now.near 1 None) }
{
    match view.parent {
        None => match view.near[0] {
            None => Place::Top,
            Some(_) => Place::Run,
        },
        Some(p) => match view.near[0] {
            None => Place::Run,
            Some(_) => match view.near[1] {
                None => Place::Run,
                Some(_) => Place::Ring(p),
            },
        },
    }
}

// What a child of a Q-node did, of whose neighbours so many are labelled, and whose run shows this node at both ends.
fn run_judged(pairs: usize, above: Option<NodeId>) -> Joined
    ensures { result ≡ run_as pairs above }
{
    match above {
        None => Joined::Plain(Added::Run(pairs)),
        Some(q) => {
            if pairs == 0 {
                Joined::Plain(Added::Run(pairs))
            } else {
                Joined::Wide(pairs, q)
            }
        }
    }
}

// Labels the full node `x`.
fn join<L: Ledger>(arena: &Arena, entries: &mut Entries, x: NodeId, steps: &mut Steps<L>) -> Joined
    requires { CanJoin arena.now entries.old x.index }
    ensures joined { (row waiting : List ℕ) (n : ℕ) →
        Pass arena.now row (is_full entries.old) (hits entries.old) (x.index ∷ waiting) n →
        IsJoined arena.now row (is_full entries.new) (hits entries.new) waiting n result }
    ensures linked { AreLinked arena.now entries.new }
    ensures ticks { steps.new ≤ steps.old + 2 }
{
    arena.layout_law();
    let view = arena.look(x, steps);
    match place_of(&view) {
        Place::Top => Joined::Plain(Added::Top),
        Place::Run => {
            let a = entries.beside(view.near[0], x);
            let b = entries.beside(view.near[1], x);
            entries.fill(x);
            entries.note(x, view.parent);
            entries.link(a.end, b.end);
            let above = entries.above(a.end, b.end);
            run_judged(a.mark + b.mark, above)
        }
        Place::Ring(p) => {
            let children = arena.look(p, steps).children;
            entries.fill(x);
            let hits = entries.hit(p, x);
            Joined::Plain(judged(p, hits, children))
        }
    }
}

// Labels `x` and the nodes that get full by it, with `parts` for the number of parts. Gives the answer if no other part
// is left, and none where the root is full.
pub fn rise<L: Ledger>(
    arena: &Arena,
    entries: &mut Entries,
    x: NodeId,
    parts: &mut usize,
    steps: &mut Steps<L>,
) -> Option<Settled>
    requires { CanRise arena.now entries.old x.index parts.old }
    ensures risen { (row waiting : List ℕ) →
        Pass arena.now row (is_full entries.old) (hits entries.old) (x.index ∷ waiting) parts.old →
        IsRisen arena.now row (is_full entries.new) (hits entries.new) waiting parts.new result }
    ensures linked { AreLinked arena.now entries.new }
    ensures ticks { steps.new + 2 * parts.new ≤ steps.old + 2 * parts.old + 2 }
{
    let mut x = x;
    loop {
        match join(arena, entries, x, steps) {
            Joined::Plain(added) => match after(added, parts) {
                Next::Ended(settled) => return settled,
                Next::Above(p) => x = p,
            },
            Joined::Wide(pairs, q) => {
                *parts -= pairs;
                x = q;
            }
        }
    }
}
