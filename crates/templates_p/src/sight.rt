// What the templates at P-nodes see of a node.
ghost use Rattle.std.specs.Prelude.{◌≡◌, ◌↔◌, ◌+◌, IsTrue, IsFalse};
ghost use Rattle.template_model.specs.Standing.{IsReady};
ghost use Rattle.templates_p.specs.Sorts.{IsSeenAs, AllAreFull, AreFullAndEmpty, HasPartials};

use bubble_pass::Work;
use pq_arena::{Arena, NodeId, Shape};
use step_count::{Ledger, Steps};

// How many children a P-node has, how many of them are full, and how many are partial.
#[derive(Clone, Copy)]
pub struct Sight {
    pub full: u32,
    pub partial: u32,
    pub children: u32,
}

// What there is to see of the node, if it is a P-node.
pub fn survey<L: Ledger>(
    arena: &Arena,
    work: &Work,
    node: NodeId,
    steps: &mut Steps<L>,
) -> Option<Sight>
    requires { IsReady arena.now work.now node.index }
    ensures seen { IsSeenAs arena.now work.now node.index result }
    ensures ticks { steps.new ≡ steps.old + 1 }
{
    let view = arena.look(node, steps);
    match view.shape {
        Shape::P => {
            let counts = work.counts(node);
            Some(Sight {
                full: counts.full,
                partial: counts.partial,
                children: view.children,
            })
        }
        Shape::Leaf(_) | Shape::Q => None,
    }
}

// Whether all children are full.
pub fn is_all_full(seen: Option<Sight>) -> bool
    ensures { IsTrue result ↔ AllAreFull seen }
{
    match seen {
        Some(seen) => seen.partial == 0 && seen.full == seen.children,
        None => false,
    }
}

// Whether there are full and empty children and no other.
pub fn is_full_and_empty(seen: Option<Sight>) -> bool
    ensures { IsTrue result ↔ AreFullAndEmpty seen }
{
    match seen {
        Some(seen) => seen.partial == 0 && 1 <= seen.full && seen.full < seen.children,
        None => false,
    }
}

// Whether there are so many partial children.
pub fn has_partials(seen: Option<Sight>, partials: u32) -> bool
    ensures { IsTrue result ↔ HasPartials partials seen }
{
    match seen {
        Some(seen) => seen.partial == partials,
        None => false,
    }
}

// Whether this is so at the pertinent root.
pub fn at_root(root: bool, fits: bool) -> bool
    ensures { IsTrue result ↔ (IsTrue root × IsTrue fits) }
{
    root && fits
}

// Whether this is so below the pertinent root.
pub fn below_root(root: bool, fits: bool) -> bool
    ensures { IsTrue result ↔ (IsFalse root × IsTrue fits) }
{
    !root && fits
}
