// Tests of the conditions of the calls, for callers that do not know them.
ghost use Rattle.std.specs.Prelude.{◌≡◌, ◌+◌, ◌↔◌, IsTrue, Some};
ghost use Rattle.arena_model.specs.declared.Shape.TheVariants.{P};
ghost use Rattle.arena_model.specs.Layout.{IsInUse, IsChildOfP, StandsAlone, shape_at, times_child};
ghost use Rattle.pq_arena.specs.Wiring.{no_link};

use super::Arena;
use crate::node::{Link, NONE, NodeId, NodeKind, head_at, link_at};
use step_count::{Ledger, Steps};

impl Arena {
    /// Whether the node is in use.
    pub fn is_in_use<L: Ledger>(&self, n: NodeId, steps: &mut Steps<L>) -> bool
        ensures used { IsTrue result ↔ IsInUse self.now n.index }
        ensures ticks { steps.new ≡ steps.old + 1 }
    {
        steps.tick();
        self.uses(n.index)
    }

    /// Whether the node is in use and has no node above it: it is the root or stands alone.
    pub fn is_top<L: Ledger>(&self, n: NodeId, steps: &mut Steps<L>) -> bool
        ensures top { IsTrue result ↔ (IsInUse self.now n.index × (times_child self.now.slots n.index ≡ 0)) }
        ensures ticks { steps.new ≡ steps.old + 1 }
    {
        steps.tick();
        self.is_apart(n.index)
    }

    /// Whether the node stands alone.
    pub fn stands_alone<L: Ledger>(&self, n: NodeId, steps: &mut Steps<L>) -> bool
        ensures alone { IsTrue result ↔ StandsAlone self.now n.index }
        ensures ticks { steps.new ≡ steps.old + 1 }
    {
        steps.tick();
        if n.index == self.root {
            return false;
        }
        self.is_apart(n.index)
    }

    /// Whether the node is a child of a P-node.
    pub fn is_child_of_p<L: Ledger>(&self, n: NodeId, steps: &mut Steps<L>) -> bool
        ensures child { IsTrue result ↔ IsChildOfP self.now n.index }
        ensures ticks { steps.new ≡ steps.old + 1 }
    {
        steps.tick();
        if n.index as usize >= self.nodes.len() {
            return false;
        }
        let parent = link_at(&self.nodes, n.index).parent;
        if parent == NONE {
            return false;
        }
        self.is_p(parent)
    }

    // Whether the node is in use.
    fn uses(&self, n: u32) -> bool
        ensures { IsTrue result ↔ IsInUse self.now n }
    {
        if n as usize >= self.nodes.len() {
            return false;
        }
        match head_at(&self.nodes, n).kind {
            NodeKind::Spare => false,
            NodeKind::Column(_) | NodeKind::Permuted | NodeKind::Directed => true,
        }
    }

    // Whether the node is in use and no child.
    pub(super) fn is_apart(&self, n: u32) -> bool
        ensures { IsTrue result ↔ (IsInUse self.now n × (times_child self.now.slots n ≡ 0)) }
    {
        if !self.uses(n) {
            return false;
        }
        is_unlinked(link_at(&self.nodes, n))
    }

    // Whether the node is a P-node.
    fn is_p(&self, n: u32) -> bool
        ensures { IsTrue result ↔ (shape_at self.now n ≡ Some P) }
    {
        if n as usize >= self.nodes.len() {
            return false;
        }
        match head_at(&self.nodes, n).kind {
            NodeKind::Permuted => true,
            NodeKind::Spare | NodeKind::Column(_) | NodeKind::Directed => false,
        }
    }
}

// Whether the link has no parent and no neighbour.
fn is_unlinked(link: Link) -> bool
    ensures { IsTrue result ↔ (link ≡ no_link) }
{
    link.parent == NONE && link.near0 == NONE && link.near1 == NONE
}
