// What there is to see at a node.
ghost use Rattle.std.specs.Prelude.{◌≡◌, ◌+◌};
ghost use Rattle.arena_model.specs.Layout.{IsInUse};
ghost use Rattle.pq_arena.specs.Looks.{ShowsNode};

use super::Arena;
use crate::node::{NodeId, NodeView, head_at, link_at, named};
use step_count::{Ledger, Steps};

impl Arena {
    /// What there is to see at `n`.
    pub fn look<L: Ledger>(&self, n: NodeId, steps: &mut Steps<L>) -> NodeView
        requires { IsInUse self.now n.index }
        ensures shows { ShowsNode self.now n.index result }
        ensures ticks { steps.new ≡ steps.old + 1 }
    {
        steps.tick();
        let head = head_at(&self.nodes, n.index);
        let link = link_at(&self.nodes, n.index);
        NodeView {
            shape: self.shape_of(n.index),
            parent: named(link.parent),
            near: [named(link.near0), named(link.near1)],
            ends: [named(head.first), named(head.last)],
            children: head.count,
        }
    }
}
