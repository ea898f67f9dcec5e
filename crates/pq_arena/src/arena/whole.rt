// Tests of what an arena is between two rows, for callers that do not know it.
ghost use Rattle.std.specs.Prelude.{◌<◌, ◌↔◌, IsTrue, length};
ghost use Rattle.arena_model.specs.Layout.{StandsAlone};
ghost use Rattle.arena_model.specs.NamedTree.{IsOneTree, HasTwoEach, outline_at};
ghost use Rattle.pq_tree.specs.Proper.{IsProper};
ghost use Rattle.pq_arena.specs.Arities.{HasTwo};

use super::Arena;
use crate::node::{NodeKind, head_at};

impl Arena {
    /// Whether each node in use is at or below the root, so that no node stands alone. It goes over all
    /// nodes, and counts no step.
    pub fn is_one_tree(&self) -> bool
        ensures { IsTrue result ↔ IsOneTree self.now }
    {
        for n in 0..self.nodes.len() as u32 {
            if self.is_alone(n) {
                return false;
            }
        }
        true
    }

    /// Whether each P-node and each Q-node has two children or more. It goes over all nodes, and counts no step.
    pub fn has_two_each(&self) -> bool
        ensures { IsTrue result ↔ HasTwoEach self.now }
    {
        for n in 0..self.nodes.len() as u32 {
            if !self.has_two(n) {
                return false;
            }
        }
        true
    }

    /// A proper tree that all nodes in use are of gives each P-node and each Q-node two children or more. A call stands
    /// for the clauses alone.
    pub fn arities_law(&self)
        requires one { IsOneTree self.now }
        requires proper { IsProper self.now.columns (outline_at self.now) }
        ensures { HasTwoEach self.now }
    {
        self.layout_law();
    }

    // Whether the node stands alone.
    fn is_alone(&self, n: u32) -> bool
        ensures { IsTrue result ↔ StandsAlone self.now n }
    {
        if n == self.root {
            return false;
        }
        self.is_apart(n)
    }

    // Whether the node has two children or more, if it is a P-node or a Q-node.
    fn has_two(&self, n: u32) -> bool
        requires { n < length self.now.slots }
        ensures { IsTrue result ↔ HasTwo self.now n }
    {
        let head = head_at(&self.nodes, n);
        match head.kind {
            NodeKind::Permuted => head.count >= 2,
            NodeKind::Directed => head.first != head.last,
            NodeKind::Spare | NodeKind::Column(_) => true,
        }
    }
}
