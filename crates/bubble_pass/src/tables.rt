// The tables of the pass, each with an entry for each node.
ghost use Rattle.std.specs.Prelude.{◌≡◌, ℕ, ◌+◌, ◌*◌, ◌≤◌, ◌<◌, length, set, replicate, IfOk, List, None};
ghost use Rattle.bubble_pass.specs.Tables.{node_at, seat_of, Swapped, CanExchange, AreKept, Forgot, CanForget, AreClear, TouchedAt};
ghost use Rattle.bubble_pass.specs.Marks.{tables_marks, placed_node, IsPut};
ghost use Rattle.bubble_pass.specs.Pass.{IsAnswer, IsHeld};
ghost use Rattle.bubble_pass.specs.Fair.{AtMost};
ghost use Rattle.arena_model.specs.RowLeaves.{Holds};
ghost use Rattle.bubble_pass.specs.Ends.{AreLeaves, IsFull};
ghost use Rattle.pq_arena.specs.RowNodes.{column_leaves};
ghost use Rattle.row_model.specs.Rows.{IsRow};

use crate::chains::Chains;
use crate::climber::{Climber, End, Stage};
use crate::labels::{Label, Labels};
use pq_arena::{Arena, NodeId};
use row_model::NoMemory;
use std::alloc::Global;
use step_count::{Ledger, Steps};

// Which node has which place in the chains. A place is named by the node that had it first.
#[derive(Drop)]
pub struct Seats {
    pub nodes: Vec<Option<NodeId>>,
    pub seats: Vec<Option<NodeId>>,
}

impl Seats {
    // Each node has its own place, of `n`.
    pub fn new(alloc: Global, n: usize) -> Result<Self, NoMemory>
        ensures nodes { IfOk result (λ s. s.nodes.items ≡ replicate n None) }
        ensures seats { IfOk result (λ s. s.seats.items ≡ replicate n None) }
    {
        let nodes = vec![in alloc; None; n]?;
        let seats = vec![in alloc; None; n]?;
        Ok(Seats { nodes, seats })
    }

    // The node that has the place `s`.
    pub fn node_at(&self, s: NodeId) -> NodeId
        ensures { result ≡ node_at self.now.nodes.items s }
    {
        match self.nodes.get(s.index() as usize) {
            Some(Some(x)) => *x,
            _ => s,
        }
    }

    // The node that has this place, if there is one.
    pub fn node_of(&self, seat: Option<NodeId>) -> Option<NodeId>
        ensures { result ≡ placed_node self.now.nodes.items seat }
    {
        match seat {
            Some(s) => Some(self.node_at(s)),
            None => None,
        }
    }

    // The place that the node `x` has.
    pub fn seat_of(&self, x: NodeId) -> NodeId
        requires { x.index < length self.now.seats.items }
        ensures { result ≡ seat_of self.now.seats.items x }
    {
        match self.seats[x.index() as usize] {
            Some(s) => s,
            None => x,
        }
    }

    // `old` and `new` exchange their places.
    pub fn swap(&mut self, old: NodeId, new: NodeId)
        requires { CanExchange self.old old new }
        ensures { Swapped self.old self.new old new }
    {
        let first = self.seat_of(old);
        let second = self.seat_of(new);
        self.nodes[first.index() as usize] = Some(new);
        self.nodes[second.index() as usize] = Some(old);
        self.seats[new.index() as usize] = Some(first);
        self.seats[old.index() as usize] = Some(second);
    }
}

/// What the pass has found.
#[derive(Clone, Copy)]
pub enum Found {
    /// The pertinent root, which is the smallest node that holds the row.
    Root(NodeId),
    /// The pertinent root is a Q-node of which only interior children meet the row, in one run.
    Inside,
    /// No frontier keeps the row.
    Split,
}

// All tables of the pass, each with an entry for each node.
pub struct Tables {
    pub climber: Climber,
    pub chains: Chains,
    pub labels: Labels,
    pub seats: Seats,
    pub inside: bool,
}

// By hand, so that a place where it is dropped proves one call and does not take its parts apart.
impl Drop for Tables {
    fn drop(self) {
        let Tables {
            climber: _climber,
            chains: _chains,
            labels: _labels,
            seats: _seats,
            inside: _inside,
        } = self;
    }
}

impl Tables {
    // Nothing is known of `x` any more.
    pub fn forget(&mut self, x: NodeId)
        requires { CanForget self.old x.index }
        ensures { Forgot self.old self.new x }
    {
        let i = x.index() as usize;
        self.climber.stages[i] = Stage::Unseen;
        self.chains.first[i] = None;
        self.chains.next[i] = None;
        self.chains.count[i] = 0;
        self.labels.labels[i] = Label::Empty;
        self.labels.full[i] = 0;
        self.labels.partial[i] = 0;
        self.seats.nodes[i] = None;
        self.seats.seats[i] = None;
    }

    // Forgets all nodes of which something is known.
    pub fn clear(&mut self)
        requires { AreKept self.old }
        ensures clear { AreClear self.new (length self.old.climber.stages.items) }
        ensures kept { AreKept self.new }
    {
        let mut i = 0;
        while i < self.climber.tail {
            let x = self.climber.queue[i as usize];
            self.forget(x);
            i += 1;
        }
        self.climber.head = 0;
        self.climber.tail = 0;
        self.climber.parked = 0;
        self.labels.len = 0;
        self.inside = false;
    }

    // Something may be known of `x` from now on.
    pub fn touch(&mut self, x: NodeId)
        requires kept { AreKept self.old }
        requires x { x.index < length self.old.climber.stages.items }
        ensures { TouchedAt self.old self.new x }
    {
        if let Stage::Unseen = self.climber.stage_of(x) {
            self.climber.push(x);
        }
    }
}

impl Tables {
    // `n` has this label.
    pub fn mark(&mut self, n: NodeId, label: Label)
        requires kept { AreKept self.old }
        requires n { n.index < length self.old.climber.stages.items }
        ensures kept { AreKept self.new }
        ensures marked { tables_marks self.new ≡ record (tables_marks self.old) { labels = set self.old.labels.labels.items n.index label } }
    {
        self.touch(n);
        self.labels.note(n, label);
    }

    // `new` has this label, and `old` and `new` exchange their places in the chains.
    pub fn put(&mut self, old: NodeId, new: NodeId, label: Label)
        requires kept { AreKept self.old }
        requires old { old.index < length self.old.climber.stages.items }
        requires new { new.index < length self.old.climber.stages.items }
        ensures kept { AreKept self.new }
        ensures put { IsPut (tables_marks self.old) (tables_marks self.new) old new label }
    {
        self.touch(old);
        self.touch(new);
        self.seats.swap(old, new);
        self.labels.note(new, label);
    }

    // Finds what holds the row, and labels the nodes below it.
    pub fn find<L: Ledger>(&mut self, arena: &Arena, row: &[u32], steps: &mut Steps<L>) -> Found
        ghost leaves: { List ℕ }
        requires leaves { leaves ≡ column_leaves row.now }
        requires columns { IsRow arena.now.columns row.now }
        requires clear { AreClear self.old (length arena.now.slots) }
        requires row { AreLeaves arena.now leaves }
        requires full { IsFull arena.now }
        ensures kept { AreKept self.new }
        ensures size { length self.new.labels.labels.items ≡ length arena.now.slots }
        ensures answer { IsAnswer arena.now leaves (tables_marks self.new) result }
        ensures ticks { (a : ℕ) → AtMost arena.now leaves arena.now.root a → steps.new ≤ steps.old + 5 * a }
        ensures fair { (q a : ℕ) → IsHeld result → Holds arena.now leaves q → AtMost arena.now leaves q a →
            steps.new ≤ steps.old + 7 * a + 2 }
    {
        arena.layout_law();
        match self.climber.find(arena, row, steps) {
            End::Apart => Found::Split,
            End::Run => {
                self.chains.link(arena, &self.climber);
                self.labels
                    .fill(arena, row, &self.climber, &self.chains, steps);
                self.inside = true;
                Found::Inside
            }
            End::Node(top) => {
                self.chains.link(arena, &self.climber);
                let r = self.chains.descend(arena, &self.climber, top);
                self.climber.set_stage(r, Stage::InRun);
                self.labels
                    .fill(arena, row, &self.climber, &self.chains, steps);
                Found::Root(r)
            }
        }
    }
}
