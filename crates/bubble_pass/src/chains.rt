// The chains of the nodes that were placed below each node.
ghost use Rattle.std.specs.Prelude.{◌≡◌, List, ℕ, ◌<◌, length, replicate, None, IfOk};
ghost use Rattle.bubble_pass.specs.Ends.{AreLeaves};
ghost use Rattle.bubble_pass.specs.Moves.{Kept};
ghost use Rattle.bubble_pass.specs.Chains.{Linked, Hung, CanHang, Cut, CanCut, entry, number};
ghost use Rattle.bubble_pass.specs.Roots.{Descending, Descent, IsSmallest};

use crate::climber::{Climber, Stage};
use pq_arena::{Arena, NodeId};
use row_model::NoMemory;
use std::alloc::Global;

// For each node the placed nodes right below it, as a chain, and their number.
#[derive(Drop)]
pub struct Chains {
    pub first: Vec<Option<NodeId>>,
    pub next: Vec<Option<NodeId>>,
    pub count: Vec<u32>,
}

impl Chains {
    // No node has a chain, of `n`.
    pub fn new(alloc: Global, n: usize) -> Result<Self, NoMemory>
        ensures first { IfOk result (λ c. c.first.items ≡ replicate n None) }
        ensures next { IfOk result (λ c. c.next.items ≡ replicate n None) }
        ensures count { IfOk result (λ c. c.count.items ≡ replicate n 0) }
    {
        let first = vec![in alloc; None; n]?;
        let next = vec![in alloc; None; n]?;
        let count = vec![in alloc; 0; n]?;
        Ok(Chains { first, next, count })
    }

    // `x` stands in front of the chain of `m`.
    pub fn hang(&mut self, x: NodeId, m: NodeId)
        requires { CanHang self.old x.index m.index }
        ensures { Hung self.old self.new x m }
    {
        let first = self.first[m.index() as usize];
        self.next[x.index() as usize] = first;
        self.first[m.index() as usize] = Some(x);
        let count = self.count[m.index() as usize];
        self.count[m.index() as usize] = count + 1;
    }

    // `x` has no chain any more.
    pub fn cut(&mut self, x: NodeId)
        requires { CanCut self.old x.index }
        ensures { Cut self.old self.new x }
    {
        self.first[x.index() as usize] = None;
        self.count[x.index() as usize] = 0;
    }

    // The first of the chain of `x`.
    pub fn first_of(&self, x: NodeId) -> Option<NodeId>
        requires { x.index < length self.now.first.items }
        ensures { result ≡ entry self.now.first.items x.index }
    {
        self.first[x.index() as usize]
    }

    // How many hang in the chain of `x`.
    pub fn count_of(&self, x: NodeId) -> u32
        requires { x.index < length self.now.count.items }
        ensures { result ≡ number self.now.count.items x.index }
    {
        self.count[x.index() as usize]
    }

    // From a node that holds the row down to the smallest one. The nodes that it leaves have no chain any more.
    pub fn descend(&mut self, arena: &Arena, climber: &Climber, top: NodeId) -> NodeId
        ghost leaves: { List ℕ }
        requires row { AreLeaves arena.now leaves }
        requires can { Descending arena.now leaves climber.now self.old top.index top.index }
        ensures smallest { IsSmallest arena.now leaves result.index }
        ensures descended { Descent arena.now leaves climber.now self.old self.new top.index result.index }
    {
        arena.layout_law();
        let mut r = top;
        while self.count_of(r) == 1 {
            match self.first_of(r) {
                Some(k) => {
                    self.cut(r);
                    r = k;
                }
                None => unreachable!(),
            }
        }
        r
    }

    // Hangs each node that was seen below the node above it.
    pub fn link(&mut self, arena: &Arena, climber: &Climber)
        ghost leaves: { List ℕ }
        requires kept { Kept arena.now leaves climber.now }
        requires clear { Linked climber.now self.old 0 }
        ensures { Linked climber.now self.new climber.now.tail }
    {
        arena.layout_law();
        let mut i = 0;
        while i < climber.tail {
            let x = climber.queue[i as usize];
            if let Stage::Placed(m) = climber.stage_of(x) {
                self.hang(x, m);
            }
            i += 1;
        }
    }
}
