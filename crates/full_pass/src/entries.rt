// What a pass holds of each node.
ghost use Rattle.std.specs.Prelude.{◌≡◌, ◌≢◌, ℕ, ◌+◌, ◌≤◌, ◌<◌, length, take, true, false, IfOk};
ghost use Rattle.column_order.specs.Orders.{occurs};
ghost use Rattle.pq_arena.specs.RowNodes.{indices};
ghost use Rattle.full_pass.specs.Tallies.{HasPlace};
ghost use Rattle.full_pass.specs.Entries.{label, tally, is_full, mark_of, hits, far, up, first, next, end_at, both, chain_at, AreReady, SameTallies};

use crate::tallies::{Tally, fill, hit, hits_at, is_labelled};
use pq_arena::NodeId;
use row_model::NoMemory;
use std::alloc::Global;

// What a pass that keeps runs holds of one node besides.
#[derive(Clone, Copy)]
pub struct RunEnd {
    // The other end of the run of labelled children of a Q-node that this node is an end of.
    pub far: NodeId,
    // The node above this one, where it showed that.
    pub up: Option<NodeId>,
}

// What the run of a node has on one side: 1 where the neighbour is labelled and else 0, and the end.
#[derive(Clone, Copy)]
pub struct Side {
    pub mark: usize,
    pub end: NodeId,
}

// What a pass holds of each node, and its stamp. A node is labelled full where its label is the stamp.
#[derive(Drop)]
pub struct Entries {
    pub labels: Vec<u32>,
    pub tallies: Vec<Tally>,
    pub ends: Vec<RunEnd>,
    pub stamp: u32,
}

// A tally of no pass.
fn blank_tally() -> Tally
    ensures { result.seen ≡ 0 }
{
    Tally {
        seen: 0,
        hits: 0,
        first: NodeId::default(),
        next: NodeId::default(),
    }
}

// An end of no run.
fn no_end() -> RunEnd {
    RunEnd {
        far: NodeId::default(),
        up: None,
    }
}

impl Entries {
    // Entries for so many nodes, none of which is labelled.
    pub fn new(alloc: Global, nodes: usize) -> Result<Self, NoMemory>
        ensures { IfOk result (λ w. AreReady w nodes) }
    {
        Ok(Entries {
            labels: vec![in alloc; 0; nodes]?,
            tallies: vec![in alloc; blank_tally(); nodes]?,
            ends: vec![in alloc; no_end(); nodes]?,
            stamp: 1,
        })
    }

    // No node is labelled any more.
    pub fn begin(&mut self)
        requires { AreReady self.old (length self.old.tallies.items) }
        ensures ready { (n : ℕ) → AreReady self.old n → AreReady self.new n }
        ensures full { (x : ℕ) → is_full self.new x ≡ false }
        ensures hits { (x : ℕ) → hits self.new x ≡ 0 }
        ensures next { self.old.stamp < 4294967295 → self.new ≡ record self.old { stamp = self.old.stamp + 1 } }
    {
        if self.stamp == u32::MAX {
            self.clear_labels();
            self.clear_tallies();
            self.stamp = 1;
        } else {
            self.stamp += 1;
        }
    }

    // Each label is 0.
    fn clear_labels(&mut self)
        ensures length { length self.new.labels.items ≡ length self.old.labels.items }
        ensures label { (x : ℕ) → label self.new x ≡ 0 }
        ensures tallies { self.new.tallies ≡ self.old.tallies }
        ensures ends { self.new.ends ≡ self.old.ends }
    {
        for label in self.labels.iter_mut() {
            *label = 0;
        }
    }

    // Each stamp of the tallies is 0.
    fn clear_tallies(&mut self)
        ensures length { length self.new.tallies.items ≡ length self.old.tallies.items }
        ensures seen { (x : ℕ) → (tally self.new x).seen ≡ 0 }
        ensures labels { self.new.labels ≡ self.old.labels }
        ensures ends { self.new.ends ≡ self.old.ends }
    {
        for tally in self.tallies.iter_mut() {
            *tally = blank_tally();
        }
    }

    // What the run of `x` has on the side of this neighbour.
    pub fn beside(&self, near: Option<NodeId>, x: NodeId) -> Side
        requires ready { AreReady self.now (length self.now.tallies.items) }
        requires near { HasPlace near (length self.now.labels.items) }
        ensures mark { result.mark ≡ mark_of self.now near }
        ensures small { result.mark ≤ 1 }
        ensures end { result.end.index ≡ end_at self.now near x.index }
    {
        match near {
            None => Side { mark: 0, end: x },
            Some(n) => {
                if self.is_full(n) {
                    Side {
                        mark: 1,
                        end: self.far_of(n),
                    }
                } else {
                    Side { mark: 0, end: x }
                }
            }
        }
    }

    // Whether the node is labelled.
    fn is_full(&self, x: NodeId) -> bool
        requires { x.index < length self.now.labels.items }
        ensures { result ≡ is_full self.now x.index }
    {
        is_labelled(&self.labels, self.stamp, x)
    }

    // The other end of the run that the labelled node `n` is an end of.
    fn far_of(&self, n: NodeId) -> NodeId
        requires ready { AreReady self.now (length self.now.tallies.items) }
        requires full { is_full self.now n.index ≡ true }
        ensures { result.index ≡ far self.now n.index }
    {
        self.ends[n.index() as usize].far
    }

    // `a` and `b` are the ends of a run.
    pub fn link(&mut self, a: NodeId, b: NodeId)
        requires a { a.index < length self.old.ends.items }
        requires b { b.index < length self.old.ends.items }
        ensures ready { (n : ℕ) → AreReady self.old n → AreReady self.new n }
        ensures b { far self.new b.index ≡ a.index }
        ensures a { a.index ≢ b.index → far self.new a.index ≡ b.index }
        ensures others { (y : ℕ) → y ≢ a.index → y ≢ b.index → far self.new y ≡ far self.old y }
        ensures full { (y : ℕ) → is_full self.new y ≡ is_full self.old y }
        ensures tallies { SameTallies self.old self.new }
        ensures up { (y : ℕ) → up self.new y ≡ up self.old y }
    {
        self.set_far(a, b);
        self.set_far(b, a);
    }

    // The run that ends at `a` ends at `b` too.
    fn set_far(&mut self, a: NodeId, b: NodeId)
        requires { a.index < length self.old.ends.items }
        ensures a { far self.new a.index ≡ b.index }
        ensures others { (y : ℕ) → y ≢ a.index → far self.new y ≡ far self.old y }
        ensures up { (y : ℕ) → up self.new y ≡ up self.old y }
        ensures length { length self.new.ends.items ≡ length self.old.ends.items }
        ensures labels { self.new.labels ≡ self.old.labels }
        ensures tallies { self.new.tallies ≡ self.old.tallies }
        ensures stamp { self.new.stamp ≡ self.old.stamp }
    {
        let end = &mut self.ends[a.index() as usize];
        end.far = b;
    }

    // The node above both, where both showed one.
    pub fn above(&self, a: NodeId, b: NodeId) -> Option<NodeId>
        requires a { a.index < length self.now.ends.items }
        requires b { b.index < length self.now.ends.items }
        ensures { result ≡ both (up self.now a.index) (up self.now b.index) }
    {
        match self.ends[a.index() as usize].up {
            None => None,
            Some(q) => match self.ends[b.index() as usize].up {
                None => None,
                Some(_) => Some(q),
            },
        }
    }

    // `x` is labelled.
    pub fn fill(&mut self, x: NodeId)
        requires { x.index < length self.old.labels.items }
        ensures ready { (n : ℕ) → AreReady self.old n → AreReady self.new n }
        ensures here { is_full self.new x.index ≡ true }
        ensures others { (y : ℕ) → y ≢ x.index → is_full self.new y ≡ is_full self.old y }
        ensures far { (y : ℕ) → far self.new y ≡ far self.old y }
        ensures tallies { SameTallies self.old self.new }
        ensures up { (y : ℕ) → up self.new y ≡ up self.old y }
    {
        let stamp = self.stamp;
        fill(&mut self.labels, stamp, x);
    }

    // `x` showed this node above it.
    pub fn note(&mut self, x: NodeId, above: Option<NodeId>)
        requires { x.index < length self.old.ends.items }
        ensures ready { (n : ℕ) → AreReady self.old n → AreReady self.new n }
        ensures up { up self.new x.index ≡ above }
        ensures ups { (y : ℕ) → y ≢ x.index → up self.new y ≡ up self.old y }
        ensures full { (y : ℕ) → is_full self.new y ≡ is_full self.old y }
        ensures far { (y : ℕ) → far self.new y ≡ far self.old y }
        ensures tallies { SameTallies self.old self.new }
    {
        let end = &mut self.ends[x.index() as usize];
        end.up = above;
    }

    // How many children of the P-node `p` are labelled.
    pub fn hits_at(&self, p: NodeId) -> u32
        requires { p.index < length self.now.tallies.items }
        ensures { result ≡ hits self.now p.index }
    {
        hits_at(&self.tallies, self.stamp, p)
    }

    // The child of the P-node `p` that was labelled last.
    pub fn first_of(&self, p: NodeId) -> NodeId
        requires { p.index < length self.now.tallies.items }
        ensures { result.index ≡ first self.now p.index }
    {
        self.tallies[p.index() as usize].first
    }

    // The child of the same P-node that was labelled before `x`.
    pub fn next_of(&self, x: NodeId) -> NodeId
        requires { x.index < length self.now.tallies.items }
        ensures { result.index ≡ next self.now x.index }
    {
        self.tallies[x.index() as usize].next
    }

    // Writes the labelled children of the P-node `p`, and says how many there are.
    pub fn list(&self, p: NodeId, members: &mut Vec<NodeId>) -> usize
        requires p { p.index < length self.now.tallies.items }
        requires room { hits self.now p.index ≤ length members.old.items }
        requires all { (k : ℕ) → 1 ≤ occurs (chain_at self.now p.index) k → k < length self.now.tallies.items }
        ensures length { length members.new.items ≡ length members.old.items }
        ensures count { result ≤ length members.old.items }
        ensures members { indices (take result members.new.items) ≡ chain_at self.now p.index }
    {
        let count = self.hits_at(p) as usize;
        let mut x = self.first_of(p);
        for i in 0..count {
            members[i] = x;
            x = self.next_of(x);
        }
        count
    }

    // `x` is labelled too among the children of the P-node `p`. Says how many are.
    pub fn hit(&mut self, p: NodeId, x: NodeId) -> u32
        requires p { p.index < length self.old.tallies.items }
        requires x { x.index < length self.old.tallies.items }
        requires few { hits self.old p.index < 4294967295 }
        ensures ready { (n : ℕ) → AreReady self.old n → AreReady self.new n }
        ensures result { result ≡ hits self.old p.index + 1 }
        ensures here { hits self.new p.index ≡ hits self.old p.index + 1 }
        ensures others { (y : ℕ) → y ≢ p.index → hits self.new y ≡ hits self.old y }
        ensures first { first self.new p.index ≡ x.index }
        ensures firsts { (y : ℕ) → y ≢ p.index → first self.new y ≡ first self.old y }
        ensures next { next self.new x.index ≡ first self.old p.index }
        ensures nexts { (y : ℕ) → y ≢ x.index → next self.new y ≡ next self.old y }
        ensures full { (y : ℕ) → is_full self.new y ≡ is_full self.old y }
        ensures far { (y : ℕ) → far self.new y ≡ far self.old y }
        ensures up { (y : ℕ) → up self.new y ≡ up self.old y }
    {
        let stamp = self.stamp;
        hit(&mut self.tallies, stamp, p, x)
    }
}
