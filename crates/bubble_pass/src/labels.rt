// The labels, from the leaves of the row up.
ghost use Rattle.std.specs.Prelude.{◌≡◌, List, ℕ, ◌+◌, ◌*◌, ◌≤◌, ◌<◌, ◌≢◌, length, replicate, IfOk};
ghost use Rattle.bubble_pass.specs.Ends.{AreLeaves, IsFull};
ghost use Rattle.bubble_pass.specs.Chains.{number};
ghost use Rattle.bubble_pass.specs.declared.labels.Label.TheVariants.{Empty};
ghost use Rattle.bubble_pass.specs.Sweep.{Noted, Told, Added, CanTell, CanAdd, CanSettle, CanJudge, IsPertinent, IsBlank, IsIn, IsQuiet, SameBefore, full_in, other_in, Swept, Ground, IsRight, label as label_of, full_one, partial_one};
ghost use Rattle.pq_arena.specs.RowNodes.{column_leaves};
ghost use Rattle.row_model.specs.Rows.{IsRow};

use crate::chains::Chains;
use crate::climber::{Climber, Stage};
use pq_arena::{Arena, NodeId, Shape};
use row_model::NoMemory;
use std::alloc::Global;
use step_count::{Ledger, Steps};

/// How much of a node is in the row.
#[derive(Clone, Copy, PartialEq, Eq)]
pub enum Label {
    /// No leaf at or below the node is.
    Empty,
    /// Some leaves at or below the node are, and some are not.
    Partial,
    /// All leaves at or below the node are.
    Full,
}

// The labels, the numbers of labelled children, and the labelled nodes, each after its children.
#[derive(Drop)]
pub struct Labels {
    pub labels: Vec<Label>,
    pub full: Vec<u32>,
    pub partial: Vec<u32>,
    pub nodes: Vec<NodeId>,
    pub len: u32,
}

impl Labels {
    // No node has a label, of `n`.
    pub fn new(alloc: Global, n: usize) -> Result<Self, NoMemory>
        ensures labels { IfOk result (λ l. l.labels.items ≡ replicate n Empty) }
        ensures full { IfOk result (λ l. l.full.items ≡ replicate n 0) }
        ensures partial { IfOk result (λ l. l.partial.items ≡ replicate n 0) }
        ensures nodes { IfOk result (λ l. length l.nodes.items ≡ n) }
        ensures len { IfOk result (λ l. l.len ≡ 0) }
    {
        let labels = vec![in alloc; Label::Empty; n]?;
        let full = vec![in alloc; 0; n]?;
        let partial = vec![in alloc; 0; n]?;
        let nodes = vec![in alloc; NodeId::default(); n]?;
        Ok(Labels {
            labels,
            full,
            partial,
            nodes,
            len: 0,
        })
    }

    // `x` has this label.
    pub fn note(&mut self, x: NodeId, label: Label)
        requires { x.index < length self.old.labels.items }
        ensures { Noted self.old self.new x label }
    {
        self.labels[x.index() as usize] = label;
    }

    // `m` has one labelled child more.
    pub fn tell(&mut self, m: NodeId, label: Label)
        requires { CanTell self.old m.index }
        ensures { Told self.old self.new m label }
    {
        let full = self.full[m.index() as usize];
        let partial = self.partial[m.index() as usize];
        self.full[m.index() as usize] = full + full_step(label);
        self.partial[m.index() as usize] = partial + partial_step(label);
    }

    // `n` stands last among the nodes that get a label.
    pub fn add(&mut self, n: NodeId)
        requires { CanAdd self.old }
        ensures { Added self.old self.new n }
    {
        self.nodes[self.len as usize] = n;
        self.len += 1;
    }

    // How many labelled children `m` has so far.
    pub fn told(&self, m: NodeId) -> u32
        requires { CanTell self.now m.index }
        ensures { result ≡ number self.now.full.items m.index + number self.now.partial.items m.index }
    {
        self.full[m.index() as usize] + self.partial[m.index() as usize]
    }

    // The label of a node whose children have theirs.
    pub fn judge<L: Ledger>(
        &self,
        arena: &Arena,
        climber: &Climber,
        chains: &Chains,
        x: NodeId,
        done: u32,
        steps: &mut Steps<L>,
    ) -> Label
        ghost leaves: { List ℕ }
        requires { CanJudge arena.now leaves climber.now chains.now self.now x done }
        ensures right { IsRight arena.now leaves x.index result }
        ensures some { result ≢ Empty }
        ensures ticks { steps.new ≤ steps.old + number self.now.full.items x.index + 2 }
    {
        arena.layout_law();
        let view = arena.look(x, steps);
        match view.shape {
            Shape::Leaf(_) => Label::Full,
            Shape::P => {
                if self.full_of(x) == view.children {
                    Label::Full
                } else {
                    Label::Partial
                }
            }
            Shape::Q => {
                let mut left = self.full_of(x);
                let mut before = None;
                let mut next = view.ends[0];
                while left > 0 {
                    match self.full_at(next) {
                        Some(y) => {
                            let near = arena.look(y, steps).near;
                            let after = other_near(near, before);
                            before = Some(y);
                            next = after;
                            left -= 1;
                        }
                        None => return Label::Partial,
                    }
                }
                match next {
                    None => Label::Full,
                    Some(_) => Label::Partial,
                }
            }
        }
    }

    // How many full children `x` has so far.
    pub fn full_of(&self, x: NodeId) -> u32
        requires { x.index < length self.now.full.items }
        ensures { result ≡ number self.now.full.items x.index }
    {
        self.full[x.index() as usize]
    }

    // This node, if it is full.
    pub fn full_at(&self, n: Option<NodeId>) -> Option<NodeId>
        requires { IsIn (length self.now.labels.items) n }
        ensures { result ≡ full_in self.now.labels.items n }
    {
        match n {
            Some(n) => match self.labels[n.index() as usize] {
                Label::Full => Some(n),
                _ => None,
            },
            None => None,
        }
    }

    // `x` gets its label. The node above it follows where all its children that were seen have theirs.
    pub fn settle(
        &mut self,
        arena: &Arena,
        climber: &Climber,
        chains: &Chains,
        x: NodeId,
        done: u32,
        label: Label,
    )
        ghost leaves: { List ℕ }
        requires { CanSettle arena.now leaves climber.now chains.now self.old x done label }
        ensures swept { Swept arena.now leaves climber.now self.new (done + 1) }
        ensures before { SameBefore climber.now self.old self.new (done + 1) }
    {
        arena.layout_law();
        self.note(x, label);
        if let Stage::Placed(m) = climber.stage_of(x) {
            self.tell(m, label);
            if self.told(m) == chains.count_of(m) {
                self.add(m);
            }
        }
    }

    // The leaves of the row come first.
    pub fn start(&mut self, arena: &Arena, row: &[u32], climber: &Climber, chains: &Chains)
        requires columns { IsRow arena.now.columns row.now }
        requires row { AreLeaves arena.now (column_leaves row.now) }
        requires ground { Ground arena.now (column_leaves row.now) climber.now chains.now }
        requires blank { IsBlank arena.now self.old }
        ensures swept { Swept arena.now (column_leaves row.now) climber.now self.new 0 }
        ensures quiet { IsQuiet climber.now self.new }
    {
        arena.layout_law();
        let mut i = 0;
        while i < row.len() {
            self.add(arena.leaf(row[i]));
            i += 1;
        }
    }

    // Gives each node below what was found its label, children first.
    pub fn fill<L: Ledger>(
        &mut self,
        arena: &Arena,
        row: &[u32],
        climber: &Climber,
        chains: &Chains,
        steps: &mut Steps<L>,
    )
        ghost leaves: { List ℕ }
        requires leaves { leaves ≡ column_leaves row.now }
        requires columns { IsRow arena.now.columns row.now }
        requires row { AreLeaves arena.now leaves }
        requires full { IsFull arena.now }
        requires ground { Ground arena.now leaves climber.now chains.now }
        requires blank { IsBlank arena.now self.old }
        ensures swept { Swept arena.now leaves climber.now self.new self.new.len }
        ensures complete { (n : ℕ) → IsPertinent arena.now climber.now n → label_of self.new.labels.items n ≢ Empty }
        ensures quiet { IsQuiet climber.now self.new }
        ensures ticks { steps.new ≤ steps.old + 3 * self.new.len }
    {
        self.start(arena, row, climber, chains);
        self.sweep(arena, climber, chains, steps);
    }

    // The labels one after another.
    pub fn sweep<L: Ledger>(
        &mut self,
        arena: &Arena,
        climber: &Climber,
        chains: &Chains,
        steps: &mut Steps<L>,
    )
        ghost leaves: { List ℕ }
        requires row { AreLeaves arena.now leaves }
        requires full { IsFull arena.now }
        requires ground { Ground arena.now leaves climber.now chains.now }
        requires start { Swept arena.now leaves climber.now self.old 0 }
        requires quiet { IsQuiet climber.now self.old }
        ensures swept { Swept arena.now leaves climber.now self.new self.new.len }
        ensures complete { (n : ℕ) → IsPertinent arena.now climber.now n → label_of self.new.labels.items n ≢ Empty }
        ensures quiet { IsQuiet climber.now self.new }
        ensures ticks { steps.new ≤ steps.old + 3 * self.new.len }
    {
        arena.layout_law();
        let mut done = 0;
        while done < self.len {
            let x = self.nodes[done as usize];
            let label = self.judge(arena, climber, chains, x, done, steps);
            self.settle(arena, climber, chains, x, done, label);
            done += 1;
        }
    }
}

// The neighbour that is not this one, which may be none.
pub fn other_near(near: [Option<NodeId>; 2], before: Option<NodeId>) -> Option<NodeId>
    ensures { result ≡ other_in near before }
{
    match (near[0], before) {
        (Some(y), Some(b)) => {
            if y.index() == b.index() {
                near[1]
            } else {
                near[0]
            }
        }
        (None, None) => near[1],
        (Some(_), None) => near[0],
        (None, Some(_)) => near[0],
    }
}

// 1 for a full node, else 0.
pub fn full_step(label: Label) -> u32
    ensures { result ≡ full_one label }
{
    match label {
        Label::Empty | Label::Partial => 0,
        Label::Full => 1,
    }
}

// 1 for a partial node, else 0.
pub fn partial_step(label: Label) -> u32
    ensures { result ≡ partial_one label }
{
    match label {
        Label::Empty | Label::Full => 0,
        Label::Partial => 1,
    }
}
