// The climb from the leaves of a row.
ghost use Rattle.std.specs.Prelude.{◌≡◌, List, ℕ, ◌+◌, ◌*◌, ◌≤◌, ◌<◌, length, replicate, true, false, IfOk};
ghost use Rattle.bubble_pass.specs.declared.climber.Stage.TheVariants.{Unseen};
ghost use Rattle.bubble_pass.specs.Climb.{stage, at, parked_one};
ghost use Rattle.bubble_pass.specs.Ends.{IsClear, AreLeaves, IsFull, IsQueueing, IsOver, GoesOn, Climbed, IsFlat, LeftOpen, IsFound, CanGrow, Grown, EndIs};
ghost use Rattle.bubble_pass.specs.Moves.{above_in, blocked_in, InReach, CanRise, CanPush, Pushed, CanFind, found, parked_as, beyond_in, Rose, Staged, Kept, Ready, Walkable, Walked, Turned};
ghost use Rattle.arena_model.specs.RowLeaves.{Holds};
ghost use Rattle.bubble_pass.specs.Fair.{AtMost};
ghost use Rattle.pq_arena.specs.RowNodes.{column_leaves};
ghost use Rattle.row_model.specs.Rows.{IsRow};

use pq_arena::{Arena, NodeId, NodeView};
use row_model::NoMemory;
use std::alloc::Global;
use step_count::{Ledger, Steps};

// How far a node has come in the climb.
#[derive(Clone, Copy)]
pub enum Stage {
    Unseen,
    // It waits for its turn.
    Queued,
    // It is no end child of a Q-node, and neither neighbour knew the node above when it had its turn.
    Blocked,
    // No node is above it.
    Top,
    // It was blocked, and is one of the run that holds the row.
    InRun,
    // This node is above it.
    Placed(NodeId),
}

// The nodes that were seen, each once, in the order in which they have their turn.
#[derive(Drop)]
pub struct Climber {
    pub stages: Vec<Stage>,
    pub queue: Vec<NodeId>,
    pub head: u32,
    pub tail: u32,
    // How many are `Blocked` or `Top`.
    pub parked: u32,
}

// What the climb has led to.
#[derive(Clone, Copy)]
pub enum End {
    // This node holds the row.
    Node(NodeId),
    // The nodes in the run together hold the row.
    Run,
    // No order of the leaves keeps the row.
    Apart,
}

impl Climber {
    // A climb over `n` nodes that has not begun.
    pub fn new(alloc: Global, n: usize) -> Result<Self, NoMemory>
        ensures stages { IfOk result (λ c. c.stages.items ≡ replicate n Unseen) }
        ensures queue { IfOk result (λ c. length c.queue.items ≡ n) }
        ensures idle { IfOk result (λ c. (c.head ≡ 0) × (c.tail ≡ 0) × (c.parked ≡ 0)) }
    {
        let stages = vec![in alloc; Stage::Unseen; n]?;
        let queue = vec![in alloc; NodeId::default(); n]?;
        Ok(Climber {
            stages,
            queue,
            head: 0,
            tail: 0,
            parked: 0,
        })
    }

    // How far `n` has come.
    pub fn stage_of(&self, n: NodeId) -> Stage
        requires { n.index < length self.now.stages.items }
        ensures { result ≡ stage self.now.stages.items n.index }
    {
        self.stages[n.index() as usize]
    }

    // `n` has come as far as `to`.
    pub fn set_stage(&mut self, n: NodeId, to: Stage)
        requires { n.index < length self.old.stages.items }
        ensures staged { Staged self.old self.new n to }
        ensures parked { self.new.parked ≡ self.old.parked }
    {
        self.stages[n.index() as usize] = to;
    }

    // The node above this one, if it is known.
    pub fn above_of(&self, n: Option<NodeId>) -> Option<NodeId>
        requires { InReach self.now.stages.items n }
        ensures { result ≡ above_in self.now.stages.items n }
    {
        match n {
            Some(n) => match self.stage_of(n) {
                Stage::Placed(m) => Some(m),
                _ => None,
            },
            None => None,
        }
    }

    // This node, if it is blocked.
    pub fn blocked_at(&self, n: Option<NodeId>) -> Option<NodeId>
        requires { InReach self.now.stages.items n }
        ensures { result ≡ blocked_in self.now.stages.items n }
    {
        match n {
            Some(n) => match self.stage_of(n) {
                Stage::Blocked => Some(n),
                _ => None,
            },
            None => None,
        }
    }

    // `n` waits for its turn, behind the others.
    pub fn push(&mut self, n: NodeId)
        requires { CanPush self.old n.index }
        ensures { Pushed self.old self.new n }
    {
        self.set_stage(n, Stage::Queued);
        self.queue[self.tail as usize] = n;
        self.tail += 1;
    }

    // `m` is above `x`, and gets its turn if it was not seen.
    pub fn rise(&mut self, x: NodeId, m: NodeId)
        requires { CanRise self.old x.index m.index }
        ensures { Rose self.old self.new x m }
    {
        if let Stage::Unseen = self.stage_of(m) {
            self.set_stage(m, Stage::Queued);
            self.queue[self.tail as usize] = m;
            self.tail += 1;
        }
        self.set_stage(x, Stage::Placed(m));
    }

    // Places blocked nodes below `m` from `to` on, which stands beside `from`.
    pub fn walk<L: Ledger>(
        &mut self,
        arena: &Arena,
        m: NodeId,
        from: NodeId,
        to: Option<NodeId>,
        steps: &mut Steps<L>,
    )
        ghost leaves: { List ℕ }
        requires can { Walkable arena.now leaves self.old m from to }
        ensures walked { Walked arena.now leaves self.old self.new m from to steps.old steps.new }
    {
        arena.layout_law();
        let mut before = from;
        let mut next = to;
        while let Some(x) = self.blocked_at(next) {
            let view = arena.look(x, steps);
            self.set_stage(x, Stage::Placed(m));
            self.parked -= 1;
            next = beyond(&view, before);
            before = x;
        }
    }

    // The first node in the queue has its turn.
    pub fn turn<L: Ledger>(&mut self, arena: &Arena, steps: &mut Steps<L>)
        ghost leaves: { List ℕ }
        requires ready { Ready arena.now leaves self.old }
        requires some { self.old.head < self.old.tail }
        ensures ready { Ready arena.now leaves self.new }
        ensures ticks { steps.new + self.new.parked ≤ steps.old + self.old.parked + 2 }
        ensures head { self.new.head ≡ self.old.head + 1 }
        ensures turned { Turned self.old self.new (at self.old.queue.items self.old.head) }
    {
        arena.layout_law();
        let x = self.queue[self.head as usize];
        let view = arena.look(x, steps);
        match self.found(&view) {
            Some(m) => {
                self.head += 1;
                self.rise(x, m);
                self.walk(arena, m, x, view.near[0], steps);
                self.walk(arena, m, x, view.near[1], steps);
            }
            None => {
                self.head += 1;
                self.parked += 1;
                self.set_stage(x, parked_stage(&view));
            }
        }
    }

    // The node above the one in view: it shows it, or a neighbour knows it.
    pub fn found(&self, view: &NodeView) -> Option<NodeId>
        requires { CanFind self.now.stages.items view.now }
        ensures { result ≡ found self.now.stages.items view.now }
    {
        match view.parent {
            Some(m) => Some(m),
            None => match self.above_of(view.near[0]) {
                Some(m) => Some(m),
                None => self.above_of(view.near[1]),
            },
        }
    }

    // Whether some node has a turn yet. None has where one alone is left that holds the row.
    pub fn goes_on(&self) -> bool
        requires { self.now.head ≤ self.now.tail }
        ensures goes { result ≡ true → GoesOn self.now }
        ensures stops { result ≡ false → IsOver self.now }
    {
        if self.head == self.tail {
            return false;
        }
        if self.head + 1 == self.tail {
            return self.parked != 0;
        }
        true
    }

    // Lets the nodes have their turns until one is left that holds the row, or the rest is parked.
    pub fn climb<L: Ledger>(&mut self, arena: &Arena, steps: &mut Steps<L>)
        ghost leaves: { List ℕ }
        requires row { AreLeaves arena.now leaves }
        requires begun { IsQueueing arena.now leaves self.old }
        ensures climbed { Climbed arena.now leaves self.new steps.old steps.new }
        ensures over { IsOver self.new }
    {
        arena.layout_law();
        while self.goes_on() {
            self.turn(arena, steps);
        }
    }

    // Queues the leaves of the row.
    pub fn begin(&mut self, arena: &Arena, row: &[u32])
        requires columns { IsRow arena.now.columns row.now }
        requires clear { IsClear arena.now self.old }
        requires row { AreLeaves arena.now (column_leaves row.now) }
        ensures { IsQueueing arena.now (column_leaves row.now) self.new }
    {
        arena.layout_law();
        for column in row {
            self.push(arena.leaf(*column));
        }
    }

    // A node that is parked.
    pub fn first_parked(&self, arena: &Arena) -> NodeId
        ghost leaves: { List ℕ }
        requires kept { Kept arena.now leaves self.now }
        requires some { 1 ≤ self.now.parked }
        ensures { parked_one (stage self.now.stages.items result.index) ≡ 1 }
    {
        let mut i = 0;
        while i < self.tail {
            let x = self.queue[i as usize];
            match self.stage_of(x) {
                Stage::Blocked | Stage::Top => return x,
                _ => i += 1,
            }
        }
        unreachable!()
    }

    // The blocked nodes from `to` on, beside `from`, are in the run.
    pub fn grow<L: Ledger>(
        &mut self,
        arena: &Arena,
        from: NodeId,
        to: Option<NodeId>,
        steps: &mut Steps<L>,
    )
        ghost leaves: { List ℕ }
        requires can { CanGrow arena.now leaves self.old from to }
        ensures grown { Grown arena.now leaves self.old self.new from to steps.old steps.new }
    {
        arena.layout_law();
        let mut before = from;
        let mut next = to;
        while let Some(x) = self.blocked_at(next) {
            let view = arena.look(x, steps);
            self.set_stage(x, Stage::InRun);
            self.parked -= 1;
            next = beyond(&view, before);
            before = x;
        }
    }

    // What the climb has led to.
    pub fn end<L: Ledger>(&mut self, arena: &Arena, steps: &mut Steps<L>) -> End
        ghost leaves: { List ℕ }
        requires row { AreLeaves arena.now leaves }
        requires full { IsFull arena.now }
        requires ready { Ready arena.now leaves self.old }
        requires over { IsOver self.old }
        ensures end { EndIs arena.now leaves result }
        ensures flat { IsFlat arena.now self.old result }
        ensures kept { Kept arena.now leaves self.new }
        ensures left { LeftOpen arena.now leaves self.new result }
        ensures ticks { steps.new ≤ steps.old + self.old.parked }
    {
        arena.layout_law();
        if self.head < self.tail {
            return End::Node(self.queue[self.head as usize]);
        }
        let y = self.first_parked(arena);
        if self.parked == 1 {
            return End::Node(y);
        }
        if let Stage::Top = self.stage_of(y) {
            return End::Apart;
        }
        let view = arena.look(y, steps);
        self.set_stage(y, Stage::InRun);
        self.parked -= 1;
        self.grow(arena, y, view.near[0], steps);
        self.grow(arena, y, view.near[1], steps);
        if self.parked == 0 {
            End::Run
        } else {
            End::Apart
        }
    }

    // Climbs from the leaves of the row to what holds it.
    pub fn find<L: Ledger>(&mut self, arena: &Arena, row: &[u32], steps: &mut Steps<L>) -> End
        ghost leaves: { List ℕ }
        requires leaves { leaves ≡ column_leaves row.now }
        requires columns { IsRow arena.now.columns row.now }
        requires clear { IsClear arena.now self.old }
        requires row { AreLeaves arena.now leaves }
        requires full { IsFull arena.now }
        ensures end { EndIs arena.now leaves result }
        ensures kept { Kept arena.now leaves self.new }
        ensures left { LeftOpen arena.now leaves self.new result }
        ensures ticks { (a : ℕ) → AtMost arena.now leaves arena.now.root a → steps.new ≤ steps.old + 2 * a }
        ensures fair { (r a : ℕ) → IsFound result → Holds arena.now leaves r → AtMost arena.now leaves r a →
            steps.new ≤ steps.old + 2 * (2 * a + 1) }
    {
        arena.layout_law();
        self.begin(arena, row);
        self.climb(arena, steps);
        self.end(arena, steps)
    }
}

// The stage of a node in view whose node above is not known after its turn: blocked beside a
// neighbour, else at the top.
pub fn parked_stage(view: &NodeView) -> Stage
    ensures { result ≡ parked_as view.now }
{
    match view.near[0] {
        Some(_) => Stage::Blocked,
        None => Stage::Top,
    }
}

// The neighbour that is not `before`.
pub fn beyond(view: &NodeView, before: NodeId) -> Option<NodeId>
    ensures { result ≡ beyond_in view.now.near before }
{
    match view.near[0] {
        Some(y) => {
            if y.index() == before.index() {
                view.near[1]
            } else {
                view.near[0]
            }
        }
        None => view.near[0],
    }
}
