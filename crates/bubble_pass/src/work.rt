// The room of the pass, and what it left there.
ghost use Rattle.std.specs.Prelude.{◌≡◌, ℕ, ◌+◌, ◌*◌, ◌≤◌, ◌<◌, ◌↔◌, IsTrue, length, set, IfOk};
ghost use Rattle.pq_arena.specs.RowNodes.{indices};
ghost use Rattle.bubble_pass.specs.Marks.{label_at, fulls_at, partials_at, first_of, next_of, size_of, IsPut, AreBlank};
ghost use Rattle.bubble_pass.specs.Pass.{IsAnswer, IsHeld};
ghost use Rattle.bubble_pass.specs.Fair.{AtMost};
ghost use Rattle.arena_model.specs.RowLeaves.{Holds};
ghost use Rattle.bubble_pass.specs.Ends.{AreLeaves, IsFull};
ghost use Rattle.pq_arena.specs.RowNodes.{column_leaves};
ghost use Rattle.row_model.specs.Rows.{IsRow};

use crate::chains::Chains;
use crate::climber::Climber;
use crate::labels::{Label, Labels};
use crate::tables::{Found, Seats, Tables};
use pq_arena::{Arena, NodeId};
use row_model::{COLUMN_BOUND, NoMemory};
use std::alloc::Global;
use std::marker::Model;
use step_count::{Ledger, Steps};

/// How many children of a node are full, and how many are partial.
#[derive(Clone, Copy)]
pub struct Counts {
    pub full: u32,
    pub partial: u32,
}

/// The room of the pass, and what it left there.
#[derive(Drop)]
pub struct Work {
    tables: Tables,
}

impl Model for Work {
    ghost use Rattle.bubble_pass.specs.Marks.{Marks, marks_of, IsWorkKept};

    ghost Value = { Marks };

    ghost view = { marks_of };

    ghost invariant = { IsWorkKept };
}

impl Work {
    /// Room for the pass over an arena of so many columns. All labels are empty.
    pub fn new(alloc: Global, columns: u32) -> Result<Self, NoMemory>
        requires { (1 ≤ columns) × (columns ≤ COLUMN_BOUND) }
        ensures { IfOk result (λ w. AreBlank w × (size_of w ≡ 2 * columns + 4)) }
    {
        let size = 2 * columns as usize + 4;
        let climber = Climber::new(alloc, size)?;
        let chains = Chains::new(alloc, size)?;
        let labels = Labels::new(alloc, size)?;
        let seats = Seats::new(alloc, size)?;
        Ok(Work {
            tables: Tables {
                climber,
                chains,
                labels,
                seats,
                inside: false,
            },
        })
    }

    /// Whether there is room for an arena over so many columns.
    pub fn is_for(&self, columns: u32) -> bool
        requires { columns ≤ COLUMN_BOUND }
        ensures { IsTrue result ↔ (size_of self.now ≡ 2 * columns + 4) }
    {
        self.tables.labels.labels.len() == 2 * columns as usize + 4
    }

    /// The label of `n`.
    pub fn label(&self, n: NodeId) -> Label
        requires { n.index < size_of self.now }
        ensures { result ≡ label_at self.now n.index }
    {
        self.tables.labels.labels[n.index() as usize]
    }

    /// The nodes with a label when the last pass ended, each once and each after its children.
    pub fn nodes(&self) -> &[NodeId]
        ensures { indices result.now ≡ self.now.nodes }
    {
        &self.tables.labels.nodes[..self.tables.labels.len as usize]
    }

    /// Whether the last pass answered [`Found::Inside`], and nothing was cleared since.
    pub fn inside(&self) -> bool
        ensures { result ≡ self.now.inside }
    {
        self.tables.inside
    }

    /// How many children of `n` are full, and how many are partial, as the last pass counted them.
    pub fn counts(&self, n: NodeId) -> Counts
        requires { n.index < size_of self.now }
        ensures full { result.full ≡ fulls_at self.now n.index }
        ensures partial { result.partial ≡ partials_at self.now n.index }
    {
        let i = n.index() as usize;
        Counts {
            full: self.tables.labels.full[i],
            partial: self.tables.labels.partial[i],
        }
    }

    /// The first of the labelled children of `n`, as the last pass and [`Work::put`] left them.
    pub fn first_child(&self, n: NodeId) -> Option<NodeId>
        requires { n.index < size_of self.now }
        ensures { result ≡ first_of self.now n.index }
    {
        self.tables
            .seats
            .node_of(self.tables.chains.first[n.index() as usize])
    }

    /// The labelled child that comes after the labelled child `n`, as the last pass and [`Work::put`] left them.
    pub fn next_child(&self, n: NodeId) -> Option<NodeId>
        requires { n.index < size_of self.now }
        ensures { result ≡ next_of self.now n }
    {
        let seat = self.tables.seats.seat_of(n);
        let next = self.tables.chains.next[seat.index() as usize];
        self.tables.seats.node_of(next)
    }

    /// `n` has this label.
    pub fn mark(&mut self, n: NodeId, label: Label)
        requires { n.index < size_of self.old }
        ensures { self.new ≡ record self.old { labels = set self.old.labels n.index label } }
    {
        self.tables.mark(n, label);
    }

    /// `new` has this label, and the place of `old` among the labelled children of the node above.
    pub fn put(&mut self, old: NodeId, new: NodeId, label: Label)
        requires old { old.index < size_of self.old }
        requires new { new.index < size_of self.old }
        ensures { IsPut self.old self.new old new label }
    {
        self.tables.put(old, new, label);
    }

    /// No node has a label any more.
    pub fn clear(&mut self)
        ensures blank { AreBlank self.new }
        ensures size { size_of self.new ≡ size_of self.old }
    {
        self.tables.clear();
    }

    /// Forgets what was known, finds what holds the row, and labels the nodes below it.
    pub(crate) fn find<L: Ledger>(
        &mut self,
        arena: &Arena,
        row: &[u32],
        steps: &mut Steps<L>,
    ) -> Found
        requires size { size_of self.old ≡ length arena.now.slots }
        requires columns { IsRow arena.now.columns row.now }
        requires leaves { AreLeaves arena.now (column_leaves row.now) }
        requires full { IsFull arena.now }
        ensures size { size_of self.new ≡ size_of self.old }
        ensures answer { IsAnswer arena.now (column_leaves row.now) self.new result }
        ensures ticks { (a : ℕ) → AtMost arena.now (column_leaves row.now) arena.now.root a → steps.new ≤ steps.old + 5 * a }
        ensures fair { (q a : ℕ) → IsHeld result → Holds arena.now (column_leaves row.now) q → AtMost arena.now (column_leaves row.now) q a →
            steps.new ≤ steps.old + 7 * a + 2 }
    {
        let tables = &mut self.tables;
        tables.clear();
        tables.find(arena, row, steps)
    }
}
