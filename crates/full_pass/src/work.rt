// The room of a full pass, and what it left there.
ghost use Rattle.std.specs.Prelude.{◌≡◌, ℕ, ◌+◌, ◌*◌, ◌≤◌, ◌↔◌, List, [], length, IfOk, IsTrue};
ghost use Rattle.column_order.specs.Orders.{Keeps};
ghost use Rattle.row_model.specs.Rows.{IsRow};
ghost use Rattle.pq_tree.specs.Outline.{IsFrontier};
ghost use Rattle.arena_model.specs.NamedTree.{IsOneTree, outline_at};
ghost use Rattle.pq_arena.specs.RowNodes.{indices, column_leaves};
ghost use Rattle.full_pass.specs.Answer.{IsSettled};

use crate::entries::Entries;
use crate::pace::Pace;
use crate::settled::{Settled, run_both};
use pq_arena::{Arena, NodeId};
use row_model::{COLUMN_BOUND, NoMemory};
use std::alloc::Global;
use std::marker::Model;
use step_count::{Ledger, Steps};

/// The room of a full pass, taken once for all rows, and the members that it found last.
pub struct FullWork {
    entries: Entries,
    pace: Pace,
    members: Vec<NodeId>,
    count: usize,
    others: Vec<NodeId>,
    other_count: usize,
}

// By hand, so that a place where it is dropped proves one call and does not take its parts apart.
impl Drop for FullWork {
    fn drop(self) {
        let FullWork {
            entries: _entries,
            pace: _pace,
            members: _members,
            count: _count,
            others: _others,
            other_count: _other_count,
        } = self;
    }
}

impl Model for FullWork {
    ghost use Rattle.full_pass.specs.View.{Room, room_of, IsFullWorkKept};

    ghost Value = { Room };

    ghost view = { room_of };

    ghost invariant = { IsFullWorkKept };
}

impl FullWork {
    /// Room for the pass over an arena of so many columns.
    ///
    /// # Errors
    ///
    /// `NoMemory` where memory is refused. No other call takes memory.
    pub fn new(alloc: Global, columns: u32) -> Result<Self, NoMemory>
        requires { (1 ≤ columns) × (columns ≤ COLUMN_BOUND) }
        ensures { IfOk result (λ w. (w.size ≡ 2 * columns + 4) × (w.members ≡ []) × (w.others ≡ [])) }
    {
        let size = 2 * columns as usize + 4;
        Ok(FullWork {
            entries: Entries::new(alloc, size)?,
            pace: Pace::new(),
            members: vec![in alloc; NodeId::default(); size]?,
            count: 0,
            others: vec![in alloc; NodeId::default(); size]?,
            other_count: 0,
        })
    }

    /// Whether there is room for an arena over so many columns.
    pub fn is_for(&self, columns: u32) -> bool
        requires { columns ≤ COLUMN_BOUND }
        ensures { IsTrue result ↔ (self.now.size ≡ 2 * columns + 4) }
    {
        self.entries.tallies.len() == 2 * columns as usize + 4
    }

    /// The full children of the P-node that [`Settled::Group`] or [`Settled::Beside`] names, or of the first that
    /// [`Settled::Between`] names: each once, in no stated order.
    pub fn members(&self) -> &[NodeId]
        ensures { result.now ≡ self.now.members }
    {
        &self.members[..self.count]
    }

    /// The full children of the second P-node that [`Settled::Between`] names: each once, in no stated order.
    pub fn others(&self) -> &[NodeId]
        ensures { result.now ≡ self.now.others }
    {
        &self.others[..self.other_count]
    }

    // The passes over the row with these columns.
    pub(crate) fn pass<L: Ledger>(
        &mut self,
        arena: &Arena,
        row: &[u32],
        steps: &mut Steps<L>,
    ) -> Settled
        requires tree { IsOneTree arena.now }
        requires row { IsRow arena.now.columns row.now }
        requires room { self.old.size ≡ length arena.now.slots }
        ensures room { self.new.size ≡ self.old.size }
        ensures settled { IsSettled arena.now (column_leaves row.now) (indices self.new.members) (indices self.new.others) result }
        ensures kept { result ≡ Settled.Kept → (o : List ℕ) → IsFrontier (outline_at arena.now) o → Keeps o row.now }
        ensures steps { steps.new ≤ steps.old + 8 * length row.now }
    {
        arena.layout_law();
        match run_both(arena, row, &mut self.entries, &mut self.pace, steps) {
            Settled::Kept => Settled::Kept,
            Settled::Group(p) => {
                self.count = self.entries.list(p, &mut self.members);
                Settled::Group(p)
            }
            Settled::Beside(end) => {
                self.count = self.entries.list(end.node, &mut self.members);
                Settled::Beside(end)
            }
            Settled::Between(first, second) => {
                self.count = self.entries.list(first.node, &mut self.members);
                self.other_count = self.entries.list(second.node, &mut self.others);
                Settled::Between(first, second)
            }
            Settled::Open => Settled::Open,
        }
    }
}
