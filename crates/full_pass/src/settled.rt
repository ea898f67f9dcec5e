// The full pass over one row.
ghost use Rattle.std.specs.Prelude.{◌≡◌, ℕ, ◌+◌, ◌*◌, ◌≤◌, List, length};
ghost use Rattle.column_order.specs.Orders.{Keeps};
ghost use Rattle.row_model.specs.Graph.{row_at};
ghost use Rattle.pq_tree.specs.Outline.{IsFrontier};
ghost use Rattle.arena_model.specs.NamedTree.{IsOneTree, outline_at};
ghost use Rattle.pq_arena.specs.RowNodes.{indices, column_leaves};
ghost use Rattle.full_pass.specs.Answer.{IsSettled};
ghost use Rattle.full_pass.specs.Entries.{AreReady};
ghost use Rattle.full_pass.specs.Passing.{members_of, second_members_of, IsCounted, CanPass};

use crate::beside::{find_beside, find_between};
use crate::count::{Counted, count};
use crate::entries::Entries;
use crate::joins::rise;
use crate::pace::Pace;
use crate::work::FullWork;
use pq_arena::{Arena, NodeId};
use row_model::Matrix;
use step_count::{Ledger, Steps};

/// A P-node that is an inner child of a Q-node, and one of its two neighbours.
#[derive(Clone, Copy)]
pub struct End {
    /// The P-node.
    pub node: NodeId,
    /// Its neighbour.
    pub beside: NodeId,
}

/// What a full pass finds of a row.
#[derive(Clone, Copy)]
pub enum Settled {
    /// Every frontier of the tree keeps the row.
    Kept,
    /// The row is what stands below some children of this P-node, two or more and not all.
    Group(NodeId),
    /// The row is what is below a run of children of a Q-node, and below some children of the P-node beside an end of
    /// that run, one or more and not all. The neighbour is that end.
    Beside(End),
    /// The row is what is below a run of children of a Q-node, and below some children of the P-node beside each end of
    /// that run, one or more and not all. Each neighbour is the end of the run that its P-node stands beside.
    Between(End, End),
    /// Nothing is known.
    Open,
}

/// Looks at full nodes and at the P-nodes above them alone, and says whether every frontier of the tree keeps row
/// `k` of the matrix, numbered from 1, or what has to be gathered: children of one P-node, or a run of children of a
/// Q-node and children of the P-node beside it, or of the P-nodes beside both its ends. [`FullWork::members`] are the
/// full children of the P-node that the answer names first, and [`FullWork::others`] those of the second.
pub fn settle<L: Ledger>(
    arena: &Arena,
    m: &Matrix,
    k: u32,
    work: &mut FullWork,
    steps: &mut Steps<L>,
) -> Settled
    requires tree { IsOneTree arena.now }
    requires columns { arena.now.columns ≡ m.now.columns }
    requires room { work.old.size ≡ length arena.now.slots }
    requires row { (1 ≤ k) × (k ≤ length m.now.rows) }
    ensures room { work.new.size ≡ work.old.size }
    ensures settled { IsSettled arena.now (column_leaves (row_at m.now.rows k)) (indices work.new.members) (indices work.new.others) result }
    ensures kept { result ≡ Settled.Kept → (o : List ℕ) → IsFrontier (outline_at arena.now) o →
        Keeps o (row_at m.now.rows k) }
    ensures steps { steps.new ≤ steps.old + 8 * length (row_at m.now.rows k) }
{
    work.pass(arena, m.row(k), steps)
}

// A pass that counts over the row with these columns. Where that leaves the row open, and a Q-node may be full, a pass
// that keeps runs goes on. Where no Q-node may be full, and two or three parts are left, one may be a run, and each
// other of a P-node beside it.
pub fn run_both<L: Ledger>(
    arena: &Arena,
    row: &[u32],
    entries: &mut Entries,
    pace: &mut Pace,
    steps: &mut Steps<L>,
) -> Settled
    requires { CanPass arena.now row.now entries.old }
    ensures ready { AreReady entries.new (length arena.now.slots) }
    ensures settled { IsSettled arena.now (column_leaves row.now) (members_of entries.new result) (second_members_of entries.new result) result }
    ensures ticks { steps.new ≤ steps.old + 8 * length row.now }
{
    match count_row(arena, row, entries, steps) {
        Counted::Answered(settled) => settled,
        Counted::Open => Settled::Open,
        Counted::TwoParts => {
            find_beside(
                arena,
                row,
                &entries.labels,
                &entries.tallies,
                entries.stamp,
                steps,
            )
        }
        Counted::ThreeParts => {
            find_between(
                arena,
                row,
                &entries.labels,
                &entries.tallies,
                entries.stamp,
                steps,
            )
        }
        Counted::MayFill => {
            if !pace.is_next() {
                return Settled::Open;
            }
            let settled = run(arena, row, entries, steps);
            pace.note(settled);
            settled
        }
    }
}

// A pass that counts over the row with these columns.
fn count_row<L: Ledger>(
    arena: &Arena,
    row: &[u32],
    entries: &mut Entries,
    steps: &mut Steps<L>,
) -> Counted
    requires { CanPass arena.now row.now entries.old }
    ensures ready { AreReady entries.new (length arena.now.slots) }
    ensures counted { IsCounted arena.now (column_leaves row.now) entries.new.labels.items entries.new.tallies.items entries.new.stamp result }
    ensures ticks { steps.new ≤ steps.old + 4 * length row.now }
{
    entries.begin();
    let stamp = entries.stamp;
    count(
        arena,
        row,
        &mut entries.labels,
        &mut entries.tallies,
        stamp,
        steps,
    )
}

// The pass over the row with these columns that keeps runs.
fn run<L: Ledger>(
    arena: &Arena,
    row: &[u32],
    entries: &mut Entries,
    steps: &mut Steps<L>,
) -> Settled
    requires { CanPass arena.now row.now entries.old }
    ensures ready { AreReady entries.new (length arena.now.slots) }
    ensures settled { IsSettled arena.now (column_leaves row.now) (members_of entries.new result) (second_members_of entries.new result) result }
    ensures ticks { steps.new ≤ steps.old + 4 * length row.now }
{
    arena.layout_law();
    entries.begin();
    let mut parts = row.len();
    let mut last = Settled::Open;
    for column in row {
        match rise(arena, entries, arena.leaf(*column), &mut parts, steps) {
            Some(settled) => last = settled,
            None => return Settled::Kept,
        }
    }
    if parts == 1 { last } else { Settled::Open }
}
