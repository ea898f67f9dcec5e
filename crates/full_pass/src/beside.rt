// P-nodes with full children beside a run of full children of a Q-node.
ghost use Rattle.std.specs.Prelude.{◌≡◌, ◌≢◌, ◌⊎◌, ℕ, ◌+◌, ◌*◌, ◌≤◌, List, [], length, true, None, get_or};
ghost use Rattle.column_order.specs.Orders.{occurs};
ghost use Rattle.row_model.specs.Rows.{IsRow};
ghost use Rattle.arena_model.specs.Layout.{IsInUse};
ghost use Rattle.arena_model.specs.NamedTree.{IsOneTree};
ghost use Rattle.pq_arena.specs.RowNodes.{column_leaves};
ghost use Rattle.full_pass.specs.Answer.{IsSettled};
ghost use Rattle.full_pass.specs.Tallies.{full_in, hits_in, AreStamped, HasPlace};
ghost use Rattle.full_pass.specs.Passing.{members_in, second_members_in, ArePartsLeft, Pass, IsLabelledNear, IsRingAbove};

use crate::joins::{Place, place_of};
use crate::settled::{End, Settled};
use crate::tallies::{Tally, hits_at, is_labelled};
use pq_arena::{Arena, NodeId};
use step_count::{Ledger, Steps};

// What is above a leaf of a row.
#[derive(Clone, Copy)]
pub enum RingAbove {
    // No P-node that is not full.
    Absent,
    // A P-node that is not full, and has no labelled neighbour in a Q-node.
    Lone,
    // This P-node, not full, and a labelled neighbour.
    Near(End),
}

// A labelled neighbour of a child of a Q-node with these neighbours, where it has two.
fn labelled_near(labels: &[u32], stamp: u32, near: [Option<NodeId>; 2]) -> Option<NodeId>
    requires { HasPlace (get_or near 0 None) (length labels.now) × HasPlace (get_or near 1 None) (length labels.now) }
    ensures { IsLabelledNear (full_in labels.now stamp) (get_or near 0 None) (get_or near 1 None) result }
{
    match near[0] {
        None => None,
        Some(a) => match near[1] {
            None => None,
            Some(b) => {
                if is_labelled(labels, stamp, a) {
                    Some(a)
                } else if is_labelled(labels, stamp, b) {
                    Some(b)
                } else {
                    None
                }
            }
        },
    }
}

// What is above the leaf `x` of a row.
fn ring_above<L: Ledger>(
    arena: &Arena,
    x: NodeId,
    labels: &[u32],
    tallies: &[Tally],
    stamp: u32,
    steps: &mut Steps<L>,
) -> RingAbove
    requires used { IsInUse arena.now x.index }
    requires ready { AreStamped labels.now tallies.now stamp (length arena.now.slots) }
    ensures above { (row : List ℕ) (n : ℕ) → Pass arena.now row (full_in labels.now stamp) (hits_in tallies.now stamp) [] n →
        1 ≤ occurs row x.index → IsRingAbove arena.now (full_in labels.now stamp) result }
    ensures ticks { steps.new ≤ steps.old + 2 }
{
    arena.layout_law();
    let view = arena.look(x, steps);
    let p = match place_of(&view) {
        Place::Top | Place::Run => return RingAbove::Absent,
        Place::Ring(p) => p,
    };
    let above = arena.look(p, steps);
    if hits_at(tallies, stamp, p) == above.children {
        return RingAbove::Absent;
    }
    match place_of(&above) {
        Place::Top | Place::Ring(_) => RingAbove::Lone,
        Place::Run => match labelled_near(labels, stamp, above.near) {
            None => RingAbove::Lone,
            Some(beside) => RingAbove::Near(End { node: p, beside }),
        },
    }
}

// Looks for the P-node of a row with these columns of which a pass left two parts, from its leaves up.
pub fn find_beside<L: Ledger>(
    arena: &Arena,
    row: &[u32],
    labels: &[u32],
    tallies: &[Tally],
    stamp: u32,
    steps: &mut Steps<L>,
) -> Settled
    requires tree { IsOneTree arena.now }
    requires row { IsRow arena.now.columns row.now }
    requires two { ArePartsLeft arena.now (column_leaves row.now) labels.now tallies.now stamp 2 }
    ensures settled { IsSettled arena.now (column_leaves row.now) (members_in tallies.now stamp result) (second_members_in tallies.now stamp result) result }
    ensures ticks { steps.new ≤ steps.old + 2 * length row.now }
{
    arena.layout_law();
    for column in row {
        let leaf = arena.leaf(*column);
        match ring_above(arena, leaf, labels, tallies, stamp, steps) {
            RingAbove::Absent => {}
            RingAbove::Lone => return Settled::Open,
            RingAbove::Near(end) => return Settled::Beside(end),
        }
    }
    Settled::Open
}

// Looks for the two P-nodes of a row with these columns of which a pass left three parts, from its leaves up.
pub fn find_between<L: Ledger>(
    arena: &Arena,
    row: &[u32],
    labels: &[u32],
    tallies: &[Tally],
    stamp: u32,
    steps: &mut Steps<L>,
) -> Settled
    requires tree { IsOneTree arena.now }
    requires row { IsRow arena.now.columns row.now }
    requires three { ArePartsLeft arena.now (column_leaves row.now) labels.now tallies.now stamp 3 }
    ensures settled { IsSettled arena.now (column_leaves row.now) (members_in tallies.now stamp result) (second_members_in tallies.now stamp result) result }
    ensures ticks { steps.new ≤ steps.old + 2 * length row.now }
{
    arena.layout_law();
    let mut found: Option<End> = None;
    for column in row {
        let leaf = arena.leaf(*column);
        match ring_above(arena, leaf, labels, tallies, stamp, steps) {
            RingAbove::Absent => {}
            RingAbove::Lone => return Settled::Open,
            RingAbove::Near(end) => match found {
                None => found = Some(end),
                Some(first) => {
                    if first.node.index() != end.node.index() {
                        return Settled::Between(first, end);
                    }
                }
            },
        }
    }
    Settled::Open
}
