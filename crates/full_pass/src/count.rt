// The pass that only counts.
ghost use Rattle.std.specs.Prelude.{◌≡◌, ℕ, ◌+◌, ◌*◌, ◌≤◌, List, ◌∷◌, length, false};
ghost use Rattle.row_model.specs.Rows.{IsRow};
ghost use Rattle.arena_model.specs.NamedTree.{IsOneTree};
ghost use Rattle.pq_arena.specs.RowNodes.{column_leaves};
ghost use Rattle.full_pass.specs.Tallies.{full_in, hits_in, AreStamped};
ghost use Rattle.full_pass.specs.Passing.{AreCounted, CanAdd, CanClimb, IsCounted, Pass, IsAdded, IsRisen};

use crate::added::{Added, Next, after, judged};
use crate::joins::{Place, place_of};
use crate::settled::Settled;
use crate::tallies::{Tally, fill, fill_between, hit, show};
use pq_arena::{Arena, NodeId};
use step_count::{Ledger, Steps};

// What a pass that counts found.
#[derive(Clone, Copy)]
pub enum Counted {
    // The answer.
    Answered(Settled),
    // Both end children of some Q-node showed it, so that the node may be full.
    MayFill,
    // No Q-node may be full, and two parts are left.
    TwoParts,
    // No Q-node may be full, and three parts are left.
    ThreeParts,
    // No Q-node may be full, and other parts are left.
    Open,
}

// Labels the full node `x`.
fn add<L: Ledger>(
    arena: &Arena,
    labels: &mut [u32],
    tallies: &mut [Tally],
    stamp: u32,
    x: NodeId,
    may_fill: &mut bool,
    steps: &mut Steps<L>,
) -> Added
    requires counted { AreCounted arena.now labels.old tallies.old stamp }
    requires waits { CanAdd arena.now (full_in labels.old stamp) (hits_in tallies.old stamp) x.index }
    ensures added { (row waiting : List ℕ) (n : ℕ) →
        Pass arena.now row (full_in labels.old stamp) (hits_in tallies.old stamp) (x.index ∷ waiting) n →
        IsAdded arena.now row (full_in labels.new stamp) (hits_in tallies.new stamp) waiting n result }
    ensures counted { AreCounted arena.now labels.new tallies.new stamp }
    ensures ticks { steps.new ≤ steps.old + 2 }
{
    arena.layout_law();
    let view = arena.look(x, steps);
    match place_of(&view) {
        Place::Top => Added::Top,
        Place::Run => match view.parent {
            // An inner child.
            None => Added::Run(fill_between(labels, stamp, x, view.near)),
            // An end child.
            Some(q) => {
                show(tallies, stamp, q, may_fill);
                Added::Run(fill_between(labels, stamp, x, view.near))
            }
        },
        Place::Ring(p) => {
            fill(labels, stamp, x);
            let hits = hit(tallies, stamp, p, x);
            let children = arena.look(p, steps).children;
            judged(p, hits, children)
        }
    }
}

// Labels `x` and the nodes that get full by it, with `parts` for the number of parts. Gives the answer if no other part
// is left, and none where the root is full.
fn climb<L: Ledger>(
    arena: &Arena,
    labels: &mut [u32],
    tallies: &mut [Tally],
    stamp: u32,
    x: NodeId,
    may_fill: &mut bool,
    parts: &mut usize,
    steps: &mut Steps<L>,
) -> Option<Settled>
    requires counted { AreCounted arena.now labels.old tallies.old stamp }
    requires waits { CanClimb arena.now (full_in labels.old stamp) (hits_in tallies.old stamp) x.index parts.old }
    ensures risen { (row waiting : List ℕ) →
        Pass arena.now row (full_in labels.old stamp) (hits_in tallies.old stamp) (x.index ∷ waiting) parts.old →
        IsRisen arena.now row (full_in labels.new stamp) (hits_in tallies.new stamp) waiting parts.new result }
    ensures counted { AreCounted arena.now labels.new tallies.new stamp }
    ensures ticks { steps.new + 2 * parts.new ≤ steps.old + 2 * parts.old + 2 }
{
    let mut x = x;
    loop {
        let added = add(arena, labels, tallies, stamp, x, may_fill, steps);
        match after(added, parts) {
            Next::Ended(settled) => return settled,
            Next::Above(p) => x = p,
        }
    }
}

// The pass over the row with these columns. No node has the label `stamp` before.
pub fn count<L: Ledger>(
    arena: &Arena,
    row: &[u32],
    labels: &mut [u32],
    tallies: &mut [Tally],
    stamp: u32,
    steps: &mut Steps<L>,
) -> Counted
    requires tree { IsOneTree arena.now }
    requires row { IsRow arena.now.columns row.now }
    requires ready { AreStamped labels.old tallies.old stamp (length arena.now.slots) }
    requires full { (x : ℕ) → full_in labels.old stamp x ≡ false }
    requires hits { (x : ℕ) → hits_in tallies.old stamp x ≡ 0 }
    ensures ready { AreStamped labels.new tallies.new stamp (length arena.now.slots) }
    ensures counted { IsCounted arena.now (column_leaves row.now) labels.new tallies.new stamp result }
    ensures ticks { steps.new ≤ steps.old + 4 * length row.now }
{
    arena.layout_law();
    let mut may_fill = false;
    let mut parts = row.len();
    let mut last = Settled::Open;
    for column in row {
        match climb(
            arena,
            labels,
            tallies,
            stamp,
            arena.leaf(*column),
            &mut may_fill,
            &mut parts,
            steps,
        ) {
            Some(settled) => last = settled,
            None => return Counted::Answered(Settled::Kept),
        }
    }
    if parts == 1 {
        Counted::Answered(last)
    } else if may_fill {
        Counted::MayFill
    } else if parts == 2 {
        Counted::TwoParts
    } else if parts == 3 {
        Counted::ThreeParts
    } else {
        Counted::Open
    }
}
