// One row over an arena.
ghost use Rattle.std.specs.Prelude.{◌≡◌, ◌≢◌, ℕ, ◌+◌, ◌*◌, ◌≤◌, List, [], length};
ghost use Rattle.row_model.specs.Graph.{row_at};
ghost use Rattle.pq_tree.specs.Amortised.{nodes_met, nodes_met_below_root};
ghost use Rattle.arena_model.specs.NamedTree.{IsOneTree, HasTwoEach, outline_at};
ghost use Rattle.pq_arena.specs.RowNodes.{column_leaves, indices};
ghost use Rattle.full_pass.specs.Answer.{IsRowKept};
ghost use Rattle.bubble_pass.specs.Marks.{size_of};
ghost use Rattle.row_reduce.specs.Outcome.{CanTakeRow, IsOutcome, AtFoundBetween, AtFoundRoot, AtFoundInside};

use crate::apply::{apply_chosen, apply_one};
use crate::decide::decide;
use crate::template::Template;
use bubble_pass::{Found, Work, bubble, met_law};
use full_pass::{End, FullWork, Settled, settle};
use pq_arena::{Arena, NodeId};
use row_model::Matrix;
use step_count::{Ledger, Steps};
use templates_p::{apply_p2_to, divide};
use templates_q::{apply_q3, fits_q3};
use tree_theory::{Step, reduce_law, turned_law};

// Reduces the tree of the arena by row `k` of the matrix, numbered from 1, or leaves it as it is where
// no template stands at some node. Most rows of a long list change nothing, or one or two P-nodes, and the
// full pass sees that at less cost.
pub fn reduce_arena<L: Ledger>(
    arena: &mut Arena,
    full: &mut FullWork,
    work: &mut Work,
    chosen: &mut [Template],
    m: &Matrix,
    k: u32,
    steps: &mut Steps<L>,
) -> Step
    requires tree { CanTakeRow arena.old m.now.columns m.now.rows k }
    requires room { size_of work.old ≡ length arena.old.slots }
    requires chosen { length chosen.old ≡ length arena.old.slots }
    requires full { full.old.size ≡ length arena.old.slots }
    ensures outcome { IsOutcome (row_at m.now.rows k) arena.old arena.new result }
    ensures room { size_of work.new ≡ size_of work.old }
    ensures full { full.new.size ≡ full.old.size }
    ensures ticks { steps.new ≤ steps.old + 256 * (nodes_met (row_at m.now.rows k) (outline_at arena.old) + 1) }
    ensures below { result ≡ Step.Taken →
        steps.new ≤ steps.old + 4 * length (row_at m.now.rows k) + 252 * (nodes_met_below_root (row_at m.now.rows k) (outline_at arena.old) + 1) }
    ensures few { steps.new ≤ steps.old + 8 * length (row_at m.now.rows k) + 36 * nodes_met (row_at m.now.rows k) (outline_at arena.old) + 6 }
    ensures root_few { result ≡ Step.Taken →
        steps.new ≤ steps.old + 8 * length (row_at m.now.rows k) + 38 * nodes_met_below_root (row_at m.now.rows k) (outline_at arena.old) + 8 }
    ensures empty { row_at m.now.rows k ≡ [] → (result ≡ Step.Taken) × (arena.new ≡ arena.old) × (steps.new ≡ steps.old) }
    ensures kept { IsRowKept arena.old (column_leaves (row_at m.now.rows k)) → (result ≡ Step.Taken) × (arena.new ≡ arena.old) }
{
    arena.layout_law();
    arena.arities_law();
    met_law();
    if m.row(k).is_empty() {
        return Step::Taken;
    }
    match settle(arena, m, k, full, steps) {
        Settled::Kept => Step::Taken,
        Settled::Group(node) => {
            turned_law();
            apply_p2_to(arena, node, full.members(), steps);
            arena.layout_law();
            Step::Taken
        }
        Settled::Beside(end) => {
            turned_law();
            divide(arena, end.node, full.members(), end.beside, steps);
            arena.layout_law();
            Step::Taken
        }
        Settled::Between(first, second) => {
            divide_both(arena, full, first, second, steps);
            Step::Taken
        }
        Settled::Open => reduce_by_templates(arena, work, chosen, m, k, steps),
    }
}

// Reduces the tree by a row that fills a run of children of a Q-node, and a part of the P-node beside each end of it.
fn divide_both<L: Ledger>(
    arena: &mut Arena,
    full: &FullWork,
    first: End,
    second: End,
    steps: &mut Steps<L>,
)
    requires one { IsOneTree arena.old }
    requires two { HasTwoEach arena.old }
    requires found { (row : List ℕ) × AtFoundBetween arena.old row first (indices full.now.members) second (indices full.now.others) }
    ensures outcome { (row : List ℕ) → AtFoundBetween arena.old row first (indices full.now.members) second (indices full.now.others) →
        IsOutcome row arena.old arena.new Step.Taken }
    ensures ticks { steps.new ≤ steps.old + 2 * (length full.now.members + length full.now.others) + 24 }
{
    turned_law();
    arena.layout_law();
    divide(arena, first.node, full.members(), first.beside, steps);
    arena.layout_law();
    divide(arena, second.node, full.others(), second.beside, steps);
    arena.layout_law();
}

// Reduces the tree by a row that has a column, by the templates at all nodes that the row meets.
fn reduce_by_templates<L: Ledger>(
    arena: &mut Arena,
    work: &mut Work,
    chosen: &mut [Template],
    m: &Matrix,
    k: u32,
    steps: &mut Steps<L>,
) -> Step
    requires tree { CanTakeRow arena.old m.now.columns m.now.rows k }
    requires room { size_of work.old ≡ length arena.old.slots }
    requires chosen { length chosen.old ≡ length arena.old.slots }
    requires some { row_at m.now.rows k ≢ [] }
    ensures outcome { IsOutcome (row_at m.now.rows k) arena.old arena.new result }
    ensures room { size_of work.new ≡ size_of work.old }
    ensures kept { IsRowKept arena.old (column_leaves (row_at m.now.rows k)) → (result ≡ Step.Taken) × (arena.new ≡ arena.old) }
    ensures ticks { steps.new ≤ steps.old + 36 * nodes_met (row_at m.now.rows k) (outline_at arena.old) + 6 }
    ensures below { result ≡ Step.Taken →
        steps.new ≤ steps.old + 38 * nodes_met_below_root (row_at m.now.rows k) (outline_at arena.old) + 8 }
{
    arena.layout_law();
    arena.arities_law();
    reduce_law();
    met_law();
    let _row = m.row(k);
    match bubble(arena, m, k, work, steps) {
        Found::Root(root) => reduce_root(arena, work, chosen, root, steps),
        Found::Inside => reduce_inside(arena, work, chosen, steps),
        Found::Split => Step::Refused,
    }
}

// Reduces the tree where the pertinent root is known.
fn reduce_root<L: Ledger>(
    arena: &mut Arena,
    work: &mut Work,
    chosen: &mut [Template],
    root: NodeId,
    steps: &mut Steps<L>,
) -> Step
    requires found { (row : List ℕ) × AtFoundRoot arena.old work.old row root.index }
    requires chosen { length work.old.nodes ≤ length chosen.old }
    ensures outcome { (row : List ℕ) → AtFoundRoot arena.old work.old row root.index → IsOutcome row arena.old arena.new result }
    ensures kept { (row : List ℕ) → AtFoundRoot arena.old work.old row root.index → IsRowKept arena.old (column_leaves row) → arena.new ≡ arena.old }
    ensures room { size_of work.new ≡ size_of work.old }
    ensures ticks { steps.new ≤ steps.old + 31 * length work.old.nodes }
{
    if !decide(arena, work, Some(root), chosen, steps) {
        return Step::Refused;
    }
    turned_law();
    let last = work.nodes().len() - 1;
    apply_chosen(arena, work, chosen, last, steps);
    arena.layout_law();
    apply_one(chosen[last], arena, work, root, steps);
    arena.layout_law();
    Step::Taken
}

// Reduces the tree where the row stands in a run of inner children of a Q-node.
fn reduce_inside<L: Ledger>(
    arena: &mut Arena,
    work: &mut Work,
    chosen: &mut [Template],
    steps: &mut Steps<L>,
) -> Step
    requires found { (row : List ℕ) × AtFoundInside arena.old work.old row }
    requires chosen { length work.old.nodes ≤ length chosen.old }
    ensures outcome { (row : List ℕ) → AtFoundInside arena.old work.old row → IsOutcome row arena.old arena.new result }
    ensures kept { (row : List ℕ) → AtFoundInside arena.old work.old row → IsRowKept arena.old (column_leaves row) → arena.new ≡ arena.old }
    ensures room { size_of work.new ≡ size_of work.old }
    ensures ticks { steps.new ≤ steps.old + 31 * length work.old.nodes + 6 }
{
    let nodes = work.nodes();
    let last = nodes.len() - 1;
    let node = nodes[last];
    if !decide(arena, work, None, chosen, steps) {
        return Step::Refused;
    }
    if !fits_q3(arena, work, node, true, steps) {
        return Step::Refused;
    }
    turned_law();
    apply_chosen(arena, work, chosen, last, steps);
    arena.layout_law();
    let child = apply_one(chosen[last], arena, work, node, steps);
    arena.layout_law();
    apply_q3(arena, work, child, steps);
    arena.layout_law();
    Step::Taken
}
