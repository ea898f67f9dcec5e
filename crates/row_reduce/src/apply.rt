// The chosen templates applied.
ghost use Rattle.std.specs.Prelude.{◌≡◌, ℕ, ◌+◌, ◌*◌, ◌≤◌, ◌<◌, List, take, sum_by};
ghost use Rattle.bubble_pass.specs.Pass.{node_in};
ghost use Rattle.template_model.specs.Standing.{IsReady};
ghost use Rattle.template_model.specs.Treated.{IsTreated};
ghost use Rattle.row_reduce.specs.Applying.{AreApplied};
ghost use Rattle.row_reduce.specs.Becomes.{CanApply, Becomes};
ghost use Rattle.row_reduce.specs.Decided.{labelled_at, AreChosen};
ghost use Rattle.row_reduce.specs.Still.{IsStill};

use crate::template::Template;
use bubble_pass::Work;
use pq_arena::{Arena, NodeId};
use step_count::{Ledger, Steps};
use templates_p::{apply_l1, apply_p1, apply_p2, apply_p3, apply_p4, apply_p5, apply_p6};
use templates_q::{apply_q1, apply_q2, apply_q3};

// Applies the template at the node, where it stands. The answer has the place of the node.
pub fn apply_one<L: Ledger>(
    template: Template,
    arena: &mut Arena,
    work: &mut Work,
    node: NodeId,
    steps: &mut Steps<L>,
) -> NodeId
    requires ready { IsReady arena.old work.old node.index }
    requires stands { CanApply template arena.old work.old node.index }
    ensures treated { IsTreated arena.old arena.new work.old work.new node.index result.index }
    ensures becomes { Becomes template arena.old arena.new work.old work.new node.index result.index }
    ensures still { IsStill arena.old work.old node.index → (arena.new ≡ arena.old) × (work.new ≡ work.old) }
    ensures ticks { steps.new ≤ steps.old + 2 * labelled_at work.old node.index + 15 }
{
    arena.layout_law();
    match template {
        Template::L1 => apply_l1(arena, work, node, steps),
        Template::P1 => apply_p1(arena, work, node, steps),
        Template::P2 => apply_p2(arena, work, node, steps),
        Template::P3 => apply_p3(arena, work, node, steps),
        Template::P4 => apply_p4(arena, work, node, steps),
        Template::P5 => apply_p5(arena, work, node, steps),
        Template::P6 => apply_p6(arena, work, node, steps),
        Template::Q1 => apply_q1(arena, work, node, steps),
        Template::Q2 => apply_q2(arena, work, node, steps),
        Template::Q3 => apply_q3(arena, work, node, steps),
    }
}

// As `apply_one`. A full leaf, where nothing changes, is told apart first.
fn apply_at<L: Ledger>(
    template: Template,
    arena: &mut Arena,
    work: &mut Work,
    node: NodeId,
    steps: &mut Steps<L>,
) -> NodeId
    requires ready { IsReady arena.old work.old node.index }
    requires stands { CanApply template arena.old work.old node.index }
    ensures treated { IsTreated arena.old arena.new work.old work.new node.index result.index }
    ensures becomes { Becomes template arena.old arena.new work.old work.new node.index result.index }
    ensures still { IsStill arena.old work.old node.index → (arena.new ≡ arena.old) × (work.new ≡ work.old) }
    ensures ticks { steps.new ≤ steps.old + 2 * labelled_at work.old node.index + 15 }
{
    arena.layout_law();
    match template {
        Template::L1 => apply_l1(arena, work, node, steps),
        other => apply_one(other, arena, work, node, steps),
    }
}

// Applies the templates of the first `count` labelled nodes, children first.
pub fn apply_chosen<L: Ledger>(
    arena: &mut Arena,
    work: &mut Work,
    chosen: &[Template],
    count: usize,
    steps: &mut Steps<L>,
)
    requires chosen { (row : List ℕ) × (q : ℕ) × AreChosen arena.old work.old row q chosen.now count }
    ensures applied { (row : List ℕ) (q : ℕ) → AreChosen arena.old work.old row q chosen.now count →
        (place : ℕ → ℕ) × AreApplied arena.old work.old row (take count work.old.nodes) place arena.new work.new }
    ensures still { ((i : ℕ) → i < count → IsStill arena.old work.old (node_in work.old i)) → (arena.new ≡ arena.old) × (work.new ≡ work.old) }
    ensures ticks { steps.new ≤ steps.old + sum_by (λ n. 2 * labelled_at work.old n + 15) (take count work.old.nodes) }
{
    arena.layout_law();
    for i in 0..count {
        let node = work.nodes()[i];
        apply_at(chosen[i], arena, work, node, steps);
        arena.layout_law();
    }
}
