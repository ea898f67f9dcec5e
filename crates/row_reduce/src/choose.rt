// Which template stands at a node.
ghost use Rattle.std.specs.Prelude.{◌≡◌, ℕ, ◌+◌, ◌*◌, ◌≤◌, true, false, Some};
ghost use Rattle.arena_model.specs.declared.Shape.TheVariants.{Leaf, P, Q};
ghost use Rattle.arena_model.specs.Layout.{shape_at};
ghost use Rattle.template_model.specs.Standing.{IsReady};
ghost use Rattle.row_reduce.specs.Fits.{IsChoice};
ghost use Rattle.row_reduce.specs.Asked.{asked, asked_p, asked_q};
ghost use Rattle.row_reduce.specs.Decided.{labelled_at};

use crate::template::Template;
use bubble_pass::Work;
use pq_arena::{Arena, NodeId, Shape};
use step_count::{Ledger, Steps};
use templates_p::{fits_l1, fits_p1, fits_p2, fits_p3, fits_p4, fits_p5, fits_p6};
use templates_q::{fits_q1, fits_q2, fits_q3};

// The template that stands at the node. A pattern is asked at most once, and only where the node has its shape.
pub fn choose<L: Ledger>(
    arena: &Arena,
    work: &Work,
    node: NodeId,
    root: bool,
    steps: &mut Steps<L>,
) -> Option<Template>
    requires ready { IsReady arena.now work.now node.index }
    requires outside { root ≡ true → work.now.inside ≡ false }
    ensures choice { IsChoice arena.now work.now node.index root result }
    ensures ticks { steps.new ≤ steps.old + 1 + 4 * asked (shape_at arena.now node.index) result * (labelled_at work.now node.index + 1) }
    ensures few { steps.new ≤ steps.old + 7 * (labelled_at work.now node.index + 1) }
{
    match arena.look(node, steps).shape {
        Shape::Leaf(_) => choose_leaf(arena, work, node, root, steps),
        Shape::P => choose_p(arena, work, node, root, steps),
        Shape::Q => choose_q(arena, work, node, root, steps),
    }
}

// Of a leaf: L1.
fn choose_leaf<L: Ledger>(
    arena: &Arena,
    work: &Work,
    node: NodeId,
    root: bool,
    steps: &mut Steps<L>,
) -> Option<Template>
    requires ready { IsReady arena.now work.now node.index }
    requires leaf { (a : ℕ) × (shape_at arena.now node.index ≡ Some (Leaf a)) }
    ensures choice { IsChoice arena.now work.now node.index root result }
    ensures ticks { steps.new ≡ steps.old + 1 }
{
    if fits_l1(arena, work, node, root, steps) {
        Some(Template::L1)
    } else {
        None
    }
}

// Of a P-node: P1 to P6.
fn choose_p<L: Ledger>(
    arena: &Arena,
    work: &Work,
    node: NodeId,
    root: bool,
    steps: &mut Steps<L>,
) -> Option<Template>
    requires ready { IsReady arena.now work.now node.index }
    requires p { shape_at arena.now node.index ≡ Some P }
    ensures choice { IsChoice arena.now work.now node.index root result }
    ensures ticks { steps.new ≡ steps.old + asked_p result }
    ensures few { steps.new ≤ steps.old + 6 }
{
    if fits_p1(arena, work, node, root, steps) {
        return Some(Template::P1);
    }
    if fits_p2(arena, work, node, root, steps) {
        return Some(Template::P2);
    }
    if fits_p3(arena, work, node, root, steps) {
        return Some(Template::P3);
    }
    if fits_p4(arena, work, node, root, steps) {
        return Some(Template::P4);
    }
    if fits_p5(arena, work, node, root, steps) {
        return Some(Template::P5);
    }
    if fits_p6(arena, work, node, root, steps) {
        return Some(Template::P6);
    }
    None
}

// Of a Q-node: Q1 to Q3.
fn choose_q<L: Ledger>(
    arena: &Arena,
    work: &Work,
    node: NodeId,
    root: bool,
    steps: &mut Steps<L>,
) -> Option<Template>
    requires ready { IsReady arena.now work.now node.index }
    requires q { shape_at arena.now node.index ≡ Some Q }
    requires outside { root ≡ true → work.now.inside ≡ false }
    ensures choice { IsChoice arena.now work.now node.index root result }
    ensures ticks { steps.new ≤ steps.old + 4 * asked_q result * (labelled_at work.now node.index + 1) }
    ensures few { steps.new ≤ steps.old + 7 * labelled_at work.now node.index + 3 }
{
    if fits_q1(arena, work, node, root, steps) {
        return Some(Template::Q1);
    }
    if fits_q2(arena, work, node, root, steps) {
        return Some(Template::Q2);
    }
    if fits_q3(arena, work, node, root, steps) {
        return Some(Template::Q3);
    }
    None
}
