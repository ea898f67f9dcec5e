// The tree that is asked. Each condition of a call is tested before it.
ghost use Rattle.std.specs.Prelude.{◌≡◌, IsTrue, IfOk};
ghost use Rattle.arena_model.specs.Layout.{IsInUse, IsAtOrAbove};
ghost use Rattle.arena_model.specs.NamedTree.{IsOneTree, HasTwoEach};

use crate::rows::COLUMNS;
use pq_arena::{Arena, NoMemory, NodeId, Shape};
use std::alloc::Global;
use step_count::{Ledger, Steps};

/// Why nothing is asked.
#[derive(Drop)]
pub enum Failure {
    /// Memory is refused.
    NoMemory,
    /// The tree doesn't have the form that a call asks for.
    OtherForm,
}

impl From<NoMemory> for Failure {
    fn from(_: NoMemory) -> Failure {
        Failure::NoMemory
    }
}

/// One Q-node over all columns in rising order.
pub fn line<L: Ledger>(alloc: Global, steps: &mut Steps<L>) -> Result<Arena, Failure>
    ensures one { IfOk result (λ a. IsOneTree a) }
    ensures two { IfOk result (λ a. HasTwoEach a) }
    ensures columns { IfOk result (λ a. a.columns ≡ COLUMNS) }
{
    let mut arena = Arena::new(alloc, COLUMNS)?;
    if arena.spare() == 0 {
        return Err(Failure::OtherForm);
    }
    let q = arena.take(Shape::Q, steps);
    for column in 1..=COLUMNS {
        move_leaf(&mut arena, q, column, steps)?;
    }
    crown(&mut arena, q, steps)?;
    if !arena.is_one_tree() || !arena.has_two_each() || arena.columns() != COLUMNS {
        return Err(Failure::OtherForm);
    }
    Ok(arena)
}

// Moves the leaf of a column from its P-node to the end of the Q-node `q`.
fn move_leaf<L: Ledger>(
    arena: &mut Arena,
    q: NodeId,
    column: u32,
    steps: &mut Steps<L>,
) -> Result<(), Failure> {
    if column == 0 || column > arena.columns() {
        return Err(Failure::OtherForm);
    }
    let n = arena.leaf(column);
    if !arena.is_child_of_p(n, steps) {
        return Err(Failure::OtherForm);
    }
    arena.detach(n, steps);
    if !arena.stands_alone(n, steps) || !is_apart(arena, q, n, steps) {
        return Err(Failure::OtherForm);
    }
    match arena.look(q, steps).shape {
        Shape::Q => {
            arena.put_end(q, 1, n, steps);
            Ok(())
        }
        Shape::P | Shape::Leaf(_) => Err(Failure::OtherForm),
    }
}

// Puts `q` in the place of the root, which has no children any more, and gives the root back.
fn crown<L: Ledger>(arena: &mut Arena, q: NodeId, steps: &mut Steps<L>) -> Result<(), Failure> {
    let root = arena.root();
    if !arena.stands_alone(q, steps) || !is_apart(arena, root, q, steps) {
        return Err(Failure::OtherForm);
    }
    arena.replace(root, q, steps);
    if !arena.stands_alone(root, steps) {
        return Err(Failure::OtherForm);
    }
    let view = arena.look(root, steps);
    match view.shape {
        Shape::P if view.children == 0 => {
            arena.give_back(root, steps);
            Ok(())
        }
        _ => Err(Failure::OtherForm),
    }
}

// Whether `p` has no node above it and is not `n`, so that `n` isn't above it.
fn is_apart<L: Ledger>(arena: &Arena, p: NodeId, n: NodeId, steps: &mut Steps<L>) -> bool
    ensures { IsTrue result → IsInUse arena.now p.index × (IsAtOrAbove arena.now.slots n.index p.index → ⊥) }
{
    if n.index() == p.index() {
        return false;
    }
    arena.is_top(p, steps)
}
