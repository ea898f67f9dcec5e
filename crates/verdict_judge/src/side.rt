// The tests of a yes, on the order and the tree of each side.
ghost use Rattle.std.specs.Prelude.{◌≡◌, ◌↔◌, ◌+◌, ◌*◌, ◌≤◌, ℕ, List, All, length, sum_by, IsTrue, IfOk};
ghost use Rattle.column_order.specs.Orders.{IsOrder, Keeps};
ghost use Rattle.row_model.specs.Graph.{row_at};
ghost use Rattle.pq_tree.specs.Outline.{IsFrontier};
ghost use Rattle.pq_tree.specs.PqTree.{column_count, outline};
ghost use Rattle.verdict_text.specs.Grammar.{AreSides};
ghost use Rattle.verdict_text.specs.Value.{yes_value};
ghost use Rattle.verdict_text.specs.Verdict.{YesValue};
ghost use Rattle.instance_model.specs.Instance.{InstanceValue, instance_columns, derived_matrix, IsInstance, IsSideOf, IsTextbookOrder, IsWellFormed};
ghost use Rattle.instance_model.specs.Value.{instance_value};
ghost use Rattle.verdict_judge.specs.Steps.{complete_steps, side_steps, sides_steps};
ghost use Rattle.verdict_judge.specs.Tests.{complete_tests, side_tests, sides_tests};
ghost use Rattle.verdict_judge.specs.YesTests.{AllKeep, HasSide, PassesYes};
ghost use Rattle.verdict_judge.specs.Found.{IsLeastFailing, Finds};

use crate::gaps::Gaps;
use crate::outcome::Reason;
use crate::row_steps::count_rows;
use bound_tree::is_complete_counted;
use circular_ones::{circular_law, turned};
use instance_model::{Derived, Instance, textbook_law};
use pq_tree::PqTree;
use row_model::{CountedRows, Matrix, NoMemory, is_order};
use std::alloc::Global;
use step_count::{Ledger, Steps};
use verdict_text::{Version, YesPart};

/// The first test that the sides of a yes fail, one after another. Each look at their rows and at the gaps of their trees
/// is a step.
pub fn sides_fault<L: Ledger>(
    alloc: Global,
    version: Version,
    instance: &Instance,
    yes: &YesPart,
    steps: &mut Steps<L>,
) -> Result<Option<Reason>, NoMemory>
    requires instance { IsInstance (instance_value instance.now) }
    requires formed { IsWellFormed (instance_value instance.now) }
    requires sides { AreSides (instance_columns (instance_value instance.now)) (yes_value yes.now).sides }
    ensures finds { IfOk result (Finds (PassesYes (instance_value instance.now) (yes_value yes.now)) (sides_tests version (instance_value instance.now))) }
    ensures ticks { steps.new ≤ steps.old + sides_steps version (instance_value instance.now) }
{
    for before in 0..instance.sides() {
        if let Some(reason) = side_fault(alloc, version, instance, before + 1, yes, steps)? {
            return Ok(Some(reason));
        }
    }
    Ok(None)
}

// The first test that a side fails. The derived matrix is made at most once, for the order and the tree.
fn side_fault<L: Ledger>(
    alloc: Global,
    version: Version,
    instance: &Instance,
    side: u8,
    yes: &YesPart,
    steps: &mut Steps<L>,
) -> Result<Option<Reason>, NoMemory>
    requires instance { IsInstance (instance_value instance.now) }
    requires formed { IsWellFormed (instance_value instance.now) }
    requires side { IsSideOf (instance_value instance.now) side }
    requires sides { AreSides (instance_columns (instance_value instance.now)) (yes_value yes.now).sides }
    ensures finds { IfOk result (Finds (PassesYes (instance_value instance.now) (yes_value yes.now)) (side_tests version side (derived_matrix (instance_value instance.now) side))) }
    ensures ticks { steps.new ≤ steps.old + side_steps version (derived_matrix (instance_value instance.now) side) }
{
    let derived = Derived::of(alloc, instance, side)?;
    derived_fault(alloc, version, instance, side, derived.matrix(), yes, steps)
}

// The first test that a side with this derived matrix fails: its order, then its tree by each row, and in
// version 2 its tree by all rows.
fn derived_fault<L: Ledger>(
    alloc: Global,
    version: Version,
    instance: &Instance,
    side: u8,
    derived: &Matrix,
    yes: &YesPart,
    steps: &mut Steps<L>,
) -> Result<Option<Reason>, NoMemory>
    requires formed { IsWellFormed (instance_value instance.now) }
    requires side { IsSideOf (instance_value instance.now) side }
    requires derived { derived.now ≡ derived_matrix (instance_value instance.now) side }
    requires sides { AreSides (instance_columns (instance_value instance.now)) (yes_value yes.now).sides }
    ensures finds { IfOk result (Finds (PassesYes (instance_value instance.now) (yes_value yes.now)) (side_tests version side (derived_matrix (instance_value instance.now) side))) }
    ensures ticks { steps.new ≤ steps.old + side_steps version derived.now }
{
    if !is_textbook_order(alloc, instance, derived, yes.order(side), steps)? {
        return Ok(Some(Reason::Order(side)));
    }
    let tree = yes.tree(side);
    match first_broken_row(alloc, tree, derived, steps)? {
        Some(k) => Ok(Some(Reason::Tree(side, k))),
        None => complete_fault(alloc, version, side, tree, derived, steps),
    }
}

// What version 2 asks besides: whether the tree, each frontier of which keeps every row, stands for all valid orders.
fn complete_fault<L: Ledger>(
    alloc: Global,
    version: Version,
    side: u8,
    tree: &PqTree,
    derived: &Matrix,
    steps: &mut Steps<L>,
) -> Result<Option<Reason>, NoMemory>
    requires columns { column_count tree.now ≡ derived.now.columns }
    requires kept { (f : List ℕ) → IsFrontier (outline tree.now) f → All (Keeps f) derived.now.rows }
    ensures finds { IfOk result (λ found. (i : InstanceValue) (value : YesValue) →
        derived.now ≡ derived_matrix i side →
        HasSide value side (λ shown. shown.tree ≡ outline tree.now) →
        Finds (PassesYes i value) (complete_tests version side) found) }
    ensures ticks { steps.new ≤ steps.old + complete_steps version derived.now }
{
    let rows = CountedRows::new(derived);
    match version {
        Version::One => Ok(None),
        Version::Two if is_complete_counted(alloc, &rows, tree, steps)? => Ok(None),
        Version::Two => Ok(Some(Reason::Complete(side))),
    }
}

// Whether the list is a textbook order of the side with this derived matrix: whether it is an order that keeps each
// row. A circular order is turned first, so that it begins with column 1. Of each order of the columns, one that does
// not keep the rows too, each row and each one is a step.
fn is_textbook_order<L: Ledger>(
    alloc: Global,
    instance: &Instance,
    derived: &Matrix,
    order: &[u32],
    steps: &mut Steps<L>,
) -> Result<bool, NoMemory>
    requires { IsWellFormed (instance_value instance.now) }
    ensures textbook { IfOk result (λ yes. (side : ℕ) →
        IsSideOf (instance_value instance.now) side →
        derived.now ≡ derived_matrix (instance_value instance.now) side →
        IsTrue yes ↔ IsTextbookOrder (instance_value instance.now) side order.now) }
    ensures ticks { steps.new ≤ steps.old + (length derived.now.rows + sum_by length derived.now.rows) }
    ensures turns { IfOk result (λ yes. IsTrue yes →
        steps.old + (length derived.now.rows + sum_by length derived.now.rows) ≤ steps.new) }
    ensures order { IfOk result (λ _. IsOrder derived.now.columns order.now →
        steps.old + (length derived.now.rows + sum_by length derived.now.rows) ≤ steps.new) }
{
    // What the derived matrix says of the textbook orders, and rotations of circular ones.
    textbook_law();
    circular_law();
    if !is_order(alloc, derived.columns(), order)? {
        return Ok(false);
    }
    count_rows(derived, steps);
    match instance {
        Instance::Circular(_) => derived.keeps(&turned(alloc, order)?),
        _ => derived.keeps(order),
    }
}

// The first row, from 1, that some frontier of the tree does not keep.
fn first_broken_row<L: Ledger>(
    alloc: Global,
    tree: &PqTree,
    m: &Matrix,
    steps: &mut Steps<L>,
) -> Result<Option<u32>, NoMemory>
    requires { column_count tree.now ≡ m.now.columns }
    ensures least { IfOk result (IsLeastFailing (λ k. AllKeep (outline tree.now) (row_at m.now.rows k)) (length m.now.rows)) }
    ensures ticks { steps.new ≤ steps.old + (length m.now.rows + 2 * sum_by length m.now.rows) }
{
    // A matrix has few enough columns for positions.
    let _columns = m.columns();
    let gaps = Gaps::new(alloc, tree)?;
    for k in 0..m.rows() {
        if !gaps.holds(m.row(k + 1), steps) {
            return Ok(Some(k + 1));
        }
    }
    Ok(None)
}
