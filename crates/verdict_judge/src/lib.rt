//! The judge of verdicts: whether a verdict is to be believed of an instance.
//!
//! The judge neither reduces nor searches for an order or a cycle. It goes through these tests in their order, and
//! gives the first that fails as its reason.
//!
//! | Reason | What the test asks |
//! |---|---|
//! | `Kind` | the kind of the verdict is that of the instance |
//! | `Columns` | its numbers of columns are those of the instance, side by side |
//! | `Order(S)` | yes: the order of side S is a textbook order of that side |
//! | `Tree(S, K)` | yes: each frontier of the tree of side S keeps row K of the side's derived matrix; K is the least that fails |
//! | `Complete(S)` | yes, version 2: the tree of side S is tied to all rows of the side's derived matrix |
//! | `Intervals` | yes, `proper`: the intervals fit the graph |
//! | `Places` | yes, `clones`: the places are those of the clones in the order |
//! | `Contigs` | yes, `clones`: the contigs are those of the clones in the order, from left to right |
//! | `Length(L)` | no: the number L of lines is odd and at least 3 |
//! | `Pair(I)` | no: line I has two distinct columns of the side; I is the least that fails |
//! | `Repeat(I)` | no: the pair of line I stands on no earlier line; I is the least that fails |
//! | `Join(I)` | no: the reason of line I joins its pair to that of the next line, and the last line's to that of the first, in the derived matrix of the side; I is the least that fails |
//!
//! A verdict of version 1 is judged by its own meaning, in which a tree may stand for some of the orders. What it means
//! that a tree is tied to rows is said in `tied_law`: its frontiers are then exactly their valid orders.
//!
//! All nine kinds are judged. `doubly` has two sides, and `Order(1)`, `Tree(1, K)`, `Complete(1)`, `Order(2)`,
//! `Tree(2, K)` and `Complete(2)` follow one another; every other kind has one side. `instance_model` says what
//! the textbook orders and the derived matrix of each kind are. A textbook order is tested by the derived matrix,
//! whose valid orders are the textbook orders; of `circular` that is the rotation of the order which begins with
//! column 1. A tree is tested by the derived rows too, which for `circular` is stricter than to ask that each
//! frontier be a circular order.
//!
//! A unit model of a graph, which is no verdict, has a judge of its own, [`check_unit`].
//!
//! `check_core` judges the text of a core of a matrix by its own tests, in the same way.
//!
//! | Reason | What the test asks |
//! |---|---|
//! | `Kind` | the kind of the text is that of the matrix |
//! | `Columns` | its number of columns is that of the matrix |
//! | `Rows` | its rows are rows of the matrix, in strictly ascending order |
//! | `Order(R)` | the order of row R is a valid order of the other rows; R is the least that fails |
//! | `Length(L)`, `Pair(I)`, `Repeat(I)` | as of a no, in the matrix |
//! | `Join(I)` | the reason of line I is a flip or a row of the core, and joins as of a no; I is the least that fails |
//!
//! A verdict that passes each test is true: a yes because its orders are textbook orders, in version 2 all of them, a
//! no because a closed walk of odd length in the incompatibility graph leaves no valid order (McConnell, 2004).
#![tactic(auto)]

ghost use Rattle.std.specs.Prelude.{◌≡◌, ◌↔◌, ◌+◌, ◌<◌, ◌≤◌, IfOk};
ghost use Rattle.verdict_text.specs.Grammar.{IsVerdict};
ghost use Rattle.verdict_text.specs.Value.{verdict_value};
ghost use Rattle.instance_model.specs.Instance.{IsInstance};
ghost use Rattle.instance_model.specs.Value.{instance_value};
ghost use Rattle.verdict_judge.specs.Accepted.{IsAccepted, FailsFirst};
ghost use Rattle.verdict_judge.specs.Checks.{IsCheckOf};
ghost use Rattle.verdict_judge.specs.Steps.{verdict_steps};
ghost use Rattle.verdict_judge.specs.Truth.{IsTrueVerdict};
ghost use Rattle.verdict_judge.specs.Laws.{TrueLaw, YesLaw, NoLaw};
ghost use Rattle.verdict_judge.specs.Exact.{IsLinear, IsYesFor, TrueYesLaw, CompleteLaw};
ghost use Rattle.verdict_judge.specs.declared.outcome.Reason.{Reason};
ghost use Rattle.verdict_judge.specs.declared.outcome.Checked.TheVariants.{Valid, Invalid};

mod added;
mod chains;
mod clones;
mod core_check;
mod core_outcome;
mod cycle;
mod gaps;
mod holds;
mod intervals;
mod judge;
mod outcome;
mod repeats;
mod row_steps;
mod side;
mod unit;

pub use core_check::{check_core, core_laws};
pub use core_outcome::{CoreChecked, CoreReason};
pub use holds::{holds_law, tree_holds};
pub use instance_model::Instance;
use instance_model::textbook_law;
use judge::first_failing;
pub use outcome::{Checked, Reason};
pub use row_model::NoMemory;
use std::alloc::Global;
use step_count::{Blank, Brand, Ledger, Steps};
use tree_theory::{exact_law, tied_law};
pub use unit::{UnitChecked, check_unit};
use verdict_text::Verdict;

/// Judges a verdict: valid exactly where it passes each test, else invalid with the first that fails.
///
/// The instance is within the limits of files, and the verdict within the grammar.
///
/// # Errors
///
/// `NoMemory`.
pub fn check(alloc: Global, instance: &Instance, v: &Verdict) -> Result<Checked, NoMemory>
    requires instance { IsInstance (instance_value instance.now) }
    requires verdict { IsVerdict (verdict_value v.now) }
    ensures valid { IfOk result (λ checked. (checked ≡ Valid) ↔ IsAccepted (instance_value instance.now) (verdict_value v.now)) }
    ensures invalid { IfOk result (λ checked. (r : Reason) → (checked ≡ Invalid r) ↔ FailsFirst (instance_value instance.now) (verdict_value v.now) r) }
    // Of a yes: it is valid exactly where it is true.
    ensures exact { IfOk result (λ checked. IsLinear (instance_value instance.now) → IsYesFor (instance_value instance.now) (verdict_value v.now)
        → (checked ≡ Valid) ↔ IsTrueVerdict (instance_value instance.now) (verdict_value v.now)) }
{
    check_by::<Brand>(alloc, instance, v, Blank::new(1))
}

// The same, with a counter that begins at the blank. Nobody looks at its count.
fn check_by<L: Ledger>(
    alloc: Global,
    instance: &Instance,
    v: &Verdict,
    blank: Blank,
) -> Result<Checked, NoMemory>
    requires name { blank.name ≡ L.name }
    requires parts { blank.parts ≡ L.parts }
    requires some { 0 < blank.parts }
    requires instance { IsInstance (instance_value instance.now) }
    requires verdict { IsVerdict (verdict_value v.now) }
    ensures { IfOk result (IsCheckOf (instance_value instance.now) (verdict_value v.now)) }
{
    let mut steps = Steps::<L>::new(blank);
    check_counted(alloc, instance, v, &mut steps)
}

/// The same as [`check`], on a counter that is lent: each look at a derived row, at a gap between leaves of a tree and
/// for a line of a cycle is a step.
///
/// Of a side with r derived rows that have f ones, a yes takes at most 3(r + f) steps for its order and its tree by each
/// row. In version 2 it takes at most f + 2c² more for its tree by all rows, c being the number of columns. A no takes at
/// most three steps for each line. What makes the derived rows, reads an order or a tree, sorts, looks for a pair that
/// comes twice, or compares intervals, places and contigs counts none.
///
/// # Errors
///
/// `NoMemory`, as of [`check`].
pub fn check_counted<L: Ledger>(
    alloc: Global,
    instance: &Instance,
    v: &Verdict,
    steps: &mut Steps<L>,
) -> Result<Checked, NoMemory>
    requires instance { IsInstance (instance_value instance.now) }
    requires verdict { IsVerdict (verdict_value v.now) }
    ensures judged { IfOk result (IsCheckOf (instance_value instance.now) (verdict_value v.now)) }
    ensures ticks { steps.new ≤ steps.old + verdict_steps (instance_value instance.now) (verdict_value v.now) }
{
    true_law();
    exact_laws();
    // An instance is what its type says.
    let _kind = instance.kind();
    match first_failing(alloc, instance, v, steps)? {
        None => Ok(Checked::Valid),
        Some(reason) => Ok(Checked::Invalid(reason)),
    }
}

/// A verdict that passes each test is true of the instance.
///
/// The textbook orders of a yes are shown by its order and its tree, and in version 2 that they are all of them by
/// walks in the incompatibility graph, which tie the tree to the derived rows. A no is shown by its cycle, since a
/// closed walk of odd length in the incompatibility graph leaves no valid order of the derived matrix (McConnell,
/// 2004), and so no textbook order.
pub fn true_law()
    ensures { TrueLaw }
{
    textbook_law();
    tied_law();
}

/// A yes that is true of an instance of any kind but a circular one is accepted; and of a tree that fits the derived rows
/// the test `Complete` asks neither more nor less than that it has every textbook order.
///
/// That a tree whose frontiers are exactly the valid orders is tied to the rows is a law of `exact_tree`.
pub fn exact_laws()
    ensures true_yes { TrueYesLaw }
    ensures complete { CompleteLaw }
{
    textbook_law();
    tied_law();
    exact_law();
}

/// What a solver finds passes each test: textbook orders with a tree whose frontiers keep the derived rows, which in
/// version 2 is tied to them, or an odd cycle.
pub fn solved_laws()
    ensures yes { YesLaw }
    ensures no { NoLaw }
{}
