// All tests of a verdict, in their order.
ghost use Rattle.std.specs.Prelude.{◌≡◌, ◌↔◌, ◌+◌, ◌*◌, ◌≤◌, length, IsTrue, IfOk};
ghost use Rattle.text_parts.specs.Grammar.{Fits32};
ghost use Rattle.verdict_text.specs.Grammar.{IsClaim, IsVerdict};
ghost use Rattle.verdict_text.specs.Verdict.{yes_claim};
ghost use Rattle.verdict_text.specs.Value.{column_counts, yes_value, verdict_value};
ghost use Rattle.instance_model.specs.Instance.{instance_kind, instance_columns, derived_matrix, IsInstance, IsSideOf, IsWellFormed};
ghost use Rattle.instance_model.specs.Value.{instance_value};
ghost use Rattle.verdict_judge.specs.Steps.{sides_steps, verdict_steps};
ghost use Rattle.verdict_judge.specs.Tests.{tests, yes_tests, no_tests};
ghost use Rattle.verdict_judge.specs.YesTests.{PassesYes};
ghost use Rattle.verdict_judge.specs.NoTests.{PassesNo};
ghost use Rattle.verdict_judge.specs.Accepted.{Passes};
ghost use Rattle.verdict_judge.specs.Found.{Finds};

use crate::added::added_fault;
use crate::cycle::cycle_fault;
use crate::outcome::Reason;
use crate::side::sides_fault;
use instance_model::{Derived, Instance};
use row_model::{Kind, NoMemory};
use std::alloc::Global;
use step_count::{Ledger, Steps};
use verdict_text::{Columns, NoPart, Part, Verdict, Version, YesPart};

/// The first test that the verdict fails.
pub fn first_failing<L: Ledger>(
    alloc: Global,
    instance: &Instance,
    v: &Verdict,
    steps: &mut Steps<L>,
) -> Result<Option<Reason>, NoMemory>
    requires instance { IsInstance (instance_value instance.now) }
    requires verdict { IsVerdict (verdict_value v.now) }
    ensures finds { IfOk result (Finds (Passes (instance_value instance.now) (verdict_value v.now)) (tests (instance_value instance.now) (verdict_value v.now))) }
    ensures ticks { steps.new ≤ steps.old + verdict_steps (instance_value instance.now) (verdict_value v.now) }
{
    if !has_kind(instance, v.kind) {
        return Ok(Some(Reason::Kind));
    }
    if !has_columns(instance, v.columns) {
        return Ok(Some(Reason::Columns));
    }
    match &v.part {
        Part::Yes(yes) => yes_fault(alloc, v.version, instance, yes, steps),
        Part::No(no) => no_fault(alloc, instance, no, steps),
    }
}

// Whether this is the kind of the instance.
fn has_kind(instance: &Instance, kind: Kind) -> bool
    ensures kind { IsTrue result ↔ (kind ≡ instance_kind (instance_value instance.now)) }
    ensures formed { IsWellFormed (instance_value instance.now) }
{
    kind == instance.kind()
}

// Whether these are the columns of the instance, side by side.
fn has_columns(instance: &Instance, columns: Columns) -> bool
    ensures { IsTrue result ↔ (column_counts columns ≡ instance_columns (instance_value instance.now)) }
{
    match columns {
        Columns::One(c) => instance.sides() == 1 && c == instance.columns(1),
        Columns::Two(c, d) => {
            instance.sides() == 2 && c == instance.columns(1) && d == instance.columns(2)
        }
    }
}

// The first test that a yes of the instance's kind and columns fails.
fn yes_fault<L: Ledger>(
    alloc: Global,
    version: Version,
    instance: &Instance,
    yes: &YesPart,
    steps: &mut Steps<L>,
) -> Result<Option<Reason>, NoMemory>
    requires instance { IsInstance (instance_value instance.now) }
    requires formed { IsWellFormed (instance_value instance.now) }
    requires claim { IsClaim (instance_kind (instance_value instance.now)) (instance_columns (instance_value instance.now)) (yes_claim (yes_value yes.now)) }
    ensures finds { IfOk result (Finds (PassesYes (instance_value instance.now) (yes_value yes.now)) (yes_tests version (instance_value instance.now))) }
    ensures ticks { steps.new ≤ steps.old + sides_steps version (instance_value instance.now) }
{
    match sides_fault(alloc, version, instance, yes, steps)? {
        Some(reason) => Ok(Some(reason)),
        None => added_fault(alloc, instance, yes),
    }
}

// The first test that a no of the instance's kind and columns fails.
fn no_fault<L: Ledger>(
    alloc: Global,
    instance: &Instance,
    no: &NoPart,
    steps: &mut Steps<L>,
) -> Result<Option<Reason>, NoMemory>
    requires instance { IsInstance (instance_value instance.now) }
    requires side { IsSideOf (instance_value instance.now) no.now.side }
    requires lines { Fits32 (length no.now.lines) }
    ensures finds { IfOk result (Finds (PassesNo (derived_matrix (instance_value instance.now) no.now.side) no.now.lines) (no_tests (length no.now.lines))) }
    ensures ticks { steps.new ≤ steps.old + 3 * length no.now.lines }
{
    let derived = Derived::of(alloc, instance, no.side)?;
    cycle_fault(alloc, derived.matrix(), no.lines.as_slice(), steps)
}
