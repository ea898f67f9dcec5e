// The verdict on an instance.
ghost use Rattle.std.specs.Prelude.{◌≡◌, length, IfOk};
ghost use Rattle.c1p_solve.specs.Answers.{IsAnswer};
ghost use Rattle.verdict_text.specs.Verdict.{yes_claim};
ghost use Rattle.verdict_text.specs.Grammar.{IsVerdict, AreColumnCounts};
ghost use Rattle.verdict_text.specs.Value.{column_counts, yes_value, claim_of, verdict_value};
ghost use Rattle.instance_model.specs.Instance.{instance_columns, instance_kind, derived_matrix, IsInstance, IsWellFormed};
ghost use Rattle.instance_model.specs.Value.{instance_value};
ghost use Rattle.verdict_replies.specs.Verdicts.{IsClaimOf, IsVerdictOf};
ghost use Rattle.solve_replies.specs.Steps.{made_status, part_status, verdict_status, SolvesMatrixWithin, SolvesWithin};

use crate::NoMemory;
use crate::sides::solve_side;
use c1p_solve::Solved;
use instance_model::Instance;
use pq_tree::PqTree;
use row_model::Kind;
use std::alloc::Global;
use step_count::{Ledger, Steps};
use verdict_replies::{added, grammar_law, no};
use verdict_text::{Columns, Part, Verdict, Version, YesPart};

/// The verdict on an instance, of version 2: the tree of a yes stands for every order.
///
/// # Errors
///
/// `NoMemory`.
pub fn verdict_on<L: Ledger>(
    alloc: Global,
    instance: &Instance,
    steps: &mut Steps<L>,
) -> Result<Verdict, NoMemory>
    requires { IsInstance (instance_value instance.now) }
    ensures grammar { IfOk result (λ verdict. IsVerdict (verdict_value verdict)) }
    ensures holds { IfOk result (λ verdict.
        IsVerdictOf (instance_value instance.now) (verdict_value verdict)) }
    ensures steps { SolvesWithin (instance_value instance.now) (made_status verdict_status result)
        steps.old steps.new }
{
    let kind = instance.kind();
    let part = part_on(alloc, instance, steps)?;
    Ok(verdict_with(instance, kind, part))
}

/// The verdict on an instance of one side, of which the tree stands for every order.
///
/// # Errors
///
/// `NoMemory`.
pub fn yes_on(alloc: Global, instance: &Instance, tree: PqTree) -> Result<Verdict, NoMemory>
    requires judged { IsInstance (instance_value instance.now) }
    requires sides { length (instance_columns (instance_value instance.now)) ≡ 1 }
    requires orders { IsAnswer (derived_matrix (instance_value instance.now) 1) (Solved.Yes tree) }
    ensures grammar { IfOk result (λ verdict. IsVerdict (verdict_value verdict)) }
    ensures holds { IfOk result (λ verdict.
        IsVerdictOf (instance_value instance.now) (verdict_value verdict)) }
{
    let kind = instance.kind();
    let yes = one_sided(alloc, instance, tree)?;
    Ok(verdict_with(instance, kind, Part::Yes(yes)))
}

// The verdict on an instance of a kind of which this is found.
fn verdict_with(instance: &Instance, kind: Kind, part: Part) -> Verdict
    requires judged { IsInstance (instance_value instance.now) }
    requires formed { IsWellFormed (instance_value instance.now) }
    requires kind { kind ≡ instance_kind (instance_value instance.now) }
    requires claim { IsClaimOf (instance_value instance.now) (claim_of part) }
    ensures grammar { IsVerdict (verdict_value result) }
    ensures holds { IsVerdictOf (instance_value instance.now) (verdict_value result) }
    ensures status { verdict_status result ≡ part_status part }
{
    grammar_law();
    Verdict {
        version: Version::Two,
        kind,
        columns: columns_of(instance),
        part,
    }
}

// The number of columns of each side.
fn columns_of(instance: &Instance) -> Columns
    requires { IsInstance (instance_value instance.now) }
    ensures columns { column_counts result ≡ instance_columns (instance_value instance.now) }
    ensures counts { AreColumnCounts (column_counts result) }
{
    match instance {
        Instance::Plain(_, m) => Columns::One(m.columns()),
        Instance::Circular(m) => Columns::One(m.columns()),
        Instance::Convex(graph) => Columns::One(graph.right()),
        Instance::Doubly(graph) => Columns::Two(graph.right(), graph.left()),
        Instance::Proper(graph) => Columns::One(graph.vertices()),
        Instance::Robinson(distances) => Columns::One(distances.items()),
    }
}

// What is found of an instance. A second side is solved only where the first has an order.
fn part_on<L: Ledger>(
    alloc: Global,
    instance: &Instance,
    steps: &mut Steps<L>,
) -> Result<Part, NoMemory>
    requires judged { IsInstance (instance_value instance.now) }
    requires formed { IsWellFormed (instance_value instance.now) }
    ensures claim { IfOk result (λ part. IsClaimOf (instance_value instance.now) (claim_of part)) }
    ensures steps { SolvesWithin (instance_value instance.now) (made_status part_status result)
        steps.old steps.new }
{
    match solve_side(alloc, instance, 1, steps)? {
        Solved::No(cycle) => Ok(Part::No(no(1, cycle))),
        Solved::Yes(tree) if instance.sides() == 1 => {
            Ok(Part::Yes(one_sided(alloc, instance, tree)?))
        }
        Solved::Yes(tree) => two_sided(alloc, instance, tree, steps),
    }
}

// A yes with the tree of all orders of the only side, its leaves from left to right, and what the kind adds to them.
fn one_sided(alloc: Global, instance: &Instance, tree: PqTree) -> Result<YesPart, NoMemory>
    requires formed { IsWellFormed (instance_value instance.now) }
    requires sides { length (instance_columns (instance_value instance.now)) ≡ 1 }
    requires orders { IsAnswer (derived_matrix (instance_value instance.now) 1) (Solved.Yes tree) }
    ensures { IfOk result (λ yes.
        IsClaimOf (instance_value instance.now) (yes_claim (yes_value yes))) }
{
    let order = tree.frontier(alloc)?;
    let added = added(alloc, instance, &order)?;
    Ok(YesPart::one(
        tree,
        order,
        added.intervals,
        added.placed.places,
        added.placed.contigs,
    ))
}

// What is found of an instance of two sides, of which the first has the orders of a tree.
fn two_sided<L: Ledger>(
    alloc: Global,
    instance: &Instance,
    first: PqTree,
    steps: &mut Steps<L>,
) -> Result<Part, NoMemory>
    requires judged { IsInstance (instance_value instance.now) }
    requires sides { length (instance_columns (instance_value instance.now)) ≡ 2 }
    requires orders { IsAnswer (derived_matrix (instance_value instance.now) 1) (Solved.Yes first) }
    ensures claim { IfOk result (λ part. IsClaimOf (instance_value instance.now) (claim_of part)) }
    ensures steps { SolvesMatrixWithin (derived_matrix (instance_value instance.now) 2)
        (made_status part_status result) steps.old steps.new }
{
    match solve_side(alloc, instance, 2, steps)? {
        Solved::No(cycle) => Ok(Part::No(no(2, cycle))),
        Solved::Yes(second) => {
            let first_order = first.frontier(alloc)?;
            let second_order = second.frontier(alloc)?;
            Ok(Part::Yes(YesPart::two(first, first_order, second, second_order)))
        }
    }
}
