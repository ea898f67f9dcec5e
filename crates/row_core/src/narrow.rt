// Fewer rows that are to blame, until none of them can be left out.
ghost use Rattle.std.specs.Prelude.{◌≡◌, ◌+◌, ◌-◌, ◌≤◌, ℕ, IfOk, IsTrue, length};
ghost use Rattle.row_judge.specs.Costs.{AreJudgements};
ghost use Rattle.row_core.specs.Blamed.{IsBlamed, IsNarrowed, AreNeeded};

use crate::blamed::Blamed;
use crate::part::{Finding, judged, push_leaves, rotated_without};
use core_text::Orders;
use row_judge::Judge;
use row_model::{Lines, Matrix, NoMemory};
use std::alloc::Global;
use step_count::{Ledger, Steps};

/// Rows that are to blame, of which none is still to be left out.
#[derive(Drop)]
pub struct Narrowed {
    /// The rows, from 1, in strictly ascending order.
    pub rows: Vec<u32>,
    /// The lines of an odd cycle that has no other rows as reasons.
    pub lines: Lines,
    /// How many orders there are.
    pub told: usize,
    /// An order of the others for each of the first rows. The last is that of the first row.
    pub orders: Orders,
}

/// Leaves out the last untried row of a set, and so on. The rows that are needed are judged before the untried ones.
///
/// Where the others have a valid order, the row is needed. Where they have none, the cycle names fewer untried rows. By
/// a judge that goes through the rows in turn the last of these is needed: it is the first that leaves no valid order
/// with those before it. So each judgement finds a row that is needed, but for one that names no untried row.
pub fn all_tried<J: Judge, L: Ledger>(
    alloc: Global,
    judge: &mut J,
    m: &Matrix,
    blamed: Blamed,
    steps: &mut Steps<L>,
) -> Result<Narrowed, NoMemory>
    requires { IsBlamed m.now blamed }
    ensures narrowed { IfOk result (IsNarrowed m.now) }
    ensures few { IfOk result (λ found. length found.rows.items ≤ length blamed.rows.items) }
    ensures needed { IsTrue J.in_turn
        → AreNeeded m.now blamed.rows.items blamed.untried
        → IfOk result (λ found. AreNeeded m.now found.rows.items 0) }
    ensures asked { IfOk result (λ found. J.asked judge.new + (length blamed.rows.items - blamed.untried)
        ≤ J.asked judge.old + length found.rows.items + 1) }
    ensures asked_any { J.asked judge.new ≤ J.asked judge.old + (blamed.untried + 1) }
    ensures judgements { IfOk result (λ found. (k : ℕ)
        × (k + (length blamed.rows.items - blamed.untried) ≤ length found.rows.items + 1)
        × AreJudgements J.costs m.now k steps.old steps.new) }
    ensures any { AreJudgements J.costs m.now (blamed.untried + 1) steps.old steps.new }
{
    let mut blamed = blamed;
    let mut told = 0;
    let mut orders = Orders::new(alloc);
    'rounds: while blamed.untried > 0 {
        let last = blamed.untried - 1;
        let needed = blamed.rows.len() - blamed.untried;
        let others = rotated_without(alloc, &blamed.rows, last)?;
        match judged(alloc, judge, m, &others, needed, steps)? {
            Finding::Ordered(tree) => {
                push_leaves(alloc, &mut orders, tree)?;
                told += 1;
                blamed.untried = last;
            }
            Finding::Refused(fewer) => {
                blamed = fewer;
                told = 0;
                orders = Orders::new(alloc);
            }
        }
    }
    let Blamed { rows, lines, .. } = blamed;
    Ok(Narrowed {
        rows,
        lines,
        told,
        orders,
    })
}
