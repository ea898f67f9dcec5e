// The search for a core.
ghost use Rattle.std.specs.Prelude.{◌≡◌, ◌+◌, ◌-◌, ◌*◌, ◌≤◌, ℕ, IfOk, IfSome, IsTrue, length};
ghost use Rattle.std.specs.List.{range_with_len};
ghost use Rattle.odd_cycle.specs.Short.{IsShort};
ghost use Rattle.row_judge.specs.Costs.{AreJudgements};
ghost use Rattle.core_text.specs.Told.{TellsCore};
ghost use Rattle.row_core.specs.Blamed.{IsBlamed, AreNeeded};
ghost use Rattle.row_core.specs.Cored.{IsCored, IsCoredWithin, judgements_of};

use crate::blamed::{Blamed, blame};
use crate::narrow::{Narrowed, all_tried};
use crate::others::{Tried, each_left_out};
use core_text::{Core, blame_law};
use pq_tree::PqTree;
use row_judge::{Judge, Judged, judged_short};
use row_model::{Matrix, NoMemory};
use std::alloc::Global;
use step_count::{Ledger, Steps};

/// What is found of a matrix.
#[derive(Drop)]
pub enum Cored {
    /// It has a valid order. The tree is canonical, and its frontiers are exactly the valid orders.
    Has(PqTree),
    /// It has none. The rows of the core have none together, while for each of them the others have one.
    Core(Core),
}

/// The tree of all valid orders of a matrix, or a core where it has none.
///
/// The order that is told of a row of the core has the leaves, from left to right, of the canonical tree of all valid
/// orders of the others, so there is one such order. Which of several cores is found is free.
/// The odd cycle that is told has at most one flip, and with c columns at most c(c - 1)/2 + 1 lines, whatever cycles the
/// judge has.
///
/// Where it answers, and by the judge's own count, a judge that goes through the rows in turn was asked once at most if
/// there is a valid order, and else at most twice for each row of the core and once more. Any other judge was asked at
/// most (n + 1)(2n + 1) + 1 times, n being the number of rows. Where memory is refused, a judge that goes through the rows
/// in turn was asked at most 2n + 1 times.
///
/// Where such a judge says what an answer costs, and no smaller matrix costs more, the steps are at most those of as many
/// judgements of this matrix.
///
/// # Errors
///
/// `NoMemory`.
pub fn find_core<J: Judge, L: Ledger>(
    alloc: Global,
    judge: &mut J,
    m: &Matrix,
    steps: &mut Steps<L>,
) -> Result<Cored, NoMemory>
    ensures cored { IfOk result (IsCored m.now) }
    ensures asked { IsTrue J.in_turn
        → IfOk result (λ found. J.asked judge.new ≤ J.asked judge.old + judgements_of found) }
    ensures asked_any { IsTrue J.in_turn
        → J.asked judge.new ≤ J.asked judge.old + (2 * length m.now.rows + 1) }
    ensures most { IfOk result (λ _. J.asked judge.new
        ≤ J.asked judge.old + ((length m.now.rows + 1) * (2 * length m.now.rows + 1) + 1)) }
    ensures yes { IfSome J.costs (λ c. IfOk result (IsCoredWithin c m.now steps.old steps.new)) }
    ensures judgements { IsTrue J.in_turn
        → IfOk result (λ found. AreJudgements J.costs m.now (judgements_of found) steps.old steps.new) }
    ensures any { IsTrue J.in_turn
        → AreJudgements J.costs m.now (2 * length m.now.rows + 1) steps.old steps.new }
{
    blame_law();
    match judged_short(alloc, judge, m, steps)? {
        Judged::Yes(tree) => Ok(Cored::Has(tree)),
        Judged::No(cycle) => {
            let all = all_rows(alloc, m)?;
            let blamed = blame(alloc, &all, 0, &cycle)?;
            let core = core_among(alloc, judge, m, blamed, steps)?;
            Ok(Cored::Core(core))
        }
    }
}

// The numbers of all rows.
fn all_rows(alloc: Global, m: &Matrix) -> Result<Vec<u32>, NoMemory>
    ensures { IfOk result (λ all. all.items ≡ range_with_len 1 (length m.now.rows)) }
{
    let mut all = Vec::with_capacity(alloc, m.rows() as usize)?;
    for before in 0..m.rows() {
        all.push(before + 1)?;
    }
    Ok(all)
}

// A core among rows that are to blame. A judge that goes through the rows in turn leaves no row that can be left out,
// so the first round is the last one.
fn core_among<J: Judge, L: Ledger>(
    alloc: Global,
    judge: &mut J,
    m: &Matrix,
    blamed: Blamed,
    steps: &mut Steps<L>,
) -> Result<Core, NoMemory>
    requires blamed { IsBlamed m.now blamed }
    requires needed { IsTrue J.in_turn → AreNeeded m.now blamed.rows.items blamed.untried }
    ensures core { IfOk result (TellsCore m.now) }
    ensures short { IfOk result (λ core. IsShort m.now.columns core.lines) }
    ensures asked { IsTrue J.in_turn
        → IfOk result (λ core. J.asked judge.new + (length blamed.rows.items - blamed.untried)
        ≤ J.asked judge.old + 2 * length core.rows + 1) }
    ensures asked_any { IsTrue J.in_turn
        → J.asked judge.new ≤ J.asked judge.old + (length blamed.rows.items + blamed.untried + 1) }
    ensures most { IfOk result (λ _. J.asked judge.new
        ≤ J.asked judge.old + (length blamed.rows.items + 1) * (2 * length blamed.rows.items + 1)) }
    ensures judgements { IsTrue J.in_turn
        → IfOk result (λ core. (k : ℕ)
        × (k + (length blamed.rows.items - blamed.untried) ≤ 2 * length core.rows + 1)
        × AreJudgements J.costs m.now k steps.old steps.new) }
    ensures any { IsTrue J.in_turn
        → AreJudgements J.costs m.now (length blamed.rows.items + blamed.untried + 1) steps.old steps.new }
{
    blame_law();
    let mut blamed = blamed;
    'rounds: loop {
        let set = all_tried(alloc, judge, m, blamed, steps)?;
        match each_left_out(alloc, judge, m, &set, steps)? {
            Tried::Orders(orders) => {
                let Narrowed { rows, lines, .. } = set;
                return Ok(Core::of(rows, orders, lines));
            }
            Tried::Fewer(fewer) => blamed = fewer,
        }
    }
}
