// An order of the others for each row of a set.
ghost use Rattle.std.specs.Prelude.{◌≡◌, ◌+◌, ◌≤◌, IfOk, length};
ghost use Rattle.row_judge.specs.Costs.{AreJudgements};
ghost use Rattle.row_core.specs.Blamed.{IsNarrowed, IsTried};

use crate::blamed::Blamed;
use crate::narrow::Narrowed;
use crate::part::{Finding, judged, push_leaves, without};
use core_text::Orders;
use row_judge::Judge;
use row_model::{Matrix, NoMemory};
use std::alloc::Global;
use step_count::{Ledger, Steps};

/// What comes of leaving out each row of a set in turn.
#[derive(Drop)]
pub enum Tried {
    /// An order of the others for each row.
    Orders(Orders),
    /// Fewer rows that are to blame, since one of the set can be left out.
    Fewer(Blamed),
}

/// Leaves out each row of a set in turn for which there is no order yet, up to the first that can be left out.
pub fn each_left_out<J: Judge, L: Ledger>(
    alloc: Global,
    judge: &mut J,
    m: &Matrix,
    set: &Narrowed,
    steps: &mut Steps<L>,
) -> Result<Tried, NoMemory>
    requires { IsNarrowed m.now set.now }
    ensures tried { IfOk result (IsTried m.now set.now.rows.items) }
    ensures asked { J.asked judge.new ≤ J.asked judge.old + length set.now.rows.items }
    ensures judgements { AreJudgements J.costs m.now (length set.now.rows.items) steps.old steps.new }
{
    let mut orders = Orders::new(alloc);
    for i in 0..set.rows.len() {
        if i < set.told {
            orders.push(set.orders.get(set.told - 1 - i))?;
            continue;
        }
        let others = without(alloc, &set.rows, i)?;
        match judged(alloc, judge, m, &others, 0, steps)? {
            Finding::Ordered(tree) => push_leaves(alloc, &mut orders, tree)?,
            Finding::Refused(fewer) => return Ok(Tried::Fewer(fewer)),
        }
    }
    Ok(Tried::Orders(orders))
}
