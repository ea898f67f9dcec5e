//! What is asked of a solver of the consecutive-ones problem.
#![tactic(auto)]

mod laws;
mod short;

ghost use Rattle.std.specs.Prelude.{◌+◌, ◌≤◌, ℕ, Bool, false, Option, None, IfOk, IfSome, IsTrue};
ghost use Rattle.row_judge.specs.Costs.{Costs, IsYesWithin};
ghost use Rattle.row_judge.specs.Judges.{IsJudged, IsJudgedInTurn};

pub use laws::last_row_laws;
use odd_cycle::Cycle;
use pq_tree::PqTree;
use row_model::{Matrix, NoMemory};
pub use short::judged_short;
use std::alloc::Global;
use step_count::{Ledger, Steps};

/// What a judge says of a matrix.
#[derive(Drop)]
pub enum Judged {
    /// There is a valid order. The tree is canonical, and its frontiers are exactly the valid orders (Booth and Lueker,
    /// 1976).
    Yes(PqTree),
    /// There is none, as this odd cycle of the incompatibility graph shows (McConnell, 2004).
    No(Cycle),
}

/// A solver of the consecutive-ones problem, seen by its answers alone.
pub trait Judge {
    /// How often it was asked, as it counts: a judgement adds no more than one.
    ghost asked: { Self → ℕ } = { λ _. 0 };

    /// Whether it tells that it goes through the rows in turn: then the cycle of a `No` is one of the rows up to the
    /// first that leaves no valid order with those before it.
    ghost in_turn: { Bool } = { false };

    /// What it tells of the steps of a judgement: the most for a yes, and for any answer, an error too.
    ghost costs: { Option Costs } = { None };

    /// Judges a matrix: `No` comes exactly where it has no valid order.
    ///
    /// # Errors
    ///
    /// `NoMemory`.
    fn judge<L: Ledger>(
        &mut self,
        alloc: Global,
        m: &Matrix,
        steps: &mut Steps<L>,
    ) -> Result<Judged, NoMemory>
        ensures judged { IfOk result (IsJudged m.now) }
        ensures in_turn { IsTrue in_turn → IfOk result (IsJudgedInTurn m.now) }
        ensures asked { asked self.new ≤ asked self.old + 1 }
        ensures yes { IfSome costs (λ c. IfOk result (IsYesWithin c m.now steps.old steps.new)) }
        ensures most { IfSome costs (λ c. steps.new ≤ steps.old + c.any m.now) };
}
