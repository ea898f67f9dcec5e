// The calls that make a reply of an instance for which something is solved.
ghost use Rattle.std.specs.Prelude.{◌≤◌};
ghost use Rattle.row_model.specs.declared.kind.Kind.TheVariants.{Proper};
ghost use Rattle.order_list.specs.declared.TheConstants.{MAX_ORDERS};
ghost use Rattle.instance_model.specs.Instance.{IsInstance};
ghost use Rattle.instance_model.specs.Value.{instance_value};
ghost use Rattle.command_input.specs.Words.{IsExtended};
ghost use Rattle.command_input.specs.Instances.{IsInstanceOf};
ghost use Rattle.pq_cli.specs.Making.{MakesVerdict, MakesBlame, MakesList, MakesModel};

use crate::over::{InstanceReply, Made};
use instance_model::Instance;
use row_model::Kind;
use solve_replies::{blame_reply, list_reply, unit_reply, verdict_reply};
use std::alloc::Global;
use step_count::{Ledger, Steps};

/// The reply of `solve`.
pub struct VerdictReply;

impl InstanceReply for VerdictReply {
    ghost takes = { λ _ i. IsInstance (instance_value i) };

    ghost makes = { λ _. MakesVerdict };

    fn reply<L: Ledger>(&self, alloc: Global, instance: &Instance, steps: &mut Steps<L>) -> Made {
        verdict_reply(alloc, instance, steps)
    }
}

/// The reply of `core` on matrices of a kind.
#[derive(Drop)]
pub struct BlameReply {
    /// The kind.
    pub kind: Kind,
}

impl InstanceReply for BlameReply {
    ghost takes = { λ b i. IsExtended b.kind × IsInstanceOf b.kind i };

    ghost makes = { λ b. MakesBlame b.kind };

    fn reply<L: Ledger>(&self, alloc: Global, instance: &Instance, steps: &mut Steps<L>) -> Made {
        blame_reply(alloc, self.kind, instance, steps)
    }
}

/// The reply of `list` on matrices of a kind, for so many orders.
#[derive(Drop)]
pub struct ListReply {
    /// The kind.
    pub kind: Kind,
    /// How many orders are asked for.
    pub count: u32,
}

impl InstanceReply for ListReply {
    ghost takes = { λ l i.
        IsExtended l.kind × IsInstanceOf l.kind i × (1 ≤ l.count) × (l.count ≤ MAX_ORDERS) };

    ghost makes = { λ l. MakesList l.kind l.count };

    fn reply<L: Ledger>(&self, alloc: Global, instance: &Instance, steps: &mut Steps<L>) -> Made {
        let Instance::Plain(_, matrix) = instance else {
            unreachable!()
        };
        list_reply(alloc, self.kind, matrix, self.count, steps)
    }
}

/// The reply of `unit`.
pub struct UnitReply;

impl InstanceReply for UnitReply {
    ghost takes = { λ _ i. IsInstanceOf Proper i };

    ghost makes = { λ _. MakesModel };

    fn reply<L: Ledger>(&self, alloc: Global, instance: &Instance, steps: &mut Steps<L>) -> Made {
        unit_reply(alloc, instance, steps)
    }
}
