// The reply with the rows of a matrix that are to blame.
ghost use Rattle.std.specs.Prelude.{◌≡◌, ◌⊎◌, IfOk};
ghost use Rattle.row_model.specs.Rows.{RowList};
ghost use Rattle.instance_model.specs.Instance.{plain, instance_kind, IsInstance};
ghost use Rattle.instance_model.specs.Value.{instance_value};
ghost use Rattle.odd_cycle.specs.Short.{IsShort};
ghost use Rattle.core_text.specs.Told.{TellsCore};
ghost use Rattle.row_judge.specs.Judges.{IsTreeOfOrders};
ghost use Rattle.command_input.specs.Words.{IsExtended};
ghost use Rattle.verdict_replies.specs.Verdicts.{IsVerdictReply};
ghost use Rattle.verdict_replies.specs.Cores.{IsCoreText};
ghost use Rattle.solve_replies.specs.Cores.{IsCoreReply};
ghost use Rattle.solve_replies.specs.Steps.{made_status, FindsCoreWithin};

use crate::reply::told;
use crate::verdicts::yes_on;
use crate::{NoMemory, Solver};
use core_text::{Core, CoreText, print_core};
use instance_model::Instance;
use pq_tree::PqTree;
use row_core::{Cored, find_core};
use row_model::{Kind, Matrix};
use std::alloc::Global;
use step_count::{Ledger, Steps};
use tree_theory::{exact_law, leaves_law};
use verdict_replies::{Reply, core_grammar_law};

/// The reply on a matrix: a core; or, where the matrix has a valid order, what `solve` replies.
///
/// # Errors
///
/// `NoMemory`.
pub fn blame_reply<L: Ledger>(
    alloc: Global,
    kind: Kind,
    instance: &Instance,
    steps: &mut Steps<L>,
) -> Result<Reply, NoMemory>
    requires within { IsInstance (instance_value instance.now) }
    requires of_kind { instance_kind (instance_value instance.now) ≡ kind }
    requires taken { IsExtended kind }
    ensures reply { IfOk result (λ reply. (m : RowList) × (instance_value instance.now ≡ plain kind m) × IsCoreReply kind m reply.status reply.text.items) }
    ensures status { IfOk result (λ reply. (reply.status ≡ 0) ⊎ (reply.status ≡ 1)) }
    ensures steps { (m : RowList) → instance_value instance.now ≡ plain kind m
        → FindsCoreWithin m (made_status (λ reply. reply.status) result) steps.old steps.new }
{
    let Instance::Plain(_, m) = instance else {
        unreachable!()
    };
    match find_core(alloc, &mut Solver, m, steps)? {
        Cored::Core(core) => core_reply(alloc, kind, m, core),
        Cored::Has(tree) => yes_reply(alloc, instance, m, tree),
    }
}

// The reply with a core of a matrix.
fn core_reply(alloc: Global, kind: Kind, m: &Matrix, core: Core) -> Result<Reply, NoMemory>
    requires within { IsInstance (plain kind m.now) }
    requires tells { TellsCore m.now core }
    requires short { IsShort m.now.columns core.lines }
    ensures text { IfOk result (λ reply. IsCoreText kind m.now reply.text.items) }
    ensures status { IfOk result (λ reply. reply.status ≡ 0) }
{
    core_grammar_law();
    let core = CoreText::new(kind, m.columns(), core);
    let mut text = Vec::new(alloc);
    print_core(&core, &mut text)?;
    Ok(Reply { status: 0, text })
}

// The reply on a matrix whose valid orders are those of a tree: the text of its verdict.
fn yes_reply(
    alloc: Global,
    instance: &Instance,
    m: &Matrix,
    tree: PqTree,
) -> Result<Reply, NoMemory>
    requires within { IsInstance (instance_value instance.now) }
    requires matrix { (kind : Kind) × (instance_value instance.now ≡ plain kind m.now) }
    requires orders { IsTreeOfOrders m.now tree }
    ensures text { IfOk result (λ reply. (kind : Kind)
        → instance_value instance.now ≡ plain kind m.now
        → IsVerdictReply (plain kind m.now) 0 reply.text.items) }
    ensures status { IfOk result (λ reply. reply.status ≡ 1) }
{
    exact_law();
    leaves_law();
    let verdict = yes_on(alloc, instance, tree)?;
    let text = told(alloc, &verdict)?.text;
    Ok(Reply { status: 1, text })
}
