// The reply with the unit model of a graph.
ghost use Rattle.std.specs.Prelude.{◌≡◌, ◌≤◌, ◌⊎◌, IfOk};
ghost use Rattle.row_model.specs.declared.TheConstants.{MAX_COLUMNS};
ghost use Rattle.graph_model.specs.Graphs.{GraphValue};
ghost use Rattle.column_order.specs.Orders.{IsValidOrder};
ghost use Rattle.proper_interval.specs.Umbrellas.{closed_to};
ghost use Rattle.instance_model.specs.Instance.{proper, instance_kind, IsInstance};
ghost use Rattle.instance_model.specs.Value.{instance_value};
ghost use Rattle.verdict_text.specs.Value.{verdict_value};
ghost use Rattle.unit_model.specs.Models.{lefts_of};
ghost use Rattle.verdict_replies.specs.Verdicts.{IsVerdictOf};
ghost use Rattle.solve_replies.specs.Models.{IsModelOf, TellsModel, TellsByClaim, IsModelReply};
ghost use Rattle.solve_replies.specs.Steps.{made_status, verdict_status, SolvesWithin};

use crate::NoMemory;
use crate::verdicts::verdict_on;
use command_input::graph_law;
use graph_model::Graph;
use instance_model::Instance;
use proper_interval::umbrella_law;
use row_model::{Interval, Kind};
use std::alloc::Global;
use step_count::{Ledger, Steps};
use unit_model::{UnitText, model, print_unit};
use verdict_replies::{Reply, printed, shown_law};
use verdict_text::{Part, Verdict};

/// The reply on a graph: the text of its unit model, or the verdict which shows that there is none.
///
/// # Errors
///
/// `NoMemory`.
pub fn unit_reply<L: Ledger>(
    alloc: Global,
    instance: &Instance,
    steps: &mut Steps<L>,
) -> Result<Reply, NoMemory>
    requires within { IsInstance (instance_value instance.now) }
    requires kind { instance_kind (instance_value instance.now) ≡ Kind.Proper }
    ensures reply { IfOk result (λ reply.
        (g : GraphValue) × (instance_value instance.now ≡ proper g)
        × IsModelReply g reply.status reply.text.items) }
    ensures status { IfOk result (λ reply. (reply.status ≡ 0) ⊎ (reply.status ≡ 1)) }
    ensures steps { SolvesWithin (instance_value instance.now) (made_status (λ reply. reply.status) result)
        steps.old steps.new }
{
    graph_law();
    let Instance::Proper(graph) = instance else {
        unreachable!()
    };
    let verdict = verdict_on(alloc, instance, steps)?;
    reply_by(alloc, graph, &verdict)
}

// The reply on a graph of which this is the verdict.
fn reply_by(alloc: Global, graph: &Graph, verdict: &Verdict) -> Result<Reply, NoMemory>
    requires few { graph.now.vertices ≤ MAX_COLUMNS }
    requires holds { IsVerdictOf (proper graph.now) (verdict_value verdict.now) }
    ensures tells { IfOk result (λ reply.
        TellsByClaim graph.now (verdict_value verdict.now) (verdict_value verdict.now).claim
        reply.status reply.text.items) }
    ensures status { IfOk result (λ reply. (reply.status ≡ 0) ⊎ (reply.status ≡ 1)) }
    ensures claim { IfOk result (λ reply. reply.status ≡ verdict_status verdict.now) }
{
    shown_law();
    match &verdict.part {
        Part::Yes(yes) => {
            let text = model_text(alloc, graph, yes.order(1))?;
            Ok(Reply { status: 0, text })
        }
        Part::No(_) => {
            let text = printed(alloc, verdict)?;
            Ok(Reply { status: 1, text })
        }
    }
}

// The text of the unit model that a valid order of the closed rows gives.
fn model_text(alloc: Global, graph: &Graph, order: &[u32]) -> Result<Vec<u8>, NoMemory>
    requires few { graph.now.vertices ≤ MAX_COLUMNS }
    requires order { IsValidOrder graph.now.vertices (closed_to graph.now graph.now.vertices)
        order.now }
    ensures { IfOk result (λ text. TellsModel graph.now order.now text.items) }
{
    let unit = unit_of(alloc, graph, order)?;
    let mut text = Vec::with_capacity(alloc, 64 + 32 * graph.vertices() as usize)?;
    print_unit(&unit, &mut text)?;
    Ok(text)
}

// The unit model that a valid order of the closed rows gives, which is an umbrella order.
fn unit_of(alloc: Global, graph: &Graph, order: &[u32]) -> Result<UnitText, NoMemory>
    requires few { graph.now.vertices ≤ MAX_COLUMNS }
    requires order { IsValidOrder graph.now.vertices (closed_to graph.now graph.now.vertices)
        order.now }
    ensures { IfOk result (λ unit. IsModelOf graph.now order.now unit) }
{
    umbrella_law();
    let vertices = graph.vertices();
    let intervals = model(alloc, graph, order)?;
    let lefts = left_ends(alloc, intervals.as_slice())?;
    Ok(UnitText::new(vertices, u64::from(vertices), lefts))
}

// The left ends of intervals.
fn left_ends(alloc: Global, list: &[Interval]) -> Result<Vec<u64>, NoMemory>
    ensures { IfOk result (λ lefts. lefts.items ≡ lefts_of list.now) }
{
    list.iter().map(|a| a.left).collect(alloc)
}
