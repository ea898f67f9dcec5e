// The check of a unit model.
ghost use Rattle.std.specs.Prelude.{◌≡◌, ◌⊎◌, List, ℕ, IfOk};
ghost use Rattle.file_io.specs.Whole.{IsWhole};
ghost use Rattle.graph_model.specs.Graphs.{GraphValue};
ghost use Rattle.instance_model.specs.Instance.{proper, instance_kind, IsInstance};
ghost use Rattle.instance_model.specs.Value.{instance_value};
ghost use Rattle.commands.specs.Findings.{IsFinding, IsFindingReply};

use crate::finding::Finding;
use crate::line_reply::line_reply;
use crate::{MAX_VERDICT_BYTES, NoMemory, Reply, graph_law};
use file_io::Whole;
use graph_model::Graph;
use instance_model::Instance;
use row_model::Kind;
use std::alloc::Global;
use unit_model::parse_unit;
use verdict_judge::{UnitChecked, check_unit};

/// The reply to the check of a unit model: one line with what is found, and its status.
///
/// # Errors
///
/// `NoMemory`.
pub fn finding_reply(alloc: Global, instance: &Instance, unit: &Whole) -> Result<Reply, NoMemory>
    requires within { IsInstance (instance_value instance.now) }
    requires kind { instance_kind (instance_value instance.now) ≡ Kind.Proper }
    ensures reply { IfOk result (λ reply.
        (g : GraphValue) × (instance_value instance.now ≡ proper g)
        × ((bytes : List ℕ) → IsWhole MAX_VERDICT_BYTES bytes unit.now
        → IsFindingReply g bytes reply.status reply.text.items)) }
    ensures status { IfOk result (λ reply. (reply.status ≡ 0) ⊎ (reply.status ≡ 1)) }
{
    graph_law();
    let Instance::Proper(graph) = instance else {
        unreachable!()
    };
    let finding = find(alloc, graph, unit)?;
    let line = format!(in alloc; "{finding}\n")?;
    Ok(line_reply(finding.status(), line))
}

// What is found of the bytes of a unit model.
fn find(alloc: Global, graph: &Graph, unit: &Whole) -> Result<Finding, NoMemory>
    ensures { IfOk result (λ finding.
        (bytes : List ℕ) → IsWhole MAX_VERDICT_BYTES bytes unit.now
        → IsFinding graph.now bytes finding) }
{
    let Whole::Bytes(bytes) = unit else {
        return Ok(Finding::TooLong);
    };
    let Some(unit) = parse_unit(alloc, bytes)? else {
        return Ok(Finding::NoUnit);
    };
    match check_unit(graph, &unit) {
        UnitChecked::Valid => Ok(Finding::Valid),
        UnitChecked::Vertices => Ok(Finding::Vertices),
        UnitChecked::Model => Ok(Finding::Model),
    }
}
