// The tests of what a kind adds to a yes: intervals, or places and contigs.
ghost use Rattle.std.specs.Prelude.{◌↔◌, IfOk, IsTrue};
ghost use Rattle.graph_model.specs.Graphs.{GraphValue};
ghost use Rattle.verdict_text.specs.Grammar.{HasAdded};
ghost use Rattle.verdict_text.specs.Value.{yes_value};
ghost use Rattle.instance_model.specs.Instance.{instance_kind, instance_columns, proper};
ghost use Rattle.instance_model.specs.Value.{instance_value};
ghost use Rattle.verdict_judge.specs.Tests.{added_tests};
ghost use Rattle.verdict_judge.specs.YesTests.{PassesOrder, PassesYes};
ghost use Rattle.verdict_judge.specs.Found.{Finds};

use crate::clones::clones_fault;
use crate::intervals::intervals_fault;
use crate::outcome::Reason;
use instance_model::Instance;
use row_model::{Kind, NoMemory};
use std::alloc::Global;
use verdict_text::YesPart;

/// The first test that what the kind adds to a yes fails, where the order of its first side is a textbook order.
pub fn added_fault(
    alloc: Global,
    instance: &Instance,
    yes: &YesPart,
) -> Result<Option<Reason>, NoMemory>
    requires order { PassesOrder (instance_value instance.now) (yes_value yes.now) 1 }
    requires added { HasAdded (instance_kind (instance_value instance.now)) (instance_columns (instance_value instance.now)) (yes_value yes.now).added }
    ensures { IfOk result (Finds (PassesYes (instance_value instance.now) (yes_value yes.now)) (added_tests (instance_value instance.now))) }
{
    match instance {
        Instance::Plain(Kind::Clones, matrix) => clones_fault(alloc, matrix, yes),
        Instance::Proper(graph) => intervals_fault(alloc, graph, yes),
        _ => Ok(None),
    }
}
