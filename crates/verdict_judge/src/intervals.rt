// The test of what a yes on a graph adds.
ghost use Rattle.std.specs.Prelude.{◌≡◌, ◌↔◌, length, IfOk, IsTrue};
ghost use Rattle.proper_interval.specs.Umbrellas.{IsUmbrellaOrder};
ghost use Rattle.proper_interval.specs.Models.{IsProperModel};
ghost use Rattle.verdict_text.specs.Value.{yes_value};
ghost use Rattle.instance_model.specs.Instance.{proper};
ghost use Rattle.verdict_judge.specs.Tests.{added_tests};
ghost use Rattle.verdict_judge.specs.YesTests.{PassesOrder, PassesYes};
ghost use Rattle.verdict_judge.specs.Found.{Finds};

use crate::outcome::Reason;
use graph_model::Graph;
use proper_interval::{fits, intervals};
use row_model::{Interval, NoMemory};
use std::alloc::Global;
use verdict_text::YesPart;

/// The test on the intervals of a graph, where it fails and the order is an umbrella order.
///
/// # Errors
///
/// `NoMemory`.
pub fn intervals_fault(alloc: Global, g: &Graph, yes: &YesPart) -> Result<Option<Reason>, NoMemory>
    requires order { PassesOrder (proper g.now) (yes_value yes.now) 1 }
    requires count { length (yes_value yes.now).added.intervals ≡ g.now.vertices }
    ensures { IfOk result (Finds (PassesYes (proper g.now) (yes_value yes.now)) (added_tests (proper g.now))) }
{
    if !are_proper(alloc, g, yes.order(1), yes.intervals())? {
        return Ok(Some(Reason::Intervals));
    }
    Ok(None)
}

// Whether the intervals are a proper model of the graph, of which this is an umbrella order. Those that the order gives
// are one, and others are looked at pair by pair.
fn are_proper(alloc: Global, g: &Graph, order: &[u32], list: &[Interval]) -> Result<bool, NoMemory>
    requires order { IsUmbrellaOrder g.now order.now }
    requires count { length list.now ≡ g.now.vertices }
    ensures { IfOk result (λ yes. IsTrue yes ↔ IsProperModel g.now list.now) }
{
    let given = intervals(alloc, g, order)?;
    if same_intervals(list, given.as_slice()) {
        return Ok(true);
    }
    Ok(fits(g, list))
}

// Whether the intervals are the same, vertex by vertex.
fn same_intervals(list: &[Interval], others: &[Interval]) -> bool
    ensures { IsTrue result ↔ (list.now ≡ others.now) }
{
    list == others
}
