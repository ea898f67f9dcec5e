// The intervals of the vertices of graphs.
ghost use Rattle.std.specs.Prelude.{IfOk, IsTrue};
ghost use Rattle.proper_interval.specs.Umbrellas.{IsUmbrellaOrder};

use graph_model::Graph;
use proper_interval::{closed_rows, intervals, umbrella_law};
use row_model::{Intervals, NoMemory, is_order};
use std::alloc::Global;
use unit_model::model;

// By which rule the vertices have their intervals.
#[derive(Clone, Copy, Debug)]
pub enum Rule {
    // That of proper intervals.
    Proper,
    // That of intervals of one length.
    Unit,
}

// The intervals by an order, if it is an umbrella order.
pub fn model_told(alloc: Global, g: &Graph, rule: Rule, order: &[u32]) -> Result<String, NoMemory> {
    if !is_umbrella(alloc, g, order)? {
        return String::from_str(alloc, "no umbrella order");
    }
    match rule {
        Rule::Proper => ends_told(alloc, &intervals(alloc, g, order)?),
        Rule::Unit => ends_told(alloc, &model(alloc, g, order)?),
    }
}

// Whether an order is an umbrella order of a graph.
fn is_umbrella(alloc: Global, g: &Graph, order: &[u32]) -> Result<bool, NoMemory>
    ensures { IfOk result (λ yes. IsTrue yes → IsUmbrellaOrder g.now order.now) }
{
    umbrella_law();
    if !is_order(alloc, g.vertices(), order)? {
        return Ok(false);
    }
    let rows = closed_rows(alloc, g)?;
    let is_kept = rows.keeps(order)?;
    Ok(is_kept)
}

// The ends of intervals.
fn ends_told(alloc: Global, list: &Intervals) -> Result<String, NoMemory> {
    let mut text = String::new(alloc);
    for interval in list.as_slice() {
        write!(text, " {} to {}", interval.left, interval.right)?;
    }
    Ok(text)
}
