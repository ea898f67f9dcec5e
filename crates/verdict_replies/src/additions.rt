// What an instance adds to an order.
ghost use Rattle.std.specs.Prelude.{◌≡◌, [], IfOk};
ghost use Rattle.column_order.specs.Orders.{IsValidOrder};
ghost use Rattle.instance_model.specs.Instance.{plain, derived_matrix, IsWellFormed};
ghost use Rattle.instance_model.specs.Laws.{IsValidFor};
ghost use Rattle.instance_model.specs.Value.{instance_value};
ghost use Rattle.verdict_replies.specs.Verdicts.{AddsToOrder};

use crate::NoMemory;
use clone_map::{Placed, place};
use instance_model::{Instance, textbook_law};
use proper_interval::intervals;
use row_model::{Intervals, Kind, Matrix, Places, Spans};
use std::alloc::Global;

/// What is added to an order.
#[derive(Drop)]
pub struct Additions {
    /// The intervals of a graph's vertices.
    pub intervals: Intervals,
    /// The places of clones, and their contigs.
    pub placed: Placed,
}

/// What an instance adds to an order: a graph the intervals of its vertices, clones their places and contigs, and every
/// other kind nothing.
///
/// # Errors
///
/// `NoMemory`.
pub fn added(alloc: Global, instance: &Instance, order: &[u32]) -> Result<Additions, NoMemory>
    requires formed { IsWellFormed (instance_value instance.now) }
    requires order { IsValidFor (derived_matrix (instance_value instance.now) 1) order.now }
    ensures { IfOk result (λ added.
        AddsToOrder (instance_value instance.now) order.now
        (record {
          intervals = added.intervals;
          places = added.placed.places;
          contigs =
              added.placed.contigs;
        })) }
{
    textbook_law();
    let (intervals, placed) = match instance {
        Instance::Plain(kind, m) => (Intervals::new(alloc), placed(alloc, *kind, m, order)?),
        Instance::Proper(graph) => (intervals(alloc, graph, order)?, nowhere(alloc)),
        _ => (Intervals::new(alloc), nowhere(alloc)),
    };
    Ok(Additions { intervals, placed })
}

// What a matrix adds to an order: clones their places and contigs, and every other kind nothing.
fn placed(alloc: Global, kind: Kind, m: &Matrix, order: &[u32]) -> Result<Placed, NoMemory>
    requires { IsValidOrder m.now.columns m.now.rows order.now }
    ensures { IfOk result (λ placed.
        AddsToOrder (plain kind m.now) order.now
        (record { intervals = []; places = placed.places; contigs = placed.contigs })) }
{
    match kind {
        Kind::Clones => place(alloc, m, order),
        _ => Ok(nowhere(alloc)),
    }
}

// No place and no contig.
fn nowhere(alloc: Global) -> Placed
    ensures places { result.places ≡ [] }
    ensures contigs { result.contigs ≡ [] }
{
    Placed {
        places: Places::new(alloc),
        contigs: Spans::new(alloc),
    }
}
