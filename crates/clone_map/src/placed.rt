// The places and the contigs of a valid order.
ghost use Rattle.std.specs.Prelude.{IfOk};
ghost use Rattle.column_order.specs.Orders.{IsValidOrder};
ghost use Rattle.clone_map.specs.Places.{ArePlaces};
ghost use Rattle.clone_map.specs.Contigs.{AreContigs};

use crate::contigs::contigs_of;
use crate::places::places_of;
use row_model::{Matrix, NoMemory, Places, Spans, positions};
use std::alloc::Global;

/// Where the clones and the contigs stand in an order of the probes.
#[derive(Drop)]
pub struct Placed {
    /// The place of each clone, in the order of the clones.
    pub places: Places,
    /// The positions of each contig, from left to right.
    pub contigs: Spans,
}

/// The places of the clones, and the contigs, in a valid order of the probes.
///
/// The place of a clone is the first and the last position of its probes; an empty clone has none. Two probes lie in
/// one contig where they are equal, or where a chain of clones, each sharing a probe with the next, leads from a clone
/// that holds the one to a clone that holds the other. A probe in no clone is a contig by itself.
///
/// The time is linear in the probes, the clones and their ones.
///
/// # Errors
///
/// `NoMemory` where there is no memory for the places and the contigs.
pub fn place(alloc: Global, m: &Matrix, order: &[u32]) -> Result<Placed, NoMemory>
    requires { IsValidOrder m.now.columns m.now.rows order.now }
    ensures places { IfOk result (λ placed. ArePlaces order.now m.now.rows placed.places) }
    ensures contigs { IfOk result (λ placed. AreContigs m.now.rows order.now placed.contigs) }
{
    let columns = m.columns();
    let positions = positions(alloc, order)?;
    let places = places_of(alloc, m, &positions)?;
    let contigs = contigs_of(alloc, columns, places.as_slice())?;
    Ok(Placed { places, contigs })
}
