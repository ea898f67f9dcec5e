// The places of the rows of a matrix, given the positions of its columns.
ghost use Rattle.std.specs.Prelude.{◌≡◌, ℕ, List, length, All, IfOk};
ghost use Rattle.column_order.specs.Orders.{IsOrder};
ghost use Rattle.row_model.specs.Positions.{ArePositions};
ghost use Rattle.row_model.specs.Rows.{IsRow};
ghost use Rattle.clone_map.specs.Places.{ArePlaces, IsPlaceOf};

use row_model::{Matrix, NoMemory, Place, Places, Span, span_of};
use std::alloc::Global;

/// The place of each row, from row 1 on.
pub fn places_of(alloc: Global, m: &Matrix, positions: &[u32]) -> Result<Places, NoMemory>
    requires { length positions.now ≡ m.now.columns }
    ensures places { IfOk result (λ places. (order : List ℕ) → IsOrder m.now.columns order →
        ArePositions order positions.now → ArePlaces order m.now.rows places) }
    ensures rows { IfOk result (λ _. All (IsRow m.now.columns) m.now.rows) }
{
    let mut places = Places::with_capacity(alloc, m.rows() as usize)?;
    for k in 0..m.rows() {
        places.push(place_of(m.row(k + 1), positions))?;
    }
    Ok(places)
}

// The place of a row.
fn place_of(row: &[u32], positions: &[u32]) -> Place
    requires { IsRow (length positions.now) row.now }
    ensures { (order : List ℕ) → IsOrder (length positions.now) order →
        ArePositions order positions.now → IsPlaceOf order row.now result }
{
    match span_of(positions, row) {
        None => Place::Nowhere,
        Some(Span { first, last }) => Place::At { first, last },
    }
}
