// The textbook orders and the derived matrices. A call stands for the clauses alone.
ghost use Rattle.instance_model.specs.Laws.{DerivedLaw, ValidLaw, ExistsLaw, FewColumnsLaw, FewRowsLaw};

use circular_ones::circular_law;
use convex_bipartite::convex_law;
use proper_interval::{closed_rows_law, umbrella_law};
use robinson_balls::{balls_law, robinson_law};

/// The valid orders of the derived matrix of a side are exactly the textbook orders of that side; of a circular
/// instance up to rotation, so that an order is circular exactly where its rotation that begins with column 1 is a
/// valid order of the derived matrix. So a textbook order exists exactly where the derived matrix has a valid order.
///
/// The laws stand on Tucker (1971) for circular orders, Roberts (1969) for umbrella orders, and Mirkin and
/// Rodin (1984) for Robinson orders.
pub fn textbook_law()
    ensures derived { DerivedLaw }
    ensures valid { ValidLaw }
    ensures exists { ExistsLaw }
{
    circular_law();
    convex_law();
    umbrella_law();
    robinson_law();
}

/// The derived matrices of an instance within the limits are within the limits of a matrix.
pub fn derived_sizes_law()
    ensures columns { FewColumnsLaw }
    ensures rows { FewRowsLaw }
{
    closed_rows_law();
    balls_law();
}
