// Umbrella orders, the valid orders of the closed rows, and proper models. A call stands for the clauses alone.
ghost use Rattle.proper_interval.specs.Laws.{ClosedCountLaw, ClosedRowLaw, UmbrellaLaw, ModelLaw, IntervalsLaw, OneListLaw, ProperLaw};

/// Which row is whose among the closed rows: there is one for each vertex, and row v has v and its neighbours.
pub fn closed_rows_law()
    ensures count { ClosedCountLaw }
    ensures rows { ClosedRowLaw }
{}

/// Umbrella orders and valid orders of the closed rows (Roberts, 1969).
///
/// In an umbrella order, for u before v before w, an edge uw implies the edges uv and vw. An order of the vertices is
/// one exactly where it is a valid order of the closed rows.
pub fn umbrella_law()
    ensures { UmbrellaLaw }
{}

/// Proper models and umbrella orders (Roberts, 1969).
///
/// A graph that has a proper model has an umbrella order. An umbrella order has exactly one list of the intervals
/// of [`intervals`](crate::intervals), and it is a proper model. So a graph has a proper model exactly where its
/// closed rows have a valid order.
pub fn model_law()
    ensures orders { ModelLaw }
    ensures models { IntervalsLaw }
    ensures one_list { OneListLaw }
    ensures exactly { ProperLaw }
{}
