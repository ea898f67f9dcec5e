// The orders of the two sides, and the valid orders of their matrices.
ghost use Rattle.convex_bipartite.specs.Convex.{RightLaw, LeftLaw};

/// Convex orders of a bipartite graph and valid orders of its neighbourhoods.
///
/// The valid orders of [`rows_of`](crate::rows_of) are exactly the orders of the right side in which an x with edges to
/// two ys has one to each y between them. Those of [`columns_of`](crate::columns_of) are the same for the left side.
pub fn convex_law()
    ensures right { RightLaw }
    ensures left { LeftLaw }
{}
