// What the text of a session shows.
ghost use Rattle.pq_cli.specs.Extend.{ExtendStatusLaw, SessionLaw, BaseLaw};

use commands::shown_law;
use solve_replies::outcomes_law;

/// What a session's text shows. Its status is 0 exactly where the matrix in the first file has a valid order. Then the
/// frontiers of the tree at its end are exactly the valid orders of that matrix that keep each accepted row, and no
/// valid order that keeps the accepted rows before a refused row keeps that one. With status 1 the reply is one that
/// `solve` gives.
pub fn extend_law()
    ensures status { ExtendStatusLaw }
    ensures session { SessionLaw }
    ensures base { BaseLaw }
{
    outcomes_law();
    shown_law();
}
