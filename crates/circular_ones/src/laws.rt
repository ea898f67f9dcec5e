// Circular orders and the valid orders of the cut rows.
ghost use Rattle.circular_ones.specs.Laws.{CutLaw, RotationLaw, TurnedLaw, CircularExistsLaw};

/// Circular orders of rows and valid orders of the cut rows (Tucker, 1971).
///
/// Every valid order of the cut rows is a circular order of the rows. The rotations of a circular order are circular
/// orders. An order is circular exactly where its rotation that begins with column 1 is a valid order of the cut rows.
/// So a circular order exists exactly where the cut rows have a valid order.
pub fn circular_law()
    ensures cut { CutLaw }
    ensures rotation { RotationLaw }
    ensures turned { TurnedLaw }
    ensures exists { CircularExistsLaw }
{}
