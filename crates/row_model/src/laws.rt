// Laws of the incompatibility graph, and the values of the constants. A call stands for the clauses alone.
ghost use Rattle.std.specs.Prelude.{◌≡◌};
ghost use Rattle.row_model.specs.Laws.{JoinedLaw, EvenWalkLaw, OddWalkLaw, ConflictLaw, LinesLaw, MoreRowsLaw};

use crate::code::{COUNT, CSV, EMPTY, GRAMMAR, JSON, LIMIT, RANGE, SHAPE, SYMMETRY, TREE, TWICE};
use crate::{MAX_COLUMNS, MAX_FILE_BYTES, MAX_ITEMS, MAX_ROWS, ROW_BOUND};

/// The values of the constants of this crate, by their numerals.
pub fn values_law()
    ensures grammar { (EMPTY ≡ 1) × (GRAMMAR ≡ 2) × (COUNT ≡ 3) }
    ensures names { (RANGE ≡ 4) × (TWICE ≡ 5) × (SYMMETRY ≡ 6) }
    ensures outside { (LIMIT ≡ 7) × (CSV ≡ 8) × (JSON ≡ 9) × (SHAPE ≡ 10) }
    ensures tree { TREE ≡ 12 }
    ensures limits { (MAX_COLUMNS ≡ 2048) × (MAX_ROWS ≡ 131072) × (MAX_ITEMS ≡ 256) }
    ensures bytes { MAX_FILE_BYTES ≡ 16777216 }
    ensures bound { ROW_BOUND ≡ 16777216 }
{}

/// Walks in the incompatibility graph and the valid orders (McConnell, 2004).
///
/// A valid order has exactly one of two joined pairs with its first column before its second. So it has all pairs of a
/// walk of even length alike, and a closed walk of odd length leaves no valid order. A closed walk of odd length may be
/// written as a list of lines or as a list of pairs.
pub fn walk_laws()
    ensures joined { JoinedLaw }
    ensures even_walk { EvenWalkLaw }
    ensures odd_walk { OddWalkLaw }
    ensures conflict { ConflictLaw }
    ensures lines { LinesLaw }
    ensures more_rows { MoreRowsLaw }
{}
