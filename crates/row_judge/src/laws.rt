// The row that a cycle blames. A call stands for the clauses alone.
ghost use Rattle.row_judge.specs.Blamed.{LastRowLaw, FirstConflictLaw};

/// Where rows have a valid order, and an odd cycle shows that they have none with one row more, that row is a reason of
/// the cycle. So each cycle that tells why a row is refused names that row.
pub fn last_row_laws()
    ensures last { LastRowLaw }
    ensures first { FirstConflictLaw }
{}
