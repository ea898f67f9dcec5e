// The law of open gaps.
ghost use Rattle.open_gaps.specs.Labels.{GapLaw};

/// Labels of pairs that agree across the open gaps of a valid order, and on one row more, agree on all pairs that are
/// joined in these rows. A call stands for the clause alone.
pub fn gap_law()
    ensures { GapLaw }
{}
