// A law of closed walks.
ghost use Rattle.walk_search.specs.Laws.{OddCycleLaw};

/// A closed walk of odd length contains an odd cycle.
pub fn odd_cycle_law()
    ensures { OddCycleLaw }
{}
