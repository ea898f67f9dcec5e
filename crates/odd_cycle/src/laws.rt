// Laws of odd cycles.
ghost use Rattle.odd_cycle.specs.Laws.{CycleLengthLaw, ShortCycleLaw};

/// An odd cycle has at most c(c - 1) lines, c being the number of columns.
pub fn cycle_length_law()
    ensures { CycleLengthLaw }
{}

/// A closed walk of odd length with no flip but a last one, and no two columns twice before it, is an odd cycle. It has
/// at most c(c - 1)/2 + 1 lines, c being the number of columns.
pub fn short_cycle_law()
    ensures { ShortCycleLaw }
{}
