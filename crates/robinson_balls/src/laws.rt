// Robinson orders and the valid orders of the balls. A call stands for the clauses alone.
ghost use Rattle.robinson_balls.specs.Laws.{BallsLaw, FewBallsLaw, RobinsonLaw};

/// Which ball is whose: the rows are the balls round each item, centre after centre, and for each centre one for each
/// of its distances, in rising order. There are at most as many as pairs of items.
pub fn balls_law()
    ensures rows { BallsLaw }
    ensures few { FewBallsLaw }
{}

/// Robinson orders and valid orders of the balls (Mirkin and Rodin, 1984).
///
/// An order of the items is a Robinson order where of any three items the outer two are at least as far apart as the
/// middle one is from either. It is one exactly where it is a valid order of the balls.
pub fn robinson_law()
    ensures { RobinsonLaw }
{}
