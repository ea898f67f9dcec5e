// The amortised bound of Booth and Lueker (1976), over the relation that every reducer meets.
//
// A row that is taken may look at many nodes, but each beyond twice its columns lowers the weight of the tree,
// which starts at no more than the number of columns. So all reductions together cost no more than a constant
// for each column, row and one. Nothing here knows how a reducer keeps its tree. The functions have no body:
// their contracts are the laws.
ghost use Rattle.tree_theory.specs.WeightLaws.{ReducedLaw, MetLaw, TurnedWeightLaw, UniversalWeightLaw, TakenStepsLaw, RefusedStepsLaw};

/// The weight of a tree pays for the nodes that a row looks at: each node at or below the pertinent root beyond twice
/// the columns of the row is made up for by weight that the reduction takes away, but for two of them.
pub fn weight_law()
    ensures reduced { ReducedLaw }
    ensures met { MetLaw }
    ensures turned { TurnedWeightLaw }
    ensures universal { UniversalWeightLaw }
{}

/// What a row costs at most, with 256 steps for each unit of weight, where a reducer takes so many steps for each node
/// that the row meets as one that works in place.
pub fn ticks_law()
    ensures taken { TakenStepsLaw }
    ensures refused { RefusedStepsLaw }
{}
