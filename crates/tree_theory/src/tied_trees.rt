// Trees that are tied to rows: their frontiers are exactly the valid orders of the rows. Being tied is what a reduction
// by one row keeps. It speaks of walks in the incompatibility graph (McConnell, 2004) and of frontiers (Booth and
// Lueker, 1976). The functions here have no body: their contracts are the laws.
ghost use Rattle.tree_theory.specs.TiedLaws.{TiedLaw, LeavesLaw, UniversalLaw, SameFrontiersLaw, EquivalentLaw};

/// The frontiers of a tied tree are exactly the valid orders of the rows.
pub fn tied_law()
    ensures { TiedLaw }
{}

/// The columns of a tree from left to right are one of its frontiers.
pub fn leaves_law()
    ensures { LeavesLaw }
{}

/// The universal tree is tied to no rows, and its frontiers are all orders.
pub fn universal_law()
    ensures { UniversalLaw }
{}

/// A tree whose nodes are turned (children of a P-node permuted, those of a Q-node reversed) has the same frontiers, is
/// proper where the tree is, and is tied to exactly the same rows.
pub fn equivalent_law()
    ensures same_frontiers { SameFrontiersLaw }
    ensures tied { EquivalentLaw }
{}
