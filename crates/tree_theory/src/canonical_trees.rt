// A canonical PQ-tree is told by its frontiers, and any other proper tree up to turns of its nodes (Booth and Lueker,
// 1976). So the canonical form of a tree, and its text, are a function of the orders that it stands for: it doesn't
// matter by which rows they were given, nor in which order the rows came. The functions here have no body: their
// contracts are the laws.
ghost use Rattle.tree_theory.specs.CanonicalLaws.{CanonicalTreeLaw, SameOrdersLaw, OneShapeLaw, CanonicalFormLaw};

/// Two canonical trees over the same columns with the same frontiers are equal; so are two canonical trees for the
/// valid orders of rows, where the rows of both have the same valid orders.
pub fn canonical_tree_law()
    ensures one { CanonicalTreeLaw }
    ensures rows { SameOrdersLaw }
{}

/// Two proper trees over the same columns with the same frontiers differ by turns of their nodes alone, and turning a
/// tree into a canonical one gives the only canonical tree with its frontiers.
pub fn canonical_form_law()
    ensures shape { OneShapeLaw }
    ensures form { CanonicalFormLaw }
{}
