// Laws of the templates and of reductions. The functions here have no body: their contracts are the laws.
ghost use Rattle.tree_theory.specs.Laws.{KeptLaw, DecidedLaw, RefusedLaw, ExistsLaw, EmptyLabelLaw, FullLabelLaw};
ghost use Rattle.tree_theory.specs.Laws.{TurnedLaw, RootTurnedLaw, LabelTurnedLaw};
ghost use Rattle.tree_theory.specs.Laws.{FullChildrenOfP2Law, FullChildrenOfP4Law};
ghost use Rattle.tree_theory.specs.Laws.{EitherLaw, OrderLaw, NoOrderLaw, FirstRowsLaw};

/// What reducing a proper tree that is tied to some rows by one row more comes to: the reduced tree is tied to that row
/// too, and there is one exactly where the rows have a valid order. Otherwise no template fits at some node, and the
/// incompatibility graph of the rows has a conflict.
pub fn reduce_law()
    ensures kept { KeptLaw }
    ensures decided { DecidedLaw }
    ensures refused { RefusedLaw }
    ensures exists { ExistsLaw }
{}

/// The order in which a reducer keeps the children of a P-node, and the direction of a Q-node, are its own: what a
/// template makes of a node may be turned before the template above is applied, and so may the reduced tree.
pub fn turned_law()
    ensures reduced { TurnedLaw }
    ensures root { RootTurnedLaw }
    ensures label { LabelTurnedLaw }
{}

/// What the labels of the templates of Booth and Lueker (1976) say of a tree, and how many full children P2 and P4
/// have.
pub fn template_law()
    ensures empty_label { EmptyLabelLaw }
    ensures full_label { FullLabelLaw }
    ensures full_children_of_p2 { FullChildrenOfP2Law }
    ensures full_children_of_p4 { FullChildrenOfP4Law }
{}

/// Rows have a valid order exactly where their incompatibility graph has no closed walk of odd length (McConnell,
/// 2004).
pub fn order_law()
    ensures either { EitherLaw }
    ensures order { OrderLaw }
    ensures no_order { NoOrderLaw }
    ensures first_rows { FirstRowsLaw }
{}
