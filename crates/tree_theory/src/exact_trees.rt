// The trees that are tied to rows are those whose frontiers are exactly the valid orders of the rows. That a tied tree
// has these frontiers is the law of `tied_trees`. Here is the other way: reducing the universal tree by the rows gives
// a tied tree with the same frontiers, and a proper tree differs from it by turns of its nodes alone (Booth and Lueker,
// 1976). The function here has no body of its own: its contract is the law.
ghost use Rattle.tree_theory.specs.ExactLaws.{ExactLaw};

use crate::canonical_trees::canonical_form_law;
use crate::laws::reduce_law;
use crate::tied_trees::{equivalent_law, leaves_law, tied_law, universal_law};

/// A proper tree whose frontiers are exactly the valid orders of some rows is tied to these rows.
pub fn exact_law()
    ensures { ExactLaw }
{
    canonical_form_law();
    reduce_law();
    equivalent_law();
    leaves_law();
    universal_law();
    tied_law();
}
