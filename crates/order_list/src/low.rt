// A tree with its first column.
ghost use Rattle.std.specs.Prelude.{◌≡◌};
ghost use Rattle.pq_tree.specs.Proper.{outline_of};
ghost use Rattle.order_list.specs.Low.{first_column, StandsLow};
ghost use Rattle.order_list.specs.Propositions.{StandsLow-prop};

use pq_tree::Tree;

/// A tree in which each part begins with the least column with which it can, and its first column.
#[derive(Drop)]
pub struct Low {
    pub tree: Tree,
    pub first: u32,
    pub ghost low: { StandsLow (outline_of tree) } by { StandsLow-prop (outline_of tree) },
    pub ghost is_first: { first ≡ first_column (outline_of tree) },
}
