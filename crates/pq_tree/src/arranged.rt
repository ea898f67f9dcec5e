//! Canonical trees with their least columns.

ghost use Rattle.std.specs.Prelude.{◌≡◌};
ghost use Rattle.pq_tree.specs.Proper.{outline_of};
ghost use Rattle.pq_tree.specs.Canonical.{CanonicalIfTree, least};
ghost use Rattle.pq_tree.specs.Propositions.{CanonicalIfTree-prop};

use crate::Tree;

/// A tree in canonical form, with its least column. It is made from its parts, a Q-node by `QChildren`.
#[derive(Drop)]
pub struct Arranged {
    pub(crate) tree: Tree,
    pub(crate) least_column: u32,
    pub ghost canonical: { CanonicalIfTree (outline_of tree) } by { CanonicalIfTree-prop (outline_of tree) },
    pub ghost is_least: { least_column ≡ least (outline_of tree) },
}
