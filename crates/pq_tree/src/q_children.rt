//! Q-nodes in canonical form, made from children that are put one by one.

ghost use Rattle.std.specs.Prelude.{◌≡◌, ◌-◌, ◌++◌, [], ◌∷◌, map, length, slice_index, IfOk, OnOk, OnErr};
ghost use Rattle.pq_tree.specs.Outline.{q_node};
ghost use Rattle.pq_tree.specs.Proper.{outline_of, forest};
ghost use Rattle.pq_tree.specs.Equivalent.{IsEquivalent};
ghost use Rattle.pq_tree.specs.Canonical.{AreCanonicalIfTrees, leasts, least_of};
ghost use Rattle.pq_tree.specs.Propositions.{AreCanonicalIfTrees-prop};

use crate::arranged::Arranged;
use crate::{NoMemory, Tree};
use std::alloc::Global;

/// The children of a Q-node that is being made, from left to right, each in canonical form.
///
/// Of their least columns it keeps that of the first child, that of the last, and the least: 0 where there is no child.
#[derive(Drop)]
pub struct QChildren {
    trees: Vec<Tree>,
    first: u32,
    last: u32,
    least: u32,
    pub ghost canonical: { AreCanonicalIfTrees (forest (map outline_of trees.items)) } by { AreCanonicalIfTrees-prop _ },
    pub ghost is_first: { first ≡ slice_index (leasts (forest (map outline_of trees.items))) 0 },
    pub ghost is_last: { let ms = leasts (forest (map outline_of trees.items)) in last ≡ slice_index ms (length ms - 1) },
    pub ghost is_least: { least ≡ least_of (forest (map outline_of trees.items)) },
}

impl QChildren {
    ghost use Rattle.pq_tree.specs.Arranged.{outline_in, children_in};

    /// No child yet, with room for so many.
    ///
    /// # Errors
    ///
    /// `NoMemory` where the allocator has no room for them.
    pub fn with_capacity(alloc: Global, count: usize) -> Result<QChildren, NoMemory>
        ensures { IfOk result (λ q. children_in q ≡ []) }
    {
        Ok(QChildren {
            trees: Vec::with_capacity(alloc, count)?,
            first: 0,
            last: 0,
            least: 0,
        })
    }

    /// Puts a child behind the others.
    ///
    /// # Errors
    ///
    /// `NoMemory` where the allocator has no room for one more.
    pub fn push(&mut self, child: Arranged) -> Result<(), NoMemory>
        ensures ok { OnOk result (children_in self.new ≡ children_in self.old ++ outline_in child ∷ []) }
        ensures err { OnErr result (children_in self.new ≡ children_in self.old) }
    {
        let column = child.least_column;
        let (first, least) = if self.trees.is_empty() {
            (column, column)
        } else {
            (self.first, self.least.min(column))
        };
        self.trees.push(child.tree)?;
        self.first = first;
        self.last = column;
        self.least = least;
        Ok(())
    }

    /// The Q-node over the children, in canonical form: they are reversed where the least column of the last is below
    /// that of the first.
    pub fn into_q(self) -> Arranged
        ensures { IsEquivalent (q_node (forest (children_in self))) (outline_in result) }
    {
        let QChildren {
            mut trees,
            first,
            last,
            least,
        } = self;
        if last < first {
            trees.reverse();
        }
        Arranged {
            tree: Tree::Q(trees),
            least_column: least,
        }
    }
}
