// What stands around the gap between two neighbouring leaves of a tree.
ghost use Rattle.std.specs.Prelude.{◌≡◌, ◌+◌, ◌-◌, ◌<◌, ◌≤◌, ◌^◌, ◌++◌, length, map, slice_index, IfOk, OnOk};
ghost use Rattle.pq_tree.specs.Outline.{leaves, leaves_of};
ghost use Rattle.pq_tree.specs.PqTree.{column_count, outline};
ghost use Rattle.pq_tree.specs.Proper.{outline_of, forest};
ghost use Rattle.bound_tree.specs.Stretches.{stretches, stretches_of, starts, whole_stretches, near_stretches};

use pq_tree::{PqTree, Tree};
use row_model::NoMemory;
use std::alloc::Global;

/// The gap between the leaves at the positions `at - 1` and `at`, which part at a node, with the positions from `from`
/// to before `to`: those of all leaves of the node if it is a P-node, and of the two children with these leaves if it
/// is a Q-node. Positions count from 0.
#[derive(Clone, Copy)]
pub struct Stretch {
    /// The position behind the gap.
    pub at: u32,
    /// The first position of the stretch.
    pub from: u32,
    /// The position behind the stretch.
    pub to: u32,
}

/// The stretches of a tree, one for each gap, in one walk.
pub fn of_tree(alloc: Global, tree: &PqTree) -> Result<Vec<Stretch>, NoMemory>
    ensures { IfOk result (λ all. all.items ≡ stretches 0 (outline tree.now)) }
{
    let mut all = Vec::with_capacity(alloc, tree.columns() as usize)?;
    push_tree(alloc, tree.root(), 0, &mut all)?;
    Ok(all)
}

// Appends the stretches of a tree whose leaves begin at a position, and tells where they end.
#[cycle(push)]
fn push_tree(alloc: Global, tree: &Tree, from: u32, all: &mut Vec<Stretch>) -> Result<u32, NoMemory>
    requires { from + length (leaves (outline_of tree.now)) < 2 ^ 32 }
    ensures end { IfOk result (λ to. to ≡ from + length (leaves (outline_of tree.now))) }
    ensures all { OnOk result (all.new.items ≡ all.old.items ++ stretches from (outline_of tree.now)) }
{
    match tree {
        Tree::Leaf(_) => Ok(from + 1),
        Tree::P(children) => {
            let starts = push_trees(alloc, children, from, all)?;
            push_whole(&starts, all)?;
            Ok(starts[starts.len() - 1])
        }
        Tree::Q(children) => {
            let starts = push_trees(alloc, children, from, all)?;
            push_near(&starts, all)?;
            Ok(starts[starts.len() - 1])
        }
    }
}

// Appends the stretches of trees whose leaves begin at a position, and tells where each tree
// begins and the last one ends.
#[cycle(push)]
fn push_trees(
    alloc: Global,
    trees: &[Tree],
    from: u32,
    all: &mut Vec<Stretch>,
) -> Result<Vec<u32>, NoMemory>
    requires { from + length (leaves_of (forest (map outline_of trees.now))) < 2 ^ 32 }
    ensures starts { IfOk result (λ v. v.items ≡ starts from (forest (map outline_of trees.now))) }
    ensures all { OnOk result (all.new.items ≡ all.old.items ++ stretches_of from (forest (map outline_of trees.now))) }
{
    let mut starts = Vec::with_capacity(alloc, trees.len() + 1)?;
    let mut at = from;
    for tree in trees {
        starts.push(at)?;
        at = push_tree(alloc, tree, at, all)?;
    }
    starts.push(at)?;
    Ok(starts)
}

// Appends a stretch over all children of a node for each gap between two of them. They begin at these positions, and
// the last ends at the last of them.
fn push_whole(starts: &[u32], all: &mut Vec<Stretch>) -> Result<(), NoMemory>
    requires { 1 ≤ length starts.now }
    ensures { OnOk result (all.new.items ≡ all.old.items ++ whole_stretches starts.now) }
{
    let end = starts.len() - 1;
    for i in 1..end {
        all.push(Stretch {
            at: starts[i],
            from: starts[0],
            to: starts[end],
        })?;
    }
    Ok(())
}

// Appends a stretch over the two children next to it for each gap between two children of a node.
fn push_near(starts: &[u32], all: &mut Vec<Stretch>) -> Result<(), NoMemory>
    requires { 1 ≤ length starts.now }
    ensures { OnOk result (all.new.items ≡ all.old.items ++ near_stretches starts.now) }
{
    for i in 1..starts.len() - 1 {
        all.push(Stretch {
            at: starts[i],
            from: starts[i - 1],
            to: starts[i + 1],
        })?;
    }
    Ok(())
}
